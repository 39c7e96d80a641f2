// The words of a new heap.
ghost use Rattle.std.specs.Prelude.{◌≡◌, ◌<◌, ◌≤◌, IfOk};
ghost use Rattle.jo_value.specs.declared.capacities.TheConstants.{MOST_PASSES};
ghost use Rattle.jo_value.specs.Words.{cell_bits, node_bits};
ghost use Rattle.jo_rule.specs.Contents.{root_of};
ghost use Rattle.jo_rule.specs.Opening.{AreOpening, shared_cell};
ghost use Rattle.jo_rule.specs.Owned.{root_node};

use jo_layout::Layout;
use jo_value::{
    Cell, Change, DICTIONARY_NAMES, Header, Kind, MOST_STRUCTURES, NameId, Node, OUT, ObjId,
    SHARED_ADDRESS, Sid, cell_word, header_word, node_word,
};
use std::alloc::{AllocError, Global};

/// All words of it: few of them are not 0.
pub(crate) fn opening_words(alloc: Global, passes: u8) -> Result<Vec<u64>, AllocError>
    requires { (0 < passes) × (passes ≤ MOST_PASSES) }
    ensures { IfOk result (λ words. AreOpening passes words.items) }
{
    let layout = Layout { passes };
    let mut words = vec![in alloc; 0; layout.words_in_all() as usize]?;
    for pass in 0..passes {
        words[layout.acknowledgement(pass) as usize] = OUT;
        words[layout.node(root_of(pass)) as usize] = root_word();
    }
    words[layout.cell(ObjId::SHARED) as usize] = shared_word();
    words[layout.storage(SHARED_ADDRESS) as usize] = header_word(Header {
        names: DICTIONARY_NAMES,
        elements: 0,
    });
    Ok(words)
}

// The root of a pass.
fn root_of(pass: u8) -> Sid
    requires { pass < MOST_PASSES }
    ensures { result ≡ root_of pass }
{
    Sid(MOST_STRUCTURES * u16::from(pass))
}

// The word of the node of a root, which changes nothing.
fn root_word() -> u64
    ensures { result ≡ node_bits root_node }
{
    node_word(Node {
        parent: Sid(0),
        name: NameId(0),
        offset: 0,
        top: 0,
        depth: 0,
        change: Change::Add,
    })
}

// The word of the cell of the shared object, which is a dictionary.
fn shared_word() -> u64
    ensures { result ≡ cell_bits shared_cell }
{
    cell_word(Cell {
        sid: Sid(0),
        address: SHARED_ADDRESS,
        owner: 0,
        shared_write: false,
        locked: false,
        kind: Kind::Dictionary,
    })
}
