// The words with which a heap is opened.
ghost use Rattle.std.specs.Prelude.{◌≡◌, ◌<◌, ◌≤◌, ℕ, IfOk, All, length, vec_len, nat_eq, if◌then◌else◌};
ghost use Rattle.jo_value.specs.declared.capacities.TheConstants.{MOST_PASSES, MOST_STRUCTURES, STAMP_WORDS, SHARED_ADDRESS};
ghost use Rattle.jo_value.specs.Words.{cell_bits, node_bits};
ghost use Rattle.jo_rule.specs.Dictionaries.{dictionary_header};
ghost use Rattle.jo_rule.specs.Names.{among_structures, among_objects, storage, word_numbered, words_in_all};
ghost use Rattle.jo_rule.specs.Opening.{AreOpening, opening_word, shared_cell};
ghost use Rattle.jo_rule.specs.Owned.{root_node};

use jo_layout::Layout;
use jo_value::{
    Cell, Change, DICTIONARY_NAMES, Header, Kind, MOST_STRUCTURES, NameId, Node, OUT,
    SHARED_ADDRESS, STAMP_WORDS, STRUCTURE_WORDS, Sid, VALID, cell_word, header_word, node_word,
};
use std::alloc::{AllocError, Global};

fn root_word() -> u64
    ensures { result ≡ node_bits root_node }
{
    node_word(Node {
        parent: Sid(0),
        name: NameId(0),
        offset: 0,
        top: 0,
        depth: 0,
        change: Change::Add,
    })
}

fn shared_word() -> u64
    ensures { result ≡ cell_bits shared_cell }
{
    cell_word(Cell {
        sid: Sid(0),
        address: SHARED_ADDRESS,
        owner: 0,
        shared_write: false,
        locked: false,
        kind: Kind::Dictionary,
    })
}

fn block_word() -> u64
    ensures { result ≡ dictionary_header 0 }
{
    header_word(Header {
        names: DICTIONARY_NAMES,
        elements: 0,
    })
}

// Word i of the structures: each pass has its root, and no set was fired.
fn structure_word(i: u32) -> u64
    ensures { result ≡ opening_word (among_structures i) }
{
    let structure = i / STRUCTURE_WORDS as u32;
    let j = i % STRUCTURE_WORDS as u32;
    if j == 0 {
        if structure % u32::from(MOST_STRUCTURES) == 0 {
            root_word()
        } else {
            0
        }
    } else if j == 1 {
        0
    } else if j == 2 {
        0
    } else {
        VALID
    }
}

// Word i of the objects: there is the shared one.
fn object_word(i: u32) -> u64
    ensures { result ≡ opening_word (among_objects i) }
{
    if i == 0 { shared_word() } else { 0 }
}

// Word i of storage: there is the header of the shared object's block.
fn storage_word(i: u32) -> u64
    ensures { result ≡ opening_word (storage i) }
{
    if i == SHARED_ADDRESS { block_word() } else { 0 }
}

// The word with this number.
fn opening_word_at(passes: u8, at: u32) -> u64
    requires { passes ≤ MOST_PASSES }
    ensures { result ≡ opening_word (word_numbered passes at) }
{
    let layout = Layout { passes };
    if at == 0 {
        0
    } else if at < layout.structures_at() {
        OUT
    } else if at < layout.objects_at() {
        structure_word(at - layout.structures_at())
    } else if at < layout.storage_at() {
        object_word(at - layout.objects_at())
    } else {
        storage_word(at - layout.storage_at())
    }
}

/// The words of a heap of `passes` passes, at its start.
pub(crate) fn opening_words(alloc: Global, passes: u8) -> Result<Vec<u64>, AllocError>
    requires { passes ≤ MOST_PASSES }
    ensures { IfOk result (λ words. AreOpening passes words.items) }
{
    let all = Layout { passes }.words_in_all();
    let mut words = Vec::with_capacity(alloc, all as usize)?;
    for at in 0..all {
        words.push(opening_word_at(passes, at))?;
    }
    Ok(words)
}

/// The stamps of a pass that has given no offset back.
pub(crate) fn no_stamps(alloc: Global) -> Result<Vec<u64>, AllocError>
    ensures len { IfOk result (λ stamps. vec_len stamps ≡ STAMP_WORDS) }
    ensures zero { IfOk result (λ stamps. All (λ (stamp : ℕ). stamp ≡ 0) stamps.items) }
{
    let mut stamps = Vec::with_capacity(alloc, STAMP_WORDS)?;
    for _at in 0..STAMP_WORDS {
        stamps.push(0)?;
    }
    Ok(stamps)
}
