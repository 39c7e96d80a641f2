// New blocks.
ghost use Rattle.std.specs.Prelude.{◌≡◌, ◌+◌, ◌<◌, ◌≤◌, IfErr, IfOk};
ghost use Rattle.jo_value.specs.declared.limits.TheConstants.{MOST_INDEX, MOST_STORAGE};
ghost use Rattle.jo_model.specs.Objects.{Object, empty_object};
ghost use Rattle.jo_rule.specs.Dictionaries.{block_size};
ghost use Rattle.jo_steps.specs.Views.{IsPassOf};
ghost use Rattle.jo_steps.specs.Holding.{HasBlockOf, HasLock, lock_of};
ghost use Rattle.jo_dict.specs.Blocks.{IsMade, IsTooMuch, OnlyStorage};
ghost use Rattle.jo_dict.specs.inner.Stored.{Copies, fresh_words, held_words};

use crate::finding::room;
use crate::words::{load_held, store_fresh};
use jo_layout::{address_of, element_at};
use jo_model::Spent;
use jo_steps::{Heap, Held, Pass};
use jo_value::{DICTIONARY_NAMES, Header, MOST_STORAGE, header_word};

/// A new block of the pass's own storage, with room for `elements` elements and without properties, which no cell
/// names yet.
pub fn empty_block(heap: &Heap, pass: &mut Pass, elements: u16) -> Result<u32, Spent>
    requires pass { IsPassOf heap.now pass.old }
    requires elements { elements ≤ MOST_INDEX + 1 }
    ensures pass { IsPassOf heap.now pass.new }
    ensures made { IfOk result (IsMade pass.old.view pass.new.view elements empty_object) }
    ensures spent { IfErr result (λ spent. IsTooMuch pass.old.view elements spent × (pass.new ≡ pass.old)) }
{
    let used = pass.used();
    let need = element_at(elements);
    if need > MOST_STORAGE - used {
        return Err(Spent { used, need });
    }
    let header = Header {
        names: DICTIONARY_NAMES,
        elements,
    };
    store_fresh(heap, pass, used, header_word(header));
    store_fresh(heap, pass, used + need - 1, 0);
    Ok(address_of(pass.number(), used))
}

/// A new block of the pass's own storage, with room for `elements` elements and with the properties that the held
/// block has, which no cell names yet.
pub fn block_of(heap: &Heap, pass: &mut Pass, held: &Held, elements: u16) -> Result<u32, Spent>
    requires held { HasLock heap.now pass.old held.now }
    requires block { (z : Object) × HasBlockOf pass.old.view z }
    requires elements { ((lock_of pass.old.view).room ≤ elements) × (elements ≤ MOST_INDEX + 1) }
    ensures held { HasLock heap.now pass.new held.now }
    ensures made { IfOk result (λ address. (z : Object) → HasBlockOf pass.old.view z → IsMade pass.old.view pass.new.view elements z address) }
    ensures spent { IfErr result (λ spent. IsTooMuch pass.old.view elements spent × (pass.new ≡ pass.old)) }
{
    let first = pass.used();
    let address = empty_block(heap, pass, elements)?;
    let size = element_at(room(heap, pass, held));
    copy_words(heap, pass, held, first, size);
    Ok(address)
}

// Copies the words of the held block behind its header to a new block, which begins at a word of the own storage.
fn copy_words(heap: &Heap, pass: &mut Pass, held: &Held, first: u32, size: u32)
    requires held { HasLock heap.now pass.old held.now }
    requires size { size ≡ block_size (lock_of pass.old.view).room }
    requires nameless { pass.old.view.storage.named ≤ first }
    requires used { first + size ≤ pass.old.view.storage.used }
    ensures held { HasLock heap.now pass.new held.now }
    ensures copies { Copies (held_words pass.old.view) first size (fresh_words pass.old.view) (fresh_words pass.new.view) }
    ensures used { pass.new.view.storage.used ≡ pass.old.view.storage.used }
    ensures named { pass.new.view.storage.named ≡ pass.old.view.storage.named }
    ensures only { OnlyStorage pass.old.view pass.new.view }
{
    for k in 1..size {
        let word = load_held(heap, pass, held, k);
        store_fresh(heap, pass, first + k, word);
    }
}
