// A block of the own storage is filled, which no cell names yet.
ghost use Rattle.std.specs.Prelude.{◌≡◌, ◌≢◌, ◌⊎◌, ℕ, ◌+◌, ◌<◌, ◌≤◌};
ghost use Rattle.jo_value.specs.declared.capacities.TheConstants.{DICTIONARY_NEED};
ghost use Rattle.jo_value.specs.declared.value.Key.TheVariants.{Index, Name};
ghost use Rattle.jo_value.specs.Words.{IsSlot};
ghost use Rattle.jo_value.specs.declared.words.slot.Slot.TheVariants.{Holds};
ghost use Rattle.jo_model.specs.Objects.{Object};
ghost use Rattle.jo_model.specs.One.{put_in};
ghost use Rattle.jo_rule.specs.Views.{word_in};
ghost use Rattle.jo_rule.specs.Dictionaries.{block_size};
ghost use Rattle.jo_rule.specs.Owned.{address_of};
ghost use Rattle.jo_rule.specs.Steps.{IsFilled};
ghost use Rattle.jo_steps.specs.Views.{IsPassOf};
ghost use Rattle.jo_dict.specs.Blocks.{HasBlockToFill, MayAppend, OnlyCounts, OnlyStorage};
ghost use Rattle.jo_dict.specs.inner.Stored.{HasFreshBlock, IsWordOfBlock, KeepsArea, Stores, block_words, fresh_words};

use crate::words::{load_fresh, store_fresh};
use jo_layout::{COUNT, address_of, element_at, name_at, value_at};
use jo_steps::{Heap, Pass};
use jo_value::{Key, NameId, Slot, Value, slot_word};

/// Puts a property into a block of the own storage that no cell names yet: a name that is not there goes behind the others,
/// without a search. The block has room for it.
pub fn fill(heap: &Heap, pass: &mut Pass, address: u32, key: Key, value: Value)
    requires pass { IsPassOf heap.now pass.old }
    requires block { HasBlockToFill pass.old.view address key }
    requires value { IsSlot (Holds value) }
    ensures pass { IsPassOf heap.now pass.new }
    ensures block { (k elements : ℕ) (z : Object) → address ≡ address_of pass.old.view.number k → IsFilled pass.old.view.storage k elements z → MayAppend elements z key → IsFilled pass.new.view.storage k elements (put_in z key value).0 }
    ensures others { (k elements j : ℕ) (z : Object) → address ≡ address_of pass.old.view.number k → IsFilled pass.old.view.storage k elements z
        → (j < k) ⊎ (k + block_size elements ≤ j) → word_in pass.new.view.storage.fresh j ≡ word_in pass.old.view.storage.fresh j }
    ensures used { pass.new.view.storage.used ≡ pass.old.view.storage.used }
    ensures named { pass.new.view.storage.named ≡ pass.old.view.storage.named }
    ensures only { OnlyStorage pass.old.view pass.new.view }
{
    let first = address - address_of(pass.number(), 0);
    match key {
        Key::Name(name) => fill_name(heap, pass, first, name, value),
        Key::Index(index) => fill_element(heap, pass, first, index, value),
    }
}

// The same for a name, in the block that begins at this word of the own storage.
fn fill_name(heap: &Heap, pass: &mut Pass, first: u32, name: NameId, value: Value)
    requires pass { IsPassOf heap.now pass.old }
    requires block { HasFreshBlock pass.old.view first (Name name) }
    requires value { IsSlot (Holds value) }
    ensures pass { IsPassOf heap.now pass.new }
    ensures block { (elements : ℕ) (z : Object) → IsFilled pass.old.view.storage first elements z → MayAppend elements z (Name name) → IsFilled pass.new.view.storage first elements (put_in z (Name name) value).0 }
    ensures others { (j : ℕ) → (j < first) ⊎ (first + DICTIONARY_NEED ≤ j) → fresh_words pass.new.view j ≡ fresh_words pass.old.view j }
    ensures area { KeepsArea pass.old.view pass.new.view }
{
    let names = load_word(heap, pass, first, COUNT) as u8;
    let word = slot_word(Slot::Holds(value));
    store_word(heap, pass, first, value_at(names), word);
    store_word(heap, pass, first, name_at(names), u64::from(name.0));
    store_word(heap, pass, first, COUNT, u64::from(names) + 1);
}

// The same for an index.
fn fill_element(heap: &Heap, pass: &mut Pass, first: u32, index: u16, value: Value)
    requires pass { IsPassOf heap.now pass.old }
    requires block { HasFreshBlock pass.old.view first (Index index) }
    requires value { IsSlot (Holds value) }
    ensures pass { IsPassOf heap.now pass.new }
    ensures block { (elements : ℕ) (z : Object) → IsFilled pass.old.view.storage first elements z → IsFilled pass.new.view.storage first elements (put_in z (Index index) value).0 }
    ensures others { (j : ℕ) → j ≢ first + (DICTIONARY_NEED + index) → fresh_words pass.new.view j ≡ fresh_words pass.old.view j }
    ensures area { KeepsArea pass.old.view pass.new.view }
{
    let word = slot_word(Slot::Holds(value));
    store_word(heap, pass, first, element_at(index), word);
}

// Loads a word of the block.
fn load_word(heap: &Heap, pass: &mut Pass, first: u32, k: u32) -> u64
    requires pass { IsPassOf heap.now pass.old }
    requires word { IsWordOfBlock pass.old.view first k }
    ensures pass { IsPassOf heap.now pass.new }
    ensures word { result ≡ block_words pass.old.view first k }
    ensures only { OnlyCounts pass.old.view pass.new.view }
{
    load_fresh(heap, pass, first + k)
}

// Stores a word of the block.
fn store_word(heap: &Heap, pass: &mut Pass, first: u32, k: u32, word: u64)
    requires pass { IsPassOf heap.now pass.old }
    requires word { IsWordOfBlock pass.old.view first k }
    ensures pass { IsPassOf heap.now pass.new }
    ensures words { Stores (block_words pass.old.view first) k word (block_words pass.new.view first) }
    ensures others { (j : ℕ) → j ≢ first + k → fresh_words pass.new.view j ≡ fresh_words pass.old.view j }
    ensures area { KeepsArea pass.old.view pass.new.view }
{
    store_fresh(heap, pass, first + k, word);
}
