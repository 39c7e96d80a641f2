// One word of a block, by its number there.
ghost use Rattle.std.specs.Prelude.{◌≡◌, ◌<◌, ◌≤◌};
ghost use Rattle.jo_value.specs.declared.limits.TheConstants.{MOST_STORAGE};
ghost use Rattle.jo_rule.specs.Dictionaries.{block_size};
ghost use Rattle.jo_steps.specs.Views.{IsPassOf};
ghost use Rattle.jo_steps.specs.Holding.{HasLock, HoldsLock, IsHeldAt, lock_of};
ghost use Rattle.jo_dict.specs.Blocks.{OnlyBlock, OnlyCounts};
ghost use Rattle.jo_dict.specs.inner.Stored.{Fills, Stores, fresh_words, held_words};

use jo_layout::address_of;
use jo_steps::{Heap, Held, Pass};

// The number in the table of a word of the held block.
fn at_held(heap: &Heap, pass: &Pass, held: &Held, k: u32) -> u32
    requires held { HoldsLock heap.now.passes pass.now.view held.now }
    requires within { k < block_size (lock_of pass.now.view).room }
    ensures { IsHeldAt heap.now.passes pass.now.view k result }
{
    let _ = pass;
    heap.at_storage(held.cell().address + k)
}

/// Loads a word of the held block.
pub(crate) fn load_held(heap: &Heap, pass: &mut Pass, held: &Held, k: u32) -> u64
    requires held { HasLock heap.now pass.old held.now }
    requires within { k < block_size (lock_of pass.old.view).room }
    ensures held { HasLock heap.now pass.new held.now }
    ensures word { result ≡ held_words pass.old.view k }
    ensures only { OnlyCounts pass.old.view pass.new.view }
{
    let at = at_held(heap, pass, held, k);
    heap.load_own(pass, at)
}

/// Stores a word of the held block, but for its header.
pub(crate) fn store_held(heap: &Heap, pass: &mut Pass, held: &Held, k: u32, word: u64)
    requires held { HasLock heap.now pass.old held.now }
    requires within { (0 < k) × (k < block_size (lock_of pass.old.view).room) }
    ensures held { HasLock heap.now pass.new held.now }
    ensures words { Stores (held_words pass.old.view) k word (held_words pass.new.view) }
    ensures only { OnlyBlock pass.old.view pass.new.view }
{
    let at = at_held(heap, pass, held, k);
    heap.store_own(pass, at, word);
}

/// Loads a word of the pass's own storage, which no cell has named.
pub(crate) fn load_fresh(heap: &Heap, pass: &mut Pass, k: u32) -> u64
    requires pass { IsPassOf heap.now pass.old }
    requires nameless { pass.old.view.storage.named ≤ k }
    requires within { k < MOST_STORAGE }
    ensures pass { IsPassOf heap.now pass.new }
    ensures word { result ≡ fresh_words pass.old.view k }
    ensures only { OnlyCounts pass.old.view pass.new.view }
{
    let at = heap.at_storage(address_of(pass.number(), k));
    heap.load_own(pass, at)
}

/// Stores a word of the pass's own storage, which no cell has named.
pub(crate) fn store_fresh(heap: &Heap, pass: &mut Pass, k: u32, word: u64)
    requires pass { IsPassOf heap.now pass.old }
    requires nameless { pass.old.view.storage.named ≤ k }
    requires within { k < MOST_STORAGE }
    ensures pass { IsPassOf heap.now pass.new }
    ensures fills { Fills pass.old.view k word pass.new.view }
{
    let at = heap.at_storage(address_of(pass.number(), k));
    heap.store_own(pass, at, word);
}
