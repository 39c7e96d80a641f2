// Words of the block of a lock.
ghost use Rattle.std.specs.Prelude.{◌≡◌, ◌<◌, slice_index};
ghost use Rattle.jo_rule.specs.Steps.{with_block_word};
ghost use Rattle.jo_steps.specs.Counting.{one_store};
ghost use Rattle.jo_steps.specs.Views.{IsPassOf};
ghost use Rattle.jo_steps.specs.Holding.{HoldsLock, IsHeldAt, lock_of};
ghost use Rattle.jo_steps_tests.specs.Sharing.{OnlyCounts};

use jo_steps::{Heap, Held, Pass};

// The number in the table of word k of the block, which has no fewer than 130.
fn at_held(heap: &Heap, pass: &Pass, held: &Held, k: u32) -> u32
    requires held { HoldsLock heap.now.passes pass.now.view held.now }
    requires within { k < 130 }
    ensures { IsHeldAt heap.now.passes pass.now.view k result }
{
    let _ = pass;
    heap.at_storage(held.cell().address + k)
}

// Loads word k of the block.
pub(crate) fn load_held(heap: &Heap, pass: &mut Pass, held: &Held, k: u32) -> u64
    requires pass { IsPassOf heap.now pass.old }
    requires held { HoldsLock heap.now.passes pass.old.view held.now }
    requires within { k < 130 }
    ensures pass { IsPassOf heap.now pass.new }
    ensures held { HoldsLock heap.now.passes pass.new.view held.now }
    ensures word { result ≡ slice_index (lock_of pass.old.view).block k }
    ensures only { OnlyCounts pass.old.view pass.new.view }
{
    let at = at_held(heap, pass, held, k);
    heap.load_own(pass, at)
}

// Stores it.
pub(crate) fn store_held(heap: &Heap, pass: &mut Pass, held: &Held, k: u32, word: u64)
    requires pass { IsPassOf heap.now pass.old }
    requires held { HoldsLock heap.now.passes pass.old.view held.now }
    requires within { (0 < k) × (k < 130) }
    ensures pass { IsPassOf heap.now pass.new }
    ensures held { HoldsLock heap.now.passes pass.new.view held.now }
    ensures view { pass.new.view ≡ with_block_word pass.old.view (lock_of pass.old.view) k word (one_store pass.old.view.counts) }
{
    let at = at_held(heap, pass, held, k);
    heap.store_own(pass, at, word);
}
