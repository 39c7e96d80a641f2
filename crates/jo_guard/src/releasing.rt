// Locks are released.
ghost use Rattle.jo_rule.specs.Events.{object_after_event};
ghost use Rattle.jo_rule.specs.Steps.{MayRelease};
ghost use Rattle.jo_steps.specs.Views.{IsPassOf};
ghost use Rattle.jo_steps.specs.Holding.{HasBlockOf, HoldsLock, lock_of};
ghost use Rattle.jo_guard.specs.Releasing.{HasReleased, HasMoved, IsNewBlock};

use jo_rule::Event;
use jo_steps::{Heap, Held, Pass};
use jo_value::Cell;

/// Releases a lock with an event, which places a call. The held block has what the event leaves.
pub fn release(heap: &Heap, pass: &mut Pass, held: Held, event: Event)
    requires pass { IsPassOf heap.now pass.old }
    requires held { HoldsLock heap.now.passes pass.old.view held }
    requires event { MayRelease heap.now.passes pass.old.view (lock_of pass.old.view) event }
    requires block { HasBlockOf pass.old.view (object_after_event event (lock_of pass.old.view).content) }
    ensures pass { IsPassOf heap.now pass.new }
    ensures view { HasReleased heap.now.passes event pass.old.view.storage pass.old.view pass.new.view }
{
    let cell = held.cell();
    heap.release(pass, held, cell, event);
}

/// Releases a lock with an event, which places a call. The object has a new block from then on, at this address of the
/// own storage, which has what the event leaves.
pub fn release_moved(heap: &Heap, pass: &mut Pass, held: Held, address: u32, event: Event)
    requires pass { IsPassOf heap.now pass.old }
    requires held { HoldsLock heap.now.passes pass.old.view held }
    requires event { MayRelease heap.now.passes pass.old.view (lock_of pass.old.view) event }
    requires block { IsNewBlock pass.old.view address (object_after_event event (lock_of pass.old.view).content) }
    ensures pass { IsPassOf heap.now pass.new }
    ensures view { HasMoved heap.now.passes event address pass.old.view pass.new.view }
{
    let next = Cell {
        address,
        ..held.cell()
    };
    heap.release(pass, held, next, event);
}
