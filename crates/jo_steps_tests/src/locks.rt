// The lock of the shared object is taken, and released.
ghost use Rattle.std.specs.Prelude.{◌≡◌, [], IfSome, None};
ghost use Rattle.jo_steps.specs.Views.{IsPassOf};
ghost use Rattle.jo_steps.specs.Holding.{lock_of};
ghost use Rattle.jo_steps_tests.specs.Sharing.{HasShared, MayTake, Stays};

use crate::block_words::{load_held, store_held};
use crossbeam_utils::Backoff;
use jo_model::Call;
use jo_rule::Event;
use jo_steps::{Heap, Held, Pass};
use jo_value::{Key, NameId, ObjId, Slot, Value, slot_word};
use std::process::Abort;
use std::sync::Wait;

// Tries the lock once.
fn try_shared(heap: &Heap, pass: &mut Pass) -> Option<Held>
    requires pass { IsPassOf heap.now pass.old }
    requires may { MayTake heap.now.passes pass.old.view }
    ensures pass { IsPassOf heap.now pass.new }
    ensures stays { Stays pass.old.view pass.new.view }
    ensures taken { IfSome result (λ held. HasShared heap.now.passes pass.new.view held) }
    ensures lost { result ≡ None → MayTake heap.now.passes pass.new.view }
{
    let seen = heap.load_cell(pass, ObjId::SHARED, Event::Nothing);
    if seen.locked {
        return None;
    }
    match heap.lock_cell(pass, ObjId::SHARED, seen) {
        Ok(held) => Some(held),
        Err(_) => None,
    }
}

// Waits for it.
pub(crate) fn lock_shared<R: Wait>(rt: &R, heap: &Heap, pass: &mut Pass) -> Held
    requires pass { IsPassOf heap.now pass.old }
    requires may { MayTake heap.now.passes pass.old.view }
    ensures pass { IsPassOf heap.now pass.new }
    ensures stays { Stays pass.old.view pass.new.view }
    ensures held { HasShared heap.now.passes pass.new.view result }
{
    let backoff = Backoff::new();
    for _ in rt.forever() {
        if let Some(held) = try_shared(heap, pass) {
            return held;
        }
        backoff.snooze();
    }
    unreachable!()
}

// The block is a new one's: its header, and no names.
pub(crate) fn expect_empty(rt: &impl Abort, heap: &Heap, pass: &mut Pass, held: &Held)
    requires pass { IsPassOf heap.now pass.old }
    requires held { HasShared heap.now.passes pass.old.view held.now }
    ensures pass { IsPassOf heap.now pass.new }
    ensures stays { Stays pass.old.view pass.new.view }
    ensures held { HasShared heap.now.passes pass.new.view held.now }
    ensures empty { (lock_of pass.new.view).content.names ≡ [] }
{
    let header = load_held(heap, pass, held, 0);
    let count = load_held(heap, pass, held, 1);
    assert!(rt; header == 64);
    assert!(rt; count == 0);
}

// Puts 5 under the name 7, and releases the lock.
pub(crate) fn put_five(heap: &Heap, pass: &mut Pass, held: Held)
    requires pass { IsPassOf heap.now pass.old }
    requires held { HasShared heap.now.passes pass.old.view held }
    requires empty { (lock_of pass.old.view).content.names ≡ [] }
    ensures pass { IsPassOf heap.now pass.new }
    ensures stays { Stays pass.old.view pass.new.view }
    ensures unlocked { pass.new.view.lock ≡ None }
{
    let value = Value::Int(5);
    store_held(heap, pass, &held, 2, 7);
    store_held(heap, pass, &held, 3, slot_word(Slot::Holds(value)));
    store_held(heap, pass, &held, 1, 1);
    let call = Call::Put {
        object: ObjId::SHARED,
        key: Key::Name(NameId(7)),
        value,
    };
    let next = held.cell();
    heap.release(pass, held, next, Event::Place(call));
}

// Adds 1 to the last word of the block, which is no property's.
pub(crate) fn count_up(heap: &Heap, pass: &mut Pass, held: &Held)
    requires pass { IsPassOf heap.now pass.old }
    requires held { HasShared heap.now.passes pass.old.view held.now }
    requires empty { (lock_of pass.old.view).content.names ≡ [] }
    ensures pass { IsPassOf heap.now pass.new }
    ensures stays { Stays pass.old.view pass.new.view }
    ensures held { HasShared heap.now.passes pass.new.view held.now }
{
    let count = load_held(heap, pass, held, 129);
    store_held(heap, pass, held, 129, count.wrapping_add(1));
}

// Releases the lock without a call.
pub(crate) fn leave_shared(heap: &Heap, pass: &mut Pass, held: Held)
    requires pass { IsPassOf heap.now pass.old }
    requires held { HasShared heap.now.passes pass.old.view held }
    ensures pass { IsPassOf heap.now pass.new }
    ensures stays { Stays pass.old.view pass.new.view }
    ensures may { MayTake heap.now.passes pass.new.view }
{
    let next = held.cell();
    heap.release(pass, held, next, Event::Nothing);
}
