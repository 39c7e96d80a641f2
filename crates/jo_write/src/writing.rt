// Properties are put, deleted and swapped.
ghost use Rattle.std.specs.Prelude.{◌≡◌, ◌≢◌, ◌<◌, Err, IfErr, IfOk, length};
ghost use Rattle.jo_value.specs.declared.capacities.TheConstants.{CALLS_WITHIN_STORAGE};
ghost use Rattle.jo_value.specs.declared.words.slot.Slot.TheVariants.{Holds};
ghost use Rattle.jo_value.specs.Words.{IsSlot};
ghost use Rattle.jo_model.specs.Logs.{after};
ghost use Rattle.jo_model.specs.Objects.{property};
ghost use Rattle.jo_model.specs.One.{cas_in};
ghost use Rattle.jo_model.specs.Valid.{IsValidCall};
ghost use Rattle.jo_model.specs.declared.call.Call.TheVariants.{Cas, Delete, Put};
ghost use Rattle.jo_model.specs.declared.call.Reply.TheVariants as reply;
ghost use Rattle.jo_model.specs.declared.call.Spent.{Spent};
ghost use Rattle.jo_rule.specs.Dictionaries.{slot_in};
ghost use Rattle.jo_steps.specs.Holding.{HasBlockOf, HasLock, lock_of};
ghost use Rattle.jo_steps.specs.Views.{IsPassOf};
ghost use Rattle.jo_dict.specs.Blocks.{OnlyBlock};
ghost use Rattle.jo_guard.specs.Ready.{IsReady};
ghost use Rattle.jo_guard.specs.Placing.{HasPlaced};
ghost use Rattle.jo_write.specs.Answers.{IsPutFault, TakesStorage, delete_reply, put_reply};
ghost use Rattle.jo_write.specs.declared.faults.PutFault.TheVariants as put_fault;

use crate::PutFault;
use crate::rooms::block_with;
use jo_dict::{Place, add, find, locate, take_out};
use jo_guard::{release, release_moved, wait_for_lock};
use jo_model::{Call, Spent};
use jo_rule::Event;
use jo_steps::{Heap, Held, Pass};
use jo_value::{Key, ObjId, Slot, Value};
use std::sync::Wait;

/// Sets a property, which is added where it is not there.
pub fn put<R: Wait>(
    rt: &R,
    heap: &Heap,
    pass: &mut Pass,
    o: ObjId,
    key: Key,
    value: Value,
) -> Result<(), PutFault>
    requires ready { IsReady heap.now pass.old }
    requires valid { IsValidCall (after heap.now.passes pass.old.view.past.seen) (Put o key value) }
    ensures ready { IsReady heap.now pass.new }
    ensures placed { HasPlaced heap.now.passes (Put o key value) (put_reply result) pass.old.view pass.new.view }
    ensures done { IfOk result (λ _. TakesStorage heap.now.passes o key value pass.old.view pass.new.view) }
    ensures enough { length pass.old.view.past.calls < CALLS_WITHIN_STORAGE → (spent : Spent) → result ≢ Err (put_fault.Spent spent) }
    ensures refused { IfErr result (λ why. IsPutFault heap.now.passes o key pass.old.view pass.new.view why × (pass.new.view.storage ≡ pass.old.view.storage)) }
{
    let held = wait_for_lock(rt, heap, pass, o);
    let call = Call::Put {
        object: o,
        key,
        value,
    };
    match locate(heap, pass, &held, key) {
        Place::At(spot) => {
            add(heap, pass, &held, spot, value);
            release(heap, pass, held, Event::Place(call));
            Ok(())
        }
        Place::NoMoreNames => {
            release(heap, pass, held, Event::Place(call));
            Err(PutFault::TooManyNames)
        }
        Place::Beyond(index) => match block_with(heap, pass, &held, index, value) {
            Ok(address) => {
                release_moved(heap, pass, held, address, Event::Place(call));
                Ok(())
            }
            Err(spent) => {
                release(heap, pass, held, Event::Refuse(call, spent));
                Err(PutFault::Spent(spent))
            }
        },
    }
}

/// Takes a property out, where it is there.
pub fn delete<R: Wait>(
    rt: &R,
    heap: &Heap,
    pass: &mut Pass,
    o: ObjId,
    key: Key,
) -> Result<(), Spent>
    requires ready { IsReady heap.now pass.old }
    requires valid { IsValidCall (after heap.now.passes pass.old.view.past.seen) (Delete o key) }
    ensures ready { IsReady heap.now pass.new }
    ensures placed { HasPlaced heap.now.passes (Delete o key) (delete_reply result) pass.old.view pass.new.view }
    ensures done { result ≡ Ok tt }
    ensures storage { pass.new.view.storage ≡ pass.old.view.storage }
{
    let held = wait_for_lock(rt, heap, pass, o);
    let place = locate(heap, pass, &held, key);
    take_out(heap, pass, &held, place);
    release(
        heap,
        pass,
        held,
        Event::Place(Call::Delete { object: o, key }),
    );
    Ok(())
}

/// Replaces the value of a property by `desired` where it is there and strictly equal to `expected`. The answer is the value
/// that was found, undefined for none.
pub fn cas<R: Wait>(
    rt: &R,
    heap: &Heap,
    pass: &mut Pass,
    o: ObjId,
    key: Key,
    expected: Value,
    desired: Value,
) -> Value
    requires ready { IsReady heap.now pass.old }
    requires valid { IsValidCall (after heap.now.passes pass.old.view.past.seen) (Cas o key expected desired) }
    ensures ready { IsReady heap.now pass.new }
    ensures placed { HasPlaced heap.now.passes (Cas o key expected desired) (reply.Found result) pass.old.view pass.new.view }
    ensures storage { pass.new.view.storage ≡ pass.old.view.storage }
{
    let held = wait_for_lock(rt, heap, pass, o);
    let slot = swap(heap, pass, &held, key, expected, desired);
    let call = Call::Cas {
        object: o,
        key,
        expected,
        desired,
    };
    release(heap, pass, held, Event::Place(call));
    match slot {
        Slot::Holds(value) => value,
        Slot::Absent => Value::Undefined,
    }
}

// Puts a value into the held block where the expected one is there. The answer is what was there.
fn swap(
    heap: &Heap,
    pass: &mut Pass,
    held: &Held,
    key: Key,
    expected: Value,
    desired: Value,
) -> Slot
    requires held { HasLock heap.now pass.old held.now }
    requires block { HasBlockOf pass.old.view (lock_of pass.old.view).content }
    requires value { IsSlot (Holds desired) }
    ensures held { HasLock heap.now pass.new held.now }
    ensures found { result ≡ slot_in (property (lock_of pass.old.view).content key) }
    ensures block { HasBlockOf pass.new.view (cas_in (lock_of pass.old.view).content key expected desired).0 }
    ensures only { OnlyBlock pass.old.view pass.new.view }
{
    let place = locate(heap, pass, held, key);
    let slot = find(heap, pass, held, place);
    match place {
        Place::At(spot) => match slot {
            Slot::Holds(found) if found == expected => add(heap, pass, held, spot, desired),
            _ => {}
        },
        Place::NoMoreNames => {}
        Place::Beyond(_) => {}
    }
    slot
}
