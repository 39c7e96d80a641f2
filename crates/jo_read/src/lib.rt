//! Calls that read: a property, whether it is there, and the names of an object.
#![tactic(auto)]

ghost use Rattle.std.specs.Prelude.{◌≡◌};
ghost use Rattle.jo_model.specs.Logs.{after};
ghost use Rattle.jo_model.specs.Valid.{IsValidCall};
ghost use Rattle.jo_model.specs.declared.call.Call.TheVariants.{Get, Has, Names};
ghost use Rattle.jo_model.specs.declared.call.Reply.TheVariants as reply;
ghost use Rattle.jo_model.specs.Objects.{Object, property};
ghost use Rattle.jo_rule.specs.Dictionaries.{slot_in};
ghost use Rattle.jo_steps.specs.Holding.{HasBlockOf, HasLock};
ghost use Rattle.jo_dict.specs.Blocks.{OnlyCounts};
ghost use Rattle.jo_guard.specs.Ready.{IsReady};
ghost use Rattle.jo_guard.specs.Placing.{HasPlaced};

use jo_dict::{find, locate};
use jo_guard::{release, wait_for_lock};
use jo_model::{Call, NameList};
use jo_rule::Event;
use jo_steps::{Heap, Held, Pass};
use jo_value::{Key, ObjId, Slot, Value};
use std::sync::Wait;

/// The value of a property, undefined where it is not there.
pub fn get<R: Wait>(rt: &R, heap: &Heap, pass: &mut Pass, o: ObjId, key: Key) -> Value
    requires ready { IsReady heap.now pass.old }
    requires valid { IsValidCall (after heap.now.passes pass.old.view.past.seen) (Get o key) }
    ensures ready { IsReady heap.now pass.new }
    ensures placed { HasPlaced heap.now.passes (Get o key) (reply.Found result) pass.old.view pass.new.view }
    ensures storage { pass.new.view.storage ≡ pass.old.view.storage }
{
    let held = wait_for_lock(rt, heap, pass, o);
    let slot = look(heap, pass, &held, key);
    release(heap, pass, held, Event::Place(Call::Get { object: o, key }));
    match slot {
        Slot::Holds(value) => value,
        Slot::Absent => Value::Undefined,
    }
}

/// Whether a property is there.
pub fn has<R: Wait>(rt: &R, heap: &Heap, pass: &mut Pass, o: ObjId, key: Key) -> bool
    requires ready { IsReady heap.now pass.old }
    requires valid { IsValidCall (after heap.now.passes pass.old.view.past.seen) (Has o key) }
    ensures ready { IsReady heap.now pass.new }
    ensures placed { HasPlaced heap.now.passes (Has o key) (reply.Flag result) pass.old.view pass.new.view }
    ensures storage { pass.new.view.storage ≡ pass.old.view.storage }
{
    let held = wait_for_lock(rt, heap, pass, o);
    let slot = look(heap, pass, &held, key);
    release(heap, pass, held, Event::Place(Call::Has { object: o, key }));
    match slot {
        Slot::Holds(_) => true,
        Slot::Absent => false,
    }
}

/// The names of an object at one moment, in order of creation.
pub fn names<R: Wait>(rt: &R, heap: &Heap, pass: &mut Pass, o: ObjId) -> NameList
    requires ready { IsReady heap.now pass.old }
    requires valid { IsValidCall (after heap.now.passes pass.old.view.past.seen) (Names o) }
    ensures ready { IsReady heap.now pass.new }
    ensures placed { HasPlaced heap.now.passes (Names o) (reply.Names result) pass.old.view pass.new.view }
    ensures storage { pass.new.view.storage ≡ pass.old.view.storage }
{
    let held = wait_for_lock(rt, heap, pass, o);
    let names = jo_dict::names(heap, pass, &held);
    release(heap, pass, held, Event::Place(Call::Names { object: o }));
    names
}

// What the held block has for a key.
fn look(heap: &Heap, pass: &mut Pass, held: &Held, key: Key) -> Slot
    requires held { HasLock heap.now pass.old held.now }
    requires block { (z : Object) × HasBlockOf pass.old.view z }
    ensures held { HasLock heap.now pass.new held.now }
    ensures found { (z : Object) → HasBlockOf pass.old.view z → result ≡ slot_in (property z key) }
    ensures only { OnlyCounts pass.old.view pass.new.view }
{
    let place = locate(heap, pass, held, key);
    find(heap, pass, held, place)
}
