// Changes under the lock of an object.
ghost use Rattle.std.specs.Prelude.{◌≡◌};
ghost use Rattle.jo_value.specs.Words.{IsSlot};
ghost use Rattle.jo_value.specs.declared.words.slot.Slot.TheVariants.{Holds};
ghost use Rattle.jo_model.specs.Objects.{Object};
ghost use Rattle.jo_model.specs.One.{delete_in, put_in};
ghost use Rattle.jo_steps.specs.Holding.{HasBlockOf, HasLock};
ghost use Rattle.jo_dict.specs.Blocks.{OnlyBlock, OnlyCounts};
ghost use Rattle.jo_heap_tests.specs.Working.{MayCall, Stays};

use jo_dict::{Place, add, find, len, locate, take_out};
use jo_guard::{release, try_lock, wait_for_lock};
use jo_model::Call;
use jo_rule::Event;
use jo_steps::{Heap, Held, Pass};
use jo_value::{Key, NameId, ObjId, Slot, Value};
use std::process::Abort;
use std::sync::Wait;

// What the held block has for a key.
fn look(heap: &Heap, pass: &mut Pass, held: &Held, key: Key) -> Slot
    requires held { HasLock heap.now pass.old held.now }
    requires block { (z : Object) × HasBlockOf pass.old.view z }
    ensures held { HasLock heap.now pass.new held.now }
    ensures only { OnlyCounts pass.old.view pass.new.view }
{
    let place = locate(heap, pass, held, key);
    find(heap, pass, held, place)
}

// Puts a property into the held block, which has to have room for it.
fn place(rt: &impl Abort, heap: &Heap, pass: &mut Pass, held: &Held, key: Key, value: Value)
    requires held { HasLock heap.now pass.old held.now }
    requires block { (z : Object) × HasBlockOf pass.old.view z }
    requires value { IsSlot (Holds value) }
    ensures held { HasLock heap.now pass.new held.now }
    ensures block { (z : Object) → HasBlockOf pass.old.view z → HasBlockOf pass.new.view (put_in z key value).0 }
    ensures only { OnlyBlock pass.old.view pass.new.view }
{
    match locate(heap, pass, held, key) {
        Place::At(spot) => add(heap, pass, held, spot, value),
        Place::NoMoreNames => panic!(rt; "there is no room for a name"),
        Place::Beyond(_) => panic!(rt; "there is no room for an index"),
    }
}

// Takes a property out of it.
fn remove(heap: &Heap, pass: &mut Pass, held: &Held, key: Key)
    requires held { HasLock heap.now pass.old held.now }
    requires block { (z : Object) × HasBlockOf pass.old.view z }
    ensures held { HasLock heap.now pass.new held.now }
    ensures block { (z : Object) → HasBlockOf pass.old.view z → HasBlockOf pass.new.view (delete_in z key).0 }
    ensures only { OnlyBlock pass.old.view pass.new.view }
{
    let place = locate(heap, pass, held, key);
    take_out(heap, pass, held, place);
}

/// Puts a truth value under a name that is not there, and finds it.
pub(crate) fn put_held<R: Abort + Wait>(
    rt: &R,
    heap: &Heap,
    pass: &mut Pass,
    o: ObjId,
    name: NameId,
    flag: bool,
)
    requires may { MayCall heap.now o pass.old }
    ensures may { MayCall heap.now o pass.new }
    ensures stays { Stays pass.old.view pass.new.view }
{
    let (key, value) = (Key::Name(name), Value::Bool(flag));
    let held = wait_for_lock(rt, heap, pass, o);
    assert!(rt; look(heap, pass, &held, key) == Slot::Absent);
    assert!(rt; len(heap, pass, &held) < 64);
    place(rt, heap, pass, &held, key, value);
    assert!(rt; look(heap, pass, &held, key) == Slot::Holds(value));
    let put = Call::Put {
        object: o,
        key,
        value,
    };
    release(heap, pass, held, Event::Place(put));
}

/// Takes the name out again, and does not find it.
pub(crate) fn delete_held<R: Abort + Wait>(
    rt: &R,
    heap: &Heap,
    pass: &mut Pass,
    o: ObjId,
    name: NameId,
)
    requires may { MayCall heap.now o pass.old }
    ensures may { MayCall heap.now o pass.new }
    ensures stays { Stays pass.old.view pass.new.view }
{
    let key = Key::Name(name);
    let held = wait_for_lock(rt, heap, pass, o);
    remove(heap, pass, &held, key);
    assert!(rt; look(heap, pass, &held, key) == Slot::Absent);
    let delete = Call::Delete { object: o, key };
    release(heap, pass, held, Event::Place(delete));
}

/// Takes the lock of an object whose cell it has loaded, and releases it.
pub(crate) fn try_held(rt: &impl Abort, heap: &Heap, pass: &mut Pass, o: ObjId)
    requires may { MayCall heap.now o pass.old }
    ensures may { MayCall heap.now o pass.new }
    ensures stays { Stays pass.old.view pass.new.view }
{
    let seen = heap.load_cell(pass, o, Event::Nothing);
    match try_lock(heap, pass, o, seen) {
        Ok(held) => release(heap, pass, held, Event::Nothing),
        Err(_) => panic!(rt; "the lock was not free"),
    }
}
