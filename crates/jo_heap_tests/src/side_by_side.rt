// Two threads raise one counter, and mark which numbers it had.
ghost use Rattle.std.specs.Prelude.{◌≡◌};
ghost use Rattle.jo_model.specs.Heaps.{shared};
ghost use Rattle.jo_heap_tests.specs.Working.{MayCall, Stays};

use crate::asks::{Ask, Want, call, expect};
use crate::two_scripts::element;
use jo_heap::Closed;
use jo_model::Reply;
use jo_steps::{Heap, Pass};
use jo_value::{Key, NameId, ObjId, Value};
use std::process::Abort;
use std::sync::Wait;
use std::thread::{Threads, join_mut};

/// The counter, a name of the shared object.
pub(crate) const COUNTER: Key = Key::Name(NameId(3));

// What a call on the shared object finds.
fn found<R: Abort + Wait>(rt: &R, heap: &Heap, pass: &mut Pass, ask: Ask) -> Value
    requires may { MayCall heap.now shared pass.old }
    ensures may { MayCall heap.now shared pass.new }
    ensures stays { Stays pass.old.view pass.new.view }
{
    match call(rt, heap, pass, ObjId::SHARED, ask) {
        Reply::Found(value) => value,
        _ => panic!(rt; "nothing was found"),
    }
}

// Adds 1 to the counter, unless it was changed since it was read. The number that it had.
fn try_raise<R: Abort + Wait>(rt: &R, heap: &Heap, pass: &mut Pass) -> Option<i64>
    requires may { MayCall heap.now shared pass.old }
    ensures may { MayCall heap.now shared pass.new }
    ensures stays { Stays pass.old.view pass.new.view }
{
    let expected = found(rt, heap, pass, Ask::Get(COUNTER));
    let Value::Int(number) = expected else {
        panic!(rt; "the counter is no number")
    };
    let desired = Value::Int(number.wrapping_add(1));
    let swapped = found(rt, heap, pass, Ask::Cas(COUNTER, expected, desired));
    if swapped == expected {
        Some(number)
    } else {
        None
    }
}

// Puts a number under itself, where it is an index. The elements grow so.
fn mark<R: Abort + Wait>(rt: &R, heap: &Heap, pass: &mut Pass, number: i64)
    requires may { MayCall heap.now shared pass.old }
    ensures may { MayCall heap.now shared pass.new }
    ensures stays { Stays pass.old.view pass.new.view }
{
    if let Ok(key) = Key::of_int(number) {
        let put = (Ask::Put(key, Value::Int(number)), Want::Done);
        expect(rt, heap, pass, ObjId::SHARED, &[put]);
    }
}

// Adds 1, and marks each number, `times` times.
fn raise<R: Abort + Wait>(rt: &R, heap: &Heap, pass: &mut Pass, times: u32)
    requires may { MayCall heap.now shared pass.old }
    ensures may { MayCall heap.now shared pass.new }
    ensures stays { Stays pass.old.view pass.new.view }
{
    let mut left = times;
    for _ in rt.forever() {
        if left == 0 {
            return;
        }
        if let Some(number) = try_raise(rt, heap, pass) {
            mark(rt, heap, pass, number);
            left -= 1;
        }
    }
}

/// Adds 1 `times` times from each of two threads.
pub(crate) fn raise_both<R: Abort + Wait + Threads + Sync>(
    rt: &R,
    heap: &Heap,
    one: &mut Pass,
    two: &mut Pass,
    times: u32,
)
    requires may { MayCall heap.now shared one.old × MayCall heap.now shared two.old }
    ensures may { MayCall heap.now shared one.new × MayCall heap.now shared two.new }
    ensures stays { Stays one.old.view one.new.view × Stays two.old.view two.new.view }
{
    join_mut(
        rt,
        &mut || raise(rt, heap, one, times),
        &mut || raise(rt, heap, two, times),
    );
}

/// Each index has its number.
pub(crate) fn expect_marks(rt: &impl Abort, closed: &Closed)
    requires { closed.now.passes ≡ 3 }
{
    for index in 0..1_024 {
        let found = element(rt, closed, ObjId::SHARED, index);
        assert_eq!(rt; found, Some(Value::Int(i64::from(index))), "{index}");
    }
}
