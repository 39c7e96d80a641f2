// Two passes take turns.
ghost use Rattle.jo_steps.specs.Views.{IsPassOf};
ghost use Rattle.jo_steps_tests.specs.Sharing.{MayTake, Stays};

use crate::locks::{count_up, expect_empty, leave_shared, lock_shared};
use jo_steps::{Heap, Pass};
use std::process::Abort;
use std::sync::Wait;
use std::thread::{Threads, join_mut};

// One turn of a pass.
fn take_turn<R: Abort + Wait>(rt: &R, heap: &Heap, pass: &mut Pass)
    requires pass { IsPassOf heap.now pass.old }
    requires may { MayTake heap.now.passes pass.old.view }
    ensures pass { IsPassOf heap.now pass.new }
    ensures stays { Stays pass.old.view pass.new.view }
    ensures may { MayTake heap.now.passes pass.new.view }
{
    let held = lock_shared(rt, heap, pass);
    expect_empty(rt, heap, pass, &held);
    count_up(heap, pass, &held);
    leave_shared(heap, pass, held);
}

// Takes `turns` turns.
fn take_turns<R: Abort + Wait>(rt: &R, heap: &Heap, pass: &mut Pass, turns: u32)
    requires pass { IsPassOf heap.now pass.old }
    requires may { MayTake heap.now.passes pass.old.view }
    ensures pass { IsPassOf heap.now pass.new }
    ensures stays { Stays pass.old.view pass.new.view }
    ensures may { MayTake heap.now.passes pass.new.view }
{
    for _ in 0..turns {
        take_turn(rt, heap, pass);
    }
}

// Takes `turns` turns of each, side by side.
pub(crate) fn take_turns_both<R: Abort + Wait + Threads + Sync>(
    rt: &R,
    heap: &Heap,
    one: &mut Pass,
    other: &mut Pass,
    turns: u32,
)
    requires passes { IsPassOf heap.now one.old × IsPassOf heap.now other.old }
    requires may { MayTake heap.now.passes one.old.view × MayTake heap.now.passes other.old.view }
    ensures passes { IsPassOf heap.now one.new × IsPassOf heap.now other.new }
    ensures stays { Stays one.old.view one.new.view × Stays other.old.view other.new.view }
    ensures may { MayTake heap.now.passes one.new.view × MayTake heap.now.passes other.new.view }
{
    join_mut(
        rt,
        &mut || take_turns(rt, heap, one, turns),
        &mut || take_turns(rt, heap, other, turns),
    );
}
