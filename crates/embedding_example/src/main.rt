//! Two threads over one heap. Each makes an object, makes each call on it, shares it, and adds 1 to a counter.
#![tactic(auto)]

ghost use Rattle.embedding_example.specs.Working.{MayWork, Stays};

mod ends;
mod printing;
mod worker;

use ends::{Opened, close_two, open_two};
use jo_steps::Heap;
use printing::{print_heap, print_seen};
use std::io;
use std::sync::Wait;
use std::thread::{Threads, join_mut};
use worker::{Worker, start_counter};

// Each worker works in a thread of its own. The answers are whether each was refused nothing.
fn work_both<R: Wait + Threads + Sync>(
    rt: &R,
    heap: &Heap,
    one: &mut Worker,
    two: &mut Worker,
) -> (bool, bool)
    requires may { MayWork heap.now one.old × MayWork heap.now two.old }
    ensures may { MayWork heap.now one.new × MayWork heap.now two.new }
    ensures stays { Stays one.old.pass.view one.new.pass.view × Stays two.old.pass.view two.new.pass.view }
{
    join_mut(rt, &mut || one.work(rt, heap), &mut || two.work(rt, heap))
}

fn main(rt: HostRuntime) -> io::Result<()> {
    let Opened {
        heap,
        first,
        one,
        two,
    } = open_two(rt.alloc())?;
    let (mut one, mut two) = (Worker::new(one), Worker::new(two));
    let started = start_counter(&rt, &heap, &mut one);
    let done = work_both(&rt, &heap, &mut one, &mut two);
    println!(rt; "{} {} {}", started, done.0, done.1)?;
    print_seen(&rt, one.seen)?;
    print_seen(&rt, two.seen)?;
    let closed = close_two(heap, first, one.pass, two.pass);
    print_heap(&rt, &closed)
}
