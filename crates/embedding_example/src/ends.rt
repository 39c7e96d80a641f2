// A heap for two threads is opened and closed.
ghost use Rattle.std.specs.Prelude.{◌≡◌, [], IfOk};
ghost use Rattle.jo_model.specs.Heaps.{shared};
ghost use Rattle.jo_guard.specs.Ready.{IsReady};
ghost use Rattle.jo_heap.specs.Closing.{IsOneHistory};
ghost use Rattle.jo_heap.specs.Opening.{opened_view};
ghost use Rattle.jo_steps.specs.Views.{IsPassOf};
ghost use Rattle.embedding_example.specs.Working.{MayCall};

use jo_heap::{Closed, close, join, open_heap};
use jo_steps::{Heap, Pass};
use std::alloc::{AllocError, Global};

/// A heap, its first pass, and those of two threads.
#[derive(Drop)]
pub(crate) struct Opened {
    pub heap: Heap,
    pub first: Pass,
    pub one: Pass,
    pub two: Pass,
}

/// A new heap for two threads.
pub(crate) fn open_two(alloc: Global) -> Result<Opened, AllocError>
    ensures heap { IfOk result (λ opened. opened.heap.passes ≡ 3) }
    ensures first { IfOk result (λ opened. IsPassOf opened.heap opened.first × (opened.first.view ≡ opened_view 3 0)) }
    ensures one { IfOk result (λ opened. MayCall opened.heap shared opened.one × (opened.one.view.number ≡ 1) × (opened.one.view.kept ≡ [])) }
    ensures two { IfOk result (λ opened. MayCall opened.heap shared opened.two × (opened.two.view.number ≡ 2) × (opened.two.view.kept ≡ [])) }
{
    let (heap, mut passes) = open_heap(alloc, 2)?;
    let two = passes.remove(2);
    let one = passes.remove(1);
    let first = passes.remove(0);
    Ok(Opened {
        heap,
        first,
        one,
        two,
    })
}

/// The first pass joins the others, in any order, and the heap is closed. All calls make one legal history.
pub(crate) fn close_two(heap: Heap, first: Pass, one: Pass, two: Pass) -> Closed
    requires passes { heap.passes ≡ 3 }
    requires first { IsPassOf heap first × (first.view ≡ opened_view 3 0) }
    requires one { IsReady heap one × (one.view.number ≡ 1) × (one.view.kept ≡ []) }
    requires two { IsReady heap two × (two.view.number ≡ 2) × (two.view.kept ≡ []) }
    ensures passes { result.passes ≡ 3 }
    ensures history { IsOneHistory result }
{
    let mut first = first;
    join(&heap, &mut first, one);
    join(&heap, &mut first, two);
    close(heap, first)
}
