// A heap of two scripts is opened and closed.
ghost use Rattle.std.specs.Prelude.{◌≡◌, ◌<◌, [], IfOk, IsTrue};
ghost use Rattle.jo_model.specs.Heaps.{IsBorn, shared};
ghost use Rattle.jo_guard.specs.Ready.{IsReady};
ghost use Rattle.jo_heap.specs.Closing.{heap_left};
ghost use Rattle.jo_heap.specs.Opening.{opened_view};
ghost use Rattle.jo_steps.specs.Views.{IsPassOf};
ghost use Rattle.jo_heap_tests.specs.Working.{MayCall};

use jo_heap::{Closed, close, join, open_heap};
use jo_steps::{Heap, Pass};
use jo_value::{NameId, ObjId, Value};
use std::alloc::{AllocError, Global};
use std::process::Abort;

/// A heap, its first pass, and the passes of two scripts.
#[derive(Drop)]
pub(crate) struct Opened {
    pub heap: Heap,
    pub first: Pass,
    pub one: Pass,
    pub two: Pass,
}

/// A new heap of two scripts.
pub(crate) fn open_two(alloc: Global) -> Result<Opened, AllocError>
    ensures heap { IfOk result (λ opened. opened.heap.passes ≡ 3) }
    ensures first { IfOk result (λ opened. IsPassOf opened.heap opened.first × (opened.first.view ≡ opened_view 3 0)) }
    ensures one { IfOk result (λ opened. MayCall opened.heap shared opened.one × (opened.one.view.number ≡ 1) × (opened.one.view.kept ≡ [])) }
    ensures two { IfOk result (λ opened. MayCall opened.heap shared opened.two × (opened.two.view.number ≡ 2) × (opened.two.view.kept ≡ [])) }
{
    let (heap, mut passes) = open_heap(alloc, 2)?;
    let two = passes.remove(2);
    let one = passes.remove(1);
    let first = passes.remove(0);
    Ok(Opened {
        heap,
        first,
        one,
        two,
    })
}

/// Its first pass joins the others into itself, and the heap is closed.
pub(crate) fn close_two(heap: Heap, first: Pass, one: Pass, two: Pass) -> Closed
    requires passes { heap.passes ≡ 3 }
    requires first { IsPassOf heap first × (first.view ≡ opened_view 3 0) }
    requires one { IsReady heap one × (one.view.number ≡ 1) × (one.view.kept ≡ []) }
    requires two { IsReady heap two × (two.view.number ≡ 2) × (two.view.kept ≡ []) }
    ensures { result.passes ≡ 3 }
{
    let mut first = first;
    join(&heap, &mut first, one);
    join(&heap, &mut first, two);
    close(heap, first)
}

// Whether an object is there.
fn is_born(closed: &Closed, o: ObjId) -> bool
    requires { o.pass < closed.now.passes }
    ensures { IsTrue result → IsBorn (heap_left closed.now) o }
{
    o.serial < closed.objects(o.pass)
}

/// The name of an object at a place.
pub(crate) fn name(rt: &impl Abort, closed: &Closed, o: ObjId, at: u8) -> Option<(NameId, Value)>
    requires { o.pass < closed.now.passes }
{
    assert!(rt; is_born(closed, o));
    closed.name(o, at)
}

/// What an object has at an index.
pub(crate) fn element(rt: &impl Abort, closed: &Closed, o: ObjId, at: u16) -> Option<Value>
    requires { o.pass < closed.now.passes }
{
    assert!(rt; is_born(closed, o));
    closed.element(o, at)
}
