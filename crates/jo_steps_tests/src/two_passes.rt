// A heap of two passes is opened and closed.
ghost use Rattle.std.specs.Prelude.{◌≡◌, IfOk, [], None, length};
ghost use Rattle.jo_rule.specs.Names.{words_in_all};
ghost use Rattle.jo_rule.specs.Steps.{opening_view, split_left, split_right};
ghost use Rattle.jo_steps.specs.Views.{IsPassOf};

use crate::opening::{no_stamps, opening_words};
use jo_steps::{ClosedWords, Heap, Pass, close_heap, make_heap};
use std::alloc::{AllocError, Global};

/// A heap and its two passes.
#[derive(Drop)]
pub(crate) struct Two {
    pub heap: Heap,
    pub first: Pass,
    pub second: Pass,
}

/// A new heap of two passes.
pub(crate) fn open_two(alloc: Global) -> Result<Two, AllocError>
    ensures heap { IfOk result (λ two. two.heap.passes ≡ 2) }
    ensures first { IfOk result (λ two. IsPassOf two.heap two.first × (two.first.view ≡ split_left opening_view)) }
    ensures second { IfOk result (λ two. IsPassOf two.heap two.second × (two.second.view ≡ split_right opening_view)) }
{
    let words = opening_words(alloc, 2)?;
    let own = no_stamps(alloc)?;
    let stamps = no_stamps(alloc)?;
    let (heap, mut first) = make_heap(alloc, words, 2, own)?;
    let second = heap.split_pass(&mut first, 1, stamps);
    Ok(Two {
        heap,
        first,
        second,
    })
}

/// The first pass joins the second into itself, and the heap is closed.
pub(crate) fn close_two(heap: Heap, first: Pass, second: Pass) -> ClosedWords
    requires passes { IsPassOf heap first × IsPassOf heap second }
    requires first { (first.view.number ≡ 0) × (first.view.made ≡ 2) × (first.view.kept ≡ []) × (first.view.lock ≡ None) }
    requires second { (second.view.number ≡ 1) × (second.view.lock ≡ None) }
    ensures { length result.words ≡ words_in_all heap.passes }
{
    let mut first = first;
    heap.join_pass(&mut first, second);
    close_heap(heap, first)
}
