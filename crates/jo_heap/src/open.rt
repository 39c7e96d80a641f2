// A heap is opened, and its passes are joined.
ghost use Rattle.std.specs.Prelude.{◌≡◌, ◌+◌, ◌≤◌, [], All, IfOk, None, length};
ghost use Rattle.std.specs.Vec.{vec_capacity};
ghost use Rattle.jo_value.specs.declared.capacities.TheConstants.{MOST_PASSES};
ghost use Rattle.jo_value.specs.declared.limits.TheConstants.{MOST_SCRIPTS};
ghost use Rattle.jo_rule.specs.Steps.{joined, opening_view};
ghost use Rattle.jo_steps.specs.Views.{AreNoStamps, IsPassOf};
ghost use Rattle.jo_heap.specs.Opening.{AreOpened};

use crate::initial::opening_words;
use jo_steps::{Heap, Pass, make_heap};
use jo_value::STAMP_WORDS;
use std::alloc::{AllocError, Global};

/// A new heap for `scripts` scripts, and its passes: the first one, and one for each script, in order of number. The
/// shared object is there, empty, and nothing was called. No later call takes memory.
pub fn open_heap(alloc: Global, scripts: u32) -> Result<(Heap, Vec<Pass>), AllocError>
    requires { (1 ≤ scripts) × (scripts ≤ MOST_SCRIPTS) }
    ensures passes { IfOk result (λ r. r.0.passes ≡ scripts + 1) }
    ensures opened { IfOk result (λ r. AreOpened r.0 r.1.items) }
{
    let passes = scripts as u8 + 1;
    let words = opening_words(alloc, passes)?;
    let own = no_stamps(alloc)?;
    let others = stamps_of(alloc, scripts)?;
    let mut opened = Vec::with_capacity(alloc, usize::from(passes))?;
    let (heap, first) = make_heap(alloc, words, passes, own)?;
    make_passes(&heap, first, others, &mut opened);
    Ok((heap, opened))
}

// The first pass makes all others, one for each of the stamps, which takes no memory.
fn make_passes(heap: &Heap, first: Pass, mut stamps: Vec<Vec<u64>>, opened: &mut Vec<Pass>)
    requires first { IsPassOf heap.now first × (first.view ≡ opening_view) }
    requires stamps { All (λ own. AreNoStamps own.items) stamps.items }
    requires all { (length stamps.items + 1 ≡ heap.now.passes) × (heap.now.passes ≤ MOST_PASSES) }
    requires room { (opened.old.items ≡ []) × (heap.now.passes ≤ vec_capacity opened.old) }
    ensures { AreOpened heap.now opened.new.items }
{
    opened.push_reserved(first);
    while let Some(own) = stamps.pop() {
        let number = opened.len() as u8;
        let next = heap.split_pass(&mut opened[0], number, own);
        opened.push_reserved(next);
    }
}

// The stamps of a pass that has given no offset back.
fn no_stamps(alloc: Global) -> Result<Vec<u64>, AllocError>
    ensures { IfOk result (λ stamps. AreNoStamps stamps.items) }
{
    vec![in alloc; 0; STAMP_WORDS]
}

// The stamps of `count` passes.
fn stamps_of(alloc: Global, count: u32) -> Result<Vec<Vec<u64>>, AllocError>
    ensures all { IfOk result (λ stamps. length stamps.items ≡ count) }
    ensures each { IfOk result (λ stamps. All (λ own. AreNoStamps own.items) stamps.items) }
{
    let mut stamps = Vec::with_capacity(alloc, count as usize)?;
    for _ in 0..count {
        stamps.push_reserved(no_stamps(alloc)?);
    }
    Ok(stamps)
}

/// A pass joins into itself another that holds no lock. It has then seen the longer of what the two have seen, and
/// keeps the calls, counts and tries of the other, and all that that one kept.
pub fn join(heap: &Heap, into: &mut Pass, from: Pass)
    requires passes { IsPassOf heap.now into.old × IsPassOf heap.now from }
    requires free { from.view.lock ≡ None }
    ensures pass { IsPassOf heap.now into.new }
    ensures view { into.new.view ≡ joined into.old.view from.view }
{
    heap.join_pass(into, from);
}
