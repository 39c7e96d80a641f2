// How a heap begins and ends.
ghost use Rattle.std.specs.Prelude.{◌≡◌, ◌<◌, ◌≤◌, IfOk, false, length};
ghost use Rattle.jo_value.specs.declared.capacities.TheConstants.{MOST_PASSES};
ghost use Rattle.jo_rule.specs.Names.{words_in_all};
ghost use Rattle.jo_rule.specs.Areas.{words_of};
ghost use Rattle.jo_rule.specs.Ending.{HasEnded, HasJoinedAll};
ghost use Rattle.jo_rule.specs.Opening.{AreOpening};
ghost use Rattle.jo_rule.specs.Steps.{opening_view};
ghost use Rattle.jo_steps.specs.Views.{AreNoStamps, IsPassOf};

use crate::closed::ClosedWords;
use crate::pass::NO_COUNTS;
use crate::{Heap, Pass};
use atomic_table::Table;
use jo_value::SHARED_STORAGE;
use std::alloc::{AllocError, Global};
use std::snapshot::Snapshot;

/// A new heap of `passes` passes, and its first pass. The words are those of a new heap, and the stamps those of the
/// first pass's objects, all 0.
pub fn make_heap(
    alloc: Global,
    words: Vec<u64>,
    passes: u8,
    stamps: Vec<u64>,
) -> Result<(Heap, Pass), AllocError>
    requires passes { (0 < passes) × (passes ≤ MOST_PASSES) }
    requires words { AreOpening passes words.items }
    requires stamps { AreNoStamps stamps.items }
    ensures heap { IfOk result (λ r. r.0.passes ≡ passes) }
    ensures pass { IfOk result (λ r. IsPassOf r.0 r.1 × (r.1.view ≡ opening_view)) }
{
    let (table, seat) = Table::of_words(alloc, words.as_slice(), &passes)?;
    let pass = Pass {
        seat,
        number: 0,
        used: SHARED_STORAGE,
        nodes: 1,
        objects: 1,
        counts: NO_COUNTS,
        stamps,
    };
    Ok((Heap { table, passes }, pass))
}

/// The words of a heap whose first pass has joined all others into itself.
pub fn close_heap(heap: Heap, pass: Pass) -> ClosedWords
    requires pass { IsPassOf heap pass }
    requires joined { HasJoinedAll pass.view }
    ensures words { (result.passes ≡ heap.passes) × (result.view ≡ pass.view) }
    ensures dictionaries { result.view.flat ≡ false }
    ensures all { length result.words ≡ words_in_all result.passes }
    ensures ended { HasEnded result.passes (words_of result.passes result.words) result.view }
{
    let past = Snapshot::of(&pass);
    let Heap { table, passes } = heap;
    let Pass { seat, .. } = pass;
    let words = table.close_with(seat);
    ClosedWords {
        words,
        past,
        passes,
    }
}
