// The rule, for the kit's table, and what a step tells.
ghost use Rattle.std.specs.Prelude.{ℕ};
ghost use Rattle.jo_rule.specs.Names.{WordName, epoch};
ghost use Rattle.jo_rule.specs.Steps.{joined, opening_view, spent_view, split_left, split_right};
ghost use Rattle.jo_rule.specs.Views.{View};
ghost use Rattle.jo_steps.specs.inner.Tables.{Holds, StepFact, known_by, no_fact, tells};

use crate::known::Known;
use atomic_table::{Join, Play, Split, TableRule};
use std::marker::{Brand, PhantomData};

/// The rule of the heap, by how many passes it has.
pub struct HeapRule;

impl TableRule<(), Known, u8> for HeapRule {
    ghost holds = { Holds };

    ghost first = { λ _. known_by opening_view };
}

/// On which word of a table of how many passes a step is, and what it tells.
pub trait StepKind {
    ghost passes: { ℕ };

    ghost name: { WordName };

    ghost told: { StepFact };
}

impl StepKind for Brand {
    ghost passes = { 0 };

    ghost name = { epoch };

    ghost told = { no_fact };
}

/// A step that tells so.
pub struct StepOf<E: StepKind> {
    of: PhantomData<E>,
}

impl<E: StepKind> Play<(), Known> for StepOf<E> {
    ghost then = { tells E.passes E.told };
}

/// A pass makes the next one.
pub struct Fork;

impl Split<Known> for Fork {
    ghost left = { λ k. known_by (split_left k.view) };

    ghost right = { λ k. known_by (split_right k.view) };
}

/// A pass joins another into itself.
pub struct Merge;

impl Join<Known> for Merge {
    ghost both = { λ k l. known_by (joined k.view l.view) };

    ghost spent = { known_by spent_view };
}
