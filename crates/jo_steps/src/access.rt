// One step on the table, which tells what its call picks.
ghost use Rattle.std.specs.Prelude.{◌≡◌, ℕ, true, ◌==◌};
ghost use prog.Atomic.{either};
ghost use Rattle.jo_rule.specs.Names.{is_word, word_at};
ghost use Rattle.jo_steps.specs.inner.Tables.{HasTold, IsSameSeat, Keeps};

use crate::Heap;
use crate::known::Known;
use crate::table::{StepKind, StepOf};
use atomic_table::Seat;

// A load. `about` is what the caller picks by.
pub(crate) fn load_by<E: StepKind, X>(
    heap: &Heap,
    seat: &mut Seat<(), Known>,
    at: u32,
    about: &X,
) -> u64
    requires table { seat.old.table_id ≡ heap.now.table }
    requires passes { E.passes ≡ heap.now.passes }
    requires place { (at ≡ word_at E.passes E.name) × (is_word E.passes E.name ≡ true) }
    requires keeps { Keeps E.passes E.name (λ n. n) seat.old.id seat.old.me.0.view (E.told seat.old.me.0.view) }
    ensures same { IsSameSeat seat.old.table_id seat.old.id seat.old.me.1 seat.new.table_id seat.new.id seat.new.me.1 }
    ensures told { HasTold E.passes E.told seat.old.me.0.view seat.new.me.0.view result }
{
    let _ = about;
    heap.table.shared.load::<StepOf<E>>(seat, at as usize)
}

// A store.
pub(crate) fn store_by<E: StepKind, X>(
    heap: &Heap,
    seat: &mut Seat<(), Known>,
    at: u32,
    word: u64,
    about: &X,
)
    requires table { seat.old.table_id ≡ heap.now.table }
    requires passes { E.passes ≡ heap.now.passes }
    requires place { (at ≡ word_at E.passes E.name) × (is_word E.passes E.name ≡ true) }
    requires keeps { Keeps E.passes E.name (λ _. word) seat.old.id seat.old.me.0.view (λ n u. E.told seat.old.me.0.view word u) }
    ensures same { IsSameSeat seat.old.table_id seat.old.id seat.old.me.1 seat.new.table_id seat.new.id seat.new.me.1 }
    ensures told { HasTold E.passes E.told seat.old.me.0.view seat.new.me.0.view word }
{
    let _ = about;
    heap.table
        .shared
        .store::<StepOf<E>>(seat, at as usize, word);
}

// An exchange: the answer is the word as it was, which has become `next` where it was `expected`.
pub(crate) fn exchange_by<E: StepKind, X>(
    heap: &Heap,
    seat: &mut Seat<(), Known>,
    at: u32,
    expected: u64,
    next: u64,
    about: &X,
) -> u64
    requires table { seat.old.table_id ≡ heap.now.table }
    requires passes { E.passes ≡ heap.now.passes }
    requires place { (at ≡ word_at E.passes E.name) × (is_word E.passes E.name ≡ true) }
    requires keeps { Keeps E.passes E.name (λ n. either (n == expected) next n) seat.old.id seat.old.me.0.view (E.told seat.old.me.0.view) }
    ensures same { IsSameSeat seat.old.table_id seat.old.id seat.old.me.1 seat.new.table_id seat.new.id seat.new.me.1 }
    ensures told { HasTold E.passes E.told seat.old.me.0.view seat.new.me.0.view result }
{
    let _ = about;
    heap.table
        .shared
        .compare_exchange::<StepOf<E>>(seat, at as usize, expected, next)
}
