// Locks are taken.
ghost use Rattle.std.specs.Prelude.{◌≡◌, ◌≢◌, true, false, IfErr, IfOk, None};
ghost use Rattle.jo_value.specs.Words.{IsCell};
ghost use Rattle.jo_value.specs.declared.words.cell.Kind.TheVariants.{Dictionary};
ghost use Rattle.jo_model.specs.Heaps.{IsBorn};
ghost use Rattle.jo_model.specs.Logs.{after};
ghost use Rattle.jo_rule.specs.Steps.{with_lost_try};
ghost use Rattle.jo_steps.specs.Views.{IsPassOf};
ghost use Rattle.jo_steps.specs.Counting.{one_lock};
ghost use Rattle.jo_steps.specs.Effects.{IsCellOf, Locked};
ghost use Rattle.jo_guard.specs.Locking.{HasLocked};

use crossbeam_utils::Backoff;
use jo_rule::Event;
use jo_steps::{Heap, Held, Pass};
use jo_value::{Cell, ObjId};
use std::sync::Wait;

/// Tries to take the lock of an object whose cell was seen to be that of a dictionary. `Err` is that cell where it has the lock
/// bit, without a step, and else the cell that was found instead.
pub fn try_lock(heap: &Heap, pass: &mut Pass, o: ObjId, seen: Cell) -> Result<Held, Cell>
    requires pass { IsPassOf heap.now pass.old }
    requires born { IsBorn (after heap.now.passes pass.old.view.past.seen) o }
    requires free { pass.old.view.lock ≡ None }
    requires cell { IsCell seen × (seen.kind ≡ Dictionary) }
    ensures pass { IsPassOf heap.now pass.new }
    ensures locked { seen.locked ≡ true → (result ≡ Err seen) × (pass.new ≡ pass.old) }
    ensures held { IfOk result (λ held. (held.object ≡ o) × (held.cell ≡ seen) × (seen.locked ≡ false) × Locked heap.now.passes held pass.old.view pass.new.view) }
    ensures lost { seen.locked ≡ false → IfErr result (λ found. IsCellOf o found × (found ≢ seen) × (pass.new.view ≡ with_lost_try pass.old.view o seen (one_lock pass.old.view.counts))) }
{
    if seen.locked {
        return Err(seen);
    }
    heap.lock_cell(pass, o, seen)
}

/// Waits for the lock of an object.
pub fn wait_for_lock<R: Wait>(rt: &R, heap: &Heap, pass: &mut Pass, o: ObjId) -> Held
    requires pass { IsPassOf heap.now pass.old }
    requires born { IsBorn (after heap.now.passes pass.old.view.past.seen) o }
    requires free { pass.old.view.lock ≡ None }
    ensures pass { IsPassOf heap.now pass.new }
    ensures taken { HasLocked heap.now.passes o result pass.old.view pass.new.view }
{
    let backoff = Backoff::new();
    for _ in rt.forever() {
        let seen = heap.load_cell(pass, o, Event::Nothing);
        if let Ok(held) = try_lock(heap, pass, o, seen) {
            return held;
        }
        backoff.snooze();
    }
    unreachable!()
}
