// The lock of an object.
ghost use Rattle.std.specs.Prelude.{◌≡◌, ◌≢◌, IfErr, IfOk};
ghost use Rattle.jo_model.specs.Heaps.{IsBorn};
ghost use Rattle.jo_model.specs.Logs.{after};
ghost use Rattle.jo_rule.specs.Steps.{MayRelease, MayTry, with_lost_try};
ghost use Rattle.jo_steps.specs.Views.{IsPassOf};
ghost use Rattle.jo_steps.specs.Counting.{one_lock};
ghost use Rattle.jo_steps.specs.Holding.{HoldsLock, lock_of};
ghost use Rattle.jo_steps.specs.Effects.{IsCellOf, ReleasesTo, Locked, MayReleaseTo};

use crate::access::{exchange_by, store_by};
use crate::loads::found_cell;
use crate::{Heap, Held, Pass};
use jo_rule::Event;
use jo_value::{Cell, ObjId, cell_word};
use std::marker::Brand;

impl Heap {
    /// Takes the lock of an object where its cell is the one that was seen. Else the answer is the cell that was found, and
    /// no word was changed.
    pub fn lock_cell(&self, pass: &mut Pass, o: ObjId, seen: Cell) -> Result<Held, Cell>
        requires pass { IsPassOf self.now pass.old }
        requires born { IsBorn (after self.now.passes pass.old.view.past.seen) o }
        requires may { MayTry pass.old.view seen }
        ensures pass { IsPassOf self.now pass.new }
        ensures held { IfOk result (λ held. (held.object ≡ o) × (held.cell ≡ seen) × Locked self.now.passes held pass.old.view pass.new.view) }
        ensures lost { IfErr result (λ found. IsCellOf o found × (found ≢ seen) × (pass.new.view ≡ with_lost_try pass.old.view o seen (one_lock pass.old.view.counts))) }
    {
        let at = self.at_cell(o);
        let expected = cell_word(seen);
        let locked = Cell {
            locked: true,
            ..seen
        };
        let found = exchange_by::<Brand, (ObjId, Cell)>(
            self,
            &mut pass.seat,
            at,
            expected,
            cell_word(locked),
            &(o, seen),
        );
        pass.counts.locks = pass.counts.locks.saturating_add(1);
        if found == expected {
            Ok(Held {
                object: o,
                cell: seen,
            })
        } else {
            Err(found_cell(found))
        }
    }

    /// Releases a lock with an event. The next cell has no lock; its block is the one that was held, or a new one of
    /// the own storage, which no cell has named.
    pub fn release(&self, pass: &mut Pass, held: Held, next: Cell, event: Event)
        requires pass { IsPassOf self.now pass.old }
        requires held { HoldsLock self.now.passes pass.old.view held }
        requires event { MayRelease self.now.passes pass.old.view (lock_of pass.old.view) event }
        requires next { MayReleaseTo pass.old.view held next event }
        ensures pass { IsPassOf self.now pass.new }
        ensures view { ReleasesTo self.now.passes pass.old.view held next event pass.new.view }
    {
        // Its passes are few, so a cell has bits for each address.
        let _ = &self.passes;
        let Held { object, cell } = held;
        let at = self.at_cell(object);
        store_by::<Brand, (ObjId, Cell, Cell, Event)>(
            self,
            &mut pass.seat,
            at,
            cell_word(next),
            &(object, cell, next, event),
        );
        pass.counts.stores = pass.counts.stores.saturating_add(1);
    }
}
