// Loads.
ghost use Rattle.std.specs.Prelude.{◌≡◌};
ghost use Rattle.jo_value.specs.Words.{IsCell, cell_bits};
ghost use Rattle.jo_model.specs.Heaps.{IsBorn};
ghost use Rattle.jo_model.specs.Logs.{after};
ghost use Rattle.jo_steps.specs.Views.{IsPassOf};
ghost use Rattle.jo_steps.specs.Counting.{one_load};
ghost use Rattle.jo_steps.specs.Holding.{MayLoadOwn};
ghost use Rattle.jo_steps.specs.Effects.{IsCellOf, LoadedOwn, Looked, MayPlaceByLoad};

use crate::access::load_by;
use crate::{Heap, Pass};
use jo_rule::Event;
use jo_value::{Cell, ObjId, cell_of};
use std::marker::Brand;

// The cell that has this word.
pub(crate) fn found_cell(word: u64) -> Cell
    requires { (c : Cell) × IsCell c × (word ≡ cell_bits c) }
    ensures { (c : Cell) → IsCell c → word ≡ cell_bits c → result ≡ c }
{
    let Some(cell) = cell_of(word) else {
        unreachable!()
    };
    cell
}

impl Heap {
    /// Loads the cell of an object, and places the event: a New that is refused.
    pub fn load_cell(&self, pass: &mut Pass, o: ObjId, event: Event) -> Cell
        requires pass { IsPassOf self.now pass.old }
        requires born { IsBorn (after self.now.passes pass.old.view.past.seen) o }
        requires event { MayPlaceByLoad self.now.passes pass.old.view event }
        ensures pass { IsPassOf self.now pass.new }
        ensures view { Looked self.now.passes event pass.old.view pass.new.view }
        ensures cell { IsCellOf o result }
    {
        let at = self.at_cell(o);
        let word = load_by::<Brand, (ObjId, Event)>(self, &mut pass.seat, at, &(o, event));
        pass.counts.loads = pass.counts.loads.saturating_add(1);
        found_cell(word)
    }

    /// Loads a word that no other pass may change: one of the own storage that no cell has named, or one of the block whose
    /// lock is held.
    pub fn load_own(&self, pass: &mut Pass, at: u32) -> u64
        requires pass { IsPassOf self.now pass.old }
        requires own { MayLoadOwn self.now.passes pass.old.view at }
        ensures pass { IsPassOf self.now pass.new }
        ensures word { LoadedOwn self.now.passes pass.old.view at result }
        ensures view { pass.new.view ≡ record pass.old.view { counts = one_load pass.old.view.counts } }
    {
        let word = load_by::<Brand, u32>(self, &mut pass.seat, at, &at);
        pass.counts.loads = pass.counts.loads.saturating_add(1);
        word
    }
}
