// Stores to own words.
ghost use Rattle.std.specs.Prelude.{◌≡◌, ◌≤◌};
ghost use Rattle.jo_value.specs.declared.limits.TheConstants.{MOST_STORAGE};
ghost use Rattle.jo_steps.specs.Views.{IsPassOf};
ghost use Rattle.jo_steps.specs.Holding.{MayStoreOwn};
ghost use Rattle.jo_steps.specs.Effects.{StoredOwn};
ghost use Rattle.jo_steps.specs.inner.Storing.{used_after};

use crate::access::store_by;
use crate::{Heap, Pass};
use jo_value::MOST_STORAGE;
use std::marker::Brand;

impl Heap {
    /// Stores a word that no other pass may change. The word of the cell of the pass's next object bears it.
    pub fn store_own(&self, pass: &mut Pass, at: u32, word: u64)
        requires pass { IsPassOf self.now pass.old }
        requires own { MayStoreOwn self.now.passes pass.old.view at word }
        ensures pass { IsPassOf self.now pass.new }
        ensures view { StoredOwn self.now.passes pass.old.view at word pass.new.view }
    {
        let storage = self.layout().storage_at();
        store_by::<Brand, ()>(self, &mut pass.seat, at, word, &());
        pass.counts.stores = pass.counts.stores.saturating_add(1);
        pass.used = self.used_after(pass.number, pass.used, at);
        pass.objects += u16::from(at < storage);
    }

    // How much of its storage a pass has used after a store to this word.
    fn used_after(&self, pass: u8, used: u32, at: u32) -> u32
        requires { used ≤ MOST_STORAGE }
        ensures { result ≡ used_after self.now.passes pass used at }
    {
        let first = self.layout().storage_of(pass);
        if first + used <= at && at < first + MOST_STORAGE {
            at - first + 1
        } else {
            used
        }
    }
}
