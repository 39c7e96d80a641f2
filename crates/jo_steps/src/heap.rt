// The heap, as passes share it.
ghost use Rattle.std.specs.Prelude.{◌≡◌, ◌<◌, ◌≤◌, ◌*◌};
ghost use Rattle.jo_value.specs.declared.capacities.TheConstants.{MOST_PASSES};
ghost use Rattle.jo_value.specs.declared.limits.TheConstants.{MOST_STORAGE};
ghost use Rattle.jo_rule.specs.Names.{cell, storage, word_at};

use crate::known::Known;
use crate::table::HeapRule;
use atomic_table::Table;
use jo_layout::Layout;
use jo_value::ObjId;
use std::alloc::Global;
use std::marker::Model;

/// A heap: a table of words, which passes step on. Contracts see the table and how many passes it has.
#[derive(Drop)]
pub struct Heap {
    pub(crate) table: Table<(), Known, u8, HeapRule, Global>,
    pub(crate) passes: u8,
}

impl Model for Heap {
    ghost use Rattle.std.specs.Prelude.{◌≡◌, ◌≤◌};
    ghost use Rattle.jo_value.specs.declared.capacities.TheConstants.{MOST_PASSES};
    ghost use Rattle.jo_rule.specs.Names.{words_in_all};
    ghost use Rattle.jo_steps.specs.Views.{HeapView};

    ghost Value = { HeapView };

    ghost view = { λ h. record { table = h.table.shared.table_id; passes = h.passes } };

    ghost invariant = { λ h. (h.table.shared.table_id.words ≡ words_in_all h.passes) × (h.table.shared.key ≡ h.passes) × (h.passes ≤ MOST_PASSES) × (h.table.shared.table_id.slots ≡ 0) };
}

impl Heap {
    /// How many passes the heap has: one for each script, and the one that opens it.
    pub fn passes(&self) -> u8
        ensures { result ≡ self.now.passes }
    {
        self.passes
    }

    /// Where each word stands in its table.
    pub fn layout(&self) -> Layout
        ensures at { result.passes ≡ self.now.passes }
        ensures few { self.now.passes ≤ MOST_PASSES }
    {
        Layout {
            passes: self.passes,
        }
    }

    /// The number in the table of the cell of an object.
    pub fn at_cell(&self, o: ObjId) -> u32
        ensures { result ≡ word_at self.now.passes (cell o) }
    {
        self.layout().cell(o)
    }

    /// The number in the table of a word of storage.
    pub fn at_storage(&self, address: u32) -> u32
        requires { address < MOST_STORAGE * self.now.passes }
        ensures { result ≡ word_at self.now.passes (storage address) }
    {
        self.layout().storage(address)
    }
}
