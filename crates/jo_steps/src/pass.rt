// A pass, which one thread steps with.
ghost use Rattle.std.specs.Prelude.{◌≡◌};

use crate::known::Known;
use atomic_table::Seat;
use jo_rule::Counts;
use std::marker::Model;

// What a pass has counted before its first step.
pub(crate) const NO_COUNTS: Counts = Counts {
    loads: 0,
    stores: 0,
    exchanges: 0,
    locks: 0,
};

/// The token of one thread of the heap. Contracts see its table, its seat there, and its view: what it knows.
#[derive(Drop)]
pub struct Pass {
    pub(crate) seat: Seat<(), Known>,
    pub(crate) number: u8,
    pub(crate) used: u32,
    pub(crate) nodes: u16,
    pub(crate) objects: u16,
    pub(crate) counts: Counts,
    pub(crate) stamps: Vec<u64>,
}

impl Model for Pass {
    ghost use Rattle.std.specs.Prelude.{◌≡◌, []};
    ghost use Rattle.jo_steps.specs.Views.{PassView};
    ghost use Rattle.jo_steps.specs.inner.Passes.{IsPass};

    ghost Value = { PassView };

    ghost view = { λ p. record { table = p.seat.table_id; seat = p.seat.id; view = p.seat.me.0.view } };

    ghost invariant = { λ p. (p.seat.me.1 ≡ []) × IsPass p.seat.me.0.view p.number p.used p.nodes p.objects p.counts p.stamps.items };
}

impl Pass {
    /// Its number, which is 0 for the pass that opened the heap.
    pub fn number(&self) -> u8
        ensures { result ≡ self.now.view.number }
    {
        self.number
    }

    /// How many words of its storage it has used.
    pub fn used(&self) -> u32
        ensures { result ≡ self.now.view.storage.used }
    {
        self.used
    }

    /// How many structures it has made, its root counted.
    pub fn nodes(&self) -> u16
        ensures { result ≡ self.now.view.births.nodes }
    {
        self.nodes
    }

    /// How many objects it has made.
    pub fn objects(&self) -> u16
        ensures { result ≡ self.now.view.births.objects }
    {
        self.objects
    }

    /// How many steps it has made.
    pub fn counts(&self) -> Counts
        ensures { result ≡ self.now.view.counts }
    {
        self.counts
    }
}
