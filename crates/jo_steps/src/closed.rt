// The words of a heap at its end.
ghost use Rattle.std.specs.Prelude.{◌≡◌, ◌<◌, length, slice_index};

use crate::Pass;
use atomic_table::Closed;
use std::alloc::Global;
use std::marker::Model;
use std::snapshot::Snapshot;

/// The words of a heap that was closed. Contracts see how many passes it had, its words by number, and what its first pass knew.
pub struct ClosedWords {
    pub(crate) words: Closed<(), Global>,
    pub(crate) past: Snapshot<Pass>,
    pub(crate) passes: u8,
}

impl Model for ClosedWords {
    ghost use Rattle.std.specs.Prelude.{◌≡◌};
    ghost use Rattle.std.specs.Slots.{slots_items, slots_len, IsFull};
    ghost use Rattle.jo_steps.specs.Views.{ClosedView};

    ghost Value = { ClosedView };

    ghost view = { λ c. record { passes = c.passes; words = slots_items c.words.words; view = c.past.value.view } };

    ghost invariant = { λ c. IsFull c.words.words × (slots_len c.words.slots ≡ 0) };
}

impl ClosedWords {
    /// The word with this number.
    pub fn word(&self, at: u32) -> u64
        requires { at < length self.now.words }
        ensures { result ≡ slice_index self.now.words at }
    {
        self.words.word(at as usize)
    }
}

impl Drop for ClosedWords {
    fn drop(self) {
        let ClosedWords {
            words,
            past: _,
            passes: _,
        } = self;
        words.free();
    }
}
