// The words that a heap left, by name.
ghost use Rattle.std.specs.Prelude.{◌≡◌, false};
ghost use Rattle.jo_rule.specs.Areas.{stored, words_of};
ghost use Rattle.jo_rule.specs.Ending.{HasEnded, HasJoinedAll};
ghost use Rattle.jo_rule.specs.Names.{cell};
ghost use Rattle.jo_steps.specs.Views.{IsPassOf};

use jo_layout::Layout;
use jo_steps::{ClosedWords, Heap, Pass, close_heap};
use jo_value::{MOST_OBJECTS, MOST_STORAGE, ObjId};
use std::marker::Model;

/// The words of a heap that was closed. Contracts see what they see of the words by number.
#[derive(Drop)]
pub(crate) struct NamedWords {
    words: ClosedWords,
    layout: Layout,
}

impl Model for NamedWords {
    ghost use Rattle.std.specs.Prelude.{◌≡◌, length};
    ghost use Rattle.jo_rule.specs.Names.{words_in_all};
    ghost use Rattle.jo_steps.specs.Views.{ClosedView};

    ghost Value = { ClosedView };

    ghost view = { λ w. w.words };

    ghost invariant = { λ w. (w.layout.passes ≡ w.words.passes) × (length w.words.words ≡ words_in_all w.words.passes) };
}

impl NamedWords {
    /// Ends a heap whose first pass has joined all others into itself.
    pub(crate) fn of(heap: Heap, pass: Pass) -> NamedWords
        requires pass { IsPassOf heap pass }
        requires joined { HasJoinedAll pass.view }
        ensures words { (result.passes ≡ heap.passes) × (result.view ≡ pass.view) }
        ensures dictionaries { result.view.flat ≡ false }
        ensures ended { HasEnded result.passes (words_of result.passes result.words) result.view }
    {
        let layout = heap.layout();
        NamedWords {
            words: close_heap(heap, pass),
            layout,
        }
    }

    /// How many passes the heap had.
    pub(crate) fn passes(&self) -> u8
        ensures { result ≡ self.now.passes }
    {
        self.layout.passes
    }

    /// The word of the cell of an object; 0 for one that has none.
    pub(crate) fn cell(&self, o: ObjId) -> u64
        ensures { result ≡ words_of self.now.passes self.now.words (cell o) }
    {
        if o.pass >= self.layout.passes || usize::from(o.serial) >= MOST_OBJECTS {
            return 0;
        }
        self.words.word(self.layout.cell(o))
    }

    /// The word of storage at an address; 0 for one that has none.
    pub(crate) fn stored(&self, address: u32) -> u64
        ensures { result ≡ stored (words_of self.now.passes self.now.words) address }
    {
        if address >= MOST_STORAGE * u32::from(self.layout.passes) {
            return 0;
        }
        self.words.word(self.layout.storage(address))
    }
}
