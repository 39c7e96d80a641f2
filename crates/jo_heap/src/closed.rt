// A heap that was closed.
ghost use Rattle.std.specs.Prelude.{◌≡◌, ◌≤◌, ℕ, None, length, slice_get};
ghost use Rattle.jo_value.specs.declared.value.Key.TheVariants.{Index};
ghost use Rattle.jo_model.specs.Heaps.{IsBorn, object_of, objects_of};
ghost use Rattle.jo_model.specs.Objects.{property};
ghost use Rattle.jo_rule.specs.Ending.{HasJoinedAll};
ghost use Rattle.jo_steps.specs.Views.{IsPassOf};
ghost use Rattle.jo_heap.specs.Closing.{IsOneHistory, heap_left};

use crate::block::Block;
use crate::named_words::NamedWords;
use jo_model::Objects;
use jo_steps::{Heap, Pass};
use jo_value::{MOST_OBJECTS, NameId, ObjId, Value};
use std::marker::Model;

/// What a heap left when it was closed. Contracts see how many passes it had, and what the first one knew, which had
/// joined all others into itself: the history that it had seen, and the calls, counts and tries of all passes.
#[derive(Drop)]
pub struct Closed {
    words: NamedWords,
}

impl Model for Closed {
    ghost use Rattle.std.specs.Prelude.{◌≡◌, false};
    ghost use Rattle.jo_rule.specs.Areas.{words_of};
    ghost use Rattle.jo_rule.specs.Ending.{HasEnded};
    ghost use Rattle.jo_heap.specs.Closing.{ClosedHeap};

    ghost Value = { ClosedHeap };

    ghost view = { λ c. record { passes = c.words.passes; view = c.words.view } };

    ghost invariant = { λ c. HasEnded c.words.passes (words_of c.words.passes c.words.words) c.words.view × (c.words.view.flat ≡ false) };
}

/// Ends a heap whose first pass has joined all others into itself.
pub fn close(heap: Heap, pass: Pass) -> Closed
    requires pass { IsPassOf heap pass }
    requires joined { HasJoinedAll pass.view }
    ensures closed { (result.passes ≡ heap.passes) × (result.view ≡ pass.view) }
    ensures history { IsOneHistory result }
{
    Closed {
        words: NamedWords::of(heap, pass),
    }
}

impl Closed {
    /// How many passes the heap had.
    pub fn passes(&self) -> u8
        ensures passes { result ≡ self.now.passes }
        ensures left { result ≡ length (heap_left self.now) }
    {
        self.words.passes()
    }

    /// How many objects the pass has made; none where the heap has no such pass.
    pub fn objects(&self, pass: u8) -> u16
        ensures { result ≡ length (objects_of (heap_left self.now) pass) }
    {
        for serial in 0..MOST_OBJECTS as u16 {
            if self.words.cell(ObjId { pass, serial }) == 0 {
                return serial;
            }
        }
        MOST_OBJECTS as u16
    }

    /// The name at this place of the names of an object, in order of creation, with its value. `None` is past the last one.
    pub fn name(&self, o: ObjId, at: u8) -> Option<(NameId, Value)>
        requires { IsBorn (heap_left self.now) o }
        ensures { result ≡ slice_get (object_of (heap_left self.now) o).names at }
    {
        let block = Block::of(&self.words, o)?;
        block.name(&self.words, at)
    }

    /// The value that an object has at an index. `None` where the index is not there.
    pub fn element(&self, o: ObjId, at: u16) -> Option<Value>
        requires { IsBorn (heap_left self.now) o }
        ensures { result ≡ property (object_of (heap_left self.now) o) (Index at) }
    {
        let block = Block::of(&self.words, o)?;
        block.element(&self.words, at)
    }

    /// An index from which on an object has none.
    pub fn index_end(&self, o: ObjId) -> u16
        requires { IsBorn (heap_left self.now) o }
        ensures beyond { (i : ℕ) → result ≤ i → property (object_of (heap_left self.now) o) (Index i) ≡ None }
    {
        match Block::of(&self.words, o) {
            Some(block) => block.elements,
            None => 0,
        }
    }
}

impl Objects for Closed {
    ghost heap = { heap_left };

    fn passes(&self) -> u8 {
        Closed::passes(self)
    }

    fn objects(&self, pass: u8) -> u16 {
        Closed::objects(self, pass)
    }

    fn name(&self, o: ObjId, at: u8) -> Option<(NameId, Value)> {
        Closed::name(self, o, at)
    }

    fn element_from(&self, o: ObjId, low: u32) -> Option<(u16, Value)> {
        let block = Block::of(&self.words, o)?;
        for index in low..u32::from(block.elements) {
            if let Some(value) = block.element(&self.words, index as u16) {
                return Some((index as u16, value));
            }
        }
        None
    }
}
