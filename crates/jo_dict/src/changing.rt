// What changes in the held block.
ghost use Rattle.std.specs.Prelude.{◌≡◌, ◌+◌, ◌*◌, ◌<◌, ◌≤◌};
ghost use Rattle.jo_value.specs.declared.capacities.TheConstants.{DICTIONARY_NAMES};
ghost use Rattle.jo_value.specs.declared.value.Key.{Key};
ghost use Rattle.jo_value.specs.declared.value.Key.TheVariants.{Name};
ghost use Rattle.jo_value.specs.declared.value.NameId.{NameId};
ghost use Rattle.jo_value.specs.Words.{IsSlot};
ghost use Rattle.jo_value.specs.declared.words.slot.Slot.TheVariants.{Holds};
ghost use Rattle.jo_model.specs.Objects.{Object};
ghost use Rattle.jo_model.specs.One.{delete_in, put_in};
ghost use Rattle.jo_rule.specs.Dictionaries.{block_size};
ghost use Rattle.jo_steps.specs.Holding.{HasBlockOf, HasLock, lock_of};
ghost use Rattle.jo_dict.specs.Blocks.{OnlyBlock};
ghost use Rattle.jo_dict.specs.inner.Stored.{held_words};
ghost use Rattle.jo_dict.specs.Locating.{IsLocated, IsSpot};
ghost use Rattle.jo_dict.specs.inner.Places.{IsClosed, IsNamed};

use crate::words::{load_held, store_held};
use crate::{Place, Spot};
use jo_layout::{COUNT, PAIR_WORDS, element_at, name_at, value_at};
use jo_steps::{Heap, Held, Pass};
use jo_value::{NameId, Slot, Value, slot_word};

/// Puts a property into the held block, which has room for it: in its place where the key is there, else at the end of the
/// names, or at its index.
pub fn add(heap: &Heap, pass: &mut Pass, held: &Held, spot: Spot, value: Value)
    requires held { HasLock heap.now pass.old held.now }
    requires place { (key : Key) × IsSpot pass.old.view key spot }
    requires value { IsSlot (Holds value) }
    ensures held { HasLock heap.now pass.new held.now }
    ensures block { (z : Object) (key : Key) → HasBlockOf pass.old.view z → IsSpot pass.old.view key spot → HasBlockOf pass.new.view (put_in z key value).0 }
    ensures only { OnlyBlock pass.old.view pass.new.view }
{
    let word = slot_word(Slot::Holds(value));
    match spot {
        Spot::Pair { at, names: _ } => store_held(heap, pass, held, value_at(at), word),
        Spot::End { name, names } => add_pair(heap, pass, held, name, names, value),
        Spot::Element(index) => store_held(heap, pass, held, element_at(index), word),
    }
}

// Puts a name that is not there behind so many others.
fn add_pair(heap: &Heap, pass: &mut Pass, held: &Held, name: NameId, names: u8, value: Value)
    requires held { HasLock heap.now pass.old held.now }
    requires few { names < DICTIONARY_NAMES }
    requires value { IsSlot (Holds value) }
    ensures held { HasLock heap.now pass.new held.now }
    ensures block { (z : Object) → HasBlockOf pass.old.view z → IsNamed (held_words pass.old.view) name names names → HasBlockOf pass.new.view (put_in z (Name name) value).0 }
    ensures only { OnlyBlock pass.old.view pass.new.view }
{
    let word = slot_word(Slot::Holds(value));
    store_held(heap, pass, held, value_at(names), word);
    store_held(heap, pass, held, name_at(names), u64::from(name.0));
    store_held(heap, pass, held, COUNT, u64::from(names) + 1);
}

/// Takes what is at a place out of the held block, and keeps the order of the others. Where nothing is there, nothing is
/// changed.
pub fn take_out(heap: &Heap, pass: &mut Pass, held: &Held, place: Place)
    requires held { HasLock heap.now pass.old held.now }
    requires place { (key : Key) × IsLocated pass.old.view key place }
    ensures held { HasLock heap.now pass.new held.now }
    ensures block { (z : Object) (key : Key) → HasBlockOf pass.old.view z → IsLocated pass.old.view key place → HasBlockOf pass.new.view (delete_in z key).0 }
    ensures only { OnlyBlock pass.old.view pass.new.view }
{
    match place {
        Place::At(spot) => take_at(heap, pass, held, spot),
        Place::NoMoreNames => {}
        Place::Beyond(_) => {}
    }
}

// The same where there is room for it.
fn take_at(heap: &Heap, pass: &mut Pass, held: &Held, spot: Spot)
    requires held { HasLock heap.now pass.old held.now }
    requires place { (key : Key) × IsSpot pass.old.view key spot }
    ensures held { HasLock heap.now pass.new held.now }
    ensures block { (z : Object) (key : Key) → HasBlockOf pass.old.view z → IsSpot pass.old.view key spot → HasBlockOf pass.new.view (delete_in z key).0 }
    ensures only { OnlyBlock pass.old.view pass.new.view }
{
    match spot {
        Spot::Pair { at, names } => take_pair(heap, pass, held, at, names),
        Spot::End { name: _, names: _ } => {}
        Spot::Element(index) => {
            store_held(heap, pass, held, element_at(index), slot_word(Slot::Absent))
        }
    }
}

// Takes a pair out, of so many.
fn take_pair(heap: &Heap, pass: &mut Pass, held: &Held, at: u8, names: u8)
    requires held { HasLock heap.now pass.old held.now }
    requires names { (at < names) × (names ≤ DICTIONARY_NAMES) }
    ensures held { HasLock heap.now pass.new held.now }
    ensures block { (z : Object) (name : NameId) → HasBlockOf pass.old.view z → IsNamed (held_words pass.old.view) name names at → HasBlockOf pass.new.view (delete_in z (Name name)).0 }
    ensures only { OnlyBlock pass.old.view pass.new.view }
{
    close_gap(heap, pass, held, at, names);
    store_held(heap, pass, held, COUNT, u64::from(names) - 1);
}

// Moves the pairs behind a place down by one, so that they stand over it.
fn close_gap(heap: &Heap, pass: &mut Pass, held: &Held, place: u8, names: u8)
    requires held { HasLock heap.now pass.old held.now }
    requires names { (place < names) × (names ≤ DICTIONARY_NAMES) }
    ensures held { HasLock heap.now pass.new held.now }
    ensures closed { IsClosed (held_words pass.old.view) (2 + 2 * place) (2 + 2 * names) (held_words pass.new.view) }
    ensures only { OnlyBlock pass.old.view pass.new.view }
{
    for k in name_at(place + 1)..name_at(names) {
        let word = load_held(heap, pass, held, k);
        store_held(heap, pass, held, k - PAIR_WORDS, word);
    }
}
