// What the held block has for a key, and how much it has.
ghost use Rattle.std.specs.Prelude.{◌≡◌, ◌<◌, ◌≤◌, length};
ghost use Rattle.jo_value.specs.declared.capacities.TheConstants.{DICTIONARY_NAMES};
ghost use Rattle.jo_value.specs.declared.value.Key.{Key};
ghost use Rattle.jo_value.specs.declared.value.Key.TheVariants.{Index, Name};
ghost use Rattle.jo_value.specs.Words.{IsSlot, slot_bits};
ghost use Rattle.jo_value.specs.declared.words.slot.Slot.{Slot};
ghost use Rattle.jo_model.specs.Objects.{Object, property};
ghost use Rattle.jo_rule.specs.Dictionaries.{block_size, slot_in};
ghost use Rattle.jo_steps.specs.Holding.{HasBlockOf, HasLock, lock_of};
ghost use Rattle.jo_dict.specs.Blocks.{IsRoomFor, OnlyCounts};
ghost use Rattle.jo_dict.specs.inner.Stored.{held_words};
ghost use Rattle.jo_dict.specs.Locating.{IsLocated, IsSpot};
ghost use Rattle.jo_dict.specs.inner.Places.{IsPlaceOf};

use crate::words::load_held;
use crate::{Place, Spot};
use jo_layout::{COUNT, element_at, name_at, value_at};
use jo_steps::{Heap, Held, Pass};
use jo_value::{DICTIONARY_NAMES, Key, NameId, Slot, header_of, slot_of};

/// How many elements the held block has room for.
pub fn room(heap: &Heap, pass: &mut Pass, held: &Held) -> u16
    requires held { HasLock heap.now pass.old held.now }
    ensures held { HasLock heap.now pass.new held.now }
    ensures room { result ≡ (lock_of pass.old.view).room }
    ensures only { OnlyCounts pass.old.view pass.new.view }
{
    match header_of(load_held(heap, pass, held, 0)) {
        Some(header) => header.elements,
        None => 0,
    }
}

/// How many names the held block has.
pub fn len(heap: &Heap, pass: &mut Pass, held: &Held) -> u8
    requires held { HasLock heap.now pass.old held.now }
    requires block { (z : Object) × HasBlockOf pass.old.view z }
    ensures held { HasLock heap.now pass.new held.now }
    ensures names { (z : Object) → HasBlockOf pass.old.view z → result ≡ length z.names }
    ensures few { result ≤ DICTIONARY_NAMES }
    ensures only { OnlyCounts pass.old.view pass.new.view }
{
    load_held(heap, pass, held, COUNT) as u8
}

/// Where a key stands in the held block. This is the one search of a call: what it does then takes the place.
pub fn locate(heap: &Heap, pass: &mut Pass, held: &Held, key: Key) -> Place
    requires held { HasLock heap.now pass.old held.now }
    requires block { (z : Object) × HasBlockOf pass.old.view z }
    ensures held { HasLock heap.now pass.new held.now }
    ensures place { IsLocated pass.new.view key result }
    ensures room { (z : Object) → HasBlockOf pass.old.view z → IsRoomFor (lock_of pass.old.view).room z key result }
    ensures only { OnlyCounts pass.old.view pass.new.view }
{
    match key {
        Key::Name(name) => locate_name(heap, pass, held, name),
        Key::Index(index) => locate_index(heap, pass, held, index),
    }
}

// Where a name stands.
fn locate_name(heap: &Heap, pass: &mut Pass, held: &Held, name: NameId) -> Place
    requires held { HasLock heap.now pass.old held.now }
    requires block { (z : Object) × HasBlockOf pass.old.view z }
    ensures held { HasLock heap.now pass.new held.now }
    ensures place { IsLocated pass.old.view (Name name) result }
    ensures only { OnlyCounts pass.old.view pass.new.view }
{
    let names = len(heap, pass, held);
    let at = pair_of(heap, pass, held, names, name);
    if at < names {
        Place::At(Spot::Pair { at, names })
    } else if u16::from(names) < DICTIONARY_NAMES {
        Place::At(Spot::End { name, names })
    } else {
        Place::NoMoreNames
    }
}

// Where an index stands.
fn locate_index(heap: &Heap, pass: &mut Pass, held: &Held, index: u16) -> Place
    requires held { HasLock heap.now pass.old held.now }
    ensures held { HasLock heap.now pass.new held.now }
    ensures place { IsLocated pass.old.view (Index index) result }
    ensures only { OnlyCounts pass.old.view pass.new.view }
{
    if index < room(heap, pass, held) {
        Place::At(Spot::Element(index))
    } else {
        Place::Beyond(index)
    }
}

// The first pair of so many that has a name, or their number where none has it.
fn pair_of(heap: &Heap, pass: &mut Pass, held: &Held, names: u8, name: NameId) -> u8
    requires held { HasLock heap.now pass.old held.now }
    requires few { names ≤ DICTIONARY_NAMES }
    ensures held { HasLock heap.now pass.new held.now }
    ensures place { IsPlaceOf (held_words pass.old.view) names name.0 result }
    ensures only { OnlyCounts pass.old.view pass.new.view }
{
    for at in 0..names {
        if load_held(heap, pass, held, name_at(at)) == u64::from(name.0) {
            return at;
        }
    }
    names
}

/// What the held block has at a place.
pub fn find(heap: &Heap, pass: &mut Pass, held: &Held, place: Place) -> Slot
    requires held { HasLock heap.now pass.old held.now }
    requires place { (key : Key) × IsLocated pass.old.view key place }
    ensures held { HasLock heap.now pass.new held.now }
    ensures found { (z : Object) (key : Key) → HasBlockOf pass.old.view z → IsLocated pass.old.view key place → result ≡ slot_in (property z key) }
    ensures only { OnlyCounts pass.old.view pass.new.view }
{
    match place {
        Place::At(spot) => find_at(heap, pass, held, spot),
        Place::NoMoreNames => Slot::Absent,
        Place::Beyond(_) => Slot::Absent,
    }
}

// The same where there is room.
fn find_at(heap: &Heap, pass: &mut Pass, held: &Held, spot: Spot) -> Slot
    requires held { HasLock heap.now pass.old held.now }
    requires place { (key : Key) × IsSpot pass.old.view key spot }
    ensures held { HasLock heap.now pass.new held.now }
    ensures found { (z : Object) (key : Key) → HasBlockOf pass.old.view z → IsSpot pass.old.view key spot → result ≡ slot_in (property z key) }
    ensures only { OnlyCounts pass.old.view pass.new.view }
{
    match spot {
        Spot::Pair { at, names: _ } => slot_at(heap, pass, held, value_at(at)),
        Spot::End { name: _, names: _ } => Slot::Absent,
        Spot::Element(index) => slot_at(heap, pass, held, element_at(index)),
    }
}

// The slot whose word this is of the block.
fn slot_at(heap: &Heap, pass: &mut Pass, held: &Held, k: u32) -> Slot
    requires held { HasLock heap.now pass.old held.now }
    requires within { k < block_size (lock_of pass.old.view).room }
    ensures held { HasLock heap.now pass.new held.now }
    ensures slot { (slot : Slot) → IsSlot slot → slot_bits slot ≡ held_words pass.old.view k → result ≡ slot }
    ensures only { OnlyCounts pass.old.view pass.new.view }
{
    slot_of(load_held(heap, pass, held, k)).unwrap_or(Slot::Absent)
}
