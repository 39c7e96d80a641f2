// The names that the held block has.
ghost use Rattle.std.specs.Prelude.{◌≡◌, ◌≤◌, map};
ghost use Rattle.jo_value.specs.declared.capacities.TheConstants.{DICTIONARY_NAMES};
ghost use Rattle.jo_model.specs.Objects.{Object};
ghost use Rattle.jo_steps.specs.Holding.{HasBlockOf, HasLock};
ghost use Rattle.jo_dict.specs.Blocks.{OnlyCounts};
ghost use Rattle.jo_dict.specs.inner.Stored.{held_words};
ghost use Rattle.jo_dict.specs.inner.Places.{AreNameWords, names_in};

use crate::finding::len;
use crate::words::load_held;
use jo_layout::name_at;
use jo_model::NameList;
use jo_steps::{Heap, Held, Pass};
use jo_value::NameId;

/// The names of the held block, in order of creation.
pub fn names(heap: &Heap, pass: &mut Pass, held: &Held) -> NameList
    requires held { HasLock heap.now pass.old held.now }
    requires block { (z : Object) × HasBlockOf pass.old.view z }
    ensures held { HasLock heap.now pass.new held.now }
    ensures names { (z : Object) → HasBlockOf pass.old.view z → result ≡ map (λ p. p.0) z.names }
    ensures only { OnlyCounts pass.old.view pass.new.view }
{
    let names = len(heap, pass, held);
    list_of(heap, pass, held, names)
}

// The first `names` names.
fn list_of(heap: &Heap, pass: &mut Pass, held: &Held, names: u8) -> NameList
    requires held { HasLock heap.now pass.old held.now }
    requires few { names ≤ DICTIONARY_NAMES }
    requires names { AreNameWords (held_words pass.old.view) names }
    ensures held { HasLock heap.now pass.new held.now }
    ensures names { result ≡ names_in (held_words pass.old.view) names }
    ensures only { OnlyCounts pass.old.view pass.new.view }
{
    let mut list = NameList::new();
    for place in 0..names {
        let name = load_held(heap, pass, held, name_at(place));
        list.push(NameId(name as u16));
    }
    list
}
