// The properties of an object, by name and by index.
ghost use Rattle.std.specs.Prelude.{◌≡◌, ◌≤◌, ◌^◌};
ghost use Rattle.jo_value.specs.declared.limits.TheConstants.{MOST_NAMES};
ghost use Rattle.jo_model.specs.Heaps.{object_of, IsBorn};
ghost use Rattle.jo_totals.specs.inner.Parts.{tally_of, IsSumOf};

use crate::tally::Tally;
use jo_model::Objects;
use jo_value::ObjId;

// The properties of an object that have a name.
pub fn name_tally<H: Objects>(heap: &H, object: ObjId) -> Tally
    requires { IsBorn (H.heap heap.now) object }
    ensures value { result ≡ tally_of (object_of (H.heap heap.now) object).names }
    ensures few { result.count ≤ MOST_NAMES }
    ensures bounded { IsSumOf result.count result.sum }
{
    let mut tally = Tally::NONE;
    let mut at = 0;
    while let Some((_, value)) = heap.name(object, at) {
        tally = tally.plus(value);
        at += 1;
    }
    tally
}

// The properties of an object that have an index.
pub fn element_tally<H: Objects>(heap: &H, object: ObjId) -> Tally
    requires { IsBorn (H.heap heap.now) object }
    ensures value { result ≡ tally_of (object_of (H.heap heap.now) object).elements }
    ensures few { result.count ≤ 2 ^ 16 }
    ensures bounded { IsSumOf result.count result.sum }
{
    let mut tally = Tally::NONE;
    let mut low = 0;
    while let Some((index, value)) = heap.element_from(object, low) {
        tally = tally.plus(value);
        low = u32::from(index) + 1;
    }
    tally
}
