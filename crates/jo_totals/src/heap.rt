// All objects, in order of pass and serial.
ghost use Rattle.std.specs.Prelude.{◌≡◌, ◌<◌, ◌≤◌, ◌^◌, [], ◌∷◌, length};
ghost use Rattle.jo_model.specs.Heaps.{objects_of, object_of, IsBorn};
ghost use Rattle.jo_totals.specs.Totals.{totals_in, totals_of};
ghost use Rattle.jo_totals.specs.inner.Parts.{AreBounded};

use crate::properties::{element_tally, name_tally};
use crate::total::Totals;
use jo_model::Objects;
use jo_value::ObjId;

/// What a heap has in all. No memory is taken.
pub fn totals<H: Objects>(heap: &H) -> Totals
    ensures { result ≡ totals_of (H.heap heap.now) }
{
    let mut totals = Totals::NONE;
    for pass in 0..heap.passes() {
        totals = totals.plus(pass_totals(heap, pass));
    }
    totals
}

// What a pass has in all.
fn pass_totals<H: Objects>(heap: &H, pass: u8) -> Totals
    requires { pass < length (H.heap heap.now) }
    ensures value { result ≡ totals_in (objects_of (H.heap heap.now) pass) }
    ensures few { result.objects ≤ 2 ^ 16 }
    ensures bounded { AreBounded result }
{
    let mut totals = Totals::NONE;
    for serial in 0..heap.objects(pass) {
        totals = totals.plus(object_totals(heap, ObjId { pass, serial }));
    }
    totals
}

// What an object has in all.
fn object_totals<H: Objects>(heap: &H, object: ObjId) -> Totals
    requires { IsBorn (H.heap heap.now) object }
    ensures value { result ≡ totals_in (object_of (H.heap heap.now) object ∷ []) }
    ensures bounded { AreBounded result }
{
    let names = name_tally(heap, object);
    let elements = element_tally(heap, object);
    Totals {
        objects: 1,
        names: u64::from(names.count),
        elements: u64::from(elements.count),
        sum: names.sum + elements.sum,
    }
}
