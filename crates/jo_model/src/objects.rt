// What can be read of the objects of a heap.
ghost use Rattle.std.specs.Prelude.{◌≡◌, ◌<◌, ◌≤◌, length, slice_get};
ghost use Rattle.jo_model.specs.Heaps.{Heap, objects_of, object_of, IsBorn};
ghost use Rattle.jo_model.specs.WellFormed.{IsWellFormed};
ghost use Rattle.jo_model.specs.Reading.{place_from};

use crate::PlainHeap;
use jo_value::{NameId, ObjId, Value};

/// A heap whose objects can be read.
pub trait Objects {
    /// The objects of each pass.
    ghost heap: { Self → Heap };

    /// How many passes the heap has.
    fn passes(&self) -> u8
        ensures { result ≡ length (heap self.now) };

    /// How many objects a pass has.
    fn objects(&self, pass: u8) -> u16
        requires { pass < length (heap self.now) }
        ensures { result ≡ length (objects_of (heap self.now) pass) };

    /// The name at this place in order of creation, and its value. `None` is past the last one.
    fn name(&self, o: ObjId, at: u8) -> Option<(NameId, Value)>
        requires { IsBorn (heap self.now) o }
        ensures value { result ≡ slice_get (object_of (heap self.now) o).names at }
        ensures well_formed { IsWellFormed (object_of (heap self.now) o) };

    /// The least index that is there and not below `low`, and its value. `None` is where there is none.
    fn element_from(&self, o: ObjId, low: u32) -> Option<(u16, Value)>
        requires { IsBorn (heap self.now) o }
        ensures value { result ≡ slice_get (object_of (heap self.now) o).elements
            (place_from low (object_of (heap self.now) o).elements) }
        ensures well_formed { IsWellFormed (object_of (heap self.now) o) };
}

impl Objects for PlainHeap {
    ghost heap = { λ heap. heap };

    fn passes(&self) -> u8 {
        PlainHeap::passes(self)
    }

    fn objects(&self, pass: u8) -> u16 {
        PlainHeap::objects(self, pass)
    }

    fn name(&self, o: ObjId, at: u8) -> Option<(NameId, Value)> {
        let object = &self.objects_of(o.pass)[usize::from(o.serial)];
        object.names().get(usize::from(at)).copied()
    }

    fn element_from(&self, o: ObjId, low: u32) -> Option<(u16, Value)> {
        let object = &self.objects_of(o.pass)[usize::from(o.serial)];
        let elements = object.elements();
        elements.get(place_from(elements, low)).copied()
    }
}

// Where the first index stands that is not below `low`, or how many there are where there is none.
fn place_from(elements: &[(u16, Value)], low: u32) -> usize
    ensures { result ≡ place_from low elements.now }
{
    let at = elements.iter().position(|pair| u32::from(pair.0) >= low);
    at.unwrap_or(elements.len())
}
