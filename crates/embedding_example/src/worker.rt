// What one thread does.
ghost use Rattle.std.specs.Prelude.{◌≡◌};
ghost use Rattle.jo_model.specs.Heaps.{shared};
ghost use Rattle.embedding_example.specs.Working.{MayWork, Stays};

use jo_read::{get, has, names};
use jo_steps::{Heap, Pass};
use jo_value::{Key, NameId, ObjId, Value};
use jo_write::{cas, delete, new_object, put};
use std::sync::Wait;

// A name of the shared object.
const COUNTER: Key = Key::Name(NameId(0));

// A name and an index of the own object.
const SIZE: Key = Key::Name(NameId(1));

const PLACE: Key = Key::Index(2);

/// What a thread has read of its own object: a value, whether the index was there, and how many names there were.
#[derive(Clone, Copy)]
pub(crate) struct Seen {
    pub(crate) size: Value,
    pub(crate) placed: bool,
    pub(crate) names: u8,
}

/// The pass of a thread, the object that it has made, and what it has read there.
#[derive(Drop)]
pub(crate) struct Worker {
    pub(crate) pass: Pass,
    pub(crate) own: ObjId,
    pub(crate) seen: Seen,
}

impl Worker {
    /// Until it has made an object its own one is the shared one.
    pub(crate) fn new(pass: Pass) -> Worker
        ensures { (result.pass ≡ pass) × (result.own ≡ shared) }
    {
        Worker {
            pass,
            own: ObjId::SHARED,
            seen: Seen {
                size: Value::Undefined,
                placed: false,
                names: 0,
            },
        }
    }

    /// All that the thread does. False where the heap has refused it something.
    pub(crate) fn work<R: Wait>(&mut self, rt: &R, heap: &Heap) -> bool
        requires may { MayWork heap.now self.old }
        ensures may { MayWork heap.now self.new }
        ensures stays { Stays self.old.pass.view self.new.pass.view }
    {
        if !self.make(heap) {
            return false;
        }
        if !self.put_size(rt, heap) {
            return false;
        }
        if !self.put_place(rt, heap) {
            return false;
        }
        self.read_size(rt, heap);
        self.read_place(rt, heap);
        self.count_names(rt, heap);
        if !self.delete_place(rt, heap) {
            return false;
        }
        if !self.share(rt, heap) {
            return false;
        }
        self.raise(rt, heap)
    }

    // The object that is made is born for this pass: `new_object` has named it.
    fn make(&mut self, heap: &Heap) -> bool
        requires may { MayWork heap.now self.old }
        ensures may { MayWork heap.now self.new }
        ensures stays { Stays self.old.pass.view self.new.pass.view }
    {
        match new_object(heap, &mut self.pass) {
            Ok(o) => {
                self.own = o;
                true
            }
            Err(_) => false,
        }
    }

    fn put_size<R: Wait>(&mut self, rt: &R, heap: &Heap) -> bool
        requires may { MayWork heap.now self.old }
        ensures may { MayWork heap.now self.new }
        ensures stays { Stays self.old.pass.view self.new.pass.view }
    {
        put(rt, heap, &mut self.pass, self.own, SIZE, Value::Int(7)).is_ok()
    }

    fn put_place<R: Wait>(&mut self, rt: &R, heap: &Heap) -> bool
        requires may { MayWork heap.now self.old }
        ensures may { MayWork heap.now self.new }
        ensures stays { Stays self.old.pass.view self.new.pass.view }
    {
        put(rt, heap, &mut self.pass, self.own, PLACE, Value::Bool(true)).is_ok()
    }

    fn read_size<R: Wait>(&mut self, rt: &R, heap: &Heap)
        requires may { MayWork heap.now self.old }
        ensures may { MayWork heap.now self.new }
        ensures stays { Stays self.old.pass.view self.new.pass.view }
    {
        self.seen.size = get(rt, heap, &mut self.pass, self.own, SIZE);
    }

    fn read_place<R: Wait>(&mut self, rt: &R, heap: &Heap)
        requires may { MayWork heap.now self.old }
        ensures may { MayWork heap.now self.new }
        ensures stays { Stays self.old.pass.view self.new.pass.view }
    {
        self.seen.placed = has(rt, heap, &mut self.pass, self.own, PLACE);
    }

    fn count_names<R: Wait>(&mut self, rt: &R, heap: &Heap)
        requires may { MayWork heap.now self.old }
        ensures may { MayWork heap.now self.new }
        ensures stays { Stays self.old.pass.view self.new.pass.view }
    {
        self.seen.names = names(rt, heap, &mut self.pass, self.own).len();
    }

    fn delete_place<R: Wait>(&mut self, rt: &R, heap: &Heap) -> bool
        requires may { MayWork heap.now self.old }
        ensures may { MayWork heap.now self.new }
        ensures stays { Stays self.old.pass.view self.new.pass.view }
    {
        delete(rt, heap, &mut self.pass, self.own, PLACE).is_ok()
    }

    // Puts the own object where the other thread may find it, under the number of the pass.
    fn share<R: Wait>(&mut self, rt: &R, heap: &Heap) -> bool
        requires may { MayWork heap.now self.old }
        ensures may { MayWork heap.now self.new }
        ensures stays { Stays self.old.pass.view self.new.pass.view }
    {
        let key = Key::Index(u16::from(self.pass.number()));
        let own = Value::Object(self.own);
        put(rt, heap, &mut self.pass, ObjId::SHARED, key, own).is_ok()
    }

    // Adds 1 to the counter, however often the other thread is faster. False where it is no number of 16 bits.
    fn raise<R: Wait>(&mut self, rt: &R, heap: &Heap) -> bool
        requires may { MayWork heap.now self.old }
        ensures may { MayWork heap.now self.new }
        ensures stays { Stays self.old.pass.view self.new.pass.view }
    {
        for _ in rt.forever() {
            let Value::Int(number) = self.read_counter(rt, heap) else {
                return false;
            };
            let Ok(number) = u16::try_from(number) else {
                return false;
            };
            if self.swap_counter(rt, heap, number) {
                return true;
            }
        }
        unreachable!()
    }

    fn read_counter<R: Wait>(&mut self, rt: &R, heap: &Heap) -> Value
        requires may { MayWork heap.now self.old }
        ensures may { MayWork heap.now self.new }
        ensures stays { Stays self.old.pass.view self.new.pass.view }
    {
        get(rt, heap, &mut self.pass, ObjId::SHARED, COUNTER)
    }

    // Whether the counter was this number, and is the next one now.
    fn swap_counter<R: Wait>(&mut self, rt: &R, heap: &Heap, number: u16) -> bool
        requires may { MayWork heap.now self.old }
        ensures may { MayWork heap.now self.new }
        ensures stays { Stays self.old.pass.view self.new.pass.view }
    {
        let number = i64::from(number);
        let (expected, desired) = (Value::Int(number), Value::Int(number + 1));
        cas(
            rt,
            heap,
            &mut self.pass,
            ObjId::SHARED,
            COUNTER,
            expected,
            desired,
        ) == expected
    }
}

/// Puts the counter at 0, before the threads start. False where the heap refuses that.
pub(crate) fn start_counter<R: Wait>(rt: &R, heap: &Heap, worker: &mut Worker) -> bool
    requires may { MayWork heap.now worker.old }
    ensures may { MayWork heap.now worker.new }
    ensures stays { Stays worker.old.pass.view worker.new.pass.view }
{
    put(
        rt,
        heap,
        &mut worker.pass,
        ObjId::SHARED,
        COUNTER,
        Value::Int(0),
    )
    .is_ok()
}
