// The reference heap: for each pass a list of objects, each two lists of pairs. It is there for what it means, not for
// speed.
ghost use Rattle.std.specs.Prelude.{◌≡◌, ◌<◌, ◌↔◌, length, slice_get, IfOk, OnErr, IsTrue};

mod object;
mod pass;

use crate::{Call, Reply};
use jo_value::{Key, MOST_OBJECTS, NameId, ObjId, Value};
pub use object::PlainObject;
use pass::PassObjects;
use std::alloc::{AllocError, Global};
use std::marker::Model;

/// The heap of one thread, by the definitions. Contracts see the objects of each pass.
#[derive(Drop)]
pub struct PlainHeap {
    alloc: Global,
    passes: Vec<PassObjects>,
}

impl Model for PlainHeap {
    ghost use Rattle.jo_model.specs.Heaps.{Heap};
    ghost use Rattle.std.specs.Prelude.{length, ◌<◌, ◌^◌};

    ghost Value = { Heap };

    ghost view = { λ heap. heap.passes.items };

    ghost use Rattle.jo_model.specs.WellFormed.{IsWellFormedHeap};

    ghost invariant = { λ heap. (length heap.passes.items < 2 ^ 8) × IsWellFormedHeap heap.passes.items };
}

impl PlainHeap {
    ghost use Rattle.jo_value.specs.declared.value.Key.TheVariants.{Index};
    ghost use Rattle.jo_model.specs.Objects.{property};
    ghost use Rattle.jo_model.specs.Heaps.{heap_at_start, objects_of, object_of, IsBorn};
    ghost use Rattle.jo_model.specs.One.{one, in_heap, put_in, delete_in, cas_in};
    ghost use Rattle.jo_model.specs.Calls.{IsOnBornObject, MayWantMemory};
    ghost use Rattle.jo_model.specs.WellFormed.{IsWellFormed, AreWellFormed, IsWellFormedHeap};
    ghost use Rattle.jo_model.specs.Valid.{IsValidHeap, IsValidCall};
    ghost use Rattle.jo_model.specs.Fits.{LeavesValid};
    ghost use Rattle.jo_model.specs.declared.call.Call.TheVariants as calls;

    /// The heap of `passes` passes at the start: object 0.0 alone, without properties. Pass 0 is one of them.
    pub fn new(alloc: Global, passes: u8) -> Result<PlainHeap, AllocError>
        requires { 0 < passes }
        ensures { IfOk result (λ heap. heap ≡ heap_at_start passes) }
    {
        let mut list = Vec::new(alloc);
        list.push(PassObjects::with_one(alloc)?)?;
        for _ in 1..passes {
            list.push(PassObjects::new(alloc))?;
        }
        Ok(PlainHeap {
            alloc,
            passes: list,
        })
    }

    /// Makes a call of a pass. Only a New or a Put may be refused memory, and after an `Err` the heap is as before.
    ///
    /// On a valid heap a valid call leaves a valid heap, and its reply is valid there and fits the call.
    pub fn call(&mut self, pass: u8, call: Call) -> Result<Reply, AllocError>
        requires pass { pass < length self.old }
        requires object { IsOnBornObject self.old call }
        ensures ok { IfOk result (λ reply. one self.old pass call ≡ (self.new, reply)) }
        ensures well_formed { IsWellFormedHeap self.new }
        ensures valid { IsValidHeap self.old → IsValidCall self.old call → IfOk result (LeavesValid call self.new) }
        ensures err { OnErr result (self.new ≡ self.old) }
        ensures memory { OnErr result (MayWantMemory call) }
    {
        let _ = &self.passes;
        self.answer(pass, call)
    }

    // The same, by the kind of the call.
    fn answer(&mut self, pass: u8, call: Call) -> Result<Reply, AllocError>
        requires pass { pass < length self.old }
        requires object { IsOnBornObject self.old call }
        ensures ok { IfOk result (λ reply. one self.old pass call ≡ (self.new, reply)) }
        ensures err { OnErr result (self.new ≡ self.old) }
        ensures memory { OnErr result (MayWantMemory call) }
    {
        match call {
            Call::New => self.make(pass),
            Call::Get { object, key } => Ok(Reply::Found(self.object(object).value(key))),
            Call::Has { object, key } => Ok(Reply::Flag(self.object(object).has(key))),
            Call::Names { object } => Ok(Reply::Names(self.object(object).name_list())),
            Call::Put { object, key, value } => self.put(object, key, value),
            Call::Delete { object, key } => Ok(self.delete(object, key)),
            Call::Cas {
                object,
                key,
                expected,
                desired,
            } => Ok(self.cas(object, key, expected, desired)),
        }
    }

    // An object that is there.
    fn object(&self, o: ObjId) -> &PlainObject
        requires { IsBorn self.now o }
        ensures value { result.now ≡ object_of self.now o }
        ensures well_formed { IsWellFormed result.now }
    {
        &self.objects_of(o.pass)[usize::from(o.serial)]
    }

    // Makes an empty object of a pass, or answers that there are too many.
    fn make(&mut self, pass: u8) -> Result<Reply, AllocError>
        requires { pass < length self.old }
        ensures ok { IfOk result (λ reply. one self.old pass calls.New ≡ (self.new, reply)) }
        ensures err { OnErr result (self.new ≡ self.old) }
    {
        let objects = &mut self.passes[usize::from(pass)];
        let serial = objects.len();
        if usize::from(serial) >= MOST_OBJECTS {
            return Ok(Reply::ObjectsSpent);
        }
        objects.add(self.alloc)?;
        Ok(Reply::Made(ObjId { pass, serial }))
    }

    // Sets a property of an object that is there.
    fn put(&mut self, o: ObjId, key: Key, value: Value) -> Result<Reply, AllocError>
        requires { IsBorn self.old o }
        ensures ok { IfOk result (λ reply.
            in_heap self.old o (put_in (object_of self.old o) key value) ≡ (self.new, reply)) }
        ensures err { OnErr result (self.new ≡ self.old) }
    {
        let pass = &mut self.passes[usize::from(o.pass)];
        let object = &mut pass.objects[usize::from(o.serial)];
        object.put(key, value)
    }

    // Takes a property out of an object that is there.
    fn delete(&mut self, o: ObjId, key: Key) -> Reply
        requires { IsBorn self.old o }
        ensures { in_heap self.old o (delete_in (object_of self.old o) key) ≡ (self.new, result) }
    {
        let pass = &mut self.passes[usize::from(o.pass)];
        let object = &mut pass.objects[usize::from(o.serial)];
        object.delete(key)
    }

    // Replaces a value of an object that is there, where it is the expected one.
    fn cas(&mut self, o: ObjId, key: Key, expected: Value, desired: Value) -> Reply
        requires { IsBorn self.old o }
        ensures { in_heap self.old o (cas_in (object_of self.old o) key expected desired)
            ≡ (self.new, result) }
    {
        let pass = &mut self.passes[usize::from(o.pass)];
        let object = &mut pass.objects[usize::from(o.serial)];
        object.cas(key, expected, desired)
    }

    /// Whether an object is there.
    pub fn is_born(&self, o: ObjId) -> bool
        ensures { IsTrue result ↔ IsBorn self.now o }
    {
        usize::from(o.serial) < self.objects_of(o.pass).len()
    }

    /// Whether the object that a call is made on, if any, is there.
    pub fn accepts(&self, call: Call) -> bool
        ensures { IsTrue result ↔ IsOnBornObject self.now call }
    {
        match call {
            Call::New => true,
            Call::Get { object, .. } | Call::Has { object, .. } | Call::Names { object } => {
                self.is_born(object)
            }
            Call::Put { object, .. } | Call::Delete { object, .. } | Call::Cas { object, .. } => {
                self.is_born(object)
            }
        }
    }

    /// How many passes the heap has.
    pub fn passes(&self) -> u8
        ensures { result ≡ length self.now }
    {
        self.passes.len() as u8
    }

    /// The objects of a pass, in order of serial; none of a pass that the heap has not.
    pub fn objects_of(&self, pass: u8) -> &[PlainObject]
        ensures value { result.now ≡ objects_of self.now pass }
        ensures well_formed { AreWellFormed result.now }
    {
        match self.passes.get(usize::from(pass)) {
            Some(objects) => objects.as_slice(),
            None => &[],
        }
    }

    /// How many objects a pass has.
    pub fn objects(&self, pass: u8) -> u16
        requires { pass < length self.now }
        ensures { result ≡ length (objects_of self.now pass) }
    {
        self.passes[usize::from(pass)].len()
    }

    /// The name at this place in order of creation, and its value. `None` is past the last one.
    pub fn name(&self, o: ObjId, at: u8) -> Option<(NameId, Value)>
        requires { IsBorn self.now o }
        ensures { result ≡ slice_get (object_of self.now o).names at }
    {
        self.object(o).names().get(usize::from(at)).copied()
    }

    /// The value of an index. `None` is where it is not there.
    pub fn element(&self, o: ObjId, at: u16) -> Option<Value>
        requires { IsBorn self.now o }
        ensures { result ≡ property (object_of self.now o) (Index at) }
    {
        self.object(o).property(Key::Index(at))
    }
}
