// One object: its properties by name, and its properties by index.
ghost use Rattle.std.specs.Prelude.{◌≡◌, ◌≤◌, length, map, count_by, nat_lt};

mod edits;

use crate::NameList;
use jo_value::{Key, MOST_NAMES, NameId, Value};
use std::alloc::Global;
use std::marker::Model;

/// An object of the reference heap. Contracts see its two lists of properties.
#[derive(Drop)]
pub struct PlainObject {
    names: Vec<(NameId, Value)>,
    elements: Vec<(u16, Value)>,
}

impl Model for PlainObject {
    ghost use Rattle.jo_model.specs.Objects.{Object};

    ghost Value = { Object };

    ghost view = { λ o. record { names = o.names.items; elements = o.elements.items } };
}

impl PlainObject {
    ghost use Rattle.jo_model.specs.Objects.{empty_object, name_place, element_place, property, has_property, value_of, is_full_for};

    /// An object without properties. It takes no memory.
    pub(crate) fn new(alloc: Global) -> PlainObject
        ensures { result ≡ empty_object }
    {
        PlainObject {
            names: Vec::new(alloc),
            elements: Vec::new(alloc),
        }
    }

    /// The properties that have a name, in order of creation.
    pub fn names(&self) -> &[(NameId, Value)]
        ensures { result.now ≡ self.now.names }
    {
        &self.names
    }

    /// The properties that have an index, in rising order.
    pub fn elements(&self) -> &[(u16, Value)]
        ensures { result.now ≡ self.now.elements }
    {
        &self.elements
    }

    // The value of a property, undefined where it is not there.
    pub(crate) fn value(&self, key: Key) -> Value
        ensures { result ≡ value_of self.now key }
    {
        self.property(key).unwrap_or(Value::Undefined)
    }

    // Whether a property is there.
    pub(crate) fn has(&self, key: Key) -> bool
        ensures { result ≡ has_property self.now key }
    {
        self.property(key).is_some()
    }

    // The value of a property, where it is there.
    pub(crate) fn property(&self, key: Key) -> Option<Value>
        ensures { result ≡ property self.now key }
    {
        match key {
            Key::Name(name) => self.names.get(self.name_place(name)).map(|pair| pair.1),
            Key::Index(index) => self
                .elements
                .get(self.element_place(index))
                .map(|pair| pair.1),
        }
    }

    // The names alone, in order of creation.
    pub(crate) fn name_list(&self) -> NameList
        requires { length self.now.names ≤ MOST_NAMES }
        ensures { result ≡ map (λ p. p.0) self.now.names }
    {
        let mut list = NameList::new();
        for pair in &self.names {
            list.push(pair.0);
        }
        list
    }

    // Where a name stands, or how many there are where it is not there.
    fn name_place(&self, name: NameId) -> usize
        ensures place { result ≡ name_place self.now name }
        ensures within { result ≤ length self.now.names }
    {
        let at = self.names.iter().position(|pair| pair.0 == name);
        at.unwrap_or(self.names.len())
    }

    // Where an index stands, or how many there are where it is not there.
    fn element_place(&self, index: u16) -> usize
        ensures place { result ≡ element_place self.now index }
        ensures within { result ≤ length self.now.elements }
    {
        let at = self.elements.iter().position(|pair| pair.0 == index);
        at.unwrap_or(self.elements.len())
    }

    // How many indexes are lower. It looks at all of them: this heap shows what calls mean, and may be slow.
    fn lower(&self, index: u16) -> usize
        ensures place { result ≡ count_by (λ p. nat_lt p.0 index) self.now.elements }
        ensures within { result ≤ length self.now.elements }
    {
        self.elements.iter().filter(|pair| pair.0 < index).count()
    }

    // Whether there is no room for one more property with a key of this kind.
    fn is_full_for(&self, key: Key) -> bool
        ensures { result ≡ is_full_for self.now key }
    {
        match key {
            Key::Name(_) => self.names.len() >= MOST_NAMES,
            Key::Index(_) => false,
        }
    }
}
