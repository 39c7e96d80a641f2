// What calls change in one object.
ghost use Rattle.std.specs.Prelude.{◌≡◌, IfOk, OnOk, OnErr, IsTrue};

use crate::{PlainObject, Reply};
use jo_value::{Key, Value};
use std::alloc::AllocError;

impl PlainObject {
    ghost use Rattle.jo_model.specs.Objects.{has_property, with_value, with_property, without_property};
    ghost use Rattle.jo_model.specs.One.{put_in, delete_in, cas_in};

    // Sets a property, or answers that there are too many names.
    pub(crate) fn put(&mut self, key: Key, value: Value) -> Result<Reply, AllocError>
        ensures ok { IfOk result (λ reply. put_in self.old key value ≡ (self.new, reply)) }
        ensures err { OnErr result (self.new ≡ self.old) }
    {
        if self.has(key) {
            self.replace(key, value);
            return Ok(Reply::Done);
        }
        if self.is_full_for(key) {
            return Ok(Reply::TooManyNames);
        }
        self.add(key, value)?;
        Ok(Reply::Done)
    }

    // Takes a property out, where it is there.
    pub(crate) fn delete(&mut self, key: Key) -> Reply
        ensures { delete_in self.old key ≡ (self.new, result) }
    {
        if self.has(key) {
            self.take_out(key);
        }
        Reply::Flag(true)
    }

    // Replaces a value that is strictly equal to the expected one; the reply is the value before.
    pub(crate) fn cas(&mut self, key: Key, expected: Value, desired: Value) -> Reply
        ensures { cas_in self.old key expected desired ≡ (self.new, result) }
    {
        let found = self.value(key);
        if self.has(key) && found == expected {
            self.replace(key, desired);
        }
        Reply::Found(found)
    }

    // Sets a property that is there.
    fn replace(&mut self, key: Key, value: Value)
        requires { IsTrue (has_property self.old key) }
        ensures { self.new ≡ with_value self.old key value }
    {
        match key {
            Key::Name(name) => {
                let at = self.name_place(name);
                self.names[at] = (name, value);
            }
            Key::Index(index) => {
                let at = self.element_place(index);
                self.elements[at] = (index, value);
            }
        }
    }

    // Adds a property: a name goes last, an index goes after the lower ones.
    fn add(&mut self, key: Key, value: Value) -> Result<(), AllocError>
        ensures ok { OnOk result (self.new ≡ with_property self.old key value) }
        ensures err { OnErr result (self.new ≡ self.old) }
    {
        match key {
            Key::Name(name) => self.names.push((name, value))?,
            Key::Index(index) => {
                let at = self.lower(index);
                self.elements.insert(at, (index, value))?;
            }
        }
        Ok(())
    }

    // Takes out a property that is there.
    fn take_out(&mut self, key: Key)
        requires { IsTrue (has_property self.old key) }
        ensures { self.new ≡ without_property self.old key }
    {
        match key {
            Key::Name(name) => {
                let at = self.name_place(name);
                self.names.remove(at);
            }
            Key::Index(index) => {
                let at = self.element_place(index);
                self.elements.remove(at);
            }
        }
    }
}
