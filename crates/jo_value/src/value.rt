// What a variable or a property of a script holds, and what names a property.
ghost use Rattle.std.specs.Prelude.{◌↔◌, IsTrue};
ghost use Rattle.jo_value.specs.Values.{IsInRange};

use crate::{MOST_NUMBER, MOST_OBJECTS};

/// The id of a text, which is its place in the table.
#[derive(Clone, Copy, Debug, PartialEq, Eq)]
pub struct TextId(pub u16);

/// The id of a text that is no array index.
#[derive(Clone, Copy, Debug, Default, PartialEq, Eq)]
pub struct NameId(pub u16);

/// An object: the pass that made it, and its serial, which is how many objects that pass had made before.
#[derive(Clone, Copy, Debug, PartialEq, Eq)]
pub struct ObjId {
    pub pass: u8,
    pub serial: u16,
}

impl ObjId {
    /// The object that every script has from the start, as `shared`.
    pub const SHARED: ObjId = ObjId { pass: 0, serial: 0 };
}

/// The number of a structure: 4,096 times the pass that made it, and how many that pass had made before.
#[derive(Clone, Copy, Debug, PartialEq, Eq)]
pub struct Sid(pub u16);

/// The key of a property: a name, or an array index.
#[derive(Clone, Copy, Debug, PartialEq, Eq)]
pub enum Key {
    Name(NameId),
    Index(u16),
}

/// A value of the language. `==` is its strict equality, for texts of one table.
#[derive(Clone, Copy, Debug, PartialEq, Eq)]
pub enum Value {
    Undefined,
    Null,
    Bool(bool),
    /// A whole number, at most `MOST_NUMBER` away from 0.
    Int(i64),
    Text(TextId),
    Object(ObjId),
}

impl Value {
    /// Whether a number is at most `MOST_NUMBER` away from 0, and the serial of an object below `MOST_OBJECTS`.
    pub fn is_in_range(self) -> bool
        ensures { IsTrue result ↔ IsInRange self }
    {
        match self {
            Value::Int(number) => number.unsigned_abs() <= MOST_NUMBER,
            Value::Object(o) => usize::from(o.serial) < MOST_OBJECTS,
            _ => true,
        }
    }
}
