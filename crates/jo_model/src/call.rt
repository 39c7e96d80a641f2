// Calls on the heap, their replies, and how a script ends.
use crate::NameList;
use jo_value::{Key, ObjId, Value};

/// A call of a script on the heap.
#[derive(Clone, Copy)]
pub enum Call {
    /// Makes an empty object.
    New,
    /// Reads a property.
    Get {
        object: ObjId,
        key: Key,
    },
    /// Tests whether a property is there.
    Has {
        object: ObjId,
        key: Key,
    },
    /// Lists the names of an object in order of creation.
    Names {
        object: ObjId,
    },
    /// Sets a property.
    Put {
        object: ObjId,
        key: Key,
        value: Value,
    },
    /// Deletes a property.
    Delete {
        object: ObjId,
        key: Key,
    },
    /// Sets a property to `desired` where its value is strictly equal to `expected`.
    Cas {
        object: ObjId,
        key: Key,
        expected: Value,
        desired: Value,
    },
}

/// The answer to a call.
#[derive(Drop)]
pub enum Reply {
    /// To `New`: the object that was made.
    Made(ObjId),
    /// To `Get` and `Cas`: the value that was found, or undefined for none.
    Found(Value),
    /// To `Has`, and to `Delete`, which is always answered true.
    Flag(bool),
    /// To `Names`.
    Names(NameList),
    /// To `Put`: the property is set.
    Done,
    /// To `Put`: the object has as many names as it may, and this one is not among them.
    TooManyNames,
    /// To `New`: the pass has made as many objects as it may.
    ObjectsSpent,
    /// To `New`, `Put` and `Delete`: too little storage is left for the pass.
    Spent(Spent),
}

/// How many words of storage a pass had used, and how many more a call needed.
#[derive(Clone, Copy)]
pub struct Spent {
    pub used: u32,
    pub need: u32,
}

/// How a script ended.
#[derive(Clone, Copy, Debug, PartialEq, Eq)]
pub enum Outcome {
    /// It came to its end.
    Done,
    /// A value was no object where one is needed, or no number.
    TypeFault,
    /// A number left the range of numbers, or a remainder's divisor was 0.
    NotSafe,
    /// A key value was no index within the limit and no name.
    KeyOutside,
    /// All turns of loops were taken.
    TurnsSpent,
    /// A line found no room.
    OutputFull,
    /// A Put was answered so.
    TooManyNames,
    /// A New was answered so.
    ObjectsSpent,
    /// A New, a Put or a Delete was answered so.
    Spent,
}
