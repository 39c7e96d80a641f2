// What the machine asks, as text.

use jo_model::{Call, Outcome};
use jo_value::{Key, ObjId, TextId, Texts, Value};
use std::alloc::{AllocError, Global};

// Bytes that are ASCII.
pub fn ascii(alloc: Global, bytes: &[u8]) -> Result<String, AllocError> {
    let mut text = String::new(alloc);
    for byte in bytes {
        text.push(char::from(*byte))?;
    }
    Ok(text)
}

fn object(alloc: Global, object: ObjId) -> Result<String, AllocError> {
    let pass = object.pass;
    let serial = object.serial;
    format!(in alloc; "#{pass}.{serial}")
}

fn key(alloc: Global, texts: &Texts, key: Key) -> Result<String, AllocError> {
    match key {
        Key::Name(name) => ascii(alloc, texts.bytes(TextId(name.0))),
        Key::Index(index) => format!(in alloc; "[{index}]"),
    }
}

// A text stands in quotes.
fn value(alloc: Global, texts: &Texts, value: Value) -> Result<String, AllocError> {
    match value {
        Value::Undefined => format!(in alloc; "undefined"),
        Value::Null => format!(in alloc; "null"),
        Value::Bool(truth) => format!(in alloc; "{truth}"),
        Value::Int(number) => format!(in alloc; "{number}"),
        Value::Text(id) => {
            let text = ascii(alloc, texts.bytes(id))?;
            format!(in alloc; "'{text}'")
        }
        Value::Object(o) => object(alloc, o),
    }
}

fn property(alloc: Global, texts: &Texts, o: ObjId, k: Key) -> Result<String, AllocError> {
    let o = object(alloc, o)?;
    let k = key(alloc, texts, k)?;
    format!(in alloc; "{o} {k}")
}

// A call that reads.
pub fn call(alloc: Global, texts: &Texts, asked: Call) -> Result<String, AllocError> {
    match asked {
        Call::New => format!(in alloc; "new"),
        Call::Get { object, key } => {
            let property = property(alloc, texts, object, key)?;
            format!(in alloc; "get {property}")
        }
        Call::Has { object, key } => {
            let property = property(alloc, texts, object, key)?;
            format!(in alloc; "has {property}")
        }
        Call::Names { object: o } => {
            let o = object(alloc, o)?;
            format!(in alloc; "names {o}")
        }
        _ => writing_call(alloc, texts, asked),
    }
}

// A call that may change a property.
fn writing_call(alloc: Global, texts: &Texts, asked: Call) -> Result<String, AllocError> {
    match asked {
        Call::Put {
            object,
            key,
            value: new,
        } => {
            let property = property(alloc, texts, object, key)?;
            let new = value(alloc, texts, new)?;
            format!(in alloc; "put {property} {new}")
        }
        Call::Delete { object, key } => {
            let property = property(alloc, texts, object, key)?;
            format!(in alloc; "delete {property}")
        }
        Call::Cas {
            object,
            key,
            expected,
            desired,
        } => {
            let property = property(alloc, texts, object, key)?;
            let expected = value(alloc, texts, expected)?;
            let desired = value(alloc, texts, desired)?;
            format!(in alloc; "cas {property} {expected} {desired}")
        }
        _ => format!(in alloc; "?"),
    }
}

pub fn end(outcome: Outcome) -> &'static str {
    match outcome {
        Outcome::Done => "done",
        Outcome::TypeFault => "type fault",
        Outcome::NotSafe => "not safe",
        Outcome::KeyOutside => "key outside",
        Outcome::TurnsSpent => "turns spent",
        Outcome::OutputFull => "output full",
        Outcome::TooManyNames => "too many names",
        Outcome::ObjectsSpent => "objects spent",
        Outcome::Spent => "spent",
    }
}
