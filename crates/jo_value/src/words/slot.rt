// The slot of a property.
ghost use Rattle.std.specs.Prelude.{◌≡◌, IfSome, Some};
ghost use Rattle.jo_value.specs.Values.{IsInRange};
ghost use Rattle.jo_value.specs.Words.{Holds, IsSlot, IsInRangeSlot, IsValueOf, slot_bits, tag_of, content_of};

use crate::bits::{
    BOOL_TAG, CONTENT, INT_TAG, NULL_TAG, NUMBER_BIAS, OBJECT_TAG, TAG, TEXT_TAG, UNDEFINED_TAG,
};
use crate::{MOST_NUMBER, MOST_OBJECTS, ObjId, TextId, Value};

/// What stands at the place of a property: its value, or that it is not there.
#[derive(Clone, Copy, Debug, PartialEq, Eq)]
pub enum Slot {
    Absent,
    Holds(Value),
}

/// The word of a slot whose value is in range; 0 is that of an absent one.
pub fn slot_word(slot: Slot) -> u64
    requires { IsInRangeSlot slot }
    ensures { result ≡ slot_bits slot }
{
    match slot {
        Slot::Absent => 0,
        Slot::Holds(value) => TAG.with(tag(value)) + CONTENT.with(content(value)),
    }
}

/// The slot whose word this is. `None` where it is the word of no slot.
pub fn slot_of(word: u64) -> Option<Slot>
    ensures some { IfSome result (λ slot. IsSlot slot × (slot_bits slot ≡ word)) }
    ensures whole { (slot : Slot) → IsSlot slot → slot_bits slot ≡ word → result ≡ Some slot }
{
    if word == 0 {
        return Some(Slot::Absent);
    }
    let value = value_of(TAG.of(word), CONTENT.of(word))?;
    Some(Slot::Holds(value))
}

// Which kind of value it is.
fn tag(value: Value) -> u64
    ensures value { result ≡ tag_of value }
    ensures small { Holds TAG result }
{
    match value {
        Value::Undefined => UNDEFINED_TAG,
        Value::Null => NULL_TAG,
        Value::Bool(_) => BOOL_TAG,
        Value::Int(_) => INT_TAG,
        Value::Text(_) => TEXT_TAG,
        Value::Object(_) => OBJECT_TAG,
    }
}

// What it is among those of its kind.
fn content(value: Value) -> u64
    requires { IsInRange value }
    ensures content { result ≡ content_of value }
    ensures small { Holds CONTENT result }
{
    match value {
        Value::Undefined | Value::Null => 0,
        Value::Bool(truth) => u64::from(truth),
        Value::Int(number) => (number + NUMBER_BIAS) as u64,
        Value::Text(text) => u64::from(text.0),
        Value::Object(o) => u64::from(o.pass) * MOST_OBJECTS as u64 + u64::from(o.serial),
    }
}

// The value of this kind with this content.
fn value_of(tag: u64, content: u64) -> Option<Value>
    ensures some { IfSome result (IsValueOf tag content) }
    ensures whole { (value : Value) → IsValueOf tag content value → result ≡ Some value }
{
    match tag {
        UNDEFINED_TAG => (content == 0).then_some(Value::Undefined),
        NULL_TAG => (content == 0).then_some(Value::Null),
        BOOL_TAG => (content < 2).then_some(Value::Bool(content == 1)),
        INT_TAG => number(content),
        TEXT_TAG => text(content),
        OBJECT_TAG => object(content),
        _ => None,
    }
}

fn number(content: u64) -> Option<Value>
    ensures some { IfSome result (IsValueOf INT_TAG content) }
    ensures whole { (value : Value) → IsValueOf INT_TAG content value → result ≡ Some value }
{
    if content == 0 || content > 2 * MOST_NUMBER + 1 {
        return None;
    }
    Some(Value::Int(content as i64 - NUMBER_BIAS))
}

fn text(content: u64) -> Option<Value>
    ensures some { IfSome result (IsValueOf TEXT_TAG content) }
    ensures whole { (value : Value) → IsValueOf TEXT_TAG content value → result ≡ Some value }
{
    if content > u64::from(u16::MAX) {
        return None;
    }
    Some(Value::Text(TextId(content as u16)))
}

fn object(content: u64) -> Option<Value>
    ensures some { IfSome result (IsValueOf OBJECT_TAG content) }
    ensures whole { (value : Value) → IsValueOf OBJECT_TAG content value → result ≡ Some value }
{
    let pass = content / MOST_OBJECTS as u64;
    if pass > u64::from(u8::MAX) {
        return None;
    }
    let serial = content % MOST_OBJECTS as u64;
    Some(Value::Object(ObjId {
        pass: pass as u8,
        serial: serial as u16,
    }))
}
