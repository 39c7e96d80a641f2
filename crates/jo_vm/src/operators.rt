// Truth values, numbers and the operators on them.
ghost use Rattle.std.specs.Prelude.{◌≡◌, ◌+ℤ◌, ◌-ℤ◌, ◌*ℤ◌, neg_ℤ, ◌≤ℤ◌, pos, ◌↔◌, IsTrue};
ghost use Rattle.jo_value.specs.Values.{is_strictly_equal};
ghost use Rattle.jo_meaning.specs.Values.{is_falsy, safe, remainder, of_numbers, on_numbers, apply, negated, apply_unary, object_in};

use jo_model::Outcome;
use jo_parse_tree::{BinaryOperator, UnaryOperator};
use jo_value::{MOST_NUMBER, ObjId, Texts, Value};

// The largest number.
const LARGEST: i64 = MOST_NUMBER as i64;

/// Whether a value counts as false.
pub(crate) fn is_falsy(texts: &Texts, value: Value) -> bool
    ensures { result ≡ is_falsy texts.now value }
{
    match value {
        Value::Undefined | Value::Null => true,
        Value::Bool(truth) => !truth,
        Value::Int(number) => number == 0,
        Value::Text(text) => texts.bytes(text).is_empty(),
        Value::Object(_) => false,
    }
}

/// What an operator that evaluates both operands makes of them.
pub(crate) fn apply(operator: BinaryOperator, x: Value, y: Value) -> Result<Value, Outcome>
    ensures { result ≡ apply operator x y }
{
    match operator {
        BinaryOperator::Same => Ok(Value::Bool(x == y)),
        BinaryOperator::NotSame => Ok(Value::Bool(x != y)),
        _ => on_numbers(operator, x, y),
    }
}

fn on_numbers(operator: BinaryOperator, x: Value, y: Value) -> Result<Value, Outcome>
    ensures { result ≡ on_numbers operator x y }
{
    match (x, y) {
        (Value::Int(i), Value::Int(j)) => of_numbers(operator, i, j),
        _ => Err(Outcome::TypeFault),
    }
}

fn of_numbers(operator: BinaryOperator, i: i64, j: i64) -> Result<Value, Outcome>
    ensures { result ≡ of_numbers operator i j }
{
    match operator {
        BinaryOperator::Less => Ok(Value::Bool(i < j)),
        BinaryOperator::Greater => Ok(Value::Bool(i > j)),
        BinaryOperator::LessEqual => Ok(Value::Bool(i <= j)),
        BinaryOperator::GreaterEqual => Ok(Value::Bool(i >= j)),
        BinaryOperator::Plus => sum(i, j),
        BinaryOperator::Minus => difference(i, j),
        BinaryOperator::Times => product(i, j),
        BinaryOperator::Remainder => remainder(i, j),
        _ => Err(Outcome::TypeFault),
    }
}

#[inline(always)]
pub(crate) fn is_safe(i: i64) -> bool
    ensures { IsTrue result ↔ ((neg_ℤ (pos MOST_NUMBER) ≤ℤ i) × (i ≤ℤ pos MOST_NUMBER)) }
{
    -LARGEST <= i && i <= LARGEST
}

#[inline(always)]
pub(crate) fn safe(i: i64) -> Result<Value, Outcome>
    ensures { result ≡ safe i }
{
    if is_safe(i) {
        Ok(Value::Int(i))
    } else {
        Err(Outcome::NotSafe)
    }
}

// Numbers are safe in practice, so that the plain sum is mostly the answer.
fn sum(i: i64, j: i64) -> Result<Value, Outcome>
    ensures { result ≡ safe (i +ℤ j) }
{
    if is_safe(i) && is_safe(j) {
        safe(i + j)
    } else {
        match i.checked_add(j) {
            Some(sum) => safe(sum),
            None => Err(Outcome::NotSafe),
        }
    }
}

fn difference(i: i64, j: i64) -> Result<Value, Outcome>
    ensures { result ≡ safe (i -ℤ j) }
{
    if is_safe(i) && is_safe(j) {
        safe(i - j)
    } else {
        match i.checked_sub(j) {
            Some(difference) => safe(difference),
            None => Err(Outcome::NotSafe),
        }
    }
}

#[inline(always)]
pub(crate) fn product(i: i64, j: i64) -> Result<Value, Outcome>
    ensures { result ≡ safe (i *ℤ j) }
{
    match i.checked_mul(j) {
        Some(product) => safe(product),
        None => Err(Outcome::NotSafe),
    }
}

#[inline(always)]
pub(crate) fn remainder(i: i64, j: i64) -> Result<Value, Outcome>
    ensures { result ≡ remainder i j }
{
    if j == 0 {
        return Err(Outcome::NotSafe);
    }
    Ok(Value::Int(i.wrapping_rem(j)))
}

/// What an operator makes of its one operand.
pub(crate) fn apply_unary(
    texts: &Texts,
    operator: UnaryOperator,
    x: Value,
) -> Result<Value, Outcome>
    ensures { result ≡ apply_unary texts.now operator x }
{
    match operator {
        UnaryOperator::Minus => negated(x),
        UnaryOperator::Not => Ok(Value::Bool(is_falsy(texts, x))),
    }
}

fn negated(x: Value) -> Result<Value, Outcome>
    ensures { result ≡ negated x }
{
    match x {
        Value::Int(i) => match i.checked_neg() {
            Some(negative) => safe(negative),
            None => Err(Outcome::NotSafe),
        },
        _ => Err(Outcome::TypeFault),
    }
}

/// The object that a value is.
#[inline(always)]
pub(crate) fn object_in(value: Value) -> Result<ObjId, Outcome>
    ensures { result ≡ object_in value }
{
    match value {
        Value::Object(object) => Ok(object),
        _ => Err(Outcome::TypeFault),
    }
}
