// How many values instructions take and add, and which variables they name.
ghost use Rattle.std.specs.Prelude.{◌≡◌, ◌≤◌, ◌+◌, ◌^◌, max};
ghost use Rattle.jo_code.specs.inner.Counts.{taken_off};
ghost use Rattle.jo_code.specs.Needs.{pushed_by, pushed_to, reach_in, reach_of, reach_of_base, reach_to, taken_by, taken_by_base};

use crate::{Base, Destination, Instruction, Operand};

// How many values an operand takes off.
fn taken_by(operand: Operand) -> u32
    ensures count { result ≡ taken_by operand }
    ensures few { result ≤ 1 }
{
    match operand {
        Operand::Top => 1,
        _ => 0,
    }
}

fn taken_by_base(base: Base) -> u32
    ensures count { result ≡ taken_by_base base }
    ensures few { result ≤ 1 }
{
    match base {
        Base::Top => 1,
        _ => 0,
    }
}

// How many values a destination adds.
fn pushed_to(to: Destination) -> u32
    ensures { result ≡ pushed_to to }
{
    match to {
        Destination::Top => 1,
        _ => 0,
    }
}

/// How many entries an instruction adds.
pub(crate) fn pushed_by(instruction: Instruction) -> u32
    ensures { result ≡ pushed_by instruction }
{
    match instruction {
        Instruction::Move { to, .. }
        | Instruction::Unary { to, .. }
        | Instruction::Binary { to, .. }
        | Instruction::Has { to, .. }
        | Instruction::Get { to, .. } => pushed_to(to),
        Instruction::Number(_)
        | Instruction::Load(_)
        | Instruction::Peek { .. }
        | Instruction::Cas { .. }
        | Instruction::New => 1,
        Instruction::Put { keep, .. } => u32::from(keep),
        _ => 0,
    }
}

fn taken_by_two(one: Operand, other: Operand) -> u32
    ensures count { result ≡ taken_by one + taken_by other }
    ensures few { result ≤ 2 }
{
    taken_by(one) + taken_by(other)
}

/// How many entries an instruction takes off.
pub(crate) fn taken_off(instruction: Instruction) -> u32
    ensures { result ≡ taken_off instruction }
{
    match instruction {
        Instruction::Store(_) => 1,
        Instruction::Move { from, .. } => taken_by(from),
        Instruction::Unary { operand, .. }
        | Instruction::Branch { operand, .. }
        | Instruction::PrintNames(operand) => taken_by(operand),
        Instruction::Binary { left, right, .. } | Instruction::Compare { left, right, .. } =>
            taken_by_two(left, right),
        Instruction::Has { key, object, .. } => taken_by_two(key, object),
        Instruction::Get { object, key, .. } | Instruction::Delete { object, key } => taken_by_two(
            object, key,
        ),
        Instruction::Fill { key, value } => taken_by_two(key, value),
        Instruction::Put {
            object,
            key,
            value,
            ..
        } => taken_by_two(object, key) + taken_by(value),
        Instruction::Cas {
            object,
            key,
            expected,
            desired,
        } => { taken_by_base(object) + taken_by(key) + taken_by(expected) + taken_by(desired) }
        Instruction::Print(count) => count,
        _ => 0,
    }
}

// How many variables there have to be for an operand.
fn reach_of(operand: Operand) -> usize
    ensures count { result ≡ reach_of operand }
    ensures near { result ≤ 2 ^ 32 }
{
    match operand {
        Operand::Variable(n) => usize::from(n) + 1,
        _ => 0,
    }
}

fn reach_of_base(base: Base) -> usize
    ensures count { result ≡ reach_of_base base }
    ensures near { result ≤ 2 ^ 32 }
{
    match base {
        Base::Variable(n) => usize::from(n) + 1,
        _ => 0,
    }
}

fn reach_to(to: Destination) -> usize
    ensures count { result ≡ reach_to to }
    ensures near { result ≤ 2 ^ 32 }
{
    match to {
        Destination::Variable(n) => usize::from(n) + 1,
        _ => 0,
    }
}

fn reach_of_two(one: Operand, other: Operand) -> usize
    ensures count { result ≡ max (reach_of one) (reach_of other) }
    ensures near { result ≤ 2 ^ 32 }
{
    reach_of(one).max(reach_of(other))
}

/// How many variables there have to be for an instruction.
pub(crate) fn reach_in(instruction: Instruction) -> usize
    ensures count { result ≡ reach_in instruction }
    ensures near { result ≤ 2 ^ 32 }
{
    match instruction {
        Instruction::Move { to, from } => reach_to(to).max(reach_of(from)),
        Instruction::Unary { to, operand, .. } => reach_to(to).max(reach_of(operand)),
        Instruction::Binary {
            to,
            left,
            right,
            ..
        } => reach_to(to).max(reach_of_two(left, right)),
        Instruction::Has { to, key, object } => reach_to(to).max(reach_of_two(key, object)),
        Instruction::Get { to, object, key } => reach_to(to).max(reach_of_two(object, key)),
        Instruction::Load(n) | Instruction::Store(n) => n as usize + 1,
        Instruction::Put {
            object,
            key,
            value,
            ..
        } => reach_of(object).max(reach_of_two(key, value)),
        Instruction::Cas {
            object,
            key,
            expected,
            desired,
        } => { reach_of_base(object).max(reach_of(key).max(reach_of_two(expected, desired))) }
        Instruction::Fill { key, value } => reach_of_two(key, value),
        Instruction::Peek { object, key } | Instruction::Delete { object, key } => reach_of_two(
            object, key,
        ),
        Instruction::Compare { left, right, .. } => reach_of_two(left, right),
        Instruction::Branch { operand, .. } | Instruction::PrintNames(operand) => reach_of(operand),
        _ => 0,
    }
}
