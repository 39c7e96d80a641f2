// Code as text, an instruction a line, in the words of `docs/MACHINE.md`.

use jo_code::{Base, Destination, Instruction, Operand};
use jo_parse_tree::{BinaryOperator, UnaryOperator};
use std::alloc::{AllocError, Global};

// A variable stands as `$` and its number, and a text as its id.
fn operand(alloc: Global, operand: Operand) -> Result<String, AllocError> {
    match operand {
        Operand::Top => format!(in alloc; "top"),
        Operand::Variable(n) => format!(in alloc; "${n}"),
        Operand::Undefined => format!(in alloc; "undefined"),
        Operand::Null => format!(in alloc; "null"),
        Operand::Bool(b) => format!(in alloc; "{b}"),
        Operand::Int(i) => format!(in alloc; "{i}"),
        Operand::Text(t) => {
            let id = t.0;
            format!(in alloc; "text {id}")
        }
        Operand::Keyword(w) => {
            let text = w.text();
            format!(in alloc; "word {text}")
        }
        Operand::Shared => format!(in alloc; "shared"),
    }
}

fn base(alloc: Global, base: Base) -> Result<String, AllocError> {
    match base {
        Base::Top => format!(in alloc; "top"),
        Base::Variable(n) => format!(in alloc; "${n}"),
        Base::Shared => format!(in alloc; "shared"),
    }
}

fn destination(alloc: Global, to: Destination) -> Result<String, AllocError> {
    match to {
        Destination::Top => format!(in alloc; "top"),
        Destination::Variable(n) => format!(in alloc; "${n}"),
        Destination::Nowhere => format!(in alloc; "nowhere"),
    }
}

fn unary(operator: UnaryOperator) -> &'static str {
    match operator {
        UnaryOperator::Minus => "-",
        UnaryOperator::Not => "!",
    }
}

fn binary(operator: BinaryOperator) -> &'static str {
    match operator {
        BinaryOperator::Or => "||",
        BinaryOperator::And => "&&",
        BinaryOperator::Same => "===",
        BinaryOperator::NotSame => "!==",
        BinaryOperator::Less => "<",
        BinaryOperator::Greater => ">",
        BinaryOperator::LessEqual => "<=",
        BinaryOperator::GreaterEqual => ">=",
        BinaryOperator::In => "in",
        BinaryOperator::Plus => "+",
        BinaryOperator::Minus => "-",
        BinaryOperator::Times => "*",
        BinaryOperator::Remainder => "%",
    }
}

// A property by its base and key.
fn property(alloc: Global, object: Operand, key: Operand) -> Result<String, AllocError> {
    let object = operand(alloc, object)?;
    let key = operand(alloc, key)?;
    format!(in alloc; "{object}[{key}]")
}

// Two operands with the operator between them.
fn operation(
    alloc: Global,
    left: Operand,
    operator: &str,
    right: Operand,
) -> Result<String, AllocError> {
    let left = operand(alloc, left)?;
    let right = operand(alloc, right)?;
    format!(in alloc; "{left} {operator} {right}")
}

// What leaves a value.
fn leaving(alloc: Global, to: Destination, value: String) -> Result<String, AllocError> {
    let to = destination(alloc, to)?;
    format!(in alloc; "{to} = {value}")
}

fn cas(
    alloc: Global,
    object: Base,
    key: Operand,
    expected: Operand,
    desired: Operand,
) -> Result<String, AllocError> {
    let object = base(alloc, object)?;
    let key = operand(alloc, key)?;
    let expected = operand(alloc, expected)?;
    let desired = operand(alloc, desired)?;
    format!(in alloc; "top = cas {object}[{key}] {expected} {desired}")
}

fn puts(alloc: Global, keep: bool, property: String, value: Operand) -> Result<String, AllocError> {
    let value = operand(alloc, value)?;
    match keep {
        true => format!(in alloc; "top = put {property} {value}"),
        false => format!(in alloc; "put {property} {value}"),
    }
}

// What makes a value, and what puts one.
fn working(alloc: Global, instruction: Instruction) -> Result<String, AllocError> {
    match instruction {
        Instruction::Move { to, from } => leaving(alloc, to, operand(alloc, from)?),
        Instruction::Unary {
            to,
            operator,
            operand: a,
        } => {
            let a = operand(alloc, a)?;
            let operator = unary(operator);
            leaving(alloc, to, format!(in alloc; "{operator} {a}")?)
        }
        Instruction::Binary {
            to,
            operator,
            left,
            right,
        } => leaving(alloc, to, operation(alloc, left, binary(operator), right)?),
        Instruction::Has { to, key, object } => {
            leaving(alloc, to, operation(alloc, key, "in", object)?)
        }
        Instruction::Get { to, object, key } => leaving(alloc, to, property(alloc, object, key)?),
        Instruction::Put {
            keep,
            object,
            key,
            value,
        } => puts(alloc, keep, property(alloc, object, key)?, value),
        Instruction::Cas {
            object,
            key,
            expected,
            desired,
        } => cas(alloc, object, key, expected, desired),
        _ => going(alloc, instruction),
    }
}

// What goes on elsewhere, and what is left.
fn going(alloc: Global, instruction: Instruction) -> Result<String, AllocError> {
    match instruction {
        Instruction::Go(skip) => format!(in alloc; "skip {skip}"),
        Instruction::Branch {
            when,
            operand: a,
            skip,
        } => {
            let a = operand(alloc, a)?;
            format!(in alloc; "skip {skip} when {a} is {when}")
        }
        Instruction::Compare {
            when,
            operator,
            left,
            right,
            skip,
        } => {
            let test = operation(alloc, left, binary(operator), right)?;
            format!(in alloc; "skip {skip} when {test} is {when}")
        }
        Instruction::ShortCircuit { when, skip } => {
            format!(in alloc; "skip {skip} when top is {when}, or drop top")
        }
        Instruction::Again(count) => format!(in alloc; "again {count}"),
        _ => others(alloc, instruction),
    }
}

fn others(alloc: Global, instruction: Instruction) -> Result<String, AllocError> {
    match instruction {
        Instruction::Number(i) => format!(in alloc; "top = {i}"),
        Instruction::Load(n) => format!(in alloc; "load ${n}"),
        Instruction::Store(n) => format!(in alloc; "store ${n}"),
        Instruction::Peek { object, key } => {
            let property = property(alloc, object, key)?;
            format!(in alloc; "top = peek {property}")
        }
        Instruction::Fill { key, value } => {
            let key = operand(alloc, key)?;
            let value = operand(alloc, value)?;
            format!(in alloc; "fill [{key}] {value}")
        }
        Instruction::Delete { object, key } => {
            let property = property(alloc, object, key)?;
            format!(in alloc; "delete {property}")
        }
        Instruction::New => format!(in alloc; "top = new"),
        Instruction::Print(count) => format!(in alloc; "print {count}"),
        Instruction::PrintNames(a) => {
            let a = operand(alloc, a)?;
            format!(in alloc; "print names {a}")
        }
        _ => format!(in alloc; "?"),
    }
}

/// The code as text, each instruction with a line feed.
pub fn listing(alloc: Global, code: &[Instruction]) -> Result<String, AllocError> {
    let mut text = String::new(alloc);
    for instruction in code {
        text.push_str(working(alloc, *instruction)?.as_str())?;
        text.push('\n')?;
    }
    Ok(text)
}
