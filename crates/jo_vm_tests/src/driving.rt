// A script that is run over replies that are given.
ghost use Rattle.std.specs.Prelude.{◌≤◌, length};
ghost use Rattle.jo_value.specs.declared.limits.TheConstants.{MOST_INPUT};
ghost use Rattle.jo_vm.specs.Machines.{IsFree, stands};

use crate::writing::{ascii, call, end};
use jo_code::compile;
use jo_model::{Call, NameList, PlainHeap, Reply, Spent};
use jo_parse::{ParseFault, ScriptSet, parse_set};
use jo_value::{Key, NameId, ObjId, Texts, Value};
use jo_vm::{Ask, Vm};
use std::alloc::{AllocError, Global};

/// A reply that is given.
#[derive(Clone, Copy)]
pub enum Given {
    /// This object of pass 2.
    Made(u16),
    Found(Value),
    Flag(bool),
    /// The names x and y, in this order.
    Names,
    NoNames,
    Done,
    TooManyNames,
    ObjectsSpent,
    Spent,
}

/// What came of a script: its asks, a line each, and the lines that it printed.
#[derive(Drop)]
pub struct Story {
    pub asks: String,
    pub lines: String,
}

fn reply(alloc: Global, texts: &Texts, given: Given) -> Result<Reply, AllocError> {
    match given {
        Given::Made(serial) => Ok(Reply::Made(ObjId { pass: 2, serial })),
        Given::Found(value) => Ok(Reply::Found(value)),
        Given::Flag(truth) => Ok(Reply::Flag(truth)),
        Given::Names => two_names(alloc, texts),
        Given::NoNames => Ok(Reply::Names(NameList::new())),
        Given::Done => Ok(Reply::Done),
        Given::TooManyNames => Ok(Reply::TooManyNames),
        Given::ObjectsSpent => Ok(Reply::ObjectsSpent),
        Given::Spent => Ok(Reply::Spent(Spent { used: 0, need: 1 })),
    }
}

// A list of names is made by a heap alone.
fn two_names(alloc: Global, texts: &Texts) -> Result<Reply, AllocError> {
    let object = ObjId::SHARED;
    let mut heap = PlainHeap::new(alloc, 1)?;
    for name in ["x", "y"] {
        if let Some(id) = texts.id_of(name) {
            let key = Key::Name(NameId(id.0));
            let value = Value::Null;
            let _ = answered(&mut heap, Call::Put { object, key, value })?;
        }
    }
    answered(&mut heap, Call::Names { object })
}

fn answered(heap: &mut PlainHeap, call: Call) -> Result<Reply, AllocError> {
    if heap.passes() > 0 && heap.accepts(call) {
        heap.call(0, call)
    } else {
        Ok(Reply::Done)
    }
}

fn add(text: &mut String, line: &str) -> Result<(), AllocError> {
    text.push_str(line)?;
    text.push('\n')
}

// The asks up to the end, or up to a call for which no reply is given.
fn asks(
    alloc: Global,
    vm: &mut Vm<'_>,
    texts: &Texts,
    replies: &[Given],
) -> Result<String, AllocError>
    requires { IsFree (stands vm.old) }
{
    let mut text = String::new(alloc);
    let mut at: usize = 0;
    for _ in 0..1000u32 {
        match vm.next() {
            Ask::Turn => add(&mut text, "turn")?,
            Ask::End(outcome) => {
                add(&mut text, end(outcome))?;
                return Ok(text);
            }
            Ask::Call(asked) => {
                add(&mut text, call(alloc, texts, asked)?.as_str())?;
                let Some(given) = replies.get(at) else {
                    return Ok(text);
                };
                vm.answer(reply(alloc, texts, *given)?);
                at = at.saturating_add(1);
            }
        }
    }
    Ok(text)
}

fn set_of(alloc: Global, script: &str) -> Result<ScriptSet, AllocError>
    requires { length script.now ≤ MOST_INPUT }
{
    match parse_set(alloc, script.as_bytes()) {
        Ok(set) => Ok(set),
        Err(ParseFault::Refused(_)) => Err(AllocError),
        Err(ParseFault::Memory) => Err(AllocError),
    }
}

/// What comes of a script with this number of turns and these replies.
pub fn run(alloc: Global, script: &str, turns: u32, replies: &[Given]) -> Result<Story, AllocError>
    requires { length script.now ≤ MOST_INPUT }
{
    let set = set_of(alloc, script)?;
    let code = compile(alloc, set.script(0))?;
    let mut vm = Vm::new(alloc, &code, set.texts(), turns)?;
    let asks = asks(alloc, &mut vm, set.texts(), replies)?;
    let lines = ascii(alloc, vm.lines())?;
    Ok(Story { asks, lines })
}

/// How a script ends that asks no call, twice, and how many turns it took and bytes it printed.
pub fn ending(alloc: Global, script: &str, turns: u32) -> Result<String, AllocError>
    requires { length script.now ≤ MOST_INPUT }
{
    let set = set_of(alloc, script)?;
    let code = compile(alloc, set.script(0))?;
    let mut vm = Vm::new(alloc, &code, set.texts(), turns)?;
    let mut taken: u32 = 0;
    for _ in 0..1000u32 {
        match vm.next() {
            Ask::Turn => taken = taken.saturating_add(1),
            Ask::End(first) => {
                let second = match vm.next() {
                    Ask::End(outcome) => end(outcome),
                    _ => "no end",
                };
                let first = end(first);
                let printed = vm.into_lines().len();
                return format!(in alloc; "{first}, {second}, {taken} turns, {printed} bytes");
            }
            Ask::Call(_) => return format!(in alloc; "a call"),
        }
    }
    format!(in alloc; "no end")
}
