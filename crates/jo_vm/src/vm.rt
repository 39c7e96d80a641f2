// The machine, which stops at each call, at each turn and at the end.
ghost use Rattle.std.specs.Prelude.{◌≡◌, ◌≤◌, [], IfOk};
ghost use Rattle.jo_vm.specs.declared.vm.Stage.TheVariants as stage;

use crate::execution::{Execution, Pause};
use crate::frame::{Due, Frame, Request};
use crate::keywords::Words;
use crate::lines::Lines;
use crate::stack::Stack;
use crate::variables::Variables;
use crate::ways::ways_of;
use jo_code::Code;
use jo_model::{Call, Outcome, Reply};
use jo_value::Texts;
use std::alloc::{AllocError, Global};
use std::marker::Model;

/// Why the machine stopped.
#[derive(Clone, Copy)]
pub enum Ask {
    /// It asks a call, and waits for the reply.
    Call(Call),
    /// It took a turn.
    Turn,
    /// The script came to its end.
    End(Outcome),
}

/// What the machine does next.
#[derive(Clone, Copy)]
pub(crate) enum Stage {
    /// It goes on.
    Going,
    /// It waits for a reply, with which this is to be done.
    Waiting(Due),
    /// It stays at its end.
    Ended(Outcome),
}

/// A machine that runs the code of a script.
///
/// Contracts see its parts, and what is to come of them: `stands` says how it goes on, or how at each reply.
#[derive(Drop)]
pub struct Vm<'a> {
    execution: Execution<'a>,
    stage: Stage,
}

impl<'a> Model for Vm<'a> {
    ghost use Rattle.jo_vm.specs.Machines.{Machine};
    ghost use Rattle.jo_vm.specs.inner.State.{machine_of, IsSound};

    ghost Value = { Machine };

    ghost view = { λ v. machine_of v.stage v.execution };

    ghost invariant = { λ v. IsSound v.stage v.execution };
}

impl<'a> Vm<'a> {
    ghost use Rattle.jo_code.specs.Machine.{interaction_by};
    ghost use Rattle.jo_code.specs.Needs.{entries_of};
    ghost use Rattle.jo_vm.specs.Machines.{Free, IsFree, IsWaiting, stands, Asked, Answered};
    ghost use Rattle.jo_vm.specs.inner.State.{IsAsking};

    /// A machine at the start of a code, with `turns` turns, and with all the room that the code needs. No other call
    /// takes memory.
    pub fn new(
        alloc: Global,
        code: &'a Code,
        texts: &'a Texts,
        turns: u32,
    ) -> Result<Vm<'a>, AllocError>
        ensures stands { IfOk result (λ v. stands v ≡ Free (interaction_by (entries_of code.now) code.now texts.now turns)) }
        ensures lines { IfOk result (λ v. v.lines ≡ []) }
    {
        let stack = Stack::new(alloc, code.entries())?;
        let variables = Variables::new(alloc, code.variables())?;
        let lines = Lines::new(alloc)?;
        let frame = Frame {
            texts,
            words: Words::new(texts),
            left: turns,
            stack,
            variables,
            lines,
        };
        let code = code.instructions();
        let execution = Execution {
            code,
            ways: ways_of(alloc, texts, code)?,
            at: 0,
            frame,
        };
        Ok(Vm {
            execution,
            stage: Stage::Going,
        })
    }

    /// Goes on to the next call, turn or end. At its end it stays.
    pub fn next(&mut self) -> Ask
        requires { IsFree (stands self.old) }
        ensures { Asked self.old result self.new }
    {
        if let Stage::Ended(outcome) = self.stage {
            return Ask::End(outcome);
        }
        match self.execution.run() {
            Pause::Turn => Ask::Turn,
            Pause::Get(object, key, to) => {
                self.stage = Stage::Waiting(Due::Found(to));
                Ask::Call(Call::Get { object, key })
            }
            Pause::Asks => self.ask(),
            Pause::End(outcome) => {
                self.stage = Stage::Ended(outcome);
                Ask::End(outcome)
            }
        }
    }

    // Asks the call of the instruction.
    #[inline(never)]
    fn ask(&mut self) -> Ask
        requires going { self.old.stage ≡ stage.Going }
        requires asks { IsAsking self.old.code self.old.at }
        ensures { Asked self.old result self.new }
    {
        match self.execution.ask() {
            Request::Call(call, due) => {
                self.stage = Stage::Waiting(due);
                Ask::Call(call)
            }
            Request::End(outcome) => {
                self.stage = Stage::Ended(outcome);
                Ask::End(outcome)
            }
        }
    }

    /// Takes the reply to the call that was asked.
    pub fn answer(&mut self, reply: Reply)
        requires { IsWaiting (stands self.old) }
        ensures { Answered self.old reply self.new }
    {
        if let Stage::Waiting(due) = self.stage {
            match self.execution.frame.settle(due, &reply) {
                None => self.stage = Stage::Going,
                Some(outcome) => self.stage = Stage::Ended(outcome),
            }
        }
    }

    /// The bytes of the lines so far.
    pub fn lines(&self) -> &[u8]
        ensures { result.now ≡ self.now.lines }
    {
        self.execution.frame.lines.bytes()
    }

    /// The bytes of the lines.
    pub fn into_lines(self) -> Vec<u8>
        ensures { result.items ≡ self.entry.lines }
    {
        let Vm { execution, .. } = self;
        let Execution { frame, .. } = execution;
        let Frame { lines, .. } = frame;
        lines.into_bytes()
    }
}
