// How many entries and variables a code needs.
ghost use Rattle.std.specs.Prelude.{◌≡◌, ◌∷◌, [], ◌≤◌, ◌+◌, ◌^◌, IfOk, OnOk};
ghost use Rattle.jo_code.specs.Needs.{entries_of, need_at, need_of, pushed_by, variables_of};
ghost use Rattle.jo_code.specs.inner.Counts.{onward};

use crate::Instruction;
use crate::counts::{pushed_by, reach_in, taken_off};
use std::alloc::{AllocError, Global};
use std::marker::Model;

// What the instructions of a rest of a code need, seen in the order in which they run.
#[derive(Drop)]
struct Needs {
    backwards: Vec<u32>,
}

impl Model for Needs {
    ghost use Rattle.std.specs.Prelude.{List, ℕ, reverse};

    ghost Value = { List ℕ };

    ghost view = { λ n. reverse n.backwards.items };
}

impl Needs {
    fn new(alloc: Global) -> Needs
        ensures { result ≡ [] }
    {
        Needs {
            backwards: Vec::new(alloc),
        }
    }

    // The need behind `skip` instructions.
    fn at(&self, skip: u32) -> u32
        ensures { result ≡ need_at self.now skip }
    {
        let skip = skip as usize;
        if skip < self.backwards.len() {
            return self.backwards[self.backwards.len() - 1 - skip];
        }
        0
    }

    fn put(&mut self, need: u32) -> Result<(), AllocError>
        ensures { OnOk result (self.new ≡ need ∷ self.old) }
    {
        self.backwards.push(need)?;
        Ok(())
    }

    // What is needed behind an instruction.
    fn onward(&self, instruction: Instruction) -> u32
        ensures { result ≡ onward instruction (need_at self.now) }
    {
        match instruction {
            Instruction::Go(skip) => self.at(skip),
            Instruction::Branch { skip, .. } | Instruction::Compare { skip, .. } => self
                .at(skip)
                .max(self.at(0)),
            Instruction::ShortCircuit { skip, .. } => self
                .at(skip)
                .max(self.at(0).saturating_sub(1)),
            Instruction::Again(_) => 0,
            _ => self.at(0),
        }
    }

    // How many entries are used at once where an instruction has pushed its value.
    fn above(&self, instruction: Instruction) -> Result<u32, AllocError>
        ensures { IfOk result (λ n. n ≡ pushed_by instruction + need_at self.now 0) }
    {
        pushed_by(instruction)
            .checked_add(self.at(0))
            .ok_or(AllocError)
    }

    // What is needed where an instruction begins.
    #[tactic(auto, using(crate::proofs::Counted::counting))]
    fn of(&self, instruction: Instruction) -> Result<u32, AllocError>
        ensures { IfOk result (λ n. n ≡ need_of instruction (need_at self.now)) }
    {
        let most = pushed_by(instruction)
            .checked_add(self.onward(instruction))
            .ok_or(AllocError)?;
        Ok(most.saturating_sub(taken_off(instruction)))
    }
}

/// The most entries that a code uses at once.
pub(crate) fn entries(alloc: Global, code: &[Instruction]) -> Result<u32, AllocError>
    ensures { IfOk result (λ n. n ≡ entries_of code.now) }
{
    let mut needs = Needs::new(alloc);
    let mut greatest = 0u32;
    let mut at = code.len();
    while at > 0 {
        at -= 1;
        greatest = needs.above(code[at])?.max(greatest);
        needs.put(needs.of(code[at])?)?;
    }
    Ok(greatest)
}

/// How many variables there have to be for a code.
pub(crate) fn variables(code: &[Instruction]) -> usize
    ensures count { result ≡ variables_of code.now }
    ensures near { result ≤ 2 ^ 32 }
{
    let mut most = 0usize;
    let mut at = code.len();
    while at > 0 {
        at -= 1;
        most = reach_in(code[at]).max(most);
    }
    most
}
