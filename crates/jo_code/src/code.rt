// The code of a script.
ghost use Rattle.std.specs.Prelude.{◌≡◌, IfOk};
ghost use Rattle.jo_code.specs.Needs.{entries_of, stack_need, variables_of};

use crate::{Instruction, needs};
use std::alloc::{AllocError, Global};
use std::marker::Model;

/// The code of a script, and how many values it needs room for. Contracts see the instructions.
#[derive(Drop)]
pub struct Code {
    instructions: Vec<Instruction>,
    entries: usize,
    variables: usize,
}

impl Model for Code {
    ghost use Rattle.std.specs.Prelude.{◌≡◌, ◌≤◌, ◌^◌, List};
    ghost use Rattle.jo_code.specs.Needs.{entries_of, variables_of};
    ghost use Rattle.jo_code.specs.declared.instruction.Instruction.{Instruction};

    ghost Value = { List Instruction };

    ghost view = { λ c. c.instructions.items };

    ghost invariant = { λ c. (c.entries ≡ entries_of c.instructions.items) × (c.variables ≡ variables_of c.instructions.items) × (c.entries ≤ 2 ^ 32) × (c.variables ≤ 2 ^ 32) };
}

impl Code {
    // The code of these instructions.
    pub(crate) fn of(alloc: Global, instructions: Vec<Instruction>) -> Result<Code, AllocError>
        ensures { IfOk result (λ code. code ≡ instructions.items) }
    {
        let entries = needs::entries(alloc, &instructions)? as usize;
        let variables = needs::variables(&instructions);
        Ok(Code {
            instructions,
            entries,
            variables,
        })
    }

    /// The instructions, in the order in which they run.
    pub fn instructions(&self) -> &[Instruction]
        ensures { result.now ≡ self.now }
    {
        &self.instructions
    }

    /// How many entries of the stack there have to be.
    pub fn entries(&self) -> usize
        ensures { result ≡ entries_of self.now }
    {
        self.entries
    }

    /// How many variables there have to be.
    pub fn variables(&self) -> usize
        ensures { result ≡ variables_of self.now }
    {
        self.variables
    }

    /// How many entries and variables there have to be together.
    pub fn stack_need(&self) -> usize
        ensures { result ≡ stack_need self.now }
    {
        self.entries + self.variables
    }
}
