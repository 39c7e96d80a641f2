// Code that is written from its end to its start.
ghost use Rattle.std.specs.Prelude.{◌≡◌, [], ◌∷◌, length, OnOk};
ghost use Rattle.jo_code.specs.inner.Drafts.{IsPatched};

use crate::Instruction;
use std::alloc::{AllocError, Global};
use std::marker::Model;

/// Instructions, seen in the order in which they run.
#[derive(Drop)]
pub(crate) struct Draft {
    backwards: Vec<Instruction>,
}

impl Model for Draft {
    ghost use Rattle.std.specs.Prelude.{List, reverse, length, ◌<◌, ◌^◌};
    ghost use Rattle.jo_code.specs.declared.instruction.Instruction.{Instruction};

    ghost Value = { List Instruction };

    ghost view = { λ d. reverse d.backwards.items };

    ghost invariant = { λ d. length d.backwards.items < 2 ^ 32 };
}

impl Draft {
    pub(crate) fn new(alloc: Global) -> Draft
        ensures { result ≡ [] }
    {
        Draft {
            backwards: Vec::new(alloc),
        }
    }

    /// How many instructions there are.
    pub(crate) fn len(&self) -> u32
        ensures { result ≡ length self.now }
    {
        self.backwards.len() as u32
    }

    /// Puts an instruction before the others.
    pub(crate) fn put(&mut self, instruction: Instruction) -> Result<(), AllocError>
        ensures { OnOk result (self.new ≡ instruction ∷ self.old) }
    {
        // a label holds no more
        if self.backwards.len() >= u32::MAX as usize {
            return Err(AllocError);
        }
        self.backwards.push(instruction)?;
        Ok(())
    }

    /// Writes another instruction in the place of the one behind which `place` others stand.
    pub(crate) fn set(&mut self, place: u32, instruction: Instruction)
        ensures { IsPatched place instruction self.old self.new }
    {
        let place = place as usize;
        if place < self.backwards.len() {
            self.backwards[place] = instruction;
        }
    }

    /// The instructions, in the order in which they run.
    pub(crate) fn into_code(self) -> Vec<Instruction>
        ensures { result.items ≡ self }
    {
        let mut code = self.backwards;
        code.reverse();
        code
    }
}
