// What each instruction does to the values of a script.
ghost use Rattle.std.specs.Prelude.{◌≡◌, ◌<◌, ◌≤◌, length};
ghost use Rattle.jo_code.specs.declared.instruction.Instruction.TheVariants as instruction;

use crate::frame::{Frame, Step};
use jo_code::{Destination, Instruction, Operand};
use jo_model::Outcome;
use jo_value::Value;

impl<'a> Frame<'a> {
    ghost use Rattle.jo_code.specs.Needs.{reach_to, reach_in};
    ghost use Rattle.jo_vm.specs.inner.State.{IsKnown, fixed, Acted};

    /// Does what an instruction says.
    pub(crate) fn act(&mut self, instruction: &Instruction) -> Step
        requires known { IsKnown self.old }
        requires reach { reach_in instruction.now ≤ length self.old.variables }
        ensures acted { Acted instruction.now self.old result self.new }
        ensures fixed { fixed self.new ≡ fixed self.old }
    {
        match instruction {
            Instruction::Move { to, from } => self.move_to(to, from),
            Instruction::Number(number) => self.push_number(*number),
            Instruction::Load(n) => self.load(*n),
            Instruction::Store(n) => self.store(*n),
            Instruction::Unary {
                to,
                operator,
                operand,
            } => self.unary(to, *operator, operand),
            Instruction::Binary {
                to,
                operator,
                left,
                right,
            } => self.binary(to, *operator, left, right),
            Instruction::Go(skip) => Step::On(*skip),
            Instruction::Branch {
                when,
                operand,
                skip,
            } => self.branch(*when, operand, *skip),
            Instruction::Compare {
                when,
                operator,
                left,
                right,
                skip,
            } => self.compare(*when, *operator, left, right, *skip),
            Instruction::ShortCircuit { when, skip } => self.short_circuit(*when, *skip),
            Instruction::Print(count) => self.print(*count),
            Instruction::Again(count) => Step::Back(*count),
            _ => Step::Asks,
        }
    }

    fn move_to(&mut self, to: &Destination, from: &Operand) -> Step
        requires known { IsKnown self.old }
        requires reach { reach_to to.now ≤ length self.old.variables }
        ensures acted { Acted (instruction.Move to.now from.now) self.old result self.new }
        ensures fixed { fixed self.new ≡ fixed self.old }
    {
        let value = self.value(from);
        self.leave(to, value);
        Step::On(0)
    }

    fn push_number(&mut self, number: i64) -> Step
        ensures acted { Acted (instruction.Number number) self.old result self.new }
        ensures fixed { fixed self.new ≡ fixed self.old }
    {
        self.stack.push(Value::Int(number));
        Step::On(0)
    }

    fn load(&mut self, n: u32) -> Step
        ensures acted { Acted (instruction.Load n) self.old result self.new }
        ensures fixed { fixed self.new ≡ fixed self.old }
    {
        let value = self.variables.get(n as usize);
        self.stack.push(value);
        Step::On(0)
    }

    fn store(&mut self, n: u32) -> Step
        requires { n < length self.old.variables }
        ensures acted { Acted (instruction.Store n) self.old result self.new }
        ensures fixed { fixed self.new ≡ fixed self.old }
    {
        let value = self.stack.pop();
        self.variables.set(n as usize, value);
        Step::On(0)
    }

    fn print(&mut self, count: u32) -> Step
        ensures acted { Acted (instruction.Print count) self.old result self.new }
        ensures fixed { fixed self.new ≡ fixed self.old }
    {
        let values = self.stack.last(count);
        if self.lines.print_values(self.texts, values) {
            self.stack.drop_last(count);
            Step::On(0)
        } else {
            Step::End(Outcome::OutputFull)
        }
    }
}
