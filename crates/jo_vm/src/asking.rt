// The instructions that ask a call.
ghost use Rattle.std.specs.Prelude.{◌≡◌};
ghost use Rattle.jo_code.specs.declared.instruction.Instruction.TheVariants as instruction;

use crate::frame::{Due, Frame, Request};
use crate::operators::object_in;
use jo_code::{Base, Destination, Instruction, Operand};
use jo_model::Call;

impl<'a> Frame<'a> {
    ghost use Rattle.jo_vm.specs.inner.Calls.{IsCall};
    ghost use Rattle.jo_vm.specs.inner.State.{IsKnown, fixed, Requested};

    /// Does what an instruction says that asks a call.
    pub(crate) fn ask(&mut self, instruction: &Instruction) -> Request
        requires known { IsKnown self.old }
        requires call { IsCall instruction.now }
        ensures acted { Requested instruction.now self.old result self.new }
        ensures fixed { fixed self.new ≡ fixed self.old }
    {
        match instruction {
            Instruction::Has { to, key, object } => self.has(to, key, object),
            Instruction::Get { to, object, key } => self.get(to, object, key),
            Instruction::Peek { object, key } => self.peek(object, key),
            Instruction::Put {
                keep,
                object,
                key,
                value,
            } => self.put(*keep, object, key, value),
            Instruction::Fill { key, value } => self.fill(key, value),
            Instruction::Delete { object, key } => self.delete(object, key),
            Instruction::Cas {
                object,
                key,
                expected,
                desired,
            } => self.cas(object, key, expected, desired),
            Instruction::New => self.make(),
            Instruction::PrintNames(operand) => self.print_names(operand),
            _ => unreachable!(),
        }
    }

    fn has(&mut self, to: &Destination, key: &Operand, object: &Operand) -> Request
        requires { IsKnown self.old }
        ensures acted { Requested (instruction.Has to.now key.now object.now) self.old result self.new }
        ensures fixed { fixed self.new ≡ fixed self.old }
    {
        let object = self.value(object);
        let key = self.value(key);
        match self.property(object, key) {
            Ok((object, key)) => Request::Call(Call::Has { object, key }, Due::Flag(*to)),
            Err(fault) => Request::End(fault),
        }
    }

    fn get(&mut self, to: &Destination, object: &Operand, key: &Operand) -> Request
        requires { IsKnown self.old }
        ensures acted { Requested (instruction.Get to.now object.now key.now) self.old result self.new }
        ensures fixed { fixed self.new ≡ fixed self.old }
    {
        let key = self.value(key);
        let object = self.value(object);
        match self.property(object, key) {
            Ok((object, key)) => Request::Call(Call::Get { object, key }, Due::Found(*to)),
            Err(fault) => Request::End(fault),
        }
    }

    fn peek(&mut self, object: &Operand, key: &Operand) -> Request
        requires { IsKnown self.old }
        ensures acted { Requested (instruction.Peek object.now key.now) self.old result self.new }
        ensures fixed { fixed self.new ≡ fixed self.old }
    {
        let object = self.seen_below(object, key);
        let key = self.seen(key);
        match self.property(object, key) {
            Ok((object, key)) => Request::Call(
                Call::Get { object, key },
                Due::Found(Destination::Top),
            ),
            Err(fault) => Request::End(fault),
        }
    }

    fn put(&mut self, keep: bool, object: &Operand, key: &Operand, new: &Operand) -> Request
        requires { IsKnown self.old }
        ensures acted { Requested (instruction.Put keep object.now key.now new.now) self.old result self.new }
        ensures fixed { fixed self.new ≡ fixed self.old }
    {
        let value = self.value(new);
        let key = self.value(key);
        let object = self.value(object);
        match self.property(object, key) {
            Ok((object, key)) => {
                let due = if keep { Due::Kept(value) } else { Due::Done };
                Request::Call(Call::Put { object, key, value }, due)
            }
            Err(fault) => Request::End(fault),
        }
    }

    fn fill(&mut self, key: &Operand, new: &Operand) -> Request
        requires { IsKnown self.old }
        ensures acted { Requested (instruction.Fill key.now new.now) self.old result self.new }
        ensures fixed { fixed self.new ≡ fixed self.old }
    {
        let value = self.value(new);
        let key = self.value(key);
        match self.property(self.stack.top(), key) {
            Ok((object, key)) => Request::Call(Call::Put { object, key, value }, Due::Done),
            Err(fault) => Request::End(fault),
        }
    }

    fn delete(&mut self, object: &Operand, key: &Operand) -> Request
        requires { IsKnown self.old }
        ensures acted { Requested (instruction.Delete object.now key.now) self.old result self.new }
        ensures fixed { fixed self.new ≡ fixed self.old }
    {
        let key = self.value(key);
        let object = self.value(object);
        match self.property(object, key) {
            Ok((object, key)) => Request::Call(Call::Delete { object, key }, Due::Done),
            Err(fault) => Request::End(fault),
        }
    }

    fn cas(
        &mut self,
        object: &Base,
        key: &Operand,
        expected: &Operand,
        desired: &Operand,
    ) -> Request
        requires { IsKnown self.old }
        ensures acted { Requested (instruction.Cas object.now key.now expected.now desired.now) self.old result self.new }
        ensures fixed { fixed self.new ≡ fixed self.old }
    {
        let desired = self.value(desired);
        let expected = self.value(expected);
        let key = self.value(key);
        let object = self.base(object);
        match self.property(object, key) {
            Ok((object, key)) => {
                let call = Call::Cas {
                    object,
                    key,
                    expected,
                    desired,
                };
                Request::Call(call, Due::Found(Destination::Top))
            }
            Err(fault) => Request::End(fault),
        }
    }

    fn make(&self) -> Request
        ensures { Requested instruction.New self.now result self.now }
    {
        Request::Call(Call::New, Due::Made)
    }

    fn print_names(&mut self, operand: &Operand) -> Request
        requires { IsKnown self.old }
        ensures acted { Requested (instruction.PrintNames operand.now) self.old result self.new }
        ensures fixed { fixed self.new ≡ fixed self.old }
    {
        let value = self.value(operand);
        match object_in(value) {
            Ok(object) => Request::Call(Call::Names { object }, Due::Names),
            Err(fault) => Request::End(fault),
        }
    }
}
