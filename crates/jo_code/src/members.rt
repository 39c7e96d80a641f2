// The code of properties. What comes last is put first.
ghost use Rattle.std.specs.Prelude.{◌≡◌, OnOk, drop};
ghost use Rattle.jo_code.specs.declared.instruction.Operand.TheVariants as operand;
ghost use Rattle.jo_code.specs.declared.usage.Late.TheVariants as late;
ghost use Rattle.jo_code.specs.declared.usage.Use.TheVariants as usage;
ghost use Rattle.jo_code.specs.inner.Code.{base_operand, before, code_of, deletes_code, last_late, reaches_code};
ghost use Rattle.jo_code.specs.inner.Emitted.{access_code, key_code, key_reading, last_key, last_object, left_at, nothing, place_code};
ghost use Rattle.jo_parse_tree.specs.Trees.{no_accesses};
ghost use Rattle.jo_parse_tree.specs.Views.{accesses_list, accesses_with, member_tree, primary_tree};

use crate::chains::left_at;
use crate::draft::Draft;
use crate::operands::{both_late, held, late_of, name_operand, operand_in};
use crate::scope::Scope;
use crate::usage::{Late, Reading, Use};
use crate::values::destination_of;
use crate::{Destination, Instruction, Operand};
use jo_parse_tree::{Access, Member, Primary};
use std::alloc::AllocError;

/// Where the last access of a property finds its values.
#[derive(Clone, Copy)]
pub(crate) struct Spot {
    pub(crate) object: Operand,
    pub(crate) key: Operand,
}

impl Scope {
    /// How the key of an access is found.
    #[tactic(auto, using(crate::proofs::Viewed::viewed))]
    pub(crate) fn access_reading(&self, access: &Access) -> Reading
        ensures { result ≡ key_reading self.now (accesses_with no_accesses access.now) }
    {
        match access {
            Access::Name(name) => Reading::Simple(name_operand(*name)),
            Access::Key(key) => self.expr_reading(key.get()),
        }
    }

    // The operand of the base, where the last access may be read so late.
    fn base_operand(&self, late: Late, base: &Primary, accesses: &[Access]) -> Operand
        ensures { result ≡ base_operand self.now late (primary_tree base.now) (accesses_list accesses.now) }
    {
        match accesses {
            [] => Operand::Top,
            [first, ..] => {
                let late = first_late(late, accesses);
                let late = both_late(late, late_of(self.access_reading(first)));
                held(late, operand_in(self.primary_reading(base)))
            }
        }
    }

    // The operand of the last key, which may be read so late.
    fn last_key(&self, late: Late, accesses: &[Access]) -> Operand
        ensures { result ≡ last_key self.now late operand.Top (accesses_list accesses.now) }
    {
        let count = accesses.len();
        if count == 0 {
            return Operand::Top;
        }
        held(late, operand_in(self.access_reading(&accesses[count - 1])))
    }

    /// Where a property is found, whose last access may be read so late.
    pub(crate) fn spot(&self, late: Late, member: &Member) -> Spot
        ensures object { result.object ≡ last_object (base_operand self.now late (primary_tree member.now.base) (accesses_list member.now.accesses)) (accesses_list member.now.accesses) }
        ensures key { result.key ≡ last_key self.now late operand.Top (accesses_list member.now.accesses) }
    {
        let accesses = member.accesses.as_slice();
        let base = self.base_operand(late, &member.base, accesses);
        Spot {
            object: last_object(base, accesses),
            key: self.last_key(late, accesses),
        }
    }
}

// The first access is used before what is read late, where it is not the last one.
fn first_late(late: Late, accesses: &[Access]) -> Late
    ensures { result ≡ last_late late (accesses_list (drop 1 accesses.now)) }
{
    if accesses.len() < 2 {
        return late;
    }
    Late::All
}

fn last_object(base: Operand, accesses: &[Access]) -> Operand
    ensures { result ≡ last_object base (accesses_list accesses.now) }
{
    if accesses.len() < 2 {
        return base;
    }
    Operand::Top
}

impl Draft {
    // What pushes the key of an access, where it is not found in an operand.
    #[cycle(expressions)]
    #[tactic(auto, using(crate::proofs::Viewed::viewed))]
    fn key_before(
        &mut self,
        scope: &Scope,
        access: &Access,
        operand: Operand,
    ) -> Result<(), AllocError>
        ensures { OnOk result (self.new ≡ before operand (key_code scope.now (accesses_with no_accesses access.now)) self.old) }
    {
        match operand {
            Operand::Top => match access {
                Access::Name(name) => self.load(name_operand(*name), Use::Top),
                Access::Key(key) => self.expr(scope, key.get(), Use::Top),
            },
            _ => Ok(()),
        }
    }

    #[cycle(expressions)]
    fn access(
        &mut self,
        scope: &Scope,
        access: &Access,
        is_last: bool,
        late: Late,
        object: Operand,
    ) -> Result<(), AllocError>
        ensures { OnOk result (self.new ≡ access_code scope.now is_last late object (accesses_with no_accesses access.now) self.old) }
    {
        let key = operand_in(scope.access_reading(access));
        if is_last {
            return self.key_before(scope, access, held(late, key));
        }
        self.put(Instruction::Get {
            to: Destination::Top,
            object,
            key,
        })?;
        self.key_before(scope, access, key)
    }

    // Accesses from a base on, of which the last one is not used.
    #[cycle(expressions)]
    fn accesses(
        &mut self,
        scope: &Scope,
        accesses: &[Access],
        late: Late,
        base: Operand,
    ) -> Result<(), AllocError>
        ensures { OnOk result (self.new ≡ reaches_code scope.now late base (accesses_list accesses.now) nothing self.old) }
    {
        let mut at = accesses.len();
        while at > 0 {
            let is_last = at == accesses.len();
            at -= 1;
            self.access(scope, &accesses[at], is_last, late, left_at(at, base))?;
        }
        Ok(())
    }

    /// What stands before the use of a property, whose last access may be read so late.
    #[cycle(expressions)]
    pub(crate) fn place(
        &mut self,
        scope: &Scope,
        member: &Member,
        late: Late,
    ) -> Result<(), AllocError>
        ensures { OnOk result (self.new ≡ place_code scope.now late (primary_tree member.now.base) (accesses_list member.now.accesses) self.old) }
    {
        let accesses = member.accesses.as_slice();
        let base = scope.base_operand(late, &member.base, accesses);
        self.accesses(scope, accesses, late, base)?;
        match base {
            Operand::Top => self.primary(scope, &member.base, Use::Top),
            _ => Ok(()),
        }
    }

    /// The value of a property.
    #[cycle(expressions)]
    pub(crate) fn member(
        &mut self,
        scope: &Scope,
        member: &Member,
        to: Use,
    ) -> Result<(), AllocError>
        ensures { OnOk result (self.new ≡ code_of scope.now (member_tree member.now) to self.old) }
    {
        if member.accesses.as_slice().is_empty() {
            return self.primary(scope, &member.base, to);
        }
        let spot = scope.spot(Late::All, member);
        self.settled(to)?;
        self.put(Instruction::Get {
            to: destination_of(to),
            object: spot.object,
            key: spot.key,
        })?;
        self.place(scope, member, Late::All)
    }

    /// The deletion of a property, which leaves nothing.
    #[cycle(expressions)]
    pub(crate) fn deletes(&mut self, scope: &Scope, member: &Member) -> Result<(), AllocError>
        ensures { OnOk result (self.new ≡ deletes_code scope.now (member_tree member.now) self.old) }
    {
        if member.accesses.as_slice().is_empty() {
            return self.primary(scope, &member.base, Use::Nowhere);
        }
        let spot = scope.spot(Late::All, member);
        self.put(Instruction::Delete {
            object: spot.object,
            key: spot.key,
        })?;
        self.place(scope, member, Late::All)
    }
}
