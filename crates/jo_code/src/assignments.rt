// The code of assignments. What comes last is put first.
ghost use Rattle.std.specs.Prelude.{◌≡◌, ◌∷◌, OnOk};
ghost use Rattle.jo_code.specs.declared.instruction.Instruction.TheVariants.{Put};
ghost use Rattle.jo_code.specs.declared.instruction.Operand.TheVariants as operand;
ghost use Rattle.jo_code.specs.inner.Code.{adjusts, adjusts_variable, assigns_declared, assigns_property, assigns_value, assigns_variable, code_of, is_kept, old_operand, puts, reading_of, right_code, settle_kept};
ghost use Rattle.jo_code.specs.inner.Emitted.{after_base, base_use};
ghost use Rattle.jo_parse_tree.specs.Views.{accesses_list, assign_tree, expr_tree, primary_tree};

use crate::draft::Draft;
use crate::members::Spot;
use crate::operands::{held, late_of, operand_in};
use crate::readings::variable_reading;
use crate::scope::Scope;
use crate::usage::{Reading, Use};
use crate::values::is_kept;
use crate::{Instruction, Operand};
use jo_parse_tree::{
    Access, Assign, AssignOperator, BinaryOperator, Expr, Member, Primary, Target,
};
use std::alloc::AllocError;

// The operand of the old value of a variable, to which a value that is read like this is added.
fn old_operand(slot: u32, reading: Reading) -> Operand
    ensures { result ≡ old_operand slot reading }
{
    let old = operand_in(variable_reading(Some(slot)));
    held(late_of(reading), old)
}

// What becomes of a base without accesses that is given a value.
fn base_use(operator: AssignOperator) -> Use
    ensures { result ≡ base_use operator }
{
    match operator {
        AssignOperator::Set => Use::Nowhere,
        AssignOperator::Add | AssignOperator::Subtract => Use::Top,
    }
}

impl Draft {
    // Puts a value on a property, and leaves it where it is kept.
    fn put_kept(&mut self, spot: Spot, value: Operand, to: Use) -> Result<(), AllocError>
        ensures { OnOk result (self.new ≡ Put (is_kept to) spot.object spot.key value ∷ settle_kept to self.old) }
    {
        self.settle_kept(to)?;
        self.put(Instruction::Put {
            keep: is_kept(to),
            object: spot.object,
            key: spot.key,
            value,
        })
    }

    // An operator, of which the left value is found in the operand.
    #[cycle(expressions)]
    fn right(
        &mut self,
        scope: &Scope,
        value: &Expr,
        operator: BinaryOperator,
        left: Operand,
        to: Use,
    ) -> Result<(), AllocError>
        ensures { OnOk result (self.new ≡ right_code operator left (reading_of scope.now (expr_tree value.now)) (code_of scope.now (expr_tree value.now)) to self.old) }
    {
        let right = operand_in(scope.expr_reading(value));
        self.applied(operator, left, right, to)?;
        self.expr_before(scope, value, right)
    }

    // An assignment to what is no variable and no property.
    #[cycle(expressions)]
    fn assign_value(
        &mut self,
        scope: &Scope,
        value: &Expr,
        operator: AssignOperator,
        to: Use,
    ) -> Result<(), AllocError>
        ensures { OnOk result (self.new ≡ assigns_value operator (reading_of scope.now (expr_tree value.now)) (code_of scope.now (expr_tree value.now)) to self.old) }
    {
        let old = Operand::Undefined;
        match operator {
            AssignOperator::Set => self.expr(scope, value, to),
            AssignOperator::Add => self.right(scope, value, BinaryOperator::Plus, old, to),
            AssignOperator::Subtract => self.right(scope, value, BinaryOperator::Minus, old, to),
        }
    }

    #[cycle(expressions)]
    fn assign_variable(
        &mut self,
        scope: &Scope,
        value: &Expr,
        operator: AssignOperator,
        slot: Option<u32>,
        to: Use,
    ) -> Result<(), AllocError>
        ensures { OnOk result (self.new ≡ assigns_variable operator slot (reading_of scope.now (expr_tree value.now)) (code_of scope.now (expr_tree value.now)) to self.old) }
    {
        match slot {
            None => self.assign_value(scope, value, operator, to),
            Some(slot) => self.assign_declared(scope, value, operator, slot, to),
        }
    }

    #[cycle(expressions)]
    fn assign_declared(
        &mut self,
        scope: &Scope,
        value: &Expr,
        operator: AssignOperator,
        slot: u32,
        to: Use,
    ) -> Result<(), AllocError>
        ensures { OnOk result (self.new ≡ assigns_declared operator slot (reading_of scope.now (expr_tree value.now)) (code_of scope.now (expr_tree value.now)) to self.old) }
    {
        match operator {
            AssignOperator::Set => {
                self.kept(slot, to)?;
                self.expr(scope, value, Use::Variable(slot))
            }
            AssignOperator::Add => {
                self.adjust_variable(scope, value, BinaryOperator::Plus, slot, to)
            }
            AssignOperator::Subtract => {
                self.adjust_variable(scope, value, BinaryOperator::Minus, slot, to)
            }
        }
    }

    #[cycle(expressions)]
    fn adjust_variable(
        &mut self,
        scope: &Scope,
        value: &Expr,
        operator: BinaryOperator,
        slot: u32,
        to: Use,
    ) -> Result<(), AllocError>
        ensures { OnOk result (self.new ≡ adjusts_variable operator slot (reading_of scope.now (expr_tree value.now)) (code_of scope.now (expr_tree value.now)) to self.old) }
    {
        let left = old_operand(slot, scope.expr_reading(value));
        self.kept(slot, to)?;
        self.right(scope, value, operator, left, Use::Variable(slot))?;
        match left {
            Operand::Top => self.variable(Some(slot), Use::Top),
            _ => Ok(()),
        }
    }

    // What an assignment to a base alone does after the base.
    #[cycle(expressions)]
    fn after_base(
        &mut self,
        scope: &Scope,
        value: &Expr,
        operator: AssignOperator,
        to: Use,
    ) -> Result<(), AllocError>
        ensures { OnOk result (self.new ≡ after_base operator (reading_of scope.now (expr_tree value.now)) (code_of scope.now (expr_tree value.now)) to self.old) }
    {
        let old = Operand::Top;
        match operator {
            AssignOperator::Set => self.expr(scope, value, to),
            AssignOperator::Add => self.right(scope, value, BinaryOperator::Plus, old, to),
            AssignOperator::Subtract => self.right(scope, value, BinaryOperator::Minus, old, to),
        }
    }

    #[cycle(expressions)]
    fn puts(&mut self, scope: &Scope, value: &Expr, spot: Spot, to: Use) -> Result<(), AllocError>
        ensures { OnOk result (self.new ≡ puts (reading_of scope.now (expr_tree value.now)) (code_of scope.now (expr_tree value.now)) to spot.object spot.key self.old) }
    {
        let operand = operand_in(scope.expr_reading(value));
        self.put_kept(spot, operand, to)?;
        self.expr_before(scope, value, operand)
    }

    #[cycle(expressions)]
    fn adjusts(
        &mut self,
        scope: &Scope,
        value: &Expr,
        operator: BinaryOperator,
        spot: Spot,
        to: Use,
    ) -> Result<(), AllocError>
        ensures { OnOk result (self.new ≡ adjusts operator (reading_of scope.now (expr_tree value.now)) (code_of scope.now (expr_tree value.now)) to spot.object spot.key self.old) }
    {
        self.put_kept(spot, Operand::Top, to)?;
        self.right(scope, value, operator, Operand::Top, Use::Top)?;
        self.put(Instruction::Peek {
            object: spot.object,
            key: spot.key,
        })
    }

    // What is done with a property that is given a value.
    #[cycle(expressions)]
    fn assign_property(
        &mut self,
        scope: &Scope,
        value: &Expr,
        operator: AssignOperator,
        spot: Spot,
        to: Use,
    ) -> Result<(), AllocError>
        ensures { OnOk result (self.new ≡ assigns_property operator (reading_of scope.now (expr_tree value.now)) (code_of scope.now (expr_tree value.now)) to spot.object spot.key self.old) }
    {
        match operator {
            AssignOperator::Set => self.puts(scope, value, spot, to),
            AssignOperator::Add => self.adjusts(scope, value, BinaryOperator::Plus, spot, to),
            AssignOperator::Subtract => self.adjusts(scope, value, BinaryOperator::Minus, spot, to),
        }
    }

    /// An assignment.
    #[cycle(expressions)]
    #[tactic(auto, using(crate::proofs::Viewed::viewed))]
    pub(crate) fn assign(
        &mut self,
        scope: &Scope,
        assign: &Assign,
        to: Use,
    ) -> Result<(), AllocError>
        ensures { OnOk result (self.new ≡ code_of scope.now (assign_tree assign.now) to self.old) }
    {
        let value = assign.value.get();
        match &assign.target {
            Target::Ident(ident) => {
                let slot = scope.variable(*ident);
                self.assign_variable(scope, value, assign.operator, slot, to)
            }
            Target::Member(member) => {
                let member = member.get();
                if member.accesses.as_slice().is_empty() {
                    self.after_base(scope, value, assign.operator, to)?;
                    return self.primary(scope, &member.base, base_use(assign.operator));
                }
                let late = late_of(scope.expr_reading(value));
                let spot = scope.spot(late, member);
                self.assign_property(scope, value, assign.operator, spot, to)?;
                self.place(scope, member, late)
            }
        }
    }
}
