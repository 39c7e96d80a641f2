// The code of object literals and of `cas`. What comes last is put first.
ghost use Rattle.std.specs.Prelude.{◌≡◌, OnOk};
ghost use Rattle.jo_code.specs.declared.usage.Use.TheVariants as usage;
ghost use Rattle.jo_code.specs.inner.Code.{before, before_base, cas_base, cas_expected, cas_key, code_of, fills_code, operand_of};
ghost use Rattle.jo_code.specs.inner.Emitted.{fill_code};
ghost use Rattle.jo_parse_tree.specs.Views.{cas_tree, expr_tree, object_tree, props_list};

use crate::draft::Draft;
use crate::operands::{base_of, both_late, held, key_operand, late_of, operand_in};
use crate::scope::Scope;
use crate::usage::Use;
use crate::{Base, Instruction, Operand};
use jo_parse_tree::{Cas, Expr, Object, Prop};
use std::alloc::AllocError;

/// Where a `cas` finds its values.
#[derive(Clone, Copy)]
struct CasOperands {
    object: Base,
    key: Operand,
    expected: Operand,
    desired: Operand,
}

fn cas_operands(scope: &Scope, cas: &Cas) -> CasOperands
    ensures object { result.object ≡ cas_base scope.now (expr_tree cas.now.object) (expr_tree cas.now.key) (expr_tree cas.now.expected) (expr_tree cas.now.desired) }
    ensures key { result.key ≡ cas_key scope.now (expr_tree cas.now.key) (expr_tree cas.now.expected) (expr_tree cas.now.desired) }
    ensures expected { result.expected ≡ cas_expected scope.now (expr_tree cas.now.expected) (expr_tree cas.now.desired) }
    ensures desired { result.desired ≡ operand_of scope.now (expr_tree cas.now.desired) }
{
    let object = scope.expr_reading(cas.object.get());
    let key = scope.expr_reading(cas.key.get());
    let expected = scope.expr_reading(cas.expected.get());
    let desired = scope.expr_reading(cas.desired.get());
    let behind_expected = late_of(desired);
    let behind_key = both_late(late_of(expected), behind_expected);
    let behind_object = both_late(late_of(key), behind_key);
    CasOperands {
        object: base_of(held(behind_object, operand_in(object))),
        key: held(behind_key, operand_in(key)),
        expected: held(behind_expected, operand_in(expected)),
        desired: operand_in(desired),
    }
}

impl Draft {
    // What pushes the value of an expression, where it is not found in an operand.
    #[cycle(expressions)]
    pub(crate) fn expr_before(
        &mut self,
        scope: &Scope,
        expr: &Expr,
        operand: Operand,
    ) -> Result<(), AllocError>
        ensures { OnOk result (self.new ≡ before operand (code_of scope.now (expr_tree expr.now) usage.Top) self.old) }
    {
        match operand {
            Operand::Top => self.expr(scope, expr, Use::Top),
            _ => Ok(()),
        }
    }

    #[cycle(expressions)]
    fn base_before(&mut self, scope: &Scope, expr: &Expr, base: Base) -> Result<(), AllocError>
        ensures { OnOk result (self.new ≡ before_base base (code_of scope.now (expr_tree expr.now) usage.Top) self.old) }
    {
        match base {
            Base::Top => self.expr(scope, expr, Use::Top),
            _ => Ok(()),
        }
    }

    #[cycle(expressions)]
    #[tactic(auto, using(crate::proofs::Viewed::viewed))]
    pub(crate) fn object(
        &mut self,
        scope: &Scope,
        object: &Object,
        to: Use,
    ) -> Result<(), AllocError>
        ensures { OnOk result (self.new ≡ code_of scope.now (object_tree object.now) to self.old) }
    {
        self.settle(to)?;
        self.fills(scope, object.props.as_slice())?;
        self.put(Instruction::New)
    }

    #[cycle(expressions)]
    fn fills(&mut self, scope: &Scope, props: &[Prop]) -> Result<(), AllocError>
        ensures { OnOk result (self.new ≡ fills_code scope.now (props_list props.now) self.old) }
    {
        let mut at = props.len();
        while at > 0 {
            at -= 1;
            self.fill(scope, &props[at])?;
        }
        Ok(())
    }

    // A property of a literal, whose object is on top.
    #[cycle(expressions)]
    fn fill(&mut self, scope: &Scope, prop: &Prop) -> Result<(), AllocError>
        ensures { OnOk result (self.new ≡ fill_code scope.now prop.now.key (expr_tree prop.now.value) self.old) }
    {
        let value = operand_in(scope.expr_reading(prop.value.get()));
        let key = key_operand(prop.key);
        self.put(Instruction::Fill { key, value })?;
        self.expr_before(scope, prop.value.get(), value)
    }

    #[cycle(expressions)]
    pub(crate) fn cas(&mut self, scope: &Scope, cas: &Cas, to: Use) -> Result<(), AllocError>
        ensures { OnOk result (self.new ≡ code_of scope.now (cas_tree cas.now) to self.old) }
    {
        let operands = cas_operands(scope, cas);
        let instruction = Instruction::Cas {
            object: operands.object,
            key: operands.key,
            expected: operands.expected,
            desired: operands.desired,
        };
        self.pushed(instruction, to)?;
        self.expr_before(scope, cas.desired.get(), operands.desired)?;
        self.expr_before(scope, cas.expected.get(), operands.expected)?;
        self.expr_before(scope, cas.key.get(), operands.key)?;
        self.base_before(scope, cas.object.get(), operands.object)
    }
}
