// The code of expressions. What comes last is put first.
ghost use Rattle.std.specs.Prelude.{◌≡◌, OnOk};
ghost use Rattle.jo_code.specs.inner.Code.{code_of, reading_of};
ghost use Rattle.jo_code.specs.inner.Emitted.{applied_code};
ghost use Rattle.jo_parse_tree.specs.Trees as tree;
ghost use Rattle.jo_parse_tree.specs.Views.{chain_tree, choice_tree, cond_tree, expr_tree, postfix_tree, primary_tree, unary_tree};

use crate::draft::Draft;
use crate::operands::operand_in;
use crate::scope::Scope;
use crate::usage::Use;
use crate::values::{destination_of, farther};
use crate::{Instruction, Operand};
use jo_parse_tree::{Chain, Choice, Cond, Expr, Postfix, Primary, Unary, UnaryOperator};
use std::alloc::AllocError;

impl Draft {
    /// The code of an expression.
    #[cycle(expressions)]
    #[tactic(auto, using(crate::proofs::Viewed::viewed))]
    pub(crate) fn expr(&mut self, scope: &Scope, expr: &Expr, to: Use) -> Result<(), AllocError>
        ensures { OnOk result (self.new ≡ code_of scope.now (expr_tree expr.now) to self.old) }
    {
        match expr {
            Expr::Cond(cond) => self.cond(scope, cond, to),
            Expr::Assign(assign) => self.assign(scope, assign.get(), to),
        }
    }

    #[cycle(expressions)]
    #[tactic(auto, using(crate::proofs::Viewed::viewed))]
    fn cond(&mut self, scope: &Scope, cond: &Cond, to: Use) -> Result<(), AllocError>
        ensures { OnOk result (self.new ≡ code_of scope.now (cond_tree cond.now) to self.old) }
    {
        match cond {
            Cond::Chain(chain) => self.chain(scope, chain, to),
            Cond::Choice(choice) => self.choice(scope, choice.get(), to),
        }
    }

    #[cycle(expressions)]
    #[tactic(auto, using(crate::proofs::Viewed::viewed))]
    fn choice(&mut self, scope: &Scope, choice: &Choice, to: Use) -> Result<(), AllocError>
        ensures { OnOk result (self.new ≡ code_of scope.now (choice_tree choice.now) to self.old) }
    {
        let end = self.len();
        self.expr(scope, choice.otherwise.get(), to)?;
        let other = self.len();
        self.put(Instruction::Go(other.saturating_sub(end)))?;
        let skipped = self.len().saturating_sub(end);
        let farther = farther(skipped, to)?;
        self.expr(scope, choice.then.get(), farther)?;
        let skip = self.len().saturating_sub(other);
        self.chain(scope, &choice.condition, Use::Test { when: false, skip })
    }

    /// The code of a chain of operators.
    #[cycle(expressions)]
    #[tactic(auto, using(crate::proofs::Viewed::viewed))]
    pub(crate) fn chain(&mut self, scope: &Scope, chain: &Chain, to: Use) -> Result<(), AllocError>
        ensures { OnOk result (self.new ≡ code_of scope.now (chain_tree chain.now) to self.old) }
    {
        match chain {
            Chain::Unary(unary) => self.unary(scope, unary, to),
            Chain::Binary(binary) => self.binary(scope, binary.get(), to),
        }
    }

    #[cycle(expressions)]
    #[tactic(auto, using(crate::proofs::Viewed::viewed))]
    fn unary(&mut self, scope: &Scope, unary: &Unary, to: Use) -> Result<(), AllocError>
        ensures { OnOk result (self.new ≡ code_of scope.now (unary_tree unary.now) to self.old) }
    {
        match unary {
            Unary::Applied(operator, operand) => {
                self.unary_operator(scope, *operator, operand.get(), to)
            }
            Unary::Delete(member) => {
                self.load(Operand::Bool(true), to)?;
                self.deletes(scope, member.get())
            }
            Unary::Postfix(postfix) => self.postfix(scope, postfix, to),
        }
    }

    #[cycle(expressions)]
    #[tactic(auto, using(crate::proofs::Viewed::viewed))]
    fn unary_operator(
        &mut self,
        scope: &Scope,
        operator: UnaryOperator,
        unary: &Unary,
        to: Use,
    ) -> Result<(), AllocError>
        ensures { OnOk result (self.new ≡ code_of scope.now (tree.unary operator (unary_tree unary.now)) to self.old) }
    {
        match operator {
            UnaryOperator::Minus => self.unary_value(scope, operator, unary, to),
            UnaryOperator::Not => match to {
                Use::Nowhere => self.unary(scope, unary, to),
                Use::Test { when, skip } => {
                    self.unary(scope, unary, Use::Test { when: !when, skip })
                }
                _ => self.unary_value(scope, operator, unary, to),
            },
        }
    }

    // The value that a unary operator makes.
    #[cycle(expressions)]
    #[tactic(auto, using(crate::proofs::Viewed::viewed))]
    fn unary_value(
        &mut self,
        scope: &Scope,
        operator: UnaryOperator,
        unary: &Unary,
        to: Use,
    ) -> Result<(), AllocError>
        ensures { OnOk result (self.new ≡ applied_code operator (reading_of scope.now (unary_tree unary.now)) (code_of scope.now (unary_tree unary.now)) to self.old) }
    {
        let operand = operand_in(scope.unary_reading(unary));
        self.settled(to)?;
        let to = destination_of(to);
        self.put(Instruction::Unary {
            to,
            operator,
            operand,
        })?;
        match operand {
            Operand::Top => self.unary(scope, unary, Use::Top),
            _ => Ok(()),
        }
    }

    #[cycle(expressions)]
    #[tactic(auto, using(crate::proofs::Viewed::viewed))]
    fn postfix(&mut self, scope: &Scope, postfix: &Postfix, to: Use) -> Result<(), AllocError>
        ensures { OnOk result (self.new ≡ code_of scope.now (postfix_tree postfix.now) to self.old) }
    {
        match postfix {
            Postfix::Primary(primary) => self.primary(scope, primary, to),
            Postfix::Member(member) => self.member(scope, member.get(), to),
        }
    }

    /// The code of a primary expression.
    #[cycle(expressions)]
    #[tactic(auto, using(crate::proofs::Viewed::viewed))]
    pub(crate) fn primary(
        &mut self,
        scope: &Scope,
        primary: &Primary,
        to: Use,
    ) -> Result<(), AllocError>
        ensures { OnOk result (self.new ≡ code_of scope.now (primary_tree primary.now) to self.old) }
    {
        match primary {
            Primary::Number(number) => self.number(*number, to),
            Primary::Text(literal) => self.load(Operand::Text(literal.text), to),
            Primary::True => self.load(Operand::Bool(true), to),
            Primary::False => self.load(Operand::Bool(false), to),
            Primary::Null => self.load(Operand::Null, to),
            Primary::Undefined => self.load(Operand::Undefined, to),
            Primary::Shared => self.load(Operand::Shared, to),
            Primary::Ident(ident) => self.variable(scope.variable(*ident), to),
            Primary::Object(object) => self.object(scope, object.get(), to),
            Primary::Group(expr) => self.expr(scope, expr.get(), to),
            Primary::Cas(cas) => self.cas(scope, cas.get(), to),
        }
    }
}
