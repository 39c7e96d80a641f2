// The code of statements. It is put before what is there, from the last item to the first.
ghost use Rattle.std.specs.Prelude.{◌≡◌, ◌+◌, ◌-◌, length, OnOk, IfOk};
ghost use Rattle.jo_code.specs.inner.Code.{pushes_code};
ghost use Rattle.jo_code.specs.inner.Stated.{IsClosed, branch_tree, first_code, for_tree, item_code, round_code, test_code, when_tree, while_tree};
ghost use Rattle.jo_code.specs.inner.StatementCode.{items_code, names_code, print_code, statement_code};
ghost use Rattle.jo_code.specs.declared.instruction.Instruction.TheVariants.{Print};
ghost use Rattle.jo_parse_tree.specs.Blocks.{declared_in};
ghost use Rattle.jo_parse_tree.specs.ScriptViews.{items_list, statement_tree, trees_list};
ghost use Rattle.jo_parse_tree.specs.Trees.{block};
ghost use Rattle.jo_parse_tree.specs.Views.{expr_tree};

use crate::draft::Draft;
use crate::operands::operand_in;
use crate::scope::Scope;
use crate::usage::Use;
use crate::{Instruction, Operand};
use jo_parse_tree::{Expr, For, If, Item, Statement, While};
use std::alloc::AllocError;

// A label that is farther away.
fn farther(label: u32, skipped: u32) -> Result<u32, AllocError>
    ensures { IfOk result (λ l. l ≡ label + skipped) }
{
    label.checked_add(skipped).ok_or(AllocError)
}

// An instruction that prints `count` values.
fn print_of(count: usize) -> Result<Instruction, AllocError>
    ensures { IfOk result (λ i. i ≡ Print count) }
{
    match u32::try_from(count) {
        Ok(count) => Ok(Instruction::Print(count)),
        Err(_) => Err(AllocError),
    }
}

impl Draft {
    // How many instructions there are before the last `rest`.
    fn gap(&self, rest: u32) -> u32
        ensures { result ≡ length self.now - rest }
    {
        self.len().saturating_sub(rest)
    }

    // The test of a statement. Where it fails, all instructions but the last `rest` are skipped.
    fn test(&mut self, scope: &Scope, expr: &Expr, rest: u32) -> Result<(), AllocError>
        ensures { OnOk result (self.new ≡ test_code scope.now (expr_tree expr.now) rest self.old) }
    {
        let skip = self.gap(rest);
        self.expr(scope, expr, Use::Test { when: false, skip })
    }

    // The values of several expressions.
    fn pushes(&mut self, scope: &Scope, exprs: &[Expr]) -> Result<(), AllocError>
        ensures { OnOk result (self.new ≡ pushes_code scope.now (trees_list exprs.now) self.old) }
    {
        let mut at = exprs.len();
        while at > 0 {
            at -= 1;
            self.expr(scope, &exprs[at], Use::Top)?;
        }
        Ok(())
    }

    fn print(&mut self, scope: &Scope, exprs: &[Expr]) -> Result<(), AllocError>
        ensures { OnOk result (self.new ≡ print_code scope.now (trees_list exprs.now) self.old) }
    {
        self.put(print_of(exprs.len())?)?;
        self.pushes(scope, exprs)
    }

    fn print_names(&mut self, scope: &Scope, expr: &Expr) -> Result<(), AllocError>
        ensures { OnOk result (self.new ≡ names_code scope.now (expr_tree expr.now) self.old) }
    {
        let operand = operand_in(scope.expr_reading(expr));
        self.put(Instruction::PrintNames(operand))?;
        match operand {
            Operand::Top => self.expr(scope, expr, Use::Top),
            _ => Ok(()),
        }
    }

    // Takes the first turn like the others, once it is known how many instructions a turn has.
    fn close(&mut self, rest: u32) -> Result<(), AllocError>
        ensures { OnOk result (IsClosed rest self.old self.new) }
    {
        let count = self.gap(rest);
        self.set(rest, Instruction::Again(count));
        self.put(Instruction::Again(0))
    }

    // A statement, of which a `break` skips `broken` instructions, and a `continue` `continued` of them.
    #[cycle(statements)]
    #[tactic(auto, using(crate::proofs::Stating::stating))]
    fn statement(
        &mut self,
        scope: &mut Scope,
        statement: &Statement,
        broken: u32,
        continued: u32,
    ) -> Result<(), AllocError>
        ensures code { OnOk result (self.new ≡ statement_code scope.old (statement_tree statement.now) broken continued self.old) }
        ensures same { OnOk result (scope.new ≡ scope.old) }
    {
        match statement {
            Statement::Empty => Ok(()),
            Statement::Block(inner) => self.block(scope, inner.items.as_slice(), broken, continued),
            Statement::If(inner) => self.branch(scope, inner.get(), broken, continued),
            Statement::While(inner) => self.repeat(scope, inner.get()),
            Statement::For(inner) => self.repeat_for(scope, inner.get()),
            Statement::Break => self.put(Instruction::Go(broken)),
            Statement::Continue => self.put(Instruction::Go(continued)),
            Statement::Print(exprs) => self.print(scope, exprs.as_slice()),
            Statement::PrintNames(expr) => self.print_names(scope, expr.get()),
            Statement::Expr(expr) => self.expr(scope, expr.get(), Use::Nowhere),
        }
    }

    #[cycle(statements)]
    fn block(
        &mut self,
        scope: &mut Scope,
        items: &[Item],
        broken: u32,
        continued: u32,
    ) -> Result<(), AllocError>
        ensures code { OnOk result (self.new ≡ statement_code scope.old (block (items_list items.now)) broken continued self.old) }
        ensures same { OnOk result (scope.new ≡ scope.old) }
    {
        let outer = scope.len();
        scope.enter_items(items)?;
        self.all(scope, items, broken, continued)?;
        scope.leave(outer)
    }

    #[cycle(statements)]
    fn branch(
        &mut self,
        scope: &mut Scope,
        branch: &If,
        broken: u32,
        continued: u32,
    ) -> Result<(), AllocError>
        ensures code { OnOk result (self.new ≡ statement_code scope.old (branch_tree branch.now) broken continued self.old) }
        ensures same { OnOk result (scope.new ≡ scope.old) }
    {
        let rest = self.len();
        match &branch.otherwise {
            Some(otherwise) => {
                self.statement(scope, otherwise, broken, continued)?;
                self.either(scope, branch, broken, continued, rest)
            }
            None => self.when(scope, branch, broken, continued),
        }
    }

    #[cycle(statements)]
    fn when(
        &mut self,
        scope: &mut Scope,
        branch: &If,
        broken: u32,
        continued: u32,
    ) -> Result<(), AllocError>
        ensures code { OnOk result (self.new ≡ statement_code scope.old (when_tree branch.now) broken continued self.old) }
        ensures same { OnOk result (scope.new ≡ scope.old) }
    {
        let rest = self.len();
        self.statement(scope, &branch.then, broken, continued)?;
        self.test(scope, branch.condition.get(), rest)
    }

    // The test and the first of two, before the other one, behind which `rest` instructions stand.
    #[cycle(statements)]
    fn either(
        &mut self,
        scope: &mut Scope,
        branch: &If,
        broken: u32,
        continued: u32,
        rest: u32,
    ) -> Result<(), AllocError>
        ensures code { OnOk result (self.new ≡ first_code scope.old branch.now broken continued rest self.old) }
        ensures same { OnOk result (scope.new ≡ scope.old) }
    {
        let other = self.len();
        self.put(Instruction::Go(self.gap(rest)))?;
        let skipped = self.gap(rest);
        self.statement(
            scope,
            &branch.then,
            farther(broken, skipped)?,
            farther(continued, skipped)?,
        )?;
        self.test(scope, branch.condition.get(), other)
    }

    #[cycle(statements)]
    fn repeat(&mut self, scope: &mut Scope, repeat: &While) -> Result<(), AllocError>
        ensures code { OnOk result (self.new ≡ statement_code scope.old (while_tree repeat.now) 0 0 self.old) }
        ensures same { OnOk result (scope.new ≡ scope.old) }
    {
        let rest = self.len();
        self.put(Instruction::Again(0))?;
        let broken = self.gap(rest);
        self.statement(scope, &repeat.body, broken, 0)?;
        self.test(scope, repeat.condition.get(), rest)?;
        self.close(rest)
    }

    // A `for` from its condition on.
    #[cycle(statements)]
    fn round(&mut self, scope: &mut Scope, repeat: &For) -> Result<(), AllocError>
        ensures code { OnOk result (self.new ≡ round_code scope.old repeat.now self.old) }
        ensures same { OnOk result (scope.new ≡ scope.old) }
    {
        let rest = self.len();
        self.put(Instruction::Again(0))?;
        self.step(scope, &repeat.step)?;
        let broken = self.gap(rest);
        self.statement(scope, &repeat.body, broken, 0)?;
        let skip = self.gap(rest);
        self.condition(scope, &repeat.condition, skip)?;
        self.close(rest)
    }

    #[cycle(statements)]
    fn repeat_for(&mut self, scope: &mut Scope, repeat: &For) -> Result<(), AllocError>
        ensures code { OnOk result (self.new ≡ statement_code scope.old (for_tree repeat.now) 0 0 self.old) }
        ensures same { OnOk result (scope.new ≡ scope.old) }
    {
        let outer = scope.len();
        scope.enter_head(&repeat.head)?;
        self.round(scope, repeat)?;
        self.start(scope, &repeat.head)?;
        scope.leave(outer)
    }

    /// The items of the innermost block.
    #[cycle(statements)]
    pub(crate) fn all(
        &mut self,
        scope: &mut Scope,
        items: &[Item],
        broken: u32,
        continued: u32,
    ) -> Result<(), AllocError>
        ensures code { OnOk result (self.new ≡ items_code scope.old (items_list items.now) broken continued self.old) }
        ensures same { OnOk result (scope.new ≡ scope.old) }
    {
        let rest = self.len();
        let mut at = items.len();
        while at > 0 {
            at -= 1;
            let skipped = self.gap(rest);
            self.item(
                scope,
                &items[at],
                farther(broken, skipped)?,
                farther(continued, skipped)?,
            )?;
        }
        Ok(())
    }

    #[cycle(statements)]
    fn item(
        &mut self,
        scope: &mut Scope,
        item: &Item,
        broken: u32,
        continued: u32,
    ) -> Result<(), AllocError>
        ensures code { OnOk result (self.new ≡ item_code scope.old item.now broken continued self.old) }
        ensures same { OnOk result (scope.new ≡ scope.old) }
    {
        match item {
            Item::Let(declaration) => self.bindings(scope, declaration.bindings.as_slice()),
            Item::Statement(inner) => self.statement(scope, inner, broken, continued),
        }
    }
}
