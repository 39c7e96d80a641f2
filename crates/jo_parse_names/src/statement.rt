// Statements, and the items of blocks.
ghost use Rattle.std.specs.Prelude.{◌≡◌, ◌++◌, OnOk};
ghost use Rattle.jo_parse_grammar.specs.Declarations.{at_beginning, at_end, faults_of, faults_of_head, faults_of_items, faults_of_uses, uses_of, uses_of_all, uses_of_optional};
ghost use Rattle.jo_parse_names.specs.inner.Blocks.{Enters, Judges, Moves, all_of, answer_to, scope_after_item, item_faults, round_faults};
ghost use Rattle.jo_parse_tree.specs.Blocks.{declared_by, declared_in, names_of};
ghost use Rattle.jo_parse_tree.specs.ScriptViews.{bindings_list, head_tree, if_tree, items_list, option_tree, optional_statement, statement_tree, trees_list};
ghost use Rattle.jo_parse_tree.specs.Trees.{declares, for, while};
ghost use Rattle.jo_parse_tree.specs.Views.{expr_tree};

use crate::declaration::fault;
use crate::scopes::Scopes;
use jo_lex::{ParseFault, Refusal};
use jo_parse_tree::{Binding, Expr, For, ForHead, If, Item, Statement, While};
use sqlite_items::Boxed;

impl Scopes {
    // Several expressions.
    fn exprs(&self, exprs: &[Expr]) -> Result<(), Refusal>
        ensures { result ≡ answer_to (faults_of_uses (all_of self.now) (uses_of_all (trees_list exprs.now))) }
    {
        for expr in exprs {
            self.expr(expr)?;
        }
        Ok(())
    }

    #[tactic(auto, using(crate::proofs::Judging::judging))]
    fn condition(&self, expr: &Expr) -> Result<(), ParseFault>
        ensures { Judges (faults_of_uses (all_of self.now) (uses_of (expr_tree expr.now))) result }
    {
        fault(self.expr(expr))
    }

    #[tactic(auto, using(crate::proofs::Judging::judging))]
    fn step(&self, expr: &Option<Boxed<Expr>>) -> Result<(), ParseFault>
        ensures { Judges (faults_of_uses (all_of self.now) (uses_of_optional (option_tree expr.now))) result }
    {
        fault(self.optional(expr))
    }

    #[tactic(auto, using(crate::proofs::Turns::uses))]
    fn both(&self, first: &Option<Boxed<Expr>>, then: &Option<Boxed<Expr>>) -> Result<(), Refusal>
        ensures { result ≡ answer_to (faults_of_uses (all_of self.now) (uses_of_optional (option_tree first.now) ++ uses_of_optional (option_tree then.now))) }
    {
        self.optional(first)?;
        self.optional(then)
    }

    #[tactic(auto, using(crate::proofs::Judging::judging))]
    fn steps(
        &self,
        first: &Option<Boxed<Expr>>,
        then: &Option<Boxed<Expr>>,
    ) -> Result<(), ParseFault>
        ensures { Judges (faults_of_uses (all_of self.now) (uses_of_optional (option_tree first.now) ++ uses_of_optional (option_tree then.now))) result }
    {
        fault(self.both(first, then))
    }

    #[tactic(auto, using(crate::proofs::Judging::judging))]
    fn print(&self, exprs: &[Expr]) -> Result<(), ParseFault>
        ensures { Judges (faults_of_uses (all_of self.now) (uses_of_all (trees_list exprs.now))) result }
    {
        fault(self.exprs(exprs))
    }

    // Goes into the block of a `for` that begins with these declarations.
    fn declarations(&mut self, bindings: &[Binding]) -> Result<(), ParseFault>
        ensures judged { Judges (faults_of_head (all_of self.old) (declares (bindings_list bindings.now))) result }
        ensures entered { OnOk result (Enters self.old (at_end (names_of (bindings_list bindings.now))) self.new) }
    {
        self.enter(self.of_bindings(bindings)?)?;
        self.bindings(bindings)
    }

    // Goes into the block of a `for`, and after the first part of its head.
    #[tactic(auto, using(crate::proofs::Stated::entering))]
    fn head(&mut self, head: &ForHead) -> Result<(), ParseFault>
        ensures judged { Judges (faults_of_head (all_of self.old) (head_tree head.now)) result }
        ensures entered { OnOk result (Enters self.old (at_end (declared_by (head_tree head.now))) self.new) }
    {
        match head {
            ForHead::Let(declaration) => self.declarations(declaration.bindings.as_slice()),
            ForHead::Expr(expr) => {
                self.step(expr)?;
                self.enter(self.empty_block())?;
                Ok(())
            }
        }
    }

    #[cycle(statements)]
    #[tactic(auto, using(crate::proofs::Stated::stating))]
    fn statement(&mut self, statement: &Statement) -> Result<(), ParseFault>
        ensures judged { Judges (faults_of (all_of self.old) (statement_tree statement.now)) result }
        ensures same { OnOk result (self.new ≡ self.old) }
    {
        match statement {
            Statement::Empty | Statement::Break | Statement::Continue => Ok(()),
            Statement::Block(block) => self.block(block.items.as_slice()),
            Statement::If(branch) => self.branch(branch.get()),
            Statement::While(repeat) => self.repeat(repeat.get()),
            Statement::For(repeat) => self.repeat_for(repeat.get()),
            Statement::Print(exprs) => self.print(exprs.as_slice()),
            Statement::PrintNames(expr) | Statement::Expr(expr) => self.condition(expr.get()),
        }
    }

    #[cycle(statements)]
    fn branch(&mut self, branch: &If) -> Result<(), ParseFault>
        ensures judged { Judges (faults_of (all_of self.old) (if_tree (expr_tree branch.now.condition) (statement_tree branch.now.then) (optional_statement branch.now.otherwise))) result }
        ensures same { OnOk result (self.new ≡ self.old) }
    {
        self.condition(branch.condition.get())?;
        self.statement(&branch.then)?;
        match &branch.otherwise {
            Some(otherwise) => self.statement(otherwise),
            None => Ok(()),
        }
    }

    #[cycle(statements)]
    fn repeat(&mut self, repeat: &While) -> Result<(), ParseFault>
        ensures judged { Judges (faults_of (all_of self.old) (while (expr_tree repeat.now.condition) (statement_tree repeat.now.body))) result }
        ensures same { OnOk result (self.new ≡ self.old) }
    {
        self.condition(repeat.condition.get())?;
        self.statement(&repeat.body)
    }

    #[cycle(statements)]
    fn repeat_for(&mut self, repeat: &For) -> Result<(), ParseFault>
        ensures judged { Judges (faults_of (all_of self.old) (for (head_tree repeat.now.head) (option_tree repeat.now.condition) (option_tree repeat.now.step) (statement_tree repeat.now.body))) result }
        ensures same { OnOk result (self.new ≡ self.old) }
    {
        self.head(&repeat.head)?;
        self.round(repeat)?;
        self.leave();
        Ok(())
    }

    // What stands after the head of a `for`.
    #[cycle(statements)]
    fn round(&mut self, repeat: &For) -> Result<(), ParseFault>
        ensures judged { Judges (round_faults (all_of self.old) repeat.now) result }
        ensures same { OnOk result (self.new ≡ self.old) }
    {
        self.steps(&repeat.condition, &repeat.step)?;
        self.statement(&repeat.body)
    }

    #[cycle(statements)]
    fn block(&mut self, items: &[Item]) -> Result<(), ParseFault>
        ensures judged { Judges (faults_of_items (at_beginning (declared_in (items_list items.now))) (all_of self.old) (items_list items.now)) result }
        ensures same { OnOk result (self.new ≡ self.old) }
    {
        self.enter(self.of_items(items)?)?;
        self.items(items)?;
        self.leave();
        Ok(())
    }

    /// The items of the innermost block, from some place in it on.
    #[cycle(statements)]
    pub(crate) fn items(&mut self, items: &[Item]) -> Result<(), ParseFault>
        ensures judged { Judges (faults_of_items self.old.0 self.old.1 (items_list items.now)) result }
        ensures outer { OnOk result (self.new.1 ≡ self.old.1) }
    {
        for item in items {
            self.item(item)?;
        }
        Ok(())
    }

    #[cycle(statements)]
    fn item(&mut self, item: &Item) -> Result<(), ParseFault>
        ensures judged { Judges (item_faults self.old item.now) result }
        ensures moved { OnOk result (Moves self.old (scope_after_item self.old.0 item.now) self.new) }
    {
        match item {
            Item::Let(declaration) => self.bindings(declaration.bindings.as_slice()),
            Item::Statement(statement) => self.statement(statement),
        }
    }
}
