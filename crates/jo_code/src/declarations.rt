// The code of declarations, and of the parts of statements that may be left out.
ghost use Rattle.std.specs.Prelude.{◌≡◌, OnOk};
ghost use Rattle.jo_code.specs.inner.Stated.{binding_code};
ghost use Rattle.jo_code.specs.inner.StatementCode.{binds_code, condition_code, initial_code, starts_code, step_code, use_of};
ghost use Rattle.jo_parse_tree.specs.ScriptViews.{binding_tree, bindings_list, head_tree, option_tree};

use crate::Operand;
use crate::draft::Draft;
use crate::scope::Scope;
use crate::usage::Use;
use jo_parse_tree::{Binding, Expr, ForHead};
use sqlite_items::Boxed;
use std::alloc::AllocError;

// What becomes of a value that goes into a variable.
fn use_of(variable: Option<u32>) -> Use
    ensures { result ≡ use_of variable }
{
    match variable {
        Some(n) => Use::Variable(n),
        None => Use::Nowhere,
    }
}

impl Draft {
    /// The step of a `for`, which may be left out.
    pub(crate) fn step(
        &mut self,
        scope: &Scope,
        step: &Option<Boxed<Expr>>,
    ) -> Result<(), AllocError>
        ensures { OnOk result (self.new ≡ step_code scope.now (option_tree step.now) self.old) }
    {
        match step {
            Some(expr) => self.expr(scope, expr.get(), Use::Nowhere),
            None => Ok(()),
        }
    }

    /// The condition of a `for`, which may be left out. Where it fails, `skip` instructions are skipped.
    pub(crate) fn condition(
        &mut self,
        scope: &Scope,
        condition: &Option<Boxed<Expr>>,
        skip: u32,
    ) -> Result<(), AllocError>
        ensures { OnOk result (self.new ≡ condition_code scope.now (option_tree condition.now) skip self.old) }
    {
        match condition {
            Some(expr) => self.expr(scope, expr.get(), Use::Test { when: false, skip }),
            None => Ok(()),
        }
    }

    // The first value of a variable.
    fn initial(
        &mut self,
        scope: &Scope,
        value: &Option<Boxed<Expr>>,
        to: Use,
    ) -> Result<(), AllocError>
        ensures { OnOk result (self.new ≡ initial_code scope.now (option_tree value.now) to self.old) }
    {
        match value {
            Some(expr) => self.expr(scope, expr.get(), to),
            None => self.load(Operand::Undefined, to),
        }
    }

    // A binding, before others.
    fn binding(&mut self, scope: &Scope, binding: &Binding) -> Result<(), AllocError>
        ensures { OnOk result (self.new ≡ binding_code scope.now (binding_tree binding.now) self.old) }
    {
        self.initial(scope, &binding.value, use_of(scope.variable(binding.ident)))
    }

    /// The declarations of a `let`.
    pub(crate) fn bindings(&mut self, scope: &Scope, bindings: &[Binding]) -> Result<(), AllocError>
        ensures { OnOk result (self.new ≡ binds_code scope.now (bindings_list bindings.now) self.old) }
    {
        let mut at = bindings.len();
        while at > 0 {
            at -= 1;
            self.binding(scope, &bindings[at])?;
        }
        Ok(())
    }

    /// The first part of the head of a `for`.
    pub(crate) fn start(&mut self, scope: &Scope, head: &ForHead) -> Result<(), AllocError>
        ensures { OnOk result (self.new ≡ starts_code scope.now (head_tree head.now) self.old) }
    {
        match head {
            ForHead::Let(declaration) => self.bindings(scope, declaration.bindings.as_slice()),
            ForHead::Expr(expr) => self.step(scope, expr),
        }
    }
}
