// Declarations of variables.
ghost use Rattle.std.specs.Prelude.{◌≡◌, OnOk};
ghost use Rattle.jo_parse_grammar.specs.Declarations.{scope_after_all, faults_of_bindings, faults_of_name, faults_of_uses, uses_of_optional};
ghost use Rattle.jo_parse_names.specs.inner.Blocks.{Ends, Judges, Moves, all_of, answer_to, binding_faults, refused};
ghost use Rattle.jo_parse_tree.specs.ScriptViews.{binding_tree, bindings_list, option_tree};

use crate::scopes::Scopes;
use jo_lex::{ParseFault, Refusal, RefusalKind};
use jo_parse_tree::{Binding, Expr, Ident};
use sqlite_items::Boxed;

/// The answer, as one to a set of scripts.
pub(crate) fn fault(answer: Result<(), Refusal>) -> Result<(), ParseFault>
    ensures { result ≡ refused answer }
{
    match answer {
        Ok(()) => Ok(()),
        Err(refusal) => Err(ParseFault::Refused(refusal)),
    }
}

impl Scopes {
    /// An expression that may be left out.
    pub(crate) fn optional(&self, expr: &Option<Boxed<Expr>>) -> Result<(), Refusal>
        ensures { result ≡ answer_to (faults_of_uses (all_of self.now) (uses_of_optional (option_tree expr.now))) }
    {
        match expr {
            Some(expr) => self.expr(expr.get()),
            None => Ok(()),
        }
    }

    // The name of a declaration.
    fn declared(&self, ident: Ident) -> Result<(), Refusal>
        ensures { result ≡ answer_to (faults_of_name self.now.0 ident) }
    {
        if self.has_ended(ident.text.0) {
            return Err(Refusal {
                kind: RefusalKind::Twice,
                place: ident.place,
            });
        }
        Ok(())
    }

    // A binding, but for its end.
    #[tactic(auto, using(crate::proofs::Turns::uses))]
    fn begun(&self, binding: &Binding) -> Result<(), Refusal>
        ensures { result ≡ answer_to (binding_faults self.now (binding_tree binding.now)) }
    {
        self.declared(binding.ident)?;
        self.optional(&binding.value)
    }

    fn binding(&mut self, binding: &Binding) -> Result<(), ParseFault>
        ensures judged { Judges (binding_faults self.old (binding_tree binding.now)) result }
        ensures block { OnOk result (Ends self.old.0 binding.now.ident.text.0 self.new.0) }
        ensures outer { OnOk result (self.new.1 ≡ self.old.1) }
    {
        fault(self.begun(binding))?;
        self.end(binding.ident.text.0)?;
        Ok(())
    }

    /// The declarations of a `let` of the innermost block.
    pub(crate) fn bindings(&mut self, bindings: &[Binding]) -> Result<(), ParseFault>
        ensures judged { Judges (faults_of_bindings self.old.0 self.old.1 (bindings_list bindings.now)) result }
        ensures moved { OnOk result (Moves self.old (scope_after_all self.old.0 (bindings_list bindings.now)) self.new) }
    {
        for binding in bindings {
            self.binding(binding)?;
        }
        Ok(())
    }
}
