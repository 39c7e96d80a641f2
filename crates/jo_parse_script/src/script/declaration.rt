// Declarations.
ghost use Rattle.std.specs.Prelude.{length};
ghost use Rattle.jo_parse_grammar.specs.inner.ReadStatements as spec;
ghost use Rattle.jo_parse_script.specs.inner.Outcomes.{Reads};
ghost use Rattle.jo_parse_tree.specs.ScriptViews.{binding_tree, bindings_list, let_list, option_tree};

use crate::parser::Parser;
use crate::stop::Stop;
use jo_lex::Punct;
use jo_parse_grammar::Terminal;
use jo_parse_tree::{Binding, Expr, Ident, Let};
use sqlite_items::{Boxed, Items};

impl<'a> Parser<'a> {
    #[tactic(auto, unfolding(jo_parse_grammar::specs::inner::ReadStatements::ident))]
    fn ident(&mut self) -> Result<Ident, Stop>
        ensures { Reads (λ x. x) (spec.ident self.old.tokens) result self.new.tokens }
    {
        let Terminal::Ident(ident) = self.tokens.peek() else {
            return Err(Stop::Unexpected);
        };
        self.tokens.advance();
        Ok(ident)
    }

    #[tactic(auto, using(crate::proofs::ScriptRules::script_reading), unfolding(jo_parse_grammar::specs::inner::ReadStatements::initial_at))]
    fn initial(&mut self, room: u8, ins: bool) -> Result<Option<Boxed<Expr>>, Stop>
        ensures { Reads option_tree (spec.initial_at room ins self.old.tokens) result self.new.tokens }
    {
        if !self.tokens.sees(Punct::Assign) {
            return Ok(None);
        }
        let inner = self.tokens.open(room)?;
        Ok(Some(self.nested(inner, ins)?))
    }

    #[tactic(auto, using(crate::proofs::ScriptRules::script_reading), unfolding(jo_parse_grammar::specs::inner::ReadStatements::binding_at))]
    fn binding(&mut self, room: u8, ins: bool) -> Result<Binding, Stop>
        ensures { Reads binding_tree (spec.binding_at room ins self.old.tokens) result self.new.tokens }
    {
        let ident = self.ident()?;
        let value = self.initial(room, ins)?;
        Ok(Binding { ident, value })
    }

    /// The rest of a declaration after a binding.
    #[tactic(auto, using(crate::proofs::ScriptRules::script_reading), unfolding(jo_parse_grammar::specs::inner::ReadStatements::bindings_from))]
    fn bindings(
        &mut self,
        room: u8,
        ins: bool,
        mut found: Items<Binding>,
    ) -> Result<Items<Binding>, Stop>
        ensures { Reads bindings_list (spec.bindings_from room ins (length self.old.tokens) (bindings_list found) self.old.tokens) result self.new.tokens }
    {
        for _turn in 0..self.tokens.left() {
            if self.tokens.sees(Punct::Semicolon) {
                self.tokens.advance();
                return Ok(found);
            }
            self.tokens.expect(Punct::Comma)?;
            found.push(self.binding(room, ins)?)?;
        }
        Err(Stop::Unexpected)
    }

    /// A declaration after its `let`.
    #[tactic(auto, using(crate::proofs::ScriptRules::script_reading), unfolding(jo_parse_grammar::specs::inner::ReadStatements::let_after))]
    pub(crate) fn declaration(&mut self, room: u8, ins: bool) -> Result<Let, Stop>
        ensures { Reads let_list (spec.let_after room ins self.old.tokens) result self.new.tokens }
    {
        let mut found = Items::new(self.alloc);
        found.push(self.binding(room, ins)?)?;
        let bindings = self.bindings(room, ins, found)?;
        Ok(Let { bindings })
    }
}
