// Properties, by what is accessed.
ghost use Rattle.std.specs.Prelude.{length};
ghost use Rattle.jo_parse_grammar.specs.inner.Read as spec;
ghost use Rattle.jo_parse_grammar.specs.inner.Read.{under};
ghost use Rattle.jo_parse_script.specs.inner.Outcomes.{Reads};
ghost use Rattle.jo_parse_tree.specs.Trees.{no_accesses};
ghost use Rattle.jo_parse_tree.specs.Views.{accesses_list, expr_tree, postfix_tree};

use crate::parser::Parser;
use crate::shape::accessed;
use crate::stop::Stop;
use jo_lex::Punct;
use jo_parse_tree::{Access, Expr, Postfix};
use sqlite_items::{Boxed, Items};

impl<'a> Parser<'a> {
    #[cycle(parser)]
    #[tactic(auto, using(crate::proofs::Rules::reading), unfolding(jo_parse_grammar::specs::inner::Read::postfix))]
    pub(super) fn postfix(&mut self, room: u8) -> Result<Postfix, Stop>
        ensures { Reads postfix_tree (spec.postfix room (under room) self.old.tokens) result self.new.tokens }
    {
        let base = self.primary(room)?;
        let accesses = self.accesses(room)?;
        accessed(self.alloc, base, accesses)
    }

    #[cycle(parser)]
    #[tactic(auto, using(crate::proofs::Rules::reading), unfolding(jo_parse_grammar::specs::inner::Read::accesses_from))]
    fn accesses(&mut self, room: u8) -> Result<Items<Access>, Stop>
        ensures { Reads accesses_list (spec.accesses_from room (under room) (length self.old.tokens) no_accesses self.old.tokens) result self.new.tokens }
    {
        let mut accesses = Items::new(self.alloc);
        for _turn in 0..self.tokens.left() {
            if self.tokens.sees(Punct::Dot) {
                self.tokens.advance();
                accesses.push(Access::Name(self.tokens.name()?))?;
            } else if self.tokens.sees(Punct::OpenBracket) {
                accesses.push(Access::Key(self.index(room)?))?;
            } else {
                return Ok(accesses);
            }
        }
        Ok(accesses)
    }

    /// A key in brackets.
    #[cycle(parser)]
    #[tactic(auto, using(crate::proofs::Rules::reading), unfolding(jo_parse_grammar::specs::inner::Read::index_at))]
    fn index(&mut self, room: u8) -> Result<Boxed<Expr>, Stop>
        ensures { Reads expr_tree (spec.index_at room (under room) self.old.tokens) result self.new.tokens }
    {
        let inner = self.tokens.open(room)?;
        self.ended(inner, Punct::CloseBracket)
    }
}
