// What stands in the brackets of statements.
ghost use Rattle.jo_parse_grammar.specs.inner.ReadStatements as spec;
ghost use Rattle.jo_parse_script.specs.inner.Outcomes.{Reads};
ghost use Rattle.jo_parse_tree.specs.ScriptViews.{head_tree, option_tree};
ghost use Rattle.jo_parse_tree.specs.Views.{expr_tree};

use crate::parser::Parser;
use crate::stop::Stop;
use jo_lex::Punct;
use jo_parse_tree::{Expr, ForHead, Keyword};
use sqlite_items::Boxed;

impl<'a> Parser<'a> {
    /// An expression in round brackets.
    #[tactic(auto, using(crate::proofs::ScriptRules::script_reading), unfolding(jo_parse_grammar::specs::inner::ReadStatements::in_brackets_at))]
    pub(crate) fn in_brackets(&mut self, room: u8) -> Result<Boxed<Expr>, Stop>
        ensures { Reads expr_tree (spec.in_brackets_at room self.old.tokens) result self.new.tokens }
    {
        let deep = self.tokens.enter(Punct::OpenParen, room)?;
        self.ended(deep, Punct::CloseParen)
    }

    /// An expression or none, and the terminal that ends it.
    #[tactic(auto, using(crate::proofs::ScriptRules::script_reading), unfolding(jo_parse_grammar::specs::inner::ReadStatements::optional_ended))]
    pub(crate) fn optional(
        &mut self,
        room: u8,
        ins: bool,
        end: Punct,
    ) -> Result<Option<Boxed<Expr>>, Stop>
        ensures { Reads option_tree (spec.optional_ended room ins end self.old.tokens) result self.new.tokens }
    {
        if self.tokens.sees(end) {
            self.tokens.advance();
            return Ok(None);
        }
        let value = self.nested(room, ins)?;
        self.tokens.expect(end)?;
        Ok(Some(value))
    }

    /// The first part of the head of a `for`, where no `in` stands outside brackets.
    #[tactic(auto, using(crate::proofs::ScriptRules::script_reading), unfolding(jo_parse_grammar::specs::inner::ReadStatements::head_at))]
    pub(crate) fn head(&mut self, room: u8) -> Result<ForHead, Stop>
        ensures { Reads head_tree (spec.head_at room self.old.tokens) result self.new.tokens }
    {
        if self.tokens.sees_keyword(Keyword::Let) {
            self.tokens.advance();
            return Ok(ForHead::Let(self.declaration(room, false)?));
        }
        Ok(ForHead::Expr(self.optional(room, false, Punct::Semicolon)?))
    }
}
