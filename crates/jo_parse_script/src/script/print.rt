// Statements that have no statement within.
ghost use Rattle.std.specs.Prelude.{length};
ghost use Rattle.jo_parse_grammar.specs.inner.ReadStatements as spec;
ghost use Rattle.jo_parse_script.specs.inner.Outcomes.{Reads};
ghost use Rattle.jo_parse_script.specs.inner.ScriptOutcomes.{leaving};
ghost use Rattle.jo_parse_tree.specs.ScriptViews.{statement_tree, trees_list};

use crate::parser::Parser;
use crate::stop::Stop;
use jo_lex::Punct;
use jo_parse_tree::{Expr, Keyword, Statement};
use sqlite_items::Items;

impl<'a> Parser<'a> {
    /// The rest of the arguments after one.
    #[tactic(auto, using(crate::proofs::ScriptRules::script_reading), unfolding(jo_parse_grammar::specs::inner::ReadStatements::arguments_from))]
    fn more_arguments(&mut self, room: u8, mut found: Items<Expr>) -> Result<Items<Expr>, Stop>
        ensures { Reads trees_list (spec.arguments_from room (length self.old.tokens) (trees_list found) self.old.tokens) result self.new.tokens }
    {
        for _turn in 0..self.tokens.left() {
            if self.tokens.sees(Punct::CloseParen) {
                self.tokens.advance();
                return Ok(found);
            }
            self.tokens.expect(Punct::Comma)?;
            found.push(self.expression(room, true)?)?;
        }
        Err(Stop::Unexpected)
    }

    /// Arguments after their bracket.
    #[tactic(auto, using(crate::proofs::ScriptRules::script_reading), unfolding(jo_parse_grammar::specs::inner::ReadStatements::arguments_after))]
    fn printed(&mut self, room: u8) -> Result<Items<Expr>, Stop>
        ensures { Reads trees_list (spec.arguments_after room self.old.tokens) result self.new.tokens }
    {
        let mut found = Items::new(self.alloc);
        if self.tokens.sees(Punct::CloseParen) {
            self.tokens.advance();
            return Ok(found);
        }
        found.push(self.expression(room, true)?)?;
        self.more_arguments(room, found)
    }

    /// A `print` after its word.
    #[tactic(auto, using(crate::proofs::ScriptRules::script_reading), unfolding(jo_parse_grammar::specs::inner::ReadStatements::print_after))]
    pub(crate) fn print(&mut self, room: u8) -> Result<Statement, Stop>
        ensures { Reads statement_tree (spec.print_after room self.old.tokens) result self.new.tokens }
    {
        let inner = self.tokens.enter(Punct::OpenParen, room)?;
        let printed = self.printed(inner)?;
        self.tokens.expect(Punct::Semicolon)?;
        Ok(Statement::Print(printed))
    }

    /// A `printNames` after its word.
    #[tactic(auto, using(crate::proofs::ScriptRules::script_reading), unfolding(jo_parse_grammar::specs::inner::ReadStatements::print_names_after))]
    pub(crate) fn print_names(&mut self, room: u8) -> Result<Statement, Stop>
        ensures { Reads statement_tree (spec.print_names_after room self.old.tokens) result self.new.tokens }
    {
        let object = self.in_brackets(room)?;
        self.tokens.expect(Punct::Semicolon)?;
        Ok(Statement::PrintNames(object))
    }

    /// An expression as a statement.
    #[tactic(auto, using(crate::proofs::ScriptRules::script_reading), unfolding(jo_parse_grammar::specs::inner::ReadStatements::run_at))]
    pub(crate) fn run(&mut self, room: u8) -> Result<Statement, Stop>
        ensures { Reads statement_tree (spec.run_at room self.old.tokens) result self.new.tokens }
    {
        let value = self.nested(room, true)?;
        self.tokens.expect(Punct::Semicolon)?;
        Ok(Statement::Expr(value))
    }

    /// A `break` or a `continue`, which stands only in the body of a loop.
    #[tactic(auto, using(crate::proofs::ScriptRules::script_reading), unfolding(jo_parse_grammar::specs::inner::ReadStatements::leave_at))]
    pub(crate) fn leave(&mut self, keyword: Keyword, loops: bool) -> Result<Statement, Stop>
        ensures { Reads statement_tree (spec.leave_at (leaving keyword) loops self.old.tokens) result self.new.tokens }
    {
        if !loops {
            return Err(Stop::Unexpected);
        }
        self.tokens.advance();
        self.tokens.expect(Punct::Semicolon)?;
        match keyword {
            Keyword::Break => Ok(Statement::Break),
            _ => Ok(Statement::Continue),
        }
    }
}
