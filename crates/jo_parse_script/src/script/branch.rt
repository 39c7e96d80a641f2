// Statements with statements within.
ghost use Rattle.jo_parse_grammar.specs.inner.ReadStatements as spec;
ghost use Rattle.jo_parse_grammar.specs.inner.ReadStatements.{read_statement};
ghost use Rattle.jo_parse_script.specs.inner.Outcomes.{Reads};
ghost use Rattle.jo_parse_script.specs.inner.ScriptOutcomes.{else_at};
ghost use Rattle.jo_parse_tree.specs.ScriptViews.{optional_statement, statement_tree};

use crate::parser::Parser;
use crate::stop::Stop;
use jo_lex::Punct;
use jo_parse_tree::{For, If, Keyword, Statement, While};
use sqlite_items::Boxed;

impl<'a> Parser<'a> {
    /// An `if` after its word.
    #[cycle(statement)]
    #[tactic(auto, using(crate::proofs::ScriptRules::script_reading), unfolding(jo_parse_grammar::specs::inner::ReadStatements::if_after))]
    pub(crate) fn branch(&mut self, room: u8, loops: bool) -> Result<Statement, Stop>
        ensures { Reads statement_tree (spec.if_after room (read_statement room) loops self.old.tokens) result self.new.tokens }
    {
        let condition = self.in_brackets(room)?;
        let then = self.statement(room, loops)?;
        let otherwise = self.otherwise(room, loops)?;
        let branch = If {
            condition,
            then,
            otherwise,
        };
        Ok(Statement::If(Boxed::new(self.alloc, branch)?))
    }

    /// What an `else` has, where one is there. So it belongs to the nearest `if`.
    #[cycle(statement)]
    #[tactic(auto, using(crate::proofs::ScriptRules::script_reading))]
    fn otherwise(&mut self, room: u8, loops: bool) -> Result<Option<Statement>, Stop>
        ensures { Reads optional_statement (else_at (read_statement room) loops self.old.tokens) result self.new.tokens }
    {
        if !self.tokens.sees_keyword(Keyword::Else) {
            return Ok(None);
        }
        self.tokens.advance();
        Ok(Some(self.statement(room, loops)?))
    }

    /// A `while` after its word.
    #[cycle(statement)]
    #[tactic(auto, using(crate::proofs::ScriptRules::script_reading), unfolding(jo_parse_grammar::specs::inner::ReadStatements::while_after))]
    pub(crate) fn while_loop(&mut self, room: u8) -> Result<Statement, Stop>
        ensures { Reads statement_tree (spec.while_after room (read_statement room) self.old.tokens) result self.new.tokens }
    {
        let condition = self.in_brackets(room)?;
        let body = self.statement(room, true)?;
        let turns = While { condition, body };
        Ok(Statement::While(Boxed::new(self.alloc, turns)?))
    }

    /// A `for` after its word.
    #[cycle(statement)]
    #[tactic(auto, using(crate::proofs::ScriptRules::script_reading), unfolding(jo_parse_grammar::specs::inner::ReadStatements::for_after))]
    pub(crate) fn for_loop(&mut self, room: u8) -> Result<Statement, Stop>
        ensures { Reads statement_tree (spec.for_after room (read_statement room) self.old.tokens) result self.new.tokens }
    {
        let deep = self.tokens.enter(Punct::OpenParen, room)?;
        let head = self.head(deep)?;
        let condition = self.optional(deep, true, Punct::Semicolon)?;
        let step = self.optional(deep, true, Punct::CloseParen)?;
        let body = self.statement(room, true)?;
        let turns = For {
            head,
            condition,
            step,
            body,
        };
        Ok(Statement::For(Boxed::new(self.alloc, turns)?))
    }
}
