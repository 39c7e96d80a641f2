// The statement at the front.
ghost use Rattle.jo_parse_grammar.specs.inner.ReadStatements as spec;
ghost use Rattle.jo_parse_grammar.specs.inner.ReadStatements.{read_statement};
ghost use Rattle.jo_parse_script.specs.inner.Outcomes.{Reads};
ghost use Rattle.jo_parse_script.specs.inner.ScriptOutcomes.{within};
ghost use Rattle.jo_parse_tree.specs.ScriptViews.{statement_tree};

use crate::parser::Parser;
use crate::stop::Stop;
use jo_lex::Punct;
use jo_parse_grammar::Terminal;
use jo_parse_tree::{Keyword, Statement};

impl<'a> Parser<'a> {
    /// A statement. `loops` says whether it is inside the body of a loop.
    #[cycle(statement)]
    #[tactic(auto, using(crate::proofs::ScriptRules::script_reading))]
    pub(crate) fn statement(&mut self, room: u8, loops: bool) -> Result<Statement, Stop>
        ensures { Reads statement_tree (read_statement room loops self.old.tokens) result self.new.tokens }
    {
        match self.tokens.peek() {
            Terminal::Keyword(keyword) => self.keyword_statement(room, loops, keyword),
            Terminal::Punct(punct) => self.punct_statement(room, loops, punct),
            _ => self.run(room),
        }
    }

    #[cycle(statement)]
    #[tactic(auto, using(crate::proofs::ScriptRules::script_reading))]
    fn keyword_statement(
        &mut self,
        room: u8,
        loops: bool,
        keyword: Keyword,
    ) -> Result<Statement, Stop>
        ensures { Reads statement_tree (spec.keyword_statement room (within room) loops keyword self.old.tokens) result self.new.tokens }
    {
        match keyword {
            Keyword::If => {
                let inner = self.tokens.open(room)?;
                self.branch(inner, loops)
            }
            Keyword::While => {
                let inner = self.tokens.open(room)?;
                self.while_loop(inner)
            }
            Keyword::For => {
                let inner = self.tokens.open(room)?;
                self.for_loop(inner)
            }
            Keyword::Break | Keyword::Continue => self.leave(keyword, loops),
            Keyword::Print => {
                self.tokens.advance();
                self.print(room)
            }
            Keyword::PrintNames => {
                self.tokens.advance();
                self.print_names(room)
            }
            _ => self.run(room),
        }
    }

    #[cycle(statement)]
    #[tactic(auto, using(crate::proofs::ScriptRules::script_reading))]
    fn punct_statement(&mut self, room: u8, loops: bool, punct: Punct) -> Result<Statement, Stop>
        ensures { Reads statement_tree (spec.punct_statement room (within room) loops punct self.old.tokens) result self.new.tokens }
    {
        match punct {
            Punct::Semicolon => {
                self.tokens.advance();
                Ok(Statement::Empty)
            }
            Punct::OpenBrace => {
                let inner = self.tokens.open(room)?;
                self.block(inner, loops)
            }
            _ => self.run(room),
        }
    }
}
