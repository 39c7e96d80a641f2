// What no operator takes apart.
ghost use Rattle.jo_parse_grammar.specs.inner.Read as spec;
ghost use Rattle.jo_parse_grammar.specs.inner.Read.{under};
ghost use Rattle.jo_parse_script.specs.inner.Outcomes.{Reads};
ghost use Rattle.jo_parse_tree.specs.Views.{cas_tree, primary_tree};
ghost use Rattle.jo_parse_tree.specs.declared.keyword.Keyword.TheVariants as kw;

use crate::parser::Parser;
use crate::stop::Stop;
use jo_lex::Punct;
use jo_parse_grammar::Terminal;
use jo_parse_tree::{Cas, Keyword, Primary};
use sqlite_items::Boxed;

impl<'a> Parser<'a> {
    #[cycle(parser)]
    #[tactic(auto, using(crate::proofs::Rules::reading), unfolding(jo_parse_grammar::specs::inner::Read::primary))]
    pub(super) fn primary(&mut self, room: u8) -> Result<Primary, Stop>
        ensures { Reads primary_tree (spec.primary room (under room) self.old.tokens) result self.new.tokens }
    {
        match self.tokens.peek() {
            Terminal::Number(number) => {
                self.tokens.advance();
                Ok(Primary::Number(number))
            }
            Terminal::Text(text) => {
                self.tokens.advance();
                Ok(Primary::Text(text))
            }
            Terminal::Ident(ident) => {
                self.tokens.advance();
                Ok(Primary::Ident(ident))
            }
            Terminal::Keyword(keyword) => self.keyword(room, keyword),
            Terminal::Punct(punct) => self.bracket(room, punct),
            Terminal::Reserved(_) | Terminal::End => Err(Stop::Unexpected),
        }
    }

    #[cycle(parser)]
    #[tactic(auto, using(crate::proofs::Rules::reading))]
    fn keyword(&mut self, room: u8, keyword: Keyword) -> Result<Primary, Stop>
        ensures { Reads primary_tree (spec.keyword_at room (under room) keyword self.old.tokens) result self.new.tokens }
    {
        let constant = match keyword {
            Keyword::True => Primary::True,
            Keyword::False => Primary::False,
            Keyword::Null => Primary::Null,
            Keyword::Undefined => Primary::Undefined,
            Keyword::Shared => Primary::Shared,
            Keyword::Cas => return self.cas(room),
            _ => return Err(Stop::Unexpected),
        };
        self.tokens.advance();
        Ok(constant)
    }

    /// A call of `cas`, at that word.
    #[cycle(parser)]
    #[tactic(auto, using(crate::proofs::Rules::entering))]
    fn cas(&mut self, room: u8) -> Result<Primary, Stop>
        ensures { Reads primary_tree (spec.keyword_at room (under room) kw.Cas self.old.tokens) result self.new.tokens }
    {
        self.tokens.advance();
        let inner = self.tokens.enter(Punct::OpenParen, room)?;
        let arguments = self.arguments(inner)?;
        Ok(Primary::Cas(Boxed::new(self.alloc, arguments)?))
    }

    /// The arguments of `cas` after their bracket.
    #[cycle(parser)]
    #[tactic(auto, using(crate::proofs::Rules::reading), unfolding(jo_parse_grammar::specs::inner::Read::cas_after))]
    fn arguments(&mut self, inner: u8) -> Result<Cas, Stop>
        ensures { Reads cas_tree (spec.cas_after (spec.read inner) self.old.tokens) result self.new.tokens }
    {
        let object = self.ended(inner, Punct::Comma)?;
        let key = self.ended(inner, Punct::Comma)?;
        let expected = self.ended(inner, Punct::Comma)?;
        let desired = self.ended(inner, Punct::CloseParen)?;
        Ok(Cas {
            object,
            key,
            expected,
            desired,
        })
    }

    #[cycle(parser)]
    #[tactic(auto, using(crate::proofs::Rules::reading), unfolding(jo_parse_grammar::specs::inner::Read::group_after))]
    fn bracket(&mut self, room: u8, punct: Punct) -> Result<Primary, Stop>
        ensures { Reads primary_tree (spec.bracket_at room (under room) punct self.old.tokens) result self.new.tokens }
    {
        match punct {
            Punct::OpenParen => {
                let inner = self.tokens.open(room)?;
                Ok(Primary::Group(self.ended(inner, Punct::CloseParen)?))
            }
            Punct::OpenBrace => {
                let inner = self.tokens.open(room)?;
                let object = self.object(inner)?;
                Ok(Primary::Object(Boxed::new(self.alloc, object)?))
            }
            _ => Err(Stop::Unexpected),
        }
    }
}
