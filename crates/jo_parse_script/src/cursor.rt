// The terminals that are left.
ghost use Rattle.std.specs.Prelude.{◌≡◌, length};
ghost use Rattle.jo_parse_grammar.specs.inner.Read as spec;
ghost use Rattle.jo_parse_script.specs.inner.Outcomes.{Reads};
ghost use Rattle.jo_parse_grammar.specs.declared.terminal.Terminal.TheVariants as t;

use crate::code::code;
use crate::operator::{key_of, name_of};
use crate::stop::Stop;
use jo_lex::Punct;
use jo_parse_grammar::Terminal;
use jo_parse_tree::{Keyword, Name, PropKey};
use std::marker::Model;

/// A reader of terminals. At the end the next one is `End`.
#[derive(Drop)]
pub(crate) struct Cursor<'a> {
    rest: &'a [Terminal],
}

impl<'a> Model for Cursor<'a> {
    ghost use Rattle.std.specs.Prelude.{List};
    ghost use Rattle.jo_parse_grammar.specs.declared.terminal.Terminal.{Terminal};

    ghost Value = { List Terminal };

    ghost view = { λ cursor. cursor.rest.now };
}

impl<'a> Cursor<'a> {
    pub(crate) fn new(rest: &'a [Terminal]) -> Cursor<'a>
        ensures { result ≡ rest.now }
    {
        Cursor { rest }
    }

    /// How many terminals are left.
    pub(crate) fn left(&self) -> usize
        ensures { result ≡ length self.now }
    {
        self.rest.len()
    }

    pub(crate) fn peek(&self) -> Terminal
        ensures { result ≡ spec.peek self.now }
    {
        match self.rest {
            [first, ..] => *first,
            [] => Terminal::End,
        }
    }

    pub(crate) fn advance(&mut self)
        ensures { self.new ≡ spec.next self.old }
    {
        if let [_, rest @ ..] = self.rest {
            self.rest = rest;
        }
    }

    pub(crate) fn sees(&self, punct: Punct) -> bool
        ensures { result ≡ spec.sees (t.Punct punct) self.now }
    {
        code(self.peek()) == code(Terminal::Punct(punct))
    }

    pub(crate) fn sees_keyword(&self, keyword: Keyword) -> bool
        ensures { result ≡ spec.sees (t.Keyword keyword) self.now }
    {
        code(self.peek()) == code(Terminal::Keyword(keyword))
    }

    #[tactic(auto, unfolding(jo_parse_grammar::specs::inner::Read::expect))]
    pub(crate) fn expect(&mut self, punct: Punct) -> Result<(), Stop>
        ensures { Reads (λ x. x) (spec.expect (t.Punct punct) self.old) result self.new }
    {
        if !self.sees(punct) {
            return Err(Stop::Unexpected);
        }
        self.advance();
        Ok(())
    }

    /// Takes a terminal that opens a construct, and says how many more may be open in it.
    pub(crate) fn open(&mut self, room: u8) -> Result<u8, Stop>
        ensures { Reads (λ x. x) (spec.open_at room self.old) result self.new }
    {
        if room == 0 {
            return Err(Stop::NestedTooDeep);
        }
        self.advance();
        Ok(room - 1)
    }

    /// Takes this bracket, which opens a construct, and says how many more may be open in it.
    #[tactic(auto, unfolding(jo_parse_grammar::specs::inner::Read::enter))]
    pub(crate) fn enter(&mut self, punct: Punct, room: u8) -> Result<u8, Stop>
        ensures { Reads (λ x. x) (spec.enter (t.Punct punct) room self.old) result self.new }
    {
        if !self.sees(punct) {
            return Err(Stop::Unexpected);
        }
        self.open(room)
    }

    #[tactic(auto, unfolding(jo_parse_grammar::specs::inner::Read::name))]
    pub(crate) fn name(&mut self) -> Result<Name, Stop>
        ensures { Reads (λ x. x) (spec.name self.old) result self.new }
    {
        let Some(name) = name_of(self.peek()) else {
            return Err(Stop::Unexpected);
        };
        self.advance();
        Ok(name)
    }

    #[tactic(auto, unfolding(jo_parse_grammar::specs::inner::Read::key))]
    pub(crate) fn key(&mut self) -> Result<PropKey, Stop>
        ensures { Reads (λ x. x) (spec.key self.old) result self.new }
    {
        let Some(key) = key_of(self.peek()) else {
            return Err(Stop::Unexpected);
        };
        self.advance();
        Ok(key)
    }
}
