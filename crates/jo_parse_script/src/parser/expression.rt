// Expressions, with assignments and choices.
ghost use Rattle.jo_parse_grammar.specs.inner.Read as spec;
ghost use Rattle.jo_parse_grammar.specs.inner.Read.{under};
ghost use Rattle.jo_parse_script.specs.inner.Outcomes.{Reads, assigned, choice_trees, choices};
ghost use Rattle.jo_parse_tree.specs.Views.{assign_tree, cond_tree, expr_tree, target_tree};

use crate::operator::{assign_of, rank};
use crate::parser::Parser;
use crate::shape::target_of;
use crate::stop::Stop;
use jo_lex::Punct;
use jo_parse_tree::{Assign, Choice, Cond, Expr, Target};
use sqlite_items::Boxed;

/// The rank of an assignment.
const ASSIGNMENT: u8 = 1;

/// The level of the operators that bind least.
const FIRST_LEVEL: u8 = 3;

impl<'a> Parser<'a> {
    #[cycle(parser)]
    #[tactic(auto, using(crate::proofs::Rules::reading), unfolding(jo_parse_grammar::specs::inner::Read::assignment))]
    pub(crate) fn expression(&mut self, room: u8, ins: bool) -> Result<Expr, Stop>
        ensures { Reads expr_tree (spec.read room ins 1 self.old.tokens) result self.new.tokens }
    {
        let condition = self.condition(room, ins)?;
        if rank(ins, self.tokens.peek()) != ASSIGNMENT {
            return Ok(Expr::Cond(condition));
        }
        match target_of(condition) {
            Ok(target) => Ok(Expr::Assign(self.assignment(room, ins, target)?)),
            Err(condition) => Ok(Expr::Cond(condition)),
        }
    }

    /// An expression in a box.
    #[cycle(parser)]
    pub(crate) fn nested(&mut self, inner: u8, ins: bool) -> Result<Boxed<Expr>, Stop>
        ensures { Reads expr_tree (spec.read inner ins 1 self.old.tokens) result self.new.tokens }
    {
        let value = self.expression(inner, ins)?;
        Ok(Boxed::new(self.alloc, value)?)
    }

    /// An expression and the punctuator that ends it.
    #[cycle(parser)]
    #[tactic(auto, using(crate::proofs::Rules::reading), unfolding(jo_parse_grammar::specs::inner::Read::ended))]
    pub(crate) fn ended(&mut self, inner: u8, punct: Punct) -> Result<Boxed<Expr>, Stop>
        ensures { Reads expr_tree (spec.ended (spec.read inner) punct self.old.tokens) result self.new.tokens }
    {
        let value = self.nested(inner, true)?;
        self.tokens.expect(punct)?;
        Ok(value)
    }

    /// The rest of an assignment, from its operator on.
    #[cycle(parser)]
    #[tactic(auto, using(crate::proofs::Rules::reading))]
    fn assignment(&mut self, room: u8, ins: bool, target: Target) -> Result<Boxed<Assign>, Stop>
        ensures { Reads assign_tree (assigned room (under room) ins (target_tree target) self.old.tokens) result self.new.tokens }
    {
        let operator = assign_of(self.tokens.peek());
        let inner = self.tokens.open(room)?;
        let value = self.nested(inner, ins)?;
        let assign = Assign {
            target,
            operator,
            value,
        };
        Ok(Boxed::new(self.alloc, assign)?)
    }

    #[cycle(parser)]
    #[tactic(auto, using(crate::proofs::Rules::reading), unfolding(jo_parse_grammar::specs::inner::Read::condition))]
    fn condition(&mut self, room: u8, ins: bool) -> Result<Cond, Stop>
        ensures { Reads cond_tree (spec.condition room (under room) ins self.old.tokens) result self.new.tokens }
    {
        let condition = self.chain(room, ins, FIRST_LEVEL)?;
        if !self.tokens.sees(Punct::Question) {
            return Ok(Cond::Chain(condition));
        }
        let (then, otherwise) = self.choices(room, ins)?;
        let choice = Choice {
            condition,
            then,
            otherwise,
        };
        Ok(Cond::Choice(Boxed::new(self.alloc, choice)?))
    }

    /// The two expressions of a choice, from its question mark on.
    #[cycle(parser)]
    #[tactic(auto, using(crate::proofs::Rules::reading))]
    fn choices(&mut self, room: u8, ins: bool) -> Result<(Boxed<Expr>, Boxed<Expr>), Stop>
        ensures { Reads choice_trees (choices room (under room) ins self.old.tokens) result self.new.tokens }
    {
        let inner = self.tokens.open(room)?;
        let then = self.nested(inner, ins)?;
        self.tokens.expect(Punct::Colon)?;
        let otherwise = self.nested(inner, ins)?;
        Ok((then, otherwise))
    }
}
