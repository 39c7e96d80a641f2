// Operands, with the operators that join them and that stand before them.
ghost use Rattle.std.specs.Prelude.{◌≤◌, ◌-◌, true, length};
ghost use Rattle.jo_parse_grammar.specs.inner.Read as spec;
ghost use Rattle.jo_parse_grammar.specs.inner.Read.{under};
ghost use Rattle.jo_parse_script.specs.inner.Outcomes.{Reads};
ghost use Rattle.jo_parse_tree.specs.Trees.{no_links};
ghost use Rattle.jo_parse_tree.specs.Views.{chain_tree, links_list, member_tree, unary_tree};

use crate::operator::{binary_of, rank, sign_of};
use crate::parser::Parser;
use crate::shape::joined;
use crate::stop::Stop;
use jo_parse_tree::{Chain, Keyword, Link, Member, Postfix, Unary};
use sqlite_items::{Boxed, Items};

/// The level of what no binary operator joins.
const UNARY_LEVEL: u8 = 9;

impl<'a> Parser<'a> {
    /// Operands between operators of one level.
    #[cycle(parser)]
    #[tactic(auto, using(crate::proofs::Rules::reading), unfolding(jo_parse_grammar::specs::inner::Read::chains))]
    pub(super) fn chain(&mut self, room: u8, ins: bool, level: u8) -> Result<Chain, Stop>
        requires binary { 3 ≤ level }
        requires bound { level ≤ 9 }
        ensures { Reads chain_tree (spec.chains room (under room) ins (9 - level) level self.old.tokens) result self.new.tokens }
    {
        if level == UNARY_LEVEL {
            return Ok(Chain::Unary(self.unary(room)?));
        }
        let first = self.chain(room, ins, level + 1)?;
        let links = self.links(room, ins, level)?;
        joined(self.alloc, level, first, links)
    }

    #[cycle(parser)]
    #[tactic(auto, using(crate::proofs::Rules::reading), unfolding(jo_parse_grammar::specs::inner::Read::links_from))]
    fn links(&mut self, room: u8, ins: bool, level: u8) -> Result<Items<Link>, Stop>
        requires binary { 3 ≤ level }
        requires bound { level ≤ 8 }
        ensures { Reads links_list (spec.links_from room (under room) ins level (length self.old.tokens) no_links self.old.tokens) result self.new.tokens }
    {
        let mut links = Items::new(self.alloc);
        for _turn in 0..self.tokens.left() {
            let terminal = self.tokens.peek();
            if rank(ins, terminal) != level {
                return Ok(links);
            }
            let inner = self.tokens.open(room)?;
            let operand = self.operand(inner, ins, level + 1)?;
            links.push(Link {
                operator: binary_of(terminal),
                operand,
            })?;
        }
        Ok(links)
    }

    /// The right operand of a binary operator, which is of the next level.
    #[cycle(parser)]
    #[tactic(auto, using(crate::proofs::Rules::operands))]
    fn operand(&mut self, inner: u8, ins: bool, level: u8) -> Result<Chain, Stop>
        requires binary { 4 ≤ level }
        requires bound { level ≤ 9 }
        ensures { Reads chain_tree (spec.read inner ins level self.old.tokens) result self.new.tokens }
    {
        self.chain(inner, ins, level)
    }

    #[cycle(parser)]
    #[tactic(auto, using(crate::proofs::Rules::reading), unfolding(jo_parse_grammar::specs::inner::Read::prefixed))]
    fn unary(&mut self, room: u8) -> Result<Unary, Stop>
        ensures { Reads unary_tree (spec.read room true 9 self.old.tokens) result self.new.tokens }
    {
        if let Some(operator) = sign_of(self.tokens.peek()) {
            let inner = self.tokens.open(room)?;
            let operand = self.unary(inner)?;
            return Ok(Unary::Applied(operator, Boxed::new(self.alloc, operand)?));
        }
        if self.tokens.sees_keyword(Keyword::Delete) {
            let inner = self.tokens.open(room)?;
            return Ok(Unary::Delete(self.member(inner)?));
        }
        Ok(Unary::Postfix(self.postfix(room)?))
    }

    #[cycle(parser)]
    #[tactic(auto, using(crate::proofs::Rules::reading), unfolding(jo_parse_grammar::specs::inner::Read::only_member))]
    fn member(&mut self, room: u8) -> Result<Boxed<Member>, Stop>
        ensures { Reads member_tree (spec.read room true 10 self.old.tokens) result self.new.tokens }
    {
        match self.postfix(room)? {
            Postfix::Member(member) => Ok(member),
            Postfix::Primary(_) => Err(Stop::Unexpected),
        }
    }
}
