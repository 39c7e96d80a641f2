// Trees from their parts.
ghost use Rattle.std.specs.Prelude.{◌≡◌, true, false, IfOk, IfErr};
ghost use Rattle.jo_parse_grammar.specs.inner.Read as spec;
ghost use Rattle.jo_parse_script.specs.inner.Outcomes.{Makes};
ghost use Rattle.jo_parse_tree.specs.Views.{accesses_list, chain_tree, cond_tree, links_list, postfix_tree, primary_tree, target_tree, unary_tree};

use crate::stop::Stop;
use jo_parse_tree::{Access, Binary, Chain, Cond, Link, Member, Postfix, Primary, Target, Unary};
use sqlite_items::{Boxed, Items};
use std::alloc::Global;

/// A primary expression with what is accessed of it.
#[tactic(auto, using(crate::proofs::Rules::trees))]
pub(crate) fn accessed(
    alloc: Global,
    base: Primary,
    accesses: Items<Access>,
) -> Result<Postfix, Stop>
    ensures { Makes postfix_tree (spec.member_of (primary_tree base) (accesses_list accesses)) result }
{
    if accesses.is_empty() {
        return Ok(Postfix::Primary(base));
    }
    let member = Member { base, accesses };
    Ok(Postfix::Member(Boxed::new(alloc, member)?))
}

/// Operands that operators of a level join, or the first where there is no other.
#[tactic(auto, using(crate::proofs::Rules::trees))]
pub(crate) fn joined(
    alloc: Global,
    level: u8,
    first: Chain,
    links: Items<Link>,
) -> Result<Chain, Stop>
    ensures { Makes chain_tree (spec.chain_of level (chain_tree first) (links_list links)) result }
{
    if links.is_empty() {
        return Ok(first);
    }
    let binary = Binary {
        level,
        first,
        links,
    };
    Ok(Chain::Binary(Boxed::new(alloc, binary)?))
}

/// The expression as a target, or as it was where it is none.
#[tactic(auto, using(crate::proofs::Rules::targets))]
pub(crate) fn target_of(condition: Cond) -> Result<Target, Cond>
    ensures ok { IfOk result (λ target. (target_tree target ≡ cond_tree condition) × (spec.is_target (cond_tree condition) ≡ true)) }
    ensures err { IfErr result (λ same. (same ≡ condition) × (spec.is_target (cond_tree condition) ≡ false)) }
{
    let Cond::Chain(chain) = condition else {
        return Err(condition);
    };
    let Chain::Unary(unary) = chain else {
        return Err(Cond::Chain(chain));
    };
    let Unary::Postfix(postfix) = unary else {
        return Err(Cond::Chain(Chain::Unary(unary)));
    };
    match postfix {
        Postfix::Member(member) => Ok(Target::Member(member)),
        Postfix::Primary(primary) => match primary {
            Primary::Ident(ident) => Ok(Target::Ident(ident)),
            other => Err(Cond::Chain(Chain::Unary(Unary::Postfix(Postfix::Primary(other))))),
        },
    }
}
