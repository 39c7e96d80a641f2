// How the values of expressions are found.
ghost use Rattle.std.specs.Prelude.{◌≡◌, ◌&&◌};
ghost use Rattle.jo_code.specs.inner.Code.{are_fields, are_plain_accesses, are_plain_links, is_quiet, member_reading, number_reading, plain_reading, pushed_reading, reading_of, variable_reading};
ghost use Rattle.jo_parse_tree.specs.Views.{accesses_list, accesses_with, binary_tree, chain_tree, cond_tree, expr_tree, links_list, member_tree, postfix_tree, primary_tree, unary_tree};
ghost use Rattle.jo_parse_tree.specs.Trees.{Accesses};

use crate::Operand;
use crate::scope::Scope;
use crate::usage::Reading;
use crate::values::{near, small};
use jo_parse_tree::{Access, Binary, Chain, Cond, Expr, Link, Member, Postfix, Primary, Unary};

fn number_reading(number: i64) -> Reading
    ensures { result ≡ number_reading number }
{
    match small(number) {
        Some(number) => Reading::Simple(Operand::Int(number)),
        None => Reading::Quiet,
    }
}

/// How the value of a variable is found, where it is declared.
pub(crate) fn variable_reading(slot: Option<u32>) -> Reading
    ensures { result ≡ variable_reading slot }
{
    let slot = match slot {
        Some(slot) => slot,
        None => return Reading::Simple(Operand::Undefined),
    };
    match near(slot) {
        Some(slot) => Reading::Simple(Operand::Variable(slot)),
        None => Reading::Quiet,
    }
}

// Whether there are only names after dots.
#[tactic(auto, using(crate::proofs::Viewed::viewed))]
fn are_fields(accesses: &[Access]) -> bool
    ensures { result ≡ are_fields (accesses_list accesses.now) }
{
    for access in accesses {
        match access {
            Access::Name(_) => {}
            Access::Key(_) => return false,
        }
    }
    true
}

fn is_quiet(reading: Reading) -> bool
    ensures { result ≡ is_quiet reading }
{
    match reading {
        Reading::Busy => false,
        _ => true,
    }
}

// The reading of what is pushed.
fn pushed_reading(quiet: bool) -> Reading
    ensures { result ≡ pushed_reading quiet }
{
    match quiet {
        true => Reading::Quiet,
        false => Reading::Busy,
    }
}

fn member_reading(base: Reading, accesses: &[Access]) -> Reading
    ensures { result ≡ member_reading base (accesses_list accesses.now) }
{
    pushed_reading(is_quiet(base) && are_fields(accesses))
}

impl Scope {
    // A first look at an expression, into brackets and bases alone.
    #[cycle(first_looks)]
    #[tactic(auto, using(crate::proofs::Viewed::viewed))]
    fn plain_expr(&self, expr: &Expr) -> Reading
        ensures { result ≡ plain_reading self.now (expr_tree expr.now) }
    {
        match expr {
            Expr::Cond(cond) => self.plain_cond(cond),
            Expr::Assign(_) => Reading::Busy,
        }
    }

    #[cycle(first_looks)]
    #[tactic(auto, using(crate::proofs::Viewed::viewed))]
    fn plain_cond(&self, cond: &Cond) -> Reading
        ensures { result ≡ plain_reading self.now (cond_tree cond.now) }
    {
        match cond {
            Cond::Chain(chain) => self.plain_chain(chain),
            Cond::Choice(_) => Reading::Busy,
        }
    }

    #[cycle(first_looks)]
    #[tactic(auto, using(crate::proofs::Viewed::viewed))]
    fn plain_chain(&self, chain: &Chain) -> Reading
        ensures { result ≡ plain_reading self.now (chain_tree chain.now) }
    {
        match chain {
            Chain::Unary(unary) => self.plain_unary(unary),
            Chain::Binary(_) => Reading::Busy,
        }
    }

    #[cycle(first_looks)]
    #[tactic(auto, using(crate::proofs::Viewed::viewed))]
    fn plain_unary(&self, unary: &Unary) -> Reading
        ensures { result ≡ plain_reading self.now (unary_tree unary.now) }
    {
        match unary {
            Unary::Applied(_, _) | Unary::Delete(_) => Reading::Busy,
            Unary::Postfix(postfix) => self.plain_postfix(postfix),
        }
    }

    #[cycle(first_looks)]
    #[tactic(auto, using(crate::proofs::Viewed::viewed))]
    fn plain_postfix(&self, postfix: &Postfix) -> Reading
        ensures { result ≡ plain_reading self.now (postfix_tree postfix.now) }
    {
        match postfix {
            Postfix::Primary(primary) => self.plain_primary(primary),
            Postfix::Member(member) => self.plain_member(member.get()),
        }
    }

    #[cycle(first_looks)]
    #[tactic(auto, using(crate::proofs::Viewed::viewed))]
    fn plain_member(&self, member: &Member) -> Reading
        ensures { result ≡ plain_reading self.now (member_tree member.now) }
    {
        let base = self.plain_primary(&member.base);
        member_reading(base, member.accesses.as_slice())
    }

    #[cycle(first_looks)]
    #[tactic(auto, using(crate::proofs::Viewed::viewed))]
    fn plain_primary(&self, primary: &Primary) -> Reading
        ensures { result ≡ plain_reading self.now (primary_tree primary.now) }
    {
        match primary {
            Primary::Number(number) => number_reading(*number),
            Primary::Text(literal) => Reading::Simple(Operand::Text(literal.text)),
            Primary::True => Reading::Simple(Operand::Bool(true)),
            Primary::False => Reading::Simple(Operand::Bool(false)),
            Primary::Null => Reading::Simple(Operand::Null),
            Primary::Undefined => Reading::Simple(Operand::Undefined),
            Primary::Shared => Reading::Simple(Operand::Shared),
            Primary::Ident(ident) => variable_reading(self.variable(*ident)),
            Primary::Group(expr) => self.plain_expr(expr.get()),
            Primary::Object(_) | Primary::Cas(_) => Reading::Busy,
        }
    }

    // Whether all right operands leave variables as they are.
    #[tactic(auto, using(crate::proofs::Viewed::viewed))]
    fn are_plain_links(&self, links: &[Link]) -> bool
        ensures { result ≡ are_plain_links self.now (links_list links.now) }
    {
        for link in links {
            if !is_quiet(self.plain_chain(&link.operand)) {
                return false;
            }
        }
        true
    }

    fn is_plain_access(&self, access: &Access) -> bool
        ensures { (more : Accesses) → are_plain_accesses self.now (accesses_with more access.now) ≡ (result && are_plain_accesses self.now more) }
    {
        match access {
            Access::Name(_) => true,
            Access::Key(key) => is_quiet(self.plain_expr(key.get())),
        }
    }

    // Whether all keys leave variables as they are.
    #[tactic(auto, using(crate::proofs::Viewed::viewed))]
    fn are_plain_accesses(&self, accesses: &[Access]) -> bool
        ensures { result ≡ are_plain_accesses self.now (accesses_list accesses.now) }
    {
        for access in accesses {
            if !self.is_plain_access(access) {
                return false;
            }
        }
        true
    }

    /// How the value of an expression is found. Of its operands a first look is enough, so that deep ones take no longer.
    #[tactic(auto, using(crate::proofs::Viewed::viewed))]
    pub(crate) fn expr_reading(&self, expr: &Expr) -> Reading
        ensures { result ≡ reading_of self.now (expr_tree expr.now) }
    {
        match expr {
            Expr::Cond(cond) => self.cond_reading(cond),
            Expr::Assign(_) => Reading::Busy,
        }
    }

    #[tactic(auto, using(crate::proofs::Viewed::viewed))]
    fn cond_reading(&self, cond: &Cond) -> Reading
        ensures { result ≡ reading_of self.now (cond_tree cond.now) }
    {
        match cond {
            Cond::Chain(chain) => self.chain_reading(chain),
            Cond::Choice(_) => Reading::Busy,
        }
    }

    /// How the value of a chain is found.
    #[tactic(auto, using(crate::proofs::Viewed::viewed))]
    pub(crate) fn chain_reading(&self, chain: &Chain) -> Reading
        ensures { result ≡ reading_of self.now (chain_tree chain.now) }
    {
        match chain {
            Chain::Unary(unary) => self.unary_reading(unary),
            Chain::Binary(binary) => self.binary_reading(binary.get()),
        }
    }

    #[tactic(auto, using(crate::proofs::Viewed::viewed))]
    fn binary_reading(&self, binary: &Binary) -> Reading
        ensures { result ≡ reading_of self.now (binary_tree binary.now) }
    {
        let first = is_quiet(self.plain_chain(&binary.first));
        pushed_reading(first && self.are_plain_links(binary.links.as_slice()))
    }

    /// How the value of a unary expression is found.
    #[tactic(auto, using(crate::proofs::Viewed::viewed))]
    pub(crate) fn unary_reading(&self, unary: &Unary) -> Reading
        ensures { result ≡ reading_of self.now (unary_tree unary.now) }
    {
        match unary {
            Unary::Applied(_, operand) => pushed_reading(is_quiet(self.plain_unary(operand.get()))),
            Unary::Delete(_) => Reading::Busy,
            Unary::Postfix(postfix) => self.postfix_reading(postfix),
        }
    }

    #[tactic(auto, using(crate::proofs::Viewed::viewed))]
    fn postfix_reading(&self, postfix: &Postfix) -> Reading
        ensures { result ≡ reading_of self.now (postfix_tree postfix.now) }
    {
        match postfix {
            Postfix::Primary(primary) => self.primary_reading(primary),
            Postfix::Member(member) => self.member_reading(member.get()),
        }
    }

    #[tactic(auto, using(crate::proofs::Viewed::viewed))]
    fn member_reading(&self, member: &Member) -> Reading
        ensures { result ≡ reading_of self.now (member_tree member.now) }
    {
        let base = is_quiet(self.plain_primary(&member.base));
        pushed_reading(base && self.are_plain_accesses(member.accesses.as_slice()))
    }

    /// How the value of a primary expression is found.
    #[tactic(auto, using(crate::proofs::Viewed::viewed))]
    pub(crate) fn primary_reading(&self, primary: &Primary) -> Reading
        ensures { result ≡ reading_of self.now (primary_tree primary.now) }
    {
        self.plain_primary(primary)
    }
}
