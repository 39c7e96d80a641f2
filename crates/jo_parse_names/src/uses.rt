// The uses of names in expressions.
ghost use Rattle.jo_parse_names.specs.inner.Blocks.{all_of, answer_to};
ghost use Rattle.jo_parse_grammar.specs.Declarations.{faults_of_uses, uses_of, uses_of_accesses, uses_of_all, uses_of_links, uses_of_optional, uses_of_props};
ghost use Rattle.std.specs.Prelude.{◌≡◌, ◌∷◌, []};
ghost use Rattle.jo_parse_tree.specs.Trees.{no_accesses};
ghost use Rattle.jo_parse_tree.specs.ScriptViews.{option_tree, trees_list};
ghost use Rattle.jo_parse_tree.specs.Views.{accesses_list, accesses_with, assign_tree, cas_tree, chain_tree, choice_tree, cond_tree, expr_tree, links_list, member_tree, object_tree, postfix_tree, primary_tree, props_list, target_tree, unary_tree};

use crate::scopes::Scopes;
use jo_lex::{Refusal, RefusalKind};
use jo_parse_tree::{
    Access, Assign, Binary, Cas, Chain, Choice, Cond, Expr, Ident, Link, Member, Object, Postfix,
    Primary, Prop, Target, Unary,
};

impl Scopes {
    /// A use of a name.
    #[tactic(auto, using(crate::proofs::Turns::uses))]
    fn name(&self, ident: Ident) -> Result<(), Refusal>
        ensures { result ≡ answer_to (faults_of_uses (all_of self.now) (ident ∷ [])) }
    {
        if self.is_bound(ident.text.0) {
            return Ok(());
        }
        Err(Refusal {
            kind: RefusalKind::Undeclared,
            place: ident.place,
        })
    }

    #[cycle(uses)]
    #[tactic(auto, using(crate::proofs::Turns::uses))]
    pub(crate) fn expr(&self, expr: &Expr) -> Result<(), Refusal>
        ensures { result ≡ answer_to (faults_of_uses (all_of self.now) (uses_of (expr_tree expr.now))) }
    {
        match expr {
            Expr::Cond(cond) => self.cond(cond),
            Expr::Assign(assign) => self.assign(assign.get()),
        }
    }

    #[cycle(uses)]
    #[tactic(auto, using(crate::proofs::Turns::uses))]
    fn assign(&self, assign: &Assign) -> Result<(), Refusal>
        ensures { result ≡ answer_to (faults_of_uses (all_of self.now) (uses_of (assign_tree assign.now))) }
    {
        self.target(&assign.target)?;
        self.expr(assign.value.get())
    }

    #[cycle(uses)]
    #[tactic(auto, using(crate::proofs::Turns::uses))]
    fn target(&self, target: &Target) -> Result<(), Refusal>
        ensures { result ≡ answer_to (faults_of_uses (all_of self.now) (uses_of (target_tree target.now))) }
    {
        match target {
            Target::Ident(ident) => self.name(*ident),
            Target::Member(member) => self.member(member.get()),
        }
    }

    #[cycle(uses)]
    #[tactic(auto, using(crate::proofs::Turns::uses))]
    fn cond(&self, cond: &Cond) -> Result<(), Refusal>
        ensures { result ≡ answer_to (faults_of_uses (all_of self.now) (uses_of (cond_tree cond.now))) }
    {
        match cond {
            Cond::Chain(chain) => self.chain(chain),
            Cond::Choice(choice) => self.choice(choice.get()),
        }
    }

    #[cycle(uses)]
    #[tactic(auto, using(crate::proofs::Turns::uses))]
    fn choice(&self, choice: &Choice) -> Result<(), Refusal>
        ensures { result ≡ answer_to (faults_of_uses (all_of self.now) (uses_of (choice_tree choice.now))) }
    {
        self.chain(&choice.condition)?;
        self.expr(choice.then.get())?;
        self.expr(choice.otherwise.get())
    }

    #[cycle(uses)]
    #[tactic(auto, using(crate::proofs::Turns::uses))]
    fn chain(&self, chain: &Chain) -> Result<(), Refusal>
        ensures { result ≡ answer_to (faults_of_uses (all_of self.now) (uses_of (chain_tree chain.now))) }
    {
        match chain {
            Chain::Unary(unary) => self.unary(unary),
            Chain::Binary(binary) => {
                let binary = binary.get();
                self.chain(&binary.first)?;
                self.links(binary.links.as_slice())
            }
        }
    }

    #[cycle(uses)]
    #[tactic(auto, using(crate::proofs::Turns::uses))]
    fn links(&self, links: &[Link]) -> Result<(), Refusal>
        ensures { result ≡ answer_to (faults_of_uses (all_of self.now) (uses_of_links (links_list links.now))) }
    {
        for link in links {
            self.chain(&link.operand)?;
        }
        Ok(())
    }

    #[cycle(uses)]
    #[tactic(auto, using(crate::proofs::Turns::uses))]
    fn unary(&self, unary: &Unary) -> Result<(), Refusal>
        ensures { result ≡ answer_to (faults_of_uses (all_of self.now) (uses_of (unary_tree unary.now))) }
    {
        match unary {
            Unary::Applied(_, operand) => self.unary(operand.get()),
            Unary::Delete(member) => self.member(member.get()),
            Unary::Postfix(postfix) => self.postfix(postfix),
        }
    }

    #[cycle(uses)]
    #[tactic(auto, using(crate::proofs::Turns::uses))]
    fn postfix(&self, postfix: &Postfix) -> Result<(), Refusal>
        ensures { result ≡ answer_to (faults_of_uses (all_of self.now) (uses_of (postfix_tree postfix.now))) }
    {
        match postfix {
            Postfix::Primary(primary) => self.primary(primary),
            Postfix::Member(member) => self.member(member.get()),
        }
    }

    #[cycle(uses)]
    #[tactic(auto, using(crate::proofs::Turns::uses))]
    fn member(&self, member: &Member) -> Result<(), Refusal>
        ensures { result ≡ answer_to (faults_of_uses (all_of self.now) (uses_of (member_tree member.now))) }
    {
        self.primary(&member.base)?;
        self.accesses(member.accesses.as_slice())
    }

    #[cycle(uses)]
    #[tactic(auto, using(crate::proofs::Turns::uses))]
    fn accesses(&self, accesses: &[Access]) -> Result<(), Refusal>
        ensures { result ≡ answer_to (faults_of_uses (all_of self.now) (uses_of_accesses (accesses_list accesses.now))) }
    {
        for access in accesses {
            self.access(access)?;
        }
        Ok(())
    }

    #[cycle(uses)]
    #[tactic(auto, using(crate::proofs::Turns::uses))]
    fn access(&self, access: &Access) -> Result<(), Refusal>
        ensures { result ≡ answer_to (faults_of_uses (all_of self.now) (uses_of_accesses (accesses_with no_accesses access.now))) }
    {
        match access {
            Access::Name(_) => Ok(()),
            Access::Key(key) => self.expr(key.get()),
        }
    }

    #[cycle(uses)]
    #[tactic(auto, using(crate::proofs::Turns::uses))]
    fn primary(&self, primary: &Primary) -> Result<(), Refusal>
        ensures { result ≡ answer_to (faults_of_uses (all_of self.now) (uses_of (primary_tree primary.now))) }
    {
        match primary {
            Primary::Ident(ident) => self.name(*ident),
            Primary::Object(object) => self.props(object.get().props.as_slice()),
            Primary::Group(expr) => self.expr(expr.get()),
            Primary::Cas(cas) => self.cas(cas.get()),
            Primary::Number(_)
            | Primary::Text(_)
            | Primary::True
            | Primary::False
            | Primary::Null
            | Primary::Undefined
            | Primary::Shared => Ok(()),
        }
    }

    #[cycle(uses)]
    #[tactic(auto, using(crate::proofs::Turns::uses))]
    fn props(&self, props: &[Prop]) -> Result<(), Refusal>
        ensures { result ≡ answer_to (faults_of_uses (all_of self.now) (uses_of_props (props_list props.now))) }
    {
        for prop in props {
            self.expr(prop.value.get())?;
        }
        Ok(())
    }

    #[cycle(uses)]
    #[tactic(auto, using(crate::proofs::Turns::uses))]
    fn cas(&self, cas: &Cas) -> Result<(), Refusal>
        ensures { result ≡ answer_to (faults_of_uses (all_of self.now) (uses_of (cas_tree cas.now))) }
    {
        self.expr(cas.object.get())?;
        self.expr(cas.key.get())?;
        self.expr(cas.expected.get())?;
        self.expr(cas.desired.get())
    }
}
