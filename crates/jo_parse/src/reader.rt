// The reader, as others call it.
ghost use Rattle.std.specs.Prelude.{◌≤◌, length, List, IfErr, IfOk};
ghost use Rattle.jo_value.specs.declared.limits.TheConstants.{MOST_INPUT};
ghost use Rattle.jo_value.specs.Texts.{Table};
ghost use Rattle.jo_lex.specs.declared.refusal.Refusal.{Refusal};
ghost use Rattle.jo_lex.specs.Faults.{Refuses};
ghost use Rattle.jo_parse_tree.specs.Trees.{Items};
ghost use Rattle.jo_parse_grammar.specs.Sets.{IsRefusal, IsAcceptedSet};
ghost use Rattle.jo_parse.specs.Parsed.{GivesSet, IsSetFault, trees_of};

use crate::lex::lex;
use crate::named::check_all_scopes;
use crate::section::cut;
use crate::set::ScriptSet;
use crate::trees::parse_scripts;
use crate::utf8::decode;
use jo_lex::ParseFault;
use std::alloc::Global;

// Five stages, each over the whole set.
fn read(alloc: Global, bytes: &[u8]) -> Result<ScriptSet, ParseFault>
    requires { length bytes.now ≤ MOST_INPUT }
    ensures ok { IfOk result (λ set. IsAcceptedSet bytes.now (trees_of set) set.1) }
    ensures refused { IfErr result (IsSetFault bytes.now) }
{
    let input = decode(bytes)?;
    let sections = cut(alloc, input)?;
    let lexed = lex(alloc, sections.as_slice())?;
    let scripts = parse_scripts(alloc, lexed.lists.as_slice(), &lexed.texts)?;
    check_all_scopes(alloc, scripts.as_slice())?;
    Ok(ScriptSet {
        scripts,
        texts: lexed.texts,
    })
}

/// The scripts of the set that the bytes are, or what they are refused for first.
pub fn parse_set(alloc: Global, bytes: &[u8]) -> Result<ScriptSet, ParseFault>
    requires { length bytes.now ≤ MOST_INPUT }
    ensures ok { IfOk result (λ set. IsAcceptedSet bytes.now (trees_of set) set.1) }
    ensures refused { IfErr result (IsSetFault bytes.now) }
    ensures complete { (scripts : List Items) (texts : Table) → IsAcceptedSet bytes.now scripts texts → GivesSet scripts texts result }
    ensures first { (refusal : Refusal) → IsRefusal bytes.now refusal → Refuses refusal result }
{
    read(alloc, bytes)
}
