// From the tokens of the scripts to their trees.
ghost use Rattle.std.specs.Prelude.{map, IfErr, IfOk};
ghost use Rattle.jo_parse_grammar.specs.Sets.{AreScripts};
ghost use Rattle.jo_parse_tree.specs.ScriptViews.{script_tree};
ghost use Rattle.jo_parse.specs.inner.Stages.{IsTreeFault, lists_of};

use jo_lex::{ParseFault, Token};
use jo_parse_script::parse_script;
use jo_parse_tree::Script;
use jo_value::Texts;
use std::alloc::{AllocError, Global};

/// The trees that the tokens of the scripts parse as.
pub(crate) fn parse_scripts(
    alloc: Global,
    lists: &[Vec<Token>],
    texts: &Texts,
) -> Result<Vec<Script>, ParseFault>
    ensures ok { IfOk result (λ scripts.
        AreScripts texts.now (lists_of lists.now) (map script_tree scripts.items)) }
    ensures refused { IfErr result (IsTreeFault texts.now (lists_of lists.now)) }
{
    let mut scripts = Vec::new(alloc);
    for tokens in lists {
        let script = parse_script(alloc, tokens.as_slice(), texts)?;
        scripts.push(script).map_err(AllocError::from)?;
    }
    Ok(scripts)
}
