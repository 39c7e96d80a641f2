// Whether the names of the scripts are declared as they may be.
ghost use Rattle.std.specs.Prelude.{◌≡◌, [], map, IfErr, OnOk};
ghost use Rattle.jo_parse_grammar.specs.Sets.{faults_of_all};
ghost use Rattle.jo_parse_tree.specs.ScriptViews.{script_tree};
ghost use Rattle.jo_parse.specs.inner.Stages.{IsFirstNameFault};

use jo_lex::ParseFault;
use jo_parse_names::check_scopes;
use jo_parse_tree::Script;
use std::alloc::Global;

/// Whether the names of all the scripts are, or the first fault.
pub(crate) fn check_all_scopes(alloc: Global, scripts: &[Script]) -> Result<(), ParseFault>
    ensures ok { OnOk result (faults_of_all (map script_tree scripts.now) ≡ []) }
    ensures refused { IfErr result (IsFirstNameFault (map script_tree scripts.now)) }
{
    for script in scripts {
        check_scopes(alloc, script)?;
    }
    Ok(())
}
