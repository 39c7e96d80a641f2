// The first fault of a script's names.
ghost use Rattle.std.specs.Prelude.{IfErr, OnOk};
ghost use Rattle.jo_parse_grammar.specs.NameRefusals.{IsNameFault};
ghost use Rattle.jo_parse_grammar.specs.Declarations.{IsDeclared};
ghost use Rattle.jo_parse_tree.specs.ScriptViews.{script_tree};

use crate::block::Block;
use crate::scopes::Scopes;
use jo_lex::ParseFault;
use jo_parse_tree::Script;
use std::alloc::Global;

/// Whether each use of a name means a binding that has ended, and no block declares a name twice; or the first fault.
pub fn check_scopes(alloc: Global, script: &Script) -> Result<(), ParseFault>
    ensures ok { OnOk result (IsDeclared (script_tree script.now)) }
    ensures refused { IfErr result (IsNameFault (script_tree script.now)) }
{
    let items = script.items.as_slice();
    let mut scopes = Scopes::new(alloc, Block::of_items(alloc, items)?);
    scopes.items(items)
}
