// From the tree of a script to its code.
ghost use Rattle.std.specs.Prelude.{◌≡◌, IfOk};
ghost use Rattle.jo_code.specs.Behaves.{Behaves};
ghost use Rattle.jo_code.specs.inner.StatementCode.{script_code};
ghost use Rattle.jo_parse_tree.specs.ScriptViews.{script_tree};

use crate::Instruction;
use crate::code::Code;
use crate::draft::Draft;
use crate::scope::Scope;
use jo_parse_tree::Script;
use std::alloc::{AllocError, Global};

// The instructions of a script.
fn instructions(alloc: Global, script: &Script) -> Result<Vec<Instruction>, AllocError>
    ensures { IfOk result (λ code. code.items ≡ script_code (script_tree script.now)) }
{
    let items = script.items.as_slice();
    let mut scope = Scope::new(alloc);
    scope.enter_items(items)?;
    let mut code = Draft::new(alloc);
    code.all(&mut scope, items, 0, 0)?;
    Ok(code.into_code())
}

// The code of a script, and what it needs.
fn code(alloc: Global, script: &Script) -> Result<Code, AllocError>
    ensures { IfOk result (λ code. code ≡ script_code (script_tree script.now)) }
{
    Code::of(alloc, instructions(alloc, script)?)
}

/// The code of a script, whose runs are those of the script.
pub fn compile(alloc: Global, script: &Script) -> Result<Code, AllocError>
    ensures { IfOk result (λ code. Behaves (script_tree script.now) code) }
{
    code(alloc, script)
}
