// The run of one script.
ghost use Rattle.std.specs.Prelude.{◌≡◌, IfOk};
ghost use Rattle.jo_parse_grammar.specs.Sound.{IsSound};
ghost use Rattle.jo_parse_tree.specs.ScriptViews.{script_tree};
ghost use Rattle.jo_code.specs.Machine.{interaction_by};
ghost use Rattle.jo_code.specs.Needs.{entries_of};
ghost use Rattle.jo_meaning.specs.Histories.{played_alone};
ghost use Rattle.jo_meaning.specs.Play.{play};
ghost use Rattle.jo_vm.specs.Machines.{Free, IsFree, stands};
ghost use Rattle.jo_testing.specs.Alone.{IsRunAlone};
ghost use Rattle.jo_testing.specs.inner.Rests.{rest_of, MayGoOn, Leaves};

use jo_code::compile;
use jo_model::{Outcome, PlainHeap};
use jo_parse_tree::Script;
use jo_value::Texts;
use jo_vm::{Ask, Vm};
use std::alloc::{AllocError, Global};

/// What a script leaves: the heap, its printed lines, each closed by a line feed, and how it ended.
#[derive(Drop)]
pub struct Ran {
    pub heap: PlainHeap,
    pub lines: Vec<u8>,
    pub outcome: Outcome,
}

/// Runs a script as pass 1 of a heap of two passes, with `turns` turns. Pass 0, which sets up, makes no call.
pub fn run_alone(
    alloc: Global,
    script: &Script,
    texts: &Texts,
    turns: u32,
) -> Result<Ran, AllocError>
    requires { IsSound texts.now (script_tree script.now) }
    // What is left is that of the run of the script, alone.
    ensures run { IfOk result (λ ran. IsRunAlone (script_tree script.now) texts.now turns
        ran.heap ran.lines.items ran.outcome) }
    ensures outcome { IfOk result (λ ran.
        ran.outcome ≡ (played_alone (script_tree script.now) texts.now turns).outcome) }
{
    let code = compile(alloc, script)?;
    let mut vm = Vm::new(alloc, &code, texts, turns)?;
    let mut heap = PlainHeap::new(alloc, 2)?;
    let outcome = drive(&mut vm, &mut heap)?;
    let lines = vm.into_lines();
    Ok(Ran {
        heap,
        lines,
        outcome,
    })
}

// Runs a machine to its end. Each call that it asks goes to the heap, and the reply back to it.
fn drive(vm: &mut Vm<'_>, heap: &mut PlainHeap) -> Result<Outcome, AllocError>
    requires free { IsFree (stands vm.old) }
    requires calls { MayGoOn (rest_of (stands vm.old)) heap.old }
    ensures { IfOk result (λ outcome. Leaves (play 1 (rest_of (stands vm.old)) heap.old)
        heap.new vm.new.lines outcome) }
{
    loop {
        match vm.next() {
            Ask::Turn => {}
            Ask::Call(call) => {
                let reply = heap.call(1, call)?;
                vm.answer(reply);
            }
            Ask::End(outcome) => return Ok(outcome),
        }
    }
}
