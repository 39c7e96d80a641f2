// One script, from its start to its end.
ghost use Rattle.std.specs.Prelude.{◌≡◌, ℕ};
ghost use Rattle.jo_value.specs.Texts.{Table};
ghost use Rattle.jo_parse_tree.specs.Trees.{Items};
ghost use Rattle.jo_meaning.specs.Scripts.{interaction_of};
ghost use Rattle.jo_guard.specs.Ready.{IsReady};
ghost use Rattle.jo_run.specs.Scripts.{HasRun, IsAtStart, MayRun};

use crate::{Gate, make_call};
use jo_model::Outcome;
use jo_steps::{Heap, Pass};
use jo_vm::{Ask, Vm};
use std::sync::Wait;

/// Runs the machine of a script to its end: each call that it asks is made on the heap, once the gate lets it go, and its
/// reply is handed back. The answer is how the script ended.
pub fn run_script<R: Wait, G: Gate>(
    rt: &R,
    heap: &Heap,
    pass: &mut Pass,
    vm: &mut Vm<'_>,
    gate: &G,
) -> Outcome
    requires ready { IsReady heap.now pass.old }
    requires may { MayRun vm.old }
    ensures ready { IsReady heap.now pass.new }
    ensures run { (script : Items) (texts : Table) (turns : ℕ) → IsAtStart script texts turns vm.old
        → HasRun (interaction_of script texts turns) result vm.new.lines pass.old.view pass.new.view }
{
    let thread = u32::from(pass.number());
    let mut number: u64 = 0;
    for _ in rt.forever() {
        match vm.next() {
            Ask::Turn => {}
            Ask::Call(call) => {
                number = number.saturating_add(1);
                gate.pass(thread, number);
                let reply = make_call(rt, heap, pass, call);
                vm.answer(reply);
            }
            Ask::End(outcome) => return outcome,
        }
    }
    unreachable!()
}
