// A set of scripts, from its start to its end.
ghost use Rattle.std.specs.Prelude.{◌≡◌, ◌+◌, ◌<◌, ◌≤◌, ℕ, List, [], All, IfOk, length};
ghost use Rattle.std.specs.Vec.{vec_capacity};
ghost use Rattle.jo_value.specs.Texts.{Table};
ghost use Rattle.jo_parse_tree.specs.Trees.{Items};
ghost use Rattle.jo_heap.specs.Opening.{AreOpened};
ghost use Rattle.jo_parse.specs.Parsed.{trees_of};
ghost use Rattle.jo_run.specs.Scripts.{MayRun};
ghost use Rattle.jo_run.specs.Sets.{HaveRun};
ghost use Rattle.jo_run.specs.inner.Begun.{AreAtCodes, AreAtStart, AreCodesOf};

use crate::Gate;
use crate::jobs::{Job, hand_out, join_all, run_jobs};
use jo_code::{Code, compile};
use jo_heap::{Closed, close, open_heap};
use jo_model::Outcome;
use jo_parse::ScriptSet;
use jo_rule::Counts;
use jo_steps::{Heap, Pass};
use jo_value::Texts;
use jo_vm::Vm;
use std::alloc::{AllocError, Global};
use std::sync::Wait;
use std::thread::Threads;

/// What is left of a script: how it ended, its lines, each closed by a line feed, and how many steps its pass has made.
#[derive(Drop)]
pub struct EndedScript {
    pub outcome: Outcome,
    pub lines: Vec<u8>,
    pub counts: Counts,
}

/// What is left of a set of scripts, in their order, and of the heap that they shared.
#[derive(Drop)]
pub struct Ended {
    pub scripts: Vec<EndedScript>,
    pub closed: Closed,
}

/// Runs a set of scripts over one shared heap, each in a thread of its own and with `turns` turns, to the end of the
/// last.
///
/// All memory is taken before the first script starts: no set that runs is refused memory. On a machine without threads
/// the scripts run in turn.
pub fn run_set<R: Threads + Wait + Sync, G: Gate>(
    rt: &R,
    alloc: Global,
    set: &ScriptSet,
    turns: u32,
    gate: &G,
) -> Result<Ended, AllocError>
    ensures { IfOk result (λ ended. HaveRun (trees_of set.now) set.now.1 turns ended.scripts.items ended.closed) }
{
    let codes = codes_of(alloc, set)?;
    let machines = machines_of(alloc, &codes, set.texts(), turns)?;
    let jobs = Vec::with_capacity(alloc, machines.len())?;
    let ended = Vec::with_capacity(alloc, machines.len())?;
    let (heap, passes) = open_heap(alloc, u32::from(set.len()))?;
    Ok(run_over(rt, heap, passes, machines, jobs, ended, gate))
}

// The code of each script.
fn codes_of(alloc: Global, set: &ScriptSet) -> Result<Vec<Code>, AllocError>
    ensures { IfOk result (λ codes. AreCodesOf set.now.1 (trees_of set.now) codes.items) }
{
    let mut codes = Vec::with_capacity(alloc, usize::from(set.len()))?;
    for at in 0..set.len() {
        codes.push_reserved(compile(alloc, set.script(at))?);
    }
    Ok(codes)
}

// A machine for each code.
fn machines_of<'a>(
    alloc: Global,
    codes: &'a [Code],
    texts: &'a Texts,
    turns: u32,
) -> Result<Vec<Vm<'a>>, AllocError>
    ensures { IfOk result (λ machines. AreAtCodes texts.now turns codes.now machines.items) }
{
    let mut machines = Vec::with_capacity(alloc, codes.len())?;
    for code in codes {
        machines.push_reserved(Vm::new(alloc, code, texts, turns)?);
    }
    Ok(machines)
}

// Runs a machine for each pass but the first, and closes the heap. All memory is there.
fn run_over<'a, R: Threads + Wait + Sync, G: Gate>(
    rt: &R,
    heap: Heap,
    passes: Vec<Pass>,
    machines: Vec<Vm<'a>>,
    jobs: Vec<Job<'a>>,
    ended: Vec<EndedScript>,
    gate: &G,
) -> Ended
    requires opened { AreOpened heap passes.items × (heap.passes ≡ length machines.items + 1) }
    requires machines { (0 < length machines.items) × All MayRun machines.items }
    requires jobs { (jobs.items ≡ []) × (length machines.items ≤ vec_capacity jobs) }
    requires ended { (ended.items ≡ []) × (length machines.items ≤ vec_capacity ended) }
    ensures { (scripts : List Items) (texts : Table) (turns : ℕ) → AreAtStart scripts texts turns machines.entry.items
        → HaveRun scripts texts turns result.scripts.items result.closed }
{
    let (mut passes, mut jobs, mut ended) = (passes, jobs, ended);
    let mut first = passes.remove(0);
    hand_out(passes, machines, &mut jobs);
    run_jobs(rt, &heap, &mut jobs, gate);
    join_all(&heap, &mut first, jobs, &mut ended);
    Ended {
        scripts: ended,
        closed: close(heap, first),
    }
}
