// Scripts that run side by side.
ghost use Rattle.std.specs.Prelude.{◌≡◌, ℕ, ◌+◌, ◌++◌, ◌<◌, ◌≤◌, [], All, length, map};
ghost use Rattle.std.specs.Vec.{vec_capacity};
ghost use Rattle.jo_steps.specs.Views.{IsPassOf};
ghost use Rattle.jo_run.specs.inner.Jobs.{HasRunJob, HaveRunJobs, IsReadyJob, MayJoin, StaysFirst, kept_of_job, end_of_script, end_of_job};

use crate::{EndedScript, Gate, run_script};
use jo_heap::join;
use jo_model::Outcome;
use jo_steps::{Heap, Pass};
use jo_vm::Vm;
use std::sync::Wait;
use std::thread;
use std::thread::Threads;

/// A script with all that its thread needs: its pass, its machine, and how it ended, once it has.
#[derive(Drop)]
pub(crate) struct Job<'a> {
    pub(crate) pass: Pass,
    pub(crate) machine: Vm<'a>,
    pub(crate) outcome: Outcome,
}

/// A job for each machine, with the passes in their order.
pub(crate) fn hand_out<'a>(passes: Vec<Pass>, machines: Vec<Vm<'a>>, jobs: &mut Vec<Job<'a>>)
    requires all { length passes.items ≡ length machines.items }
    requires room { (jobs.old.items ≡ []) × (length machines.items ≤ vec_capacity jobs.old) }
    ensures passes { map (λ job. job.pass) jobs.new.items ≡ passes.items }
    ensures machines { map (λ job. job.machine) jobs.new.items ≡ machines.entry.items }
{
    for (pass, machine) in passes.into_iter().zip(machines) {
        jobs.push_reserved(Job {
            pass,
            machine,
            outcome: Outcome::Done,
        });
    }
}

// Runs the script of a job to its end.
fn run_job<R: Wait, G: Gate>(rt: &R, heap: &Heap, job: &mut Job<'_>, gate: &G)
    requires { IsReadyJob heap.now job.old }
    ensures { HasRunJob heap.now job.old job.new }
{
    job.outcome = run_script(rt, heap, &mut job.pass, &mut job.machine, gate);
}

// Runs these, each in a thread of its own.
fn run_slice<R: Threads + Wait + Sync, G: Gate>(rt: &R, heap: &Heap, jobs: &mut [Job<'_>], gate: &G)
    requires some { 0 < length jobs.old }
    requires ready { All (IsReadyJob heap.now) jobs.old }
    ensures { HaveRunJobs heap.now jobs.old jobs.new }
{
    let threads = jobs.len();
    thread::for_each_mut(
        rt,
        jobs,
        threads,
        &|_, job: &mut Job<'_>|
            requires { IsReadyJob heap.now job.old }
            ensures { HasRunJob heap.entry.now job.old job.new }
        { run_job(rt, heap, job, gate) },
    );
}

/// Runs the script of each job, each in a thread of its own.
pub(crate) fn run_jobs<R: Threads + Wait + Sync, G: Gate>(
    rt: &R,
    heap: &Heap,
    jobs: &mut Vec<Job<'_>>,
    gate: &G,
)
    requires some { 0 < length jobs.old.items }
    requires ready { All (IsReadyJob heap.now) jobs.old.items }
    ensures { HaveRunJobs heap.now jobs.old.items jobs.new.items }
{
    run_slice(rt, heap, jobs.as_mut_slice(), gate);
}

/// The first pass joins the pass of each job into itself, in order of number. What is left of each script is added to
/// the list.
pub(crate) fn join_all(
    heap: &Heap,
    first: &mut Pass,
    jobs: Vec<Job<'_>>,
    ended: &mut Vec<EndedScript>,
)
    requires first { IsPassOf heap.now first.old }
    requires jobs { All (MayJoin heap.now) jobs.items }
    requires room { length ended.old.items + length jobs.items ≤ vec_capacity ended.old }
    ensures first { IsPassOf heap.now first.new }
    ensures stays { StaysFirst first.old.view first.new.view }
    ensures kept { first.new.view.kept ≡ first.old.view.kept ++ map kept_of_job jobs.entry.items }
    ensures ended { map end_of_script ended.new.items ≡ map end_of_script ended.old.items ++ map end_of_job jobs.entry.items }
{
    for job in jobs {
        let Job {
            pass,
            machine,
            outcome,
        } = job;
        let lines = machine.into_lines();
        let counts = pass.counts();
        ended.push_reserved(EndedScript {
            outcome,
            lines,
            counts,
        });
        join(heap, first, pass);
    }
}
