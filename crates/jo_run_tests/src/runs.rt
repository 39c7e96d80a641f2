// Whole runs over memory.
use jo_io::{MemorySink, MemorySource};
use jo_program::{Status, run};
use jo_run::{Gate, OpenGate};
use std::alloc::{AllocError, Global};
use std::process::Abort;
use std::sync::Wait;
use std::thread::Threads;

/// The command line that gives no number of turns.
pub(crate) const RUN: &[&str] = &["run"];

/// A command line with turns enough for a script that waits for another one.
pub(crate) const RUN_LONG: &[&str] = &["run", "--turns", "20000000"];

/// What came of a run.
#[derive(Drop)]
pub(crate) struct Ran {
    pub(crate) status: Status,
    pub(crate) text: String,
}

/// Whether a script had no turns left, as may be where it is kept waiting.
pub(crate) fn is_short_of_turns(ran: &Ran) -> bool {
    ran.status == Status::EndedWithFaults && ran.text.contains("= TurnsSpent\n")
}

fn words_of(alloc: Global, words: &[&str]) -> Result<Vec<String>, AllocError> {
    let mut copies = Vec::new(alloc);
    for word in words {
        copies.push(word.to_string(alloc)?)?;
    }
    Ok(copies)
}

fn text_of(rt: &impl Abort, alloc: Global, bytes: &[u8]) -> Result<String, AllocError> {
    match str::from_utf8(bytes) {
        Ok(text) => text.to_string(alloc),
        Err(_) => panic!(rt; "the output is no text"),
    }
}

/// Runs scripts with these words behind a gate.
pub(crate) fn run_behind<R: Abort + Threads + Wait + Sync, G: Gate>(
    rt: &R,
    alloc: Global,
    words: &[&str],
    scripts: &str,
    gate: &G,
) -> Result<Ran, AllocError> {
    let words = words_of(alloc, words)?;
    let input = scripts.as_bytes().to_vec(alloc)?;
    let mut source = MemorySource::new(input, 4_096, Vec::new(alloc));
    let mut sink = MemorySink::new(Vec::new(alloc), 4_096, Vec::new(alloc));
    let kept = run(rt, alloc, &words, &mut source, &mut sink, gate);
    Ok(Ran {
        status: kept.status,
        text: text_of(rt, alloc, sink.bytes())?,
    })
}

/// Runs scripts that nothing holds up.
pub(crate) fn run_set<R: Abort + Threads + Wait + Sync>(
    rt: &R,
    alloc: Global,
    words: &[&str],
    scripts: &str,
) -> Result<Ran, AllocError> {
    run_behind(rt, alloc, words, scripts, &OpenGate)
}

/// Scripts, and the one thing that comes of them.
#[derive(Clone, Copy)]
pub(crate) struct Row<'a> {
    pub(crate) words: &'a [&'a str],
    pub(crate) scripts: &'a str,
    pub(crate) status: Status,
    pub(crate) text: &'a str,
}

/// Runs the scripts of a row, and compares what comes of them. The scripts name a row that fails.
pub(crate) fn check<R: Abort + Threads + Wait + Sync>(
    rt: &R,
    alloc: Global,
    row: Row<'_>,
) -> Result<(), AllocError> {
    let name = row.scripts.to_string(alloc)?;
    let ran = run_set(rt, alloc, row.words, row.scripts)?;
    assert_eq!(rt; ran.status, row.status, "{name}");
    assert_eq!(rt; ran.text.as_str(), row.text, "{name}");
    Ok(())
}
