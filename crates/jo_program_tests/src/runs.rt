// Whole runs over memory, one byte a call, in which no call is made that is not needed.
use jo_io::{MemorySink, MemorySource};
use jo_program::{Status, run};
use jo_run::OpenGate;
use std::alloc::{AllocError, Global};
use std::process::Abort;
use std::sync::Wait;
use std::thread::Threads;

pub const RUN: &[&str] = &["run"];

/// What is run, which read and which write fail, and what comes of it: the status, whether scripts ran, and
/// the output. Where no read or write is said it is the first one that is not needed.
#[derive(Clone, Copy)]
pub struct Row<'a> {
    pub words: &'a [&'a str],
    pub input: &'a [u8],
    pub read: Option<usize>,
    pub write: Option<usize>,
    pub status: Status,
    pub ran: bool,
    pub output: &'a [u8],
}

/// A run of an input in which nothing fails.
pub fn fine<'a>(input: &'a [u8], status: Status, output: &'a [u8]) -> Row<'a> {
    Row {
        words: RUN,
        input,
        read: None,
        write: None,
        status,
        ran: matches!(status, Status::Done | Status::EndedWithFaults),
        output,
    }
}

fn words_of(alloc: Global, words: &[&str]) -> Result<Vec<String>, AllocError> {
    let mut copies = Vec::new(alloc);
    for word in words {
        copies.push(word.to_string(alloc)?)?;
    }
    Ok(copies)
}

fn source_of(alloc: Global, row: Row<'_>) -> Result<MemorySource, AllocError> {
    let read = row.read.unwrap_or(row.input.len().saturating_add(2));
    let failing = vec![in alloc; read as u64]?;
    Ok(MemorySource::new(row.input.to_vec(alloc)?, 1, failing))
}

fn sink_of(alloc: Global, row: Row<'_>) -> Result<MemorySink, AllocError> {
    let write = row.write.unwrap_or(row.output.len().saturating_add(1));
    let failing = vec![in alloc; write as u64]?;
    Ok(MemorySink::new(Vec::new(alloc), 1, failing))
}

// What names a row where it fails: its words, the read and the write that fail, and how its input begins.
fn name_of(alloc: Global, row: Row<'_>) -> Result<String, AllocError> {
    let beginning = &row.input[..row.input.len().min(80)];
    let input = String::from_utf8_lossy(alloc, beginning)?;
    format!(in alloc;
        "{:?}, read {:?}, write {:?}: {input}",
        row.words, row.read, row.write
    )
}

/// Runs what a row says, and compares what comes of it.
pub fn check<R: Abort + Threads + Wait + Sync>(
    rt: &R,
    alloc: Global,
    row: Row<'_>,
) -> Result<(), AllocError> {
    let name = name_of(alloc, row)?;
    let words = words_of(alloc, row.words)?;
    let mut source = source_of(alloc, row)?;
    let mut sink = sink_of(alloc, row)?;
    let kept = run(rt, alloc, &words, &mut source, &mut sink, &OpenGate);
    assert_eq!(rt;
        (kept.status, kept.ended.is_some()),
        (row.status, row.ran),
        "{name}"
    );
    assert_eq!(rt; sink.bytes(), row.output, "{name}");
    Ok(())
}

/// The part, as often as the count says.
pub fn times(alloc: Global, part: &str, count: usize) -> Result<Vec<u8>, AllocError> {
    part.repeat(alloc, count)?.as_bytes().to_vec(alloc)
}
