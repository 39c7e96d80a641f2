// What no clause says: that memory is found, and which calls of std become faults.
ghost use Rattle.std.specs.Prelude.{◌≤◌, IfOk};

use jo_io::{Failed, MemorySink, MemorySource, Sink, Source, StdSink, StdSource};
use std::io;
use std::process::Abort;
use std::test::Fail;

// Reads into one buffer of three bytes, call after call. Calls are numbered from 0 where one fails.
fn check_reads<S: Source>(
    rt: &impl Abort,
    source: &mut S,
    calls: &[(Result<usize, Failed>, [u8; 3])],
) {
    let mut buffer = *b"---";
    for (call, (answer, after)) in calls.iter().enumerate() {
        assert_eq!(rt; source.read(&mut buffer), *answer, "call {call}");
        assert_eq!(rt; buffer, *after, "call {call}");
    }
}

// Writes buffer after buffer.
fn check_writes<S: Sink>(rt: &impl Abort, sink: &mut S, calls: &[(&[u8], Result<usize, Failed>)]) {
    for (call, (buffer, answer)) in calls.iter().enumerate() {
        assert_eq!(rt; sink.write(buffer), *answer, "call {call}");
    }
}

// It gives and takes two bytes a call, but its second call fails and its third does nothing.
#[derive(Drop)]
struct Faulty {
    calls: usize,
}

impl Faulty {
    fn answer(&mut self, len: usize) -> io::Result<usize>
        ensures { IfOk result (λ n. n ≤ len) }
    {
        self.calls = self.calls.saturating_add(1);
        match self.calls {
            2 => Err(io::Error::from(io::ErrorKind::TimedOut)),
            3 => Ok(0),
            _ => Ok(len.min(2)),
        }
    }
}

impl io::Read for Faulty {
    fn read(&mut self, buffer: &mut [u8]) -> io::Result<usize> {
        let count = self.answer(buffer.len())?;
        buffer[..count].fill(b'x');
        Ok(count)
    }
}

impl io::Write for Faulty {
    fn write(&mut self, buffer: &[u8]) -> io::Result<usize> {
        self.answer(buffer.len())
    }

    fn flush(&mut self) -> io::Result<()> {
        Ok(())
    }
}

#[test]
fn a_source_in_memory_fails_at_the_named_calls(rt: HostRuntime) -> Result<(), Fail> {
    let alloc = rt.alloc();
    let bytes = Vec::from_slice(alloc, b"abcde")?;
    let failing = Vec::from_slice(alloc, &[2, 5])?;
    let mut source = MemorySource::new(bytes, 2, failing);
    let calls = [
        (Ok(2), *b"ab-"),
        (Err(Failed), *b"ab-"),
        (Ok(2), *b"cd-"),
        (Ok(1), *b"ed-"),
        (Err(Failed), *b"ed-"),
        (Ok(0), *b"ed-"),
    ];
    check_reads(&rt, &mut source, &calls);
    Ok(())
}

#[test]
fn a_sink_in_memory_fails_at_the_named_calls(rt: HostRuntime) -> Result<(), Fail> {
    let alloc = rt.alloc();
    let room = Vec::from_slice(alloc, b"-")?;
    let failing = Vec::from_slice(alloc, &[2])?;
    let mut sink = MemorySink::new(room, 2, failing);
    let calls = [
        (b"abc".as_slice(), Ok(2)),
        (b"c".as_slice(), Err(Failed)),
        (b"c".as_slice(), Ok(1)),
        (b"".as_slice(), Ok(0)),
    ];
    check_writes(&rt, &mut sink, &calls);
    assert_eq!(rt; sink.bytes(), b"-abc".as_slice());
    assert_eq!(rt; sink.refused(), 0);
    Ok(())
}

#[test]
fn a_source_over_std_fails_where_std_does(rt: HostRuntime) {
    let mut source = StdSource::new(Faulty { calls: 0 });
    let reads = [
        (Ok(2), *b"xx-"),
        (Err(Failed), *b"xx-"),
        (Ok(0), *b"xx-"),
        (Ok(2), *b"xx-"),
    ];
    check_reads(&rt, &mut source, &reads);
}

#[test]
fn a_sink_over_std_fails_where_std_does(rt: HostRuntime) {
    let mut sink = StdSink::new(Faulty { calls: 0 });
    let writes = [
        (b"abc".as_slice(), Ok(2)),
        (b"c".as_slice(), Err(Failed)),
        (b"c".as_slice(), Err(Failed)),
        (b"".as_slice(), Ok(0)),
        (b"c".as_slice(), Ok(1)),
    ];
    check_writes(&rt, &mut sink, &writes);
}
