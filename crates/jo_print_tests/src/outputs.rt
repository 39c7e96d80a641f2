// Outputs that are written to memory: whole, with each write failing in turn, and past what waits.
use jo_io::{Failed, MemorySink, Printer, Sink};
use jo_model::{Call, Outcome, PlainHeap};
use jo_print::{print_heap, print_run};
use jo_value::{InternFault, Key, NameId, ObjId, TextId, Texts, Value};
use std::alloc::{AllocError, Global};
use std::process::Abort;
use std::test::Fail;

const LINES: &[u8] = b"one 1\n\n";

const OUTPUT: &str = "1| one 1\n1| \n1= done\n2= TypeFault\n\
#0.0 {\"\\\\ and \\\"\": -5, \"plain\": \"\\\\ and \\\"\"}\n\
#1.0 {0: true, 7: #1.1, 1023: null, \"plain\": undefined}\n\
#1.1 {}\n";

const FIRST: ObjId = ObjId { pass: 1, serial: 0 };

const SECOND: ObjId = ObjId { pass: 1, serial: 1 };

const MARKED: TextId = TextId(0);

const PLAIN: TextId = TextId(1);

fn texts_of(alloc: Global) -> Result<Texts, InternFault> {
    let mut texts = Texts::new(alloc);
    texts.intern("\\ and \"")?;
    texts.intern("plain")?;
    Ok(texts)
}

fn put(object: ObjId, key: Key, value: Value) -> Call {
    Call::Put { object, key, value }
}

fn make(rt: &impl Abort, heap: &mut PlainHeap, call: Call) -> Result<(), AllocError> {
    assert!(rt; heap.passes() > 1);
    assert!(rt; heap.accepts(call));
    heap.call(1, call)?;
    Ok(())
}

// A heap with a name and a value that are escaped, indexes that are put in no order, and an object
// without properties.
fn heap_of(rt: &impl Abort, alloc: Global) -> Result<PlainHeap, AllocError> {
    let marked = Key::Name(NameId(MARKED.0));
    let plain = Key::Name(NameId(PLAIN.0));
    let calls = [
        put(ObjId::SHARED, marked, Value::Int(-5)),
        put(ObjId::SHARED, plain, Value::Text(MARKED)),
        Call::New,
        Call::New,
        put(FIRST, Key::Index(1_023), Value::Null),
        put(FIRST, plain, Value::Undefined),
        put(FIRST, Key::Index(0), Value::Bool(true)),
        put(FIRST, Key::Index(7), Value::Object(SECOND)),
    ];
    let mut heap = PlainHeap::new(alloc, 3)?;
    for call in calls {
        make(rt, &mut heap, call)?;
    }
    Ok(heap)
}

// The output of two scripts, to a sink that takes a byte a call.
fn print<K: Sink>(sink: &mut K, texts: &Texts, heap: &PlainHeap) -> Result<(), Failed> {
    let mut printer = Printer::new(sink);
    print_run(&mut printer, 1, LINES, Outcome::Done);
    print_run(&mut printer, 2, b"", Outcome::TypeFault);
    print_heap(&mut printer, texts, heap);
    printer.finish()
}

fn sink_of(alloc: Global, failing: &[u64]) -> Result<MemorySink, AllocError> {
    Ok(MemorySink::new(Vec::new(alloc), 1, failing.to_vec(alloc)?))
}

#[test]
fn an_output_is_written_whole(rt: HostRuntime) -> Result<(), Fail> {
    let alloc = rt.alloc();
    let texts = texts_of(alloc)?;
    let heap = heap_of(&rt, alloc)?;
    let mut sink = sink_of(alloc, &[OUTPUT.len() as u64 + 1])?;
    assert_eq!(rt; print(&mut sink, &texts, &heap), Ok(()));
    assert_eq!(rt; sink.bytes(), OUTPUT.as_bytes());
    // Each call took a byte, so none had an empty buffer.
    assert_eq!(rt; sink.write(b"z"), Err(Failed));
    Ok(())
}

// The write after these bytes fails, and no call comes after it.
fn check_fault(
    rt: &impl Abort,
    alloc: Global,
    texts: &Texts,
    heap: &PlainHeap,
    written: &[u8],
) -> Result<(), AllocError> {
    let fault = written.len() as u64 + 1;
    let mut sink = sink_of(alloc, &[fault, fault + 1])?;
    assert_eq!(rt; print(&mut sink, texts, heap), Err(Failed), "write {fault}");
    assert_eq!(rt; sink.bytes(), written, "write {fault}");
    assert_eq!(rt; sink.write(b"z"), Err(Failed), "write {fault}");
    Ok(())
}

#[test]
fn each_write_fails_in_turn(rt: HostRuntime) -> Result<(), Fail> {
    let alloc = rt.alloc();
    let texts = texts_of(alloc)?;
    let heap = heap_of(&rt, alloc)?;
    for written in 0..OUTPUT.len() {
        check_fault(&rt, alloc, &texts, &heap, &OUTPUT.as_bytes()[..written])?;
    }
    Ok(())
}

// Puts a line at the end, `times` times.
fn repeat(text: &mut Vec<u8>, line: &[u8], times: usize) -> Result<(), AllocError> {
    for _ in 0..times {
        text.extend_from_slice(line)?;
    }
    Ok(())
}

// A line that is longer than what waits, and many short ones, with this text before each.
fn long_text(alloc: Global, head: &[u8]) -> Result<Vec<u8>, AllocError> {
    let mut text = Vec::from_slice(alloc, head)?;
    repeat(&mut text, b"x", 600)?;
    for _ in 0..301 {
        text.push(b'\n')?;
        text.extend_from_slice(head)?;
    }
    text.push(b'\n')?;
    Ok(text)
}

// The output of one script, to a sink that takes seven bytes a call.
fn print_one(alloc: Global, lines: &[u8], heap: &PlainHeap) -> MemorySink {
    let mut sink = MemorySink::new(Vec::new(alloc), 7, Vec::new(alloc));
    let mut printer = Printer::new(&mut sink);
    print_run(&mut printer, 1, lines, Outcome::Done);
    print_heap(&mut printer, &Texts::new(alloc), heap);
    let _ = printer.finish();
    sink
}

#[test]
fn an_output_is_longer_than_what_waits(rt: HostRuntime) -> Result<(), Fail> {
    let alloc = rt.alloc();
    let lines = long_text(alloc, b"")?;
    let mut expected = long_text(alloc, b"1| ")?;
    expected.extend_from_slice(b"1= done\n#0.0 {}\n")?;
    let heap = PlainHeap::new(alloc, 2)?;
    let sink = print_one(alloc, &lines, &heap);
    assert_eq!(rt; sink.bytes(), expected.as_slice());
    Ok(())
}
