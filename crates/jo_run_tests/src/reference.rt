// Sets of one script, beside the loop over the reference heap.
ghost use Rattle.std.specs.Prelude.{◌≤◌, length};
ghost use Rattle.jo_value.specs.declared.limits.TheConstants.{MOST_INPUT};

use crate::runs::run_set;
use jo_io::{MemorySink, Printer};
use jo_parse::{ParseFault, ScriptSet, parse_set};
use jo_print::{print_heap, print_run};
use jo_testing::{Ran, run_alone};
use jo_value::Texts;
use std::alloc::{AllocError, Global};
use std::test::Fail;

// Turns enough for a script that makes all objects that it may.
const TURNS: u32 = 5_000;

const WORDS: &[&str] = &["run", "--turns", "5000"];

fn set_of(alloc: Global, script: &str) -> Result<ScriptSet, AllocError>
    requires { length script.now ≤ MOST_INPUT }
{
    match parse_set(alloc, script.as_bytes()) {
        Ok(set) => Ok(set),
        Err(ParseFault::Refused(_)) => Err(AllocError),
        Err(ParseFault::Memory) => Err(AllocError),
    }
}

fn text_of(alloc: Global, texts: &Texts, ran: &Ran) -> Result<Vec<u8>, AllocError> {
    let mut sink = MemorySink::new(Vec::new(alloc), 4_096, Vec::new(alloc));
    let mut printer = Printer::new(&mut sink);
    print_run(&mut printer, 1, &ran.lines, ran.outcome);
    print_heap(&mut printer, texts, &ran.heap);
    if printer.finish().is_err() {
        return Err(AllocError);
    }
    sink.bytes().to_vec(alloc)
}

// The output of a script over the reference heap.
fn slow(alloc: Global, script: &str) -> Result<Vec<u8>, AllocError>
    requires { length script.now ≤ MOST_INPUT }
{
    let set = set_of(alloc, script)?;
    let ran = run_alone(alloc, set.script(0), set.texts(), TURNS)?;
    text_of(alloc, set.texts(), &ran)
}

const SCRIPTS: [&str; 15] = [
    // Properties and elements.
    "let o = {b: 1, a: 2}; o.c = o; o[3] = 4; o[1] = 5; o['2'] = null; shared.o = o; printNames(o);",
    "for (let i = 0; i < 64; i += 1) { shared[i * 16] = {at: i}; } print(shared[1008].at, shared[5]);",
    "let o = {a: 0, b: 1, c: 2, d: 3, e: 4, f: 5, g: 6, h: 7, i: 8}; o.a = 9; o.j = 10; printNames(o);",
    "let o = {a: 1, b: 'two', c: true, d: null, e: undefined, f: -3}; o.b = o.a; print(o.b, o.e, 'e' in o, 'g' in o);",
    "shared.x = 1; print(cas(shared, 'x', 1, 2), cas(shared, 'x', 1, 3), shared.x);",
    // Deletion.
    "let o = {a: 1, b: 2, c: 3}; print(delete o.b, delete o.b); o.b = 4; printNames(o); delete o.a; printNames(o);",
    "let o = {0: 1, 7: 2}; delete o[0]; delete o[5]; print(0 in o, 7 in o); o[0] = o[7];",
    // Objects in objects.
    "shared.a = {b: {c: {}}}; shared.a.b.c.d = shared; print(shared.a.b.c.d === shared, shared.a.b);",
    "let list = null; for (let i = 0; i < 5; i += 1) { list = {next: list, value: i}; } shared.list = list;",
    // Faults.
    "let o = {}; print('k'); o.p = 'k' + 1;",
    "print(1); shared.x = {}; shared.x.y.z = 1;",
    "let o = {}; o[1023] = 1; o[1024] = 1;",
    "shared.n = 9007199254740991; shared.n += 1;",
    "let n = 0; while (true) { n += 1; if (n === 1000) shared.n = n; }",
    "while (true) { shared.a = {}; }",
];

#[test]
fn a_script_alone_leaves_what_it_leaves_on_the_slow_heap(rt: HostRuntime) -> Result<(), Fail> {
    let alloc = rt.alloc();
    for script in SCRIPTS {
        assert!(rt; script.len() < 1_000);
        let ran = run_set(&rt, alloc, WORDS, script)?;
        let text = slow(alloc, script)?;
        assert_eq!(rt; ran.text.as_bytes(), text.as_slice(), "{script}");
    }
    Ok(())
}
