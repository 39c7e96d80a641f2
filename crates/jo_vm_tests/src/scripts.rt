// Scripts, the replies that they get, and what comes of them.
ghost use Rattle.std.specs.Prelude.{◌≤◌, length};
ghost use Rattle.jo_value.specs.declared.limits.TheConstants.{MOST_INPUT};

use crate::driving::{Given, ending, run};
use jo_value::{ObjId, Value};
use std::alloc::{AllocError, Global};
use std::process::Abort;
use std::test::Fail;

// A script, its turns, the replies, what it asks, and the lines that it prints.
#[derive(Clone, Copy)]
struct Row<'a> {
    script: &'a str,
    turns: u32,
    replies: &'a [Given],
    asks: &'a str,
    lines: &'a str,
}

fn check(rt: &impl Abort, alloc: Global, row: Row<'_>) -> Result<(), AllocError> {
    assert!(rt; row.script.len() < 1000, "too long: {}", row.script);
    let story = run(alloc, row.script, row.turns, row.replies)?;
    assert_eq!(rt; story.asks.as_str(), row.asks, "{}", row.script);
    assert_eq!(rt; story.lines.as_str(), row.lines, "{}", row.script);
    Ok(())
}

// Worked out by hand from what scripts mean: the order in which values are read, and the turn that each
// test of a loop takes.
const ROWS: [Row<'static>; 34] = [
    Row {
        script: ";",
        turns: 0,
        replies: &[],
        asks: "\
done\n\
",
        lines: "",
    },
    Row {
        script: "shared.x = shared.y;",
        turns: 0,
        replies: &[Given::Found(Value::Int(7)), Given::Done],
        asks: "\
get #0.0 y\n\
put #0.0 x 7\n\
done\n\
",
        lines: "",
    },
    Row {
        script: "shared[3] = 'a'; shared['12'] = null;",
        turns: 0,
        replies: &[Given::Done, Given::Done],
        asks: "\
put #0.0 [3] 'a'\n\
put #0.0 [12] null\n\
done\n\
",
        lines: "",
    },
    Row {
        script: "print(shared.x.y);",
        turns: 0,
        replies: &[
            Given::Found(Value::Object(ObjId { pass: 1, serial: 4 })),
            Given::Found(Value::Bool(true)),
        ],
        asks: "\
get #0.0 x\n\
get #1.4 y\n\
done\n\
",
        lines: "true\n",
    },
    Row {
        script: "print('x' in shared);",
        turns: 0,
        replies: &[Given::Flag(false)],
        asks: "\
has #0.0 x\n\
done\n\
",
        lines: "false\n",
    },
    Row {
        script: "print(delete shared.x);",
        turns: 0,
        replies: &[Given::Flag(true)],
        asks: "\
delete #0.0 x\n\
done\n\
",
        lines: "true\n",
    },
    Row {
        script: "print(cas(shared, 'x', 1, 'b'));",
        turns: 0,
        replies: &[Given::Found(Value::Int(5))],
        asks: "\
cas #0.0 x 1 'b'\n\
done\n\
",
        lines: "5\n",
    },
    Row {
        script: "let o = {a: 1, 7: shared}; print(o);",
        turns: 0,
        replies: &[Given::Made(3), Given::Done, Given::Done],
        asks: "\
new\n\
put #2.3 a 1\n\
put #2.3 [7] #0.0\n\
done\n\
",
        lines: "#2.3\n",
    },
    Row {
        script: "'x'; 'y'; printNames(shared);",
        turns: 0,
        replies: &[Given::Names],
        asks: "\
names #0.0\n\
done\n\
",
        lines: "x,y\n",
    },
    Row {
        script: "printNames(shared); print();",
        turns: 0,
        replies: &[Given::NoNames],
        asks: "\
names #0.0\n\
done\n\
",
        lines: "\n\n",
    },
    Row {
        script: "print(undefined, null, true, -3, 'a b', shared);",
        turns: 0,
        replies: &[],
        asks: "\
done\n\
",
        lines: "undefined null true -3 a b #0.0\n",
    },
    Row {
        script: "print(7 % 3, -7 % 3, 2 * 3 + 1, 1 - 2, -0);",
        turns: 0,
        replies: &[],
        asks: "\
done\n\
",
        lines: "1 -1 7 -1 0\n",
    },
    Row {
        script: "print(1 === 1, 'a' === 'a', shared === shared, 1 === '1', 1 !== 2);",
        turns: 0,
        replies: &[],
        asks: "\
done\n\
",
        lines: "true true true false true\n",
    },
    Row {
        script: "print(1 < 1, 1 <= 1, 2 > 1, 1 >= 2);",
        turns: 0,
        replies: &[],
        asks: "\
done\n\
",
        lines: "false true true false\n",
    },
    Row {
        script: "print(0 || 'b', 1 && 2, '' ? 1 : 2, !null, null && shared.x);",
        turns: 0,
        replies: &[],
        asks: "\
done\n\
",
        lines: "b 2 2 true null\n",
    },
    Row {
        script: "shared.x += 1; print(shared.n -= 2);",
        turns: 0,
        replies: &[
            Given::Found(Value::Int(4)),
            Given::Done,
            Given::Found(Value::Int(9)),
            Given::Done,
        ],
        asks: "\
get #0.0 x\n\
put #0.0 x 5\n\
get #0.0 n\n\
put #0.0 n 7\n\
done\n\
",
        lines: "7\n",
    },
    Row {
        script: "let a = 1; let b = (a = 2) + a * (a = 3); print(a, b);",
        turns: 0,
        replies: &[],
        asks: "\
done\n\
",
        lines: "3 8\n",
    },
    Row {
        script: "let i = 0; while (i < 2) { i += 1; } print(i);",
        turns: 3,
        replies: &[],
        asks: "\
turn\n\
turn\n\
turn\n\
done\n\
",
        lines: "2\n",
    },
    Row {
        script: "let i = 0; while (i < 2) { i += 1; } print(i);",
        turns: 2,
        replies: &[],
        asks: "\
turn\n\
turn\n\
turns spent\n\
",
        lines: "",
    },
    Row {
        script: "for (let i = 0; i < 3; i += 1) { if (i === 1) { continue; } print(i); }",
        turns: 4,
        replies: &[],
        asks: "\
turn\n\
turn\n\
turn\n\
turn\n\
done\n\
",
        lines: "0\n2\n",
    },
    Row {
        script: "while (shared.go) { print(1); break; }",
        turns: 9,
        replies: &[Given::Found(Value::Bool(true))],
        asks: "\
turn\n\
get #0.0 go\n\
done\n\
",
        lines: "1\n",
    },
    Row {
        script: "print(1); null.x; print(2);",
        turns: 0,
        replies: &[],
        asks: "\
type fault\n\
",
        lines: "1\n",
    },
    Row {
        script: "print(undefined[null]);",
        turns: 0,
        replies: &[],
        asks: "\
type fault\n\
",
        lines: "",
    },
    Row {
        script: "print(1 + 'a');",
        turns: 0,
        replies: &[],
        asks: "\
type fault\n\
",
        lines: "",
    },
    Row {
        script: "print(1 in 2);",
        turns: 0,
        replies: &[],
        asks: "\
type fault\n\
",
        lines: "",
    },
    Row {
        script: "printNames('a');",
        turns: 0,
        replies: &[],
        asks: "\
type fault\n\
",
        lines: "",
    },
    Row {
        script: "print(shared[null]);",
        turns: 0,
        replies: &[],
        asks: "\
key outside\n\
",
        lines: "",
    },
    Row {
        script: "shared[1023] = shared[1024];",
        turns: 0,
        replies: &[],
        asks: "\
key outside\n\
",
        lines: "",
    },
    Row {
        script: "print(shared['1023'], shared['1024']);",
        turns: 0,
        replies: &[Given::Found(Value::Undefined)],
        asks: "\
get #0.0 [1023]\n\
key outside\n\
",
        lines: "",
    },
    Row {
        script: "print(9007199254740990 + 1); print(9007199254740991 + 1);",
        turns: 0,
        replies: &[],
        asks: "\
not safe\n\
",
        lines: "9007199254740991\n",
    },
    Row {
        script: "print(5 % 0);",
        turns: 0,
        replies: &[],
        asks: "\
not safe\n\
",
        lines: "",
    },
    Row {
        script: "print(1); shared.x = 1; print(2);",
        turns: 0,
        replies: &[Given::TooManyNames],
        asks: "\
put #0.0 x 1\n\
too many names\n\
",
        lines: "1\n",
    },
    Row {
        script: "let o = {}; print(o);",
        turns: 0,
        replies: &[Given::ObjectsSpent],
        asks: "\
new\n\
objects spent\n\
",
        lines: "",
    },
    Row {
        script: "delete shared.x; print(1);",
        turns: 0,
        replies: &[Given::Spent],
        asks: "\
delete #0.0 x\n\
spent\n\
",
        lines: "",
    },
];

#[test]
fn scripts_ask_and_print(rt: HostRuntime) -> Result<(), Fail> {
    let alloc = rt.alloc();
    for row in &ROWS {
        check(&rt, alloc, *row)?;
    }
    Ok(())
}

// A line of four texts of 255 bytes has 1,024 bytes with its blanks and its line feed, so 256 of them fill the buffer.
const FILLING: &str = "\
let t = 'aaaaaaaaaaaaaaaaaaaaaaaaaaaaaaaaaaaaaaaaaaaaaaaaaaaaaaaaaaaaaaaaaaaaaaaaaaaaaaaaaaaaaaaaaaaaaaaaaaaaaaaaaaaaaaaaaaaaaaaaaaaaaaaaaaaaaaaaaaaaaaaaaaaaaaaaaaaaaaaaaaaaaaaaaaaaaaaaaaaaaaaaaaaaaaaaaaaaaaaaaaaaaaaaaaaaaaaaaaaaaaaaaaaaaaaaaaaaaaaaaaaaaaaaaaaaaaa';\n\
let i = 0;\n\
while (i < 256) { print(t, t, t, t); i += 1; }\n\
";

const OVERFLOWING: &str = "\
let t = 'aaaaaaaaaaaaaaaaaaaaaaaaaaaaaaaaaaaaaaaaaaaaaaaaaaaaaaaaaaaaaaaaaaaaaaaaaaaaaaaaaaaaaaaaaaaaaaaaaaaaaaaaaaaaaaaaaaaaaaaaaaaaaaaaaaaaaaaaaaaaaaaaaaaaaaaaaaaaaaaaaaaaaaaaaaaaaaaaaaaaaaaaaaaaaaaaaaaaaaaaaaaaaaaaaaaaaaaaaaaaaaaaaaaaaaaaaaaaaaaaaaaaaaaaaaaaaaa';\n\
while (true) print(t, t, t, t);\n\
";

fn check_ending(
    rt: &impl Abort,
    alloc: Global,
    script: &str,
    wanted: &str,
) -> Result<(), AllocError> {
    assert!(rt; script.len() < 1000, "too long: {script}");
    let found = ending(alloc, script, 300)?;
    assert_eq!(rt; found.as_str(), wanted, "{script}");
    Ok(())
}

#[test]
fn lines_fill_their_buffer_to_the_last_byte(rt: HostRuntime) -> Result<(), Fail> {
    let alloc = rt.alloc();
    check_ending(&rt, alloc, FILLING, "done, done, 257 turns, 262144 bytes")?;
    check_ending(
        &rt,
        alloc,
        OVERFLOWING,
        "output full, output full, 257 turns, 262144 bytes",
    )?;
    Ok(())
}

#[test]
fn an_end_is_answered_again(rt: HostRuntime) -> Result<(), Fail> {
    let alloc = rt.alloc();
    check_ending(
        &rt,
        alloc,
        "while (true) ;",
        "turns spent, turns spent, 300 turns, 0 bytes",
    )?;
    check_ending(
        &rt,
        alloc,
        "print(1); print(1 + null); print(2);",
        "type fault, type fault, 0 turns, 2 bytes",
    )?;
    Ok(())
}
