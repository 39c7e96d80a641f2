// Command lines, and the faults of reading and writing.
use crate::runs::{Row, check, fine};
use jo_program::Status;
use std::test::Fail;

const SCRIPT: &[u8] = b"shared.x = 1; shared.y = 2; print(shared.x, shared.z);";

const OUTPUT: &[u8] = b"1| 1 undefined\n1= done\n#0.0 {\"x\": 1, \"y\": 2}\n";

const USAGE: &[u8] = b"usage: jsobj run [--stats] [--turns T] | make N | run-made N\n";

// Words that are no command line. Nothing is read then.
const OTHERS: [&[&str]; 22] = [
    &[],
    &["Run"],
    &["run", "run"],
    &["run", "--turns"],
    &["run", "--turns", "0"],
    &["run", "--turns", "1000000001"],
    &["run", "--turns", "18446744073709551617"],
    &["run", "--turns", "05"],
    &["run", "--turns", "+5"],
    &["run", "--turns", ""],
    &["run", "--turns", "5", "5"],
    &["run", "--Turns", "5"],
    &["--turns", "5"],
    &["run", "--turns", "5", "--stats"],
    &["run", "--stats", "--turns"],
    &["run", "--stats", "--turns", "0"],
    &["make"],
    &["make", "07"],
    &["make", "1000000"],
    &["run-made"],
    &["run-made", "-1"],
    &["run-made", "7", "7"],
];

#[test]
fn other_words_are_answered_by_the_usage_line(rt: HostRuntime) -> Result<(), Fail> {
    for words in OTHERS {
        let row = Row {
            words,
            input: SCRIPT,
            read: Some(1),
            write: None,
            status: Status::Usage,
            ran: false,
            output: USAGE,
        };
        check(&rt, rt.alloc(), row)?;
    }
    Ok(())
}

const COUNTED: &[u8] = b"let n = 0; while (true) { n += 1; shared.n = n; }";

const SUM: &[u8] =
    b"let s = 0; for (let i = 1; i <= 10; i += 1) { if (i % 2 === 0) continue; s += i; } print(s);";

// Numbers of turns.
const TURNS: [(&str, &[u8], Status, &[u8]); 6] = [
    (
        "5",
        COUNTED,
        Status::EndedWithFaults,
        b"1= TurnsSpent\n#0.0 {\"n\": 5}\n",
    ),
    (
        "1",
        COUNTED,
        Status::EndedWithFaults,
        b"1= TurnsSpent\n#0.0 {\"n\": 1}\n",
    ),
    (
        "10",
        SUM,
        Status::EndedWithFaults,
        b"1= TurnsSpent\n#0.0 {}\n",
    ),
    ("11", SUM, Status::Done, b"1| 25\n1= done\n#0.0 {}\n"),
    ("1", SCRIPT, Status::Done, OUTPUT),
    ("1000000000", SCRIPT, Status::Done, OUTPUT),
];

#[test]
fn the_words_give_the_turns(rt: HostRuntime) -> Result<(), Fail> {
    for (turns, input, status, output) in TURNS {
        let row = Row {
            words: &["run", "--turns", turns],
            input,
            read: None,
            write: None,
            status,
            ran: true,
            output,
        };
        check(&rt, rt.alloc(), row)?;
    }
    Ok(())
}

// Reads that fail, and the write that is not to be made.
const READS: [(usize, Option<usize>); 2] = [(2, Some(1)), (55, None)];

#[test]
fn a_failed_read_is_answered_at_once(rt: HostRuntime) -> Result<(), Fail> {
    for (read, write) in READS {
        let row = Row {
            read: Some(read),
            write,
            ..fine(SCRIPT, Status::ReadFault, b"")
        };
        check(&rt, rt.alloc(), row)?;
    }
    Ok(())
}

// Writes that fail: the input, which of them, whether scripts ran, and what is written.
const WRITES: [(&[u8], usize, bool, &[u8]); 5] = [
    (SCRIPT, 1, true, b""),
    (SCRIPT, 3, true, b"1|"),
    (b"let a", 9, false, b"refused "),
    (b"shared.x.y = 1;", 6, true, b"1= Ty"),
    (b"print(1);\n%%\nprint(2);", 15, true, b"1| 1\n1= done\n2"),
];

#[test]
fn a_failed_write_leaves_what_ran(rt: HostRuntime) -> Result<(), Fail> {
    for (input, write, ran, output) in WRITES {
        let row = Row {
            write: Some(write),
            ran,
            ..fine(input, Status::WriteFault, output)
        };
        check(&rt, rt.alloc(), row)?;
    }
    Ok(())
}

#[test]
fn a_usage_line_that_is_not_written_is_a_fault(rt: HostRuntime) -> Result<(), Fail> {
    let row = Row {
        words: &["Run"],
        input: SCRIPT,
        read: Some(1),
        write: Some(4),
        status: Status::WriteFault,
        ran: false,
        output: b"usa",
    };
    check(&rt, rt.alloc(), row)?;
    Ok(())
}
