// Sets that are made by number, and the counts of scripts.
use crate::runs::{Row, check, fine};
use jo_program::Status;
use std::test::Fail;

// The two scripts of the set with the number 7.
const SEVEN: &[u8] = b"let a = {};\n\
shared.s1 = a;\n\
shared.n1_0 = 270;\n\
shared.n1_1 = 920;\n\
shared.n1_2 = 754;\n\
shared.n1_3 = 666;\n\
let i = 0;\n\
while (i < 1000) { a[i] = i + 437; a.c = i; shared[100 + i % 100] = i; i += 1; }\n\
delete shared.n1_0;\n\
shared.n1_0 = 36;\n\
print(a.c);\n\
%%\n\
let a = {};\n\
shared.s2 = a;\n\
shared.n2_0 = 334;\n\
shared.n2_1 = 261;\n\
shared.n2_2 = 587;\n\
shared.n2_3 = 541;\n\
let i = 0;\n\
while (i < 1000) { a[i] = i + 857; a.c = i; shared[200 + i % 100] = i; i += 1; }\n\
delete shared.n2_0;\n\
shared.n2_0 = 441;\n\
print(a.c);\n";

// Nothing is read, and the writing may fail.
const MADE: [(Option<usize>, Status, &[u8]); 2] = [
    (None, Status::Done, SEVEN),
    (Some(5), Status::WriteFault, b"let "),
];

#[test]
fn a_made_set_is_written(rt: HostRuntime) -> Result<(), Fail> {
    for (write, status, output) in MADE {
        let row = Row {
            words: &["make", "7"],
            read: Some(1),
            write,
            ran: false,
            ..fine(b"", status, output)
        };
        check(&rt, rt.alloc(), row)?;
    }
    Ok(())
}

// Each script leaves an object with one name and 1,000 elements, and on the shared object five names and 100 elements.
const SUMS: [(&str, &[u8]); 2] = [
    (
        "7",
        b"made 7: scripts 2, done 2, objects 3, names 12, elements 2200, sum 2489104\n",
    ),
    (
        "0",
        b"made 0: scripts 2, done 2, objects 3, names 12, elements 2200, sum 2012825\n",
    ),
];

#[test]
fn a_made_set_is_run_and_summed_up(rt: HostRuntime) -> Result<(), Fail> {
    for (number, output) in SUMS {
        let row = Row {
            words: &["run-made", number],
            read: Some(1),
            ..fine(b"", Status::Done, output)
        };
        check(&rt, rt.alloc(), row)?;
    }
    Ok(())
}

// What is written with counts. A put of a first name loads the cell of the object and the number of its names. It stores the value,
// the name, the number of names and the cell, and it takes one lock. A script that makes no call has no steps.
const COUNTED: [(&[&str], &[u8], Status, &[u8]); 4] = [
    (
        &["run", "--stats"],
        b"shared.x = 1;",
        Status::Done,
        b"1= done\n1# loads 2 stores 4 exchanges 0 locks 1\n#0.0 {\"x\": 1}\n",
    ),
    (
        &["run", "--stats"],
        b"print(1);\n%%\nshared.x = 1;",
        Status::Done,
        b"1| 1\n1= done\n1# loads 0 stores 0 exchanges 0 locks 0\n\
2= done\n2# loads 2 stores 4 exchanges 0 locks 1\n#0.0 {\"x\": 1}\n",
    ),
    (
        &["run", "--stats", "--turns", "1"],
        b"while (true) { shared.x = 1; }",
        Status::EndedWithFaults,
        b"1= TurnsSpent\n1# loads 2 stores 4 exchanges 0 locks 1\n#0.0 {\"x\": 1}\n",
    ),
    (
        &["run", "--stats"],
        b"let a",
        Status::Refused,
        b"refused 3 Unexpected at 5\n",
    ),
];

#[test]
fn the_counts_of_a_script_follow_its_part(rt: HostRuntime) -> Result<(), Fail> {
    for (words, input, status, output) in COUNTED {
        let row = Row {
            words,
            ..fine(input, status, output)
        };
        check(&rt, rt.alloc(), row)?;
    }
    Ok(())
}
