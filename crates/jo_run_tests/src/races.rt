// Two scripts that race, and all that may come of them.
use crate::runs::{RUN, Ran, run_set};
use jo_program::Status;
use std::alloc::{AllocError, Global};
use std::process::Abort;
use std::sync::Wait;
use std::test::Fail;
use std::thread::Threads;

// How often a race is run.
const ROUNDS: u32 = 5;

// Two scripts, how their output begins and ends, and what may stand between.
#[derive(Clone, Copy)]
struct Race<'a> {
    scripts: &'a str,
    front: &'a str,
    middles: &'a [&'a str],
    back: &'a str,
}

fn check_middle(rt: &impl Abort, ran: &Ran, race: Race<'_>) {
    assert_eq!(rt; ran.status, Status::Done, "{}", race.scripts);
    let rest = ran.text.strip_prefix(race.front).unwrap_or("no front");
    let middle = rest.strip_suffix(race.back).unwrap_or("no back");
    let allowed = race.middles.iter().any(|other| *other == middle);
    assert!(rt; allowed, "{} of {}", ran.text, race.scripts);
}

fn check<R: Abort + Threads + Wait + Sync>(
    rt: &R,
    alloc: Global,
    race: Race<'_>,
) -> Result<(), AllocError> {
    for _ in 0..ROUNDS {
        check_middle(rt, &run_set(rt, alloc, RUN, race.scripts)?, race);
    }
    Ok(())
}

#[test]
fn names_that_two_scripts_put_stand_in_either_order(rt: HostRuntime) -> Result<(), Fail> {
    let race = Race {
        scripts: "shared.p = 1;\n%%\nshared.q = 2;",
        front: "1= done\n2= done\n#0.0 {",
        middles: &["\"p\": 1, \"q\": 2", "\"q\": 2, \"p\": 1"],
        back: "}\n",
    };
    check(&rt, rt.alloc(), race)?;
    Ok(())
}

const GROWING: &str =
    "let o = {x: 0}; shared.o = o; o.a = 1; o.b = 2; o.c = 3; o.d = 4; o.x = 5; o.e = 6; o.f = 7; o.g = 8; o.h = 9;
%%
let o = shared.o;
if (o !== undefined) { print(o.x); print(o.x); }";

#[test]
fn a_reader_beside_growth_reads_no_older_value_later(rt: HostRuntime) -> Result<(), Fail> {
    let race = Race {
        scripts: GROWING,
        front: "1= done\n",
        middles: &["", "2| 0\n2| 0\n", "2| 0\n2| 5\n", "2| 5\n2| 5\n"],
        back: "2= done\n#0.0 {\"o\": #1.0}\n#1.0 {\"x\": 5, \"a\": 1, \"b\": 2, \"c\": 3, \"d\": 4, \"e\": 6, \"f\": 7, \"g\": 8, \"h\": 9}\n",
    };
    check(&rt, rt.alloc(), race)?;
    Ok(())
}

#[test]
fn a_put_beside_a_deletion_is_there_or_not(rt: HostRuntime) -> Result<(), Fail> {
    let race = Race {
        scripts: "shared.x = 1; shared.x = 2;\n%%\ndelete shared.x;",
        front: "1= done\n2= done\n#0.0 {",
        middles: &["\"x\": 2", ""],
        back: "}\n",
    };
    check(&rt, rt.alloc(), race)?;
    Ok(())
}

const REPLACED: &str =
    "let o = {a: 1, b: 2}; shared.o = o; delete o.b; o.c = 3; print(o.a, o.b, o.c);
%%
let o = shared.o;
if (o !== undefined) { print(o.b, o.c); }";

#[test]
fn a_reader_sees_no_value_under_another_name(rt: HostRuntime) -> Result<(), Fail> {
    let race = Race {
        scripts: REPLACED,
        front: "1| 1 undefined 3\n1= done\n",
        middles: &[
            "",
            "2| 2 undefined\n",
            "2| 2 3\n",
            "2| undefined undefined\n",
            "2| undefined 3\n",
        ],
        back: "2= done\n#0.0 {\"o\": #1.0}\n#1.0 {\"a\": 1, \"c\": 3}\n",
    };
    check(&rt, rt.alloc(), race)?;
    Ok(())
}
