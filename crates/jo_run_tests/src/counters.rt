// Eight scripts that raise one counter.
use crate::runs::{RUN_LONG, is_short_of_turns, run_set};
use jo_program::Status;
use std::alloc::{AllocError, Global};
use std::test::Fail;

const FIRST: &str = "shared.n = 0;\n";

const OTHER: &str = "%%\nwhile (shared.n === undefined) {}\n";

// A script adds 1 to the counter 1,000 times, and tries again where another one was faster.
const RAISE: &str =
    "let i = 0; while (i < 1000) { let v = shared.n; if (cas(shared, \"n\", v, v + 1) === v) { i += 1; } }\n";

fn eight(alloc: Global) -> Result<String, AllocError> {
    let mut scripts = FIRST.to_string(alloc)?;
    scripts.push_str(RAISE)?;
    for _ in 0..7 {
        scripts.push_str(OTHER)?;
        scripts.push_str(RAISE)?;
    }
    Ok(scripts)
}

const RAISED: &str =
    "1= done\n2= done\n3= done\n4= done\n5= done\n6= done\n7= done\n8= done\n#0.0 {\"n\": 8000}\n";

#[test]
fn no_raise_of_a_counter_is_lost(rt: HostRuntime) -> Result<(), Fail> {
    let alloc = rt.alloc();
    let ran = run_set(&rt, alloc, RUN_LONG, eight(alloc)?.as_str())?;
    if !is_short_of_turns(&ran) {
        assert_eq!(rt; (ran.status, ran.text.as_str()), (Status::Done, RAISED));
    }
    Ok(())
}
