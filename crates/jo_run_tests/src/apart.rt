// Scripts run at the same time.
use crate::meetings::Meeting;
use crate::runs::{RUN, Ran, run_behind};
use jo_program::Status;
use std::alloc::{AllocError, Global};
use std::process::Abort;
use std::sync::Wait;
use std::sync::atomic::Ordering::SeqCst;
use std::test::Fail;
use std::thread::Threads;
use std::time::Clock;

// Runs two scripts that meet before the first call of script 1 and the second one of script 2.
fn run_meeting<R: Abort + Clock + Threads + Wait + Sync>(
    rt: &R,
    alloc: Global,
    scripts: &str,
) -> Result<Ran, AllocError> {
    let meeting = Meeting::new(rt);
    let ran = run_behind(rt, alloc, RUN, scripts, &meeting)?;
    assert!(rt;
        !meeting.late.load(SeqCst),
        "no script came while the other one was held"
    );
    Ok(ran)
}

#[test]
fn two_scripts_meet_in_the_middle_of_their_runs(rt: HostRuntime) -> Result<(), Fail> {
    let scripts = "shared.a = 1;\n%%\nshared.b = 2; shared.c = 3;";
    let ran = run_meeting(&rt, rt.alloc(), scripts)?;
    assert_eq!(rt; ran.status, Status::Done);
    Ok(())
}

#[test]
fn a_call_that_is_held_is_not_made(rt: HostRuntime) -> Result<(), Fail> {
    let scripts = "shared.a = 1;\n%%\nprint(shared.a); print(shared.b);";
    let ran = run_meeting(&rt, rt.alloc(), scripts)?;
    let output = "1= done\n2| undefined\n2| undefined\n2= done\n#0.0 {\"a\": 1}\n";
    assert_eq!(rt; (ran.status, ran.text.as_str()), (Status::Done, output));
    Ok(())
}
