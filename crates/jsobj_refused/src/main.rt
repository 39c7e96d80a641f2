//! The program once more, for its run on a set that is refused.
#![tactic(auto)]

use std::process::ExitCode;

fn main(rt: HostRuntime) -> ExitCode {
    jo_program::start(&rt)
}
