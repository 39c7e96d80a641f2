//! Runs a set of scripts over a shared object: from standard input to standard output.
#![tactic(auto)]

use std::process::ExitCode;

fn main(rt: HostRuntime) -> ExitCode {
    jo_program::start(&rt)
}
