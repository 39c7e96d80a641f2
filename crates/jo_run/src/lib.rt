//! Runs sets of scripts over one shared heap, each script in a thread of its own.
#![tactic(auto)]

mod gate;
mod jobs;
mod replies;
mod script;
mod set;

pub use gate::{Gate, OpenGate};
pub use replies::make_call;
pub use script::run_script;
pub use set::{Ended, EndedScript, run_set};
