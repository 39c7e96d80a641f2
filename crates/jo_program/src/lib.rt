//! The program as a library: the top call, from words and an input to a status and an output, and what
//! a process makes of it.
#![tactic(auto)]

mod command;
mod process;
mod status;
mod top;

pub use command::Command;
pub use process::start;
pub use status::Status;
pub use top::{Kept, run};
