//! The parts of the output of a run, printed as they are made.
#![tactic(auto)]

mod print;

pub use print::{print_heap, print_run};
