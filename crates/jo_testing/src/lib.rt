//! Runs one script over the reference heap.
#![tactic(auto)]

mod alone;

pub use alone::{Ran, run_alone};
