//! What is due for an input: the output of its scripts, or a line that says why it is not run.
#![tactic(auto)]

mod due;
mod lines;
mod options;
mod summary;
mod text;

pub use due::{Answer, Verdict, answer_to};
pub use options::{Form, RunOptions};
pub use text::{Due, Written};
