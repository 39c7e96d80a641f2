//! A heap is opened with all its memory, its passes are joined, and its objects are read when it was closed.
#![tactic(auto)]

mod block;
mod closed;
mod initial;
mod named_words;
mod open;

pub use closed::{Closed, close};
pub use open::{join, open_heap};
