//! The atomic steps of the shared heap. Each is one load, store or exchange on one word of a table, and keeps the rule.
#![tactic(auto)]

mod access;
mod closed;
mod heap;
mod held;
mod known;
mod lifetime;
mod loads;
mod locks;
mod pass;
mod seats;
mod stores;
mod table;

pub use closed::ClosedWords;
pub use heap::Heap;
pub use held::Held;
pub use lifetime::{close_heap, make_heap};
pub use pass::Pass;
