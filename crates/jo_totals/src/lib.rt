//! What a heap has in all: how many objects and properties, and the sum of their numbers.
#![tactic(auto)]

mod heap;
mod properties;
mod tally;
mod total;

pub use heap::totals;
pub use total::Totals;
