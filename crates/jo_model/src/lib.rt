//! What calls on the heap mean, how what they leave is written, and the reference heap of one thread.
#![tactic(auto)]

mod call;
mod fits;
mod name_list;
mod objects;
mod plain;

pub use call::{Call, Outcome, Reply, Spent};
pub use name_list::NameList;
pub use objects::Objects;
pub use plain::{PlainHeap, PlainObject};
