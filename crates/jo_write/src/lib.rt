//! Calls that write: an object is made, and a property is put, deleted, or put where it has an expected value.
#![tactic(auto)]

mod faults;
mod making;
mod rooms;
mod writing;

pub use faults::{NewFault, PutFault};
pub use making::new_object;
pub use writing::{cas, delete, put};
