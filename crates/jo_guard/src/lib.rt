//! Locks: one is tried, waited for, and released.
#![tactic(auto)]

mod locking;
mod releasing;

pub use locking::{try_lock, wait_for_lock};
pub use releasing::{release, release_moved};
