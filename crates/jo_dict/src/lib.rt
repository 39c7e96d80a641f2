//! The blocks of dictionaries: one is made, read and changed, before a cell names it or while its lock is held.
#![tactic(auto)]

mod changing;
mod filling;
mod finding;
mod listing;
mod making;
mod place;
mod words;

pub use changing::{add, take_out};
pub use filling::fill;
pub use finding::{find, len, locate, room};
pub use listing::names;
pub use making::{block_of, empty_block};
pub use place::{Place, Spot};
