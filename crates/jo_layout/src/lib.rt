//! Where each word stands: in the table of a heap, and in the block of a dictionary.
#![tactic(auto)]

mod block;
mod table;

pub use block::{COUNT, PAIR_WORDS, element_at, name_at, value_at};
pub use table::{Layout, address_of};
