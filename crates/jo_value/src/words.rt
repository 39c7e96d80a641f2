// The words of the heap: what they say, and the 64 bits in which they say it.
mod cell;
mod header;
mod node;
mod slot;

pub use cell::{Cell, Kind, cell_of, cell_word};
pub use header::{Header, header_of, header_word};
pub use node::{Change, Node, node_of, node_word};
pub use slot::{Slot, slot_of, slot_word};
