//! Values, keys, the table of texts, and the limits that everything above keeps.
#![tactic(auto)]

mod bits;
mod capacities;
mod key;
mod limits;
mod texts;
mod value;
mod words;

pub use capacities::{
    CALLS_WITHIN_STORAGE, CALLS_WITHIN_STRUCTURES, DICTIONARY_NAMES, DICTIONARY_NEED,
    ELEMENT_CAPACITIES, FIRED, FIRING, FRAGMENT_WORDS, HEADER_NEED, INLINE_OFFSETS, MOST_DEPTH,
    MOST_EPOCHS, MOST_FREE_RAISES, MOST_GET_LOADS, MOST_OFFSETS, MOST_PASSES, MOST_SIBLINGS,
    MOST_STRUCTURES, MOST_STRUCTURES_OF_CALL, MOST_WORDS, NAME_CAPACITIES, OBJECT_WORDS, OUT,
    SHARED_ADDRESS, SHARED_STORAGE, STAMP_WORDS, STRUCTURE_WORDS, UNSTAMPED, VALID,
};
pub use key::KeyOutside;
pub use limits::{
    DEFAULT_TURNS, MOST_ARRAY_INDEX, MOST_INDEX, MOST_INPUT, MOST_LINE_BYTES, MOST_MADE,
    MOST_NAMES, MOST_NEED, MOST_NUMBER, MOST_OBJECTS, MOST_OPEN, MOST_SCRIPTS, MOST_STORAGE,
    MOST_TEXT_BYTES, MOST_TEXTS, MOST_TURNS,
};
pub use texts::{InternFault, Texts};
pub use value::{Key, NameId, ObjId, Sid, TextId, Value};
pub use words::{
    Cell, Change, Header, Kind, Node, Slot, cell_of, cell_word, header_of, header_word, node_of,
    node_word, slot_of, slot_word,
};
