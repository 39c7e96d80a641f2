// The header of a block of storage.
ghost use Rattle.std.specs.Prelude.{◌≡◌, IfSome, Some};
ghost use Rattle.jo_value.specs.Words.{IsHeader, header_bits};

use crate::bits::{HEADER_ELEMENTS, HEADER_NAMES};

/// How many names and elements a block has room for.
#[derive(Clone, Copy, Debug, PartialEq, Eq)]
pub struct Header {
    pub names: u16,
    pub elements: u16,
}

/// The word of a header.
pub fn header_word(header: Header) -> u64
    ensures { result ≡ header_bits header }
{
    HEADER_NAMES.with(u64::from(header.names)) + HEADER_ELEMENTS.with(u64::from(header.elements))
}

/// The header whose word this is. `None` where it is the word of no header.
pub fn header_of(word: u64) -> Option<Header>
    ensures some { IfSome result (λ header. IsHeader header × (header_bits header ≡ word)) }
    ensures whole { (header : Header) → IsHeader header → header_bits header ≡ word → result ≡ Some header }
{
    let header = Header {
        names: HEADER_NAMES.of(word) as u16,
        elements: HEADER_ELEMENTS.of(word) as u16,
    };
    (header_word(header) == word).then_some(header)
}
