// Which keys numbers and texts are.
ghost use Rattle.std.specs.Prelude.{◌≡◌, IsTrue, true};
ghost use Rattle.jo_value.specs.Keys.{is_unpadded, is_numeral, array_index, key_at, key_by, key_of_int};

use crate::{Key, MOST_ARRAY_INDEX, MOST_INDEX, NameId};

/// What is no key: a number below 0 or above `MOST_INDEX`, an array index above it, an id that a table lacks.
#[derive(Clone, Copy, Debug, PartialEq, Eq)]
pub struct KeyOutside;

impl Key {
    /// The index that a number is; `Err` for one below 0 or above `MOST_INDEX`.
    pub fn of_int(i: i64) -> Result<Key, KeyOutside>
        ensures { result ≡ key_of_int i }
    {
        if i < 0 || i > i64::from(MOST_INDEX) {
            return Err(KeyOutside);
        }
        Ok(Key::Index(i as u16))
    }

    // The key of a text with this id: an index for an array index, else the name with that id.
    pub(crate) fn of_text(id: u16, text: &str) -> Result<Key, KeyOutside>
        ensures { result ≡ key_by id (array_index text.now) }
    {
        match array_index_of(text) {
            Some(index) => Key::at(index),
            None => Ok(Key::Name(NameId(id))),
        }
    }

    // The same as `of_int` for an array index.
    fn at(index: u32) -> Result<Key, KeyOutside>
        ensures { result ≡ key_at index }
    {
        if index > MOST_INDEX {
            return Err(KeyOutside);
        }
        Ok(Key::Index(index as u16))
    }
}

// The array index that a text is, by ECMA-262: a canonical numeric text up to `MOST_ARRAY_INDEX`.
fn array_index_of(text: &str) -> Option<u32>
    ensures { result ≡ array_index text.now }
{
    if !is_numeral(text.as_bytes()) {
        return None;
    }
    match text.parse::<u32>() {
        Ok(index) => (index <= MOST_ARRAY_INDEX).then_some(index),
        Err(_) => None,
    }
}

// Whether a text is decimal digits without a zero in front of others.
fn is_numeral(text: &[u8]) -> bool
    ensures { result ≡ is_numeral text.now }
{
    is_unpadded(text) && text.iter().all(|b| b.is_ascii_digit())
}

// Whether a text has a byte, and no zero in front of others.
fn is_unpadded(text: &[u8]) -> bool
    ensures { result ≡ is_unpadded text.now }
{
    text.len() == 1 || text.len() > 1 && text[0] != b'0'
}
