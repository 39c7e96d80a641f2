// The words of the block of a dictionary, by their numbers there. Word 0 is the header, which never changes. Behind the number
// of names come a word for the name and one for the value of each pair, in order of creation, and behind the words of all pairs
// that there may be, a slot for each index.
ghost use Rattle.std.specs.Prelude.{◌≡◌, ◌+◌, ◌*◌};
ghost use Rattle.jo_value.specs.declared.capacities.TheConstants.{DICTIONARY_NEED};

use jo_value::DICTIONARY_NEED;

/// The word that says how many names there are.
pub const COUNT: u32 = 1;

// The words of the name and of the value of the first pair.
const FIRST_NAME: u32 = 2;

const FIRST_VALUE: u32 = 3;

/// How many words a pair has.
pub const PAIR_WORDS: u32 = 2;

/// The word of the name of a pair.
pub fn name_at(place: u8) -> u32
    ensures { result ≡ 2 + 2 * place }
{
    FIRST_NAME + PAIR_WORDS * u32::from(place)
}

/// The word of the value of a pair.
pub fn value_at(place: u8) -> u32
    ensures { result ≡ 3 + 2 * place }
{
    FIRST_VALUE + PAIR_WORDS * u32::from(place)
}

/// The word of an element.
pub fn element_at(index: u16) -> u32
    ensures { result ≡ DICTIONARY_NEED + index }
{
    DICTIONARY_NEED + u32::from(index)
}
