// The block of an object, in the words that a heap left.
ghost use Rattle.std.specs.Prelude.{◌≡◌, ◌<◌, ◌^◌, Option, None, IfSome, MatchOption, slice_get};
ghost use Rattle.jo_value.specs.declared.value.Key.TheVariants.{Index};
ghost use Rattle.jo_value.specs.declared.value.Value.{Value};
ghost use Rattle.jo_model.specs.Objects.{Object, property};
ghost use Rattle.jo_rule.specs.Areas.{words_of};
ghost use Rattle.jo_rule.specs.Ending.{IsWritten};
ghost use Rattle.jo_heap.specs.inner.Blocks.{IsBlockOf};
ghost use Rattle.jo_heap.specs.inner.Values.{IsWordOf};

use crate::named_words::NamedWords;
use jo_layout::{COUNT, element_at, name_at, value_at};
use jo_value::{NameId, ObjId, Slot, Value, cell_of, header_of, slot_of};

/// Where the properties of an object stand.
#[derive(Clone, Copy)]
pub(crate) struct Block {
    /// Where it begins.
    pub address: u32,
    /// For how many indexes it has room.
    pub elements: u16,
}

impl Block {
    /// The block that the cell of an object names. `None` where it names none.
    pub(crate) fn of(words: &NamedWords, o: ObjId) -> Option<Block>
        ensures near { IfSome result (λ block. block.address < 2 ^ 31) }
        ensures whole { (object : Object) → IsWritten (words_of words.now.passes words.now.words) o object
            → MatchOption result ⊥ (IsBlockOf (words_of words.now.passes words.now.words) object) }
    {
        let cell = cell_of(words.cell(o))?;
        let header = header_of(words.stored(cell.address))?;
        Some(Block {
            address: cell.address,
            elements: header.elements,
        })
    }

    /// The name at this place in order of creation, and its value. `None` is past the last one.
    pub(crate) fn name(self, words: &NamedWords, at: u8) -> Option<(NameId, Value)>
        requires { self.address < 2 ^ 31 }
        ensures { (object : Object) → IsBlockOf (words_of words.now.passes words.now.words) object self
            → result ≡ slice_get object.names at }
    {
        if u64::from(at) >= words.stored(self.address + COUNT) {
            return None;
        }
        let name = u16::try_from(words.stored(self.address + name_at(at))).ok()?;
        let value = value_of(words.stored(self.address + value_at(at)))?;
        Some((NameId(name), value))
    }

    /// The value at an index. `None` where the index is not there.
    pub(crate) fn element(self, words: &NamedWords, at: u16) -> Option<Value>
        requires { self.address < 2 ^ 31 }
        ensures { (object : Object) → IsBlockOf (words_of words.now.passes words.now.words) object self
            → result ≡ property object (Index at) }
    {
        if at >= self.elements {
            return None;
        }
        value_of(words.stored(self.address + element_at(at)))
    }
}

// The value whose word this is. `None` where it is that of an absent one.
fn value_of(word: u64) -> Option<Value>
    ensures { (value : Option Value) → IsWordOf value word → result ≡ value }
{
    match slot_of(word)? {
        Slot::Holds(value) => Some(value),
        Slot::Absent => None,
    }
}
