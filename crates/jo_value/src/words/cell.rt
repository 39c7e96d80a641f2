// The cell of an object.
ghost use Rattle.std.specs.Prelude.{◌≡◌, IfSome, Some};
ghost use Rattle.jo_value.specs.Words.{Holds, IsCell, cell_bits, kind_number};

use crate::Sid;
use crate::bits::{
    CELL_ADDRESS, CELL_BORN, CELL_KIND, CELL_LOCKED, CELL_OWNER, CELL_SHARED_WRITE, CELL_SID,
    DICTIONARY_KIND, FLAT_KIND, OPENING_KIND, SEGMENTED_KIND,
};

/// How an object is stored.
#[derive(Clone, Copy, Debug, PartialEq, Eq)]
pub enum Kind {
    /// In one block that a growth copies.
    Flat,
    /// In fragments that a growth keeps.
    Segmented,
    /// On its way to a dictionary; its cell is locked.
    Opening,
    /// In a block that is read and written under its lock.
    Dictionary,
}

/// What a born object is at a moment.
#[derive(Clone, Copy, Debug, PartialEq, Eq)]
pub struct Cell {
    /// Its structure, which has its names.
    pub sid: Sid,
    /// The address of its block of storage; 0 is no block.
    pub address: u32,
    /// The pass that owns it.
    pub owner: u8,
    /// Whether it was made ready for writes by passes that do not own it. A dictionary needs only its lock.
    pub shared_write: bool,
    pub locked: bool,
    pub kind: Kind,
}

impl Kind {
    // Its number in the word of a cell.
    fn number(self) -> u64
        ensures { result ≡ kind_number self }
    {
        match self {
            Kind::Flat => FLAT_KIND,
            Kind::Segmented => SEGMENTED_KIND,
            Kind::Opening => OPENING_KIND,
            Kind::Dictionary => DICTIONARY_KIND,
        }
    }

    // The kind with this number.
    fn numbered(number: u64) -> Option<Kind>
        ensures some { IfSome result (λ kind. kind_number kind ≡ number) }
        ensures whole { (kind : Kind) → kind_number kind ≡ number → result ≡ Some kind }
    {
        match number {
            FLAT_KIND => Some(Kind::Flat),
            SEGMENTED_KIND => Some(Kind::Segmented),
            OPENING_KIND => Some(Kind::Opening),
            DICTIONARY_KIND => Some(Kind::Dictionary),
            _ => None,
        }
    }
}

/// The word of a cell. Its address has 26 bits and its owner four.
pub fn cell_word(cell: Cell) -> u64
    requires address { Holds CELL_ADDRESS cell.address }
    requires owner { Holds CELL_OWNER cell.owner }
    ensures { result ≡ cell_bits cell }
{
    CELL_SID.with(u64::from(cell.sid.0))
        + CELL_ADDRESS.with(u64::from(cell.address))
        + CELL_OWNER.with(u64::from(cell.owner))
        + CELL_SHARED_WRITE.with(u64::from(cell.shared_write))
        + CELL_LOCKED.with(u64::from(cell.locked))
        + CELL_KIND.with(cell.kind.number())
        + CELL_BORN.with(1)
}

/// The cell whose word this is. `None` where it is the word of no cell; so for 0, the word of an unborn object.
pub fn cell_of(word: u64) -> Option<Cell>
    ensures some { IfSome result (λ cell. IsCell cell × (cell_bits cell ≡ word)) }
    ensures whole { (cell : Cell) → IsCell cell → cell_bits cell ≡ word → result ≡ Some cell }
{
    let cell = Cell {
        sid: Sid(CELL_SID.of(word) as u16),
        address: CELL_ADDRESS.of(word) as u32,
        owner: CELL_OWNER.of(word) as u8,
        shared_write: CELL_SHARED_WRITE.of(word) == 1,
        locked: CELL_LOCKED.of(word) == 1,
        kind: Kind::numbered(CELL_KIND.of(word))?,
    };
    (cell_word(cell) == word).then_some(cell)
}
