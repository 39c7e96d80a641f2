// Where a key stands in a block.
use jo_value::NameId;

/// Where the property with a key stands in a block, or that there is no room for it.
#[derive(Clone, Copy)]
pub enum Place {
    /// It is there, or may be put there.
    At(Spot),
    /// The key is a name that is not there, and the block has as many as it may.
    NoMoreNames,
    /// The key is this index, and the block has no word for it.
    Beyond(u16),
}

/// Where a property stands, or may be put.
#[derive(Clone, Copy)]
pub enum Spot {
    /// The pair of a name that is there, of so many.
    Pair { at: u8, names: u8 },
    /// Behind so many pairs, for a name that is not there.
    End { name: NameId, names: u8 },
    /// The word of an index.
    Element(u16),
}
