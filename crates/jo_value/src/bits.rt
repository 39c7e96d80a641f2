// Where the parts of a word stand in it. All places are this project's own.
ghost use Rattle.std.specs.Prelude.{◌≡◌, ◌*◌, ◌/◌, ◌%◌, ◌^◌};

/// Some bits of a word that stand side by side: how many bits stand below them, and how many they are.
#[derive(Clone, Copy)]
pub struct Bits {
    pub place: u32,
    pub width: u32,
}

/// The tag of a slot that holds a value: which kind of value it is. The word of an absent one is 0.
pub const TAG: Bits = Bits { place: 0, width: 3 };

/// What that value is among those of its kind.
pub const CONTENT: Bits = Bits {
    place: 3,
    width: 61,
};

// The tags of the kinds of values.
pub const UNDEFINED_TAG: u64 = 1;

pub const NULL_TAG: u64 = 2;

pub const BOOL_TAG: u64 = 3;

pub const INT_TAG: u64 = 4;

pub const TEXT_TAG: u64 = 5;

pub const OBJECT_TAG: u64 = 6;

/// What a slot adds to a number, so that none is below 0.
pub const NUMBER_BIAS: i64 = 9_007_199_254_740_992;

/// The structure of an object.
pub const CELL_SID: Bits = Bits {
    place: 0,
    width: 16,
};

/// The address of its block of storage; 0 is no block.
pub const CELL_ADDRESS: Bits = Bits {
    place: 16,
    width: 26,
};

/// The pass that owns it.
pub const CELL_OWNER: Bits = Bits {
    place: 42,
    width: 4,
};

/// Whether it was made ready for writes by passes that do not own it.
pub const CELL_SHARED_WRITE: Bits = Bits {
    place: 46,
    width: 1,
};

/// Whether it is locked.
pub const CELL_LOCKED: Bits = Bits {
    place: 47,
    width: 1,
};

/// How it is stored.
pub const CELL_KIND: Bits = Bits {
    place: 48,
    width: 3,
};

// The numbers of the kinds.
pub const FLAT_KIND: u64 = 0;

pub const SEGMENTED_KIND: u64 = 1;

pub const OPENING_KIND: u64 = 2;

pub const DICTIONARY_KIND: u64 = 3;

/// Set in the word of each object; the word 0 is that of an unborn one.
pub const CELL_BORN: Bits = Bits {
    place: 51,
    width: 1,
};

/// The structure that a node was made from.
pub const NODE_PARENT: Bits = Bits {
    place: 0,
    width: 16,
};

/// The name that it adds or removes.
pub const NODE_NAME: Bits = Bits {
    place: 16,
    width: 16,
};

/// The offset of that name.
pub const NODE_OFFSET: Bits = Bits {
    place: 32,
    width: 8,
};

/// The first offset that was never given out.
pub const NODE_TOP: Bits = Bits {
    place: 40,
    width: 8,
};

/// How many nodes stand above it.
pub const NODE_DEPTH: Bits = Bits {
    place: 48,
    width: 8,
};

/// Whether it removes its name.
pub const NODE_CHANGE: Bits = Bits {
    place: 56,
    width: 1,
};

/// Set in the word of each node; the word 0 is that of an unborn one.
pub const NODE_BORN: Bits = Bits {
    place: 57,
    width: 1,
};

/// How many names a block has room for.
pub const HEADER_NAMES: Bits = Bits {
    place: 0,
    width: 16,
};

/// How many elements it has room for.
pub const HEADER_ELEMENTS: Bits = Bits {
    place: 16,
    width: 16,
};

impl Bits {
    ghost use Rattle.jo_value.specs.Words.{IsInWord, Holds};

    /// These bits of a word, as a number.
    pub(crate) fn of(self, word: u64) -> u64
        requires { IsInWord self }
        ensures value { result ≡ word / 2 ^ self.place % 2 ^ self.width }
        ensures fits { Holds self result }
    {
        word >> self.place & (1 << self.width) - 1
    }

    /// The word that has this number at these bits and no other bit.
    pub(crate) fn with(self, number: u64) -> u64
        requires inside { IsInWord self }
        requires fits { Holds self number }
        ensures { result ≡ number * 2 ^ self.place }
    {
        number << self.place
    }
}
