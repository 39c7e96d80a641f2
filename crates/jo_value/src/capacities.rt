// The shared heap: its areas, capacities and needs, in words of 64 bits, what its words hold, and bounds on what its calls do. All of it is this project's own.

/// The most passes of a heap: one for each script, and the one that sets the heap up.
pub const MOST_PASSES: u8 = 9;

/// The structures of a pass; the first one is its root.
pub const MOST_STRUCTURES: u16 = 4_096;

/// The most changes that lead from the root to a structure.
pub const MOST_DEPTH: u16 = 128;

/// The words of a structure: its node, the link to its first child, the link to its next sibling,
/// its transition set and its write set.
pub const STRUCTURE_WORDS: usize = 5;

/// The words of an object beside its storage: its cell, and those of its first four offsets.
pub const OBJECT_WORDS: usize = 5;

/// The most offsets that an object gives out.
pub const MOST_OFFSETS: u16 = 64;

/// The offsets whose words stand beside the cell.
pub const INLINE_OFFSETS: u8 = 4;

/// How many names a block may have room for, besides the four at the cell.
pub const NAME_CAPACITIES: [u16; 6] = [0, 4, 8, 16, 32, 60];

/// How many elements a block may have room for.
pub const ELEMENT_CAPACITIES: [u16; 10] = [0, 4, 8, 16, 32, 64, 128, 256, 512, 1_024];

/// The words of a header.
pub const HEADER_NEED: u32 = 1;

/// The words of a fragment of a segmented block.
pub const FRAGMENT_WORDS: u16 = 4;

/// The names that a dictionary has room for.
pub const DICTIONARY_NAMES: u16 = 64;

/// The words of a dictionary block before its elements: its header, the number of its names, and
/// two for each name.
pub const DICTIONARY_NEED: u32 = 130;

/// The address of the block of the shared object, while each object is born with a dictionary.
pub const SHARED_ADDRESS: u32 = 1;

/// The words of storage that pass 0 uses for that block.
pub const SHARED_STORAGE: u32 = 131;

/// The words of a heap for eight scripts.
pub const MOST_WORDS: usize = 9_805_834;

/// The words of a pass that hold the stamps of its own objects' offsets.
pub const STAMP_WORDS: usize = 262_144;

/// The acknowledgement of a pass that takes no part.
pub const OUT: u64 = 18_446_744_073_709_551_615;

/// The stamp of an offset that is in quarantine and not stamped yet.
pub const UNSTAMPED: u64 = 18_446_744_073_709_551_615;

/// The word of a watched set at first.
pub const VALID: u64 = 0;

/// The word of a watched set while the pass that fires it waits for the others.
pub const FIRING: u64 = 1;

/// The word of a watched set once it is fired.
pub const FIRED: u64 = 2;

/// The most epochs that a run raises.
pub const MOST_EPOCHS: u64 = 4_829_184;

/// The most times that a pass raises the epoch without owing it.
pub const MOST_FREE_RAISES: u64 = 1_000;

/// The most loads of a get without a lock.
pub const MOST_GET_LOADS: u64 = 140;

/// The most siblings that are looked at for a child that is there.
pub const MOST_SIBLINGS: u8 = 64;

/// The most structures that a call makes.
pub const MOST_STRUCTURES_OF_CALL: u16 = 2;

/// The number of calls that a pass makes at least before its structures are used up.
pub const CALLS_WITHIN_STRUCTURES: u16 = 2_047;

/// The number of calls that a pass makes at least before one is refused for want of storage.
pub const CALLS_WITHIN_STORAGE: usize = 455;
