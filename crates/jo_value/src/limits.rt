// The limits. All of them are this project's own.

/// The most bytes of an input.
pub const MOST_INPUT: usize = 1_048_576;

/// The most scripts of a set.
pub const MOST_SCRIPTS: usize = 8;

/// The turns that the loops of a script may take, where nothing else is said.
pub const DEFAULT_TURNS: u32 = 1_000_000;

/// The most turns that may be asked for.
pub const MOST_TURNS: u32 = 1_000_000_000;

/// The most constructs that are open at a token.
pub const MOST_OPEN: u8 = 64;

/// The most texts of a table.
pub const MOST_TEXTS: usize = 65_535;

/// The most bytes of one word or text of a script.
pub const MOST_TEXT_BYTES: usize = 255;

/// The largest number, which is that of `Number.MAX_SAFE_INTEGER`; the least one is its negative.
pub const MOST_NUMBER: u64 = 9_007_199_254_740_991;

/// The largest index that an object takes.
pub const MOST_INDEX: u32 = 1_023;

/// The largest array index, by ECMA-262.
pub const MOST_ARRAY_INDEX: u32 = 4_294_967_294;

/// The most bytes of the printed lines of a script, with the line feed after each.
pub const MOST_LINE_BYTES: usize = 262_144;

/// The most names that an object has at once.
pub const MOST_NAMES: usize = 64;

/// The most objects of a pass.
pub const MOST_OBJECTS: usize = 4_096;

/// The words of storage of a pass.
pub const MOST_STORAGE: u32 = 1_048_576;

/// The most words of storage that one call takes.
pub const MOST_NEED: u32 = 2_300;

/// The largest number from which a set of scripts is made.
pub const MOST_MADE: u32 = 999_999;
