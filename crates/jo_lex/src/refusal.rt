// Why an input is no accepted set of scripts.

use std::alloc::AllocError;
use thiserror::Error;

/// What is wrong with a set of scripts.
#[derive(Clone, Copy, Debug, PartialEq, Eq)]
pub enum RefusalKind {
    /// The bytes are not UTF-8.
    NotUtf8,
    /// The place begins no token.
    BadToken,
    /// No script, however deep, goes on with this token, or ends here.
    Unexpected,
    /// A variable is used that no enclosing block declares, or before a declaration of it has ended in the innermost block that does.
    Undeclared,
    /// A block declares a name twice.
    Twice,
    /// There is a script too many.
    TooManyScripts,
    /// The token opens a construct too many.
    NestedTooDeep,
    /// A number literal is above the largest number.
    NumberTooLarge,
    /// The text of the token would be one too many.
    TooManyTexts,
    /// There is no script.
    NoScript,
}

/// What is wrong, and its place: how many bytes stand before it.
#[derive(Clone, Copy, Debug)]
pub struct Refusal {
    pub kind: RefusalKind,
    pub place: u32,
}

/// Why a set of scripts was not read.
#[derive(Clone, Copy, Debug, Drop, Error)]
pub enum ParseFault {
    /// No memory was left.
    #[error("out of memory")]
    Memory,
    /// The set is not accepted.
    #[error("not an accepted set of scripts")]
    Refused(Refusal),
}

impl From<AllocError> for ParseFault {
    ghost use Rattle.std.specs.Prelude.{◌≡◌};
    ghost use Rattle.jo_lex.specs.declared.refusal.ParseFault.TheVariants.{Memory};

    ghost from_gives = { λ _ fault. fault ≡ Memory };

    fn from(_: AllocError) -> ParseFault {
        ParseFault::Memory
    }
}
