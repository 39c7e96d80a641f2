// What the code of an expression is for, and how its value may be read.

use crate::Operand;

/// What becomes of the value of an expression.
#[derive(Clone, Copy)]
pub(crate) enum Use {
    /// It is pushed.
    Top,
    /// It goes into a variable.
    Variable(u32),
    /// It is dropped.
    Nowhere,
    /// Where its truth is `when`, `skip` instructions behind its code are skipped.
    Test { when: bool, skip: u32 },
}

/// How the value of an expression is found.
#[derive(Clone, Copy)]
pub(crate) enum Reading {
    /// It is an operand.
    Simple(Operand),
    /// It is pushed, and no variable changes.
    Quiet,
    /// It is pushed, and variables may change.
    Busy,
}

/// Which operands may be read late, after what is evaluated in between.
#[derive(Clone, Copy)]
pub(crate) enum Late {
    /// All.
    All,
    /// Constants, but no variables.
    Constants,
}
