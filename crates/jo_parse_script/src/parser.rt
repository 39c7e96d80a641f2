// The rules of the grammar, by recursive descent. Statements are in `script`.

mod chain;
mod expression;
mod object;
mod postfix;
mod primary;

use crate::cursor::Cursor;
use std::alloc::Global;

/// Reads expressions and statements. `room` and `inner` say how many constructs more may be open, `ins` whether
/// `in` may stand outside brackets, and `loops` whether a loop is around.
#[derive(Drop)]
pub(crate) struct Parser<'a> {
    pub(crate) alloc: Global,
    pub(crate) tokens: Cursor<'a>,
}
