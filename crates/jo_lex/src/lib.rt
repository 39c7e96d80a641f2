//! From a script to its tokens, or to the first place that begins none.
#![tactic(auto)]

mod beginning;
mod character;
mod comment;
mod literal;
mod operator;
mod piece;
mod punct;
mod reader;
mod refusal;
mod reserved;
mod token;

pub use beginning::front;
pub use punct::Punct;
pub use reader::tokens;
pub use refusal::{ParseFault, Refusal, RefusalKind};
pub use token::{Token, TokenKind};
