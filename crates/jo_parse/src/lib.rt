//! From the bytes of a set of scripts to its trees and the table of its texts, or to the first refusal.
#![tactic(auto)]

mod lex;
mod named;
mod reader;
mod section;
mod set;
mod trees;
mod utf8;

pub use jo_lex::{ParseFault, Refusal, RefusalKind};
pub use reader::parse_set;
pub use set::ScriptSet;
