//! Which inputs are accepted sets of scripts, and what others are refused for, as definitions; and that reading token by
//! token follows the grammar exactly.
#![tactic(auto)]

mod terminal;

pub use terminal::Terminal;
