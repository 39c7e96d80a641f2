//! From the tokens of a script to its tree.
#![tactic(auto)]

mod code;
mod cursor;
mod operator;
mod parser;
mod read_script;
mod refusal;
mod script;
mod shape;
mod stop;
mod terminals;

pub use read_script::parse_script;
