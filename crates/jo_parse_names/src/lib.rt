//! Whether the names of a script are declared as they may be.
#![tactic(auto)]

mod block;
mod check;
mod declaration;
mod scopes;
mod statement;
mod uses;

pub use check::check_scopes;
