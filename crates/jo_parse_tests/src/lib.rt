//! Tests of what reads scripts, apart, so that each crate is proved once.
#![tactic(auto)]

#[cfg(test)]
mod lexing;
#[cfg(test)]
mod sets;
