//! Tests of the code of scripts, apart, so that each crate is proved once.
#![tactic(auto)]

#[cfg(test)]
mod listing;
#[cfg(test)]
mod listings;
