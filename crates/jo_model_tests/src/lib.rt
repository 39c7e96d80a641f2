//! Tests of keys and of calls on the reference heap, apart, so that each crate is proved once.
#![tactic(auto)]

#[cfg(test)]
mod calls;
#[cfg(test)]
mod keys;
