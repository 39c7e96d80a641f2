//! Tests of outputs that go to a sink as they are made, apart, so that each crate is proved once.
#![tactic(auto)]

#[cfg(test)]
mod outputs;
