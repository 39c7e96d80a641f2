//! Tests of the atomic steps of a heap, apart, so that each crate is proved once.
#![tactic(auto)]

#[cfg(test)]
mod births;
#[cfg(test)]
mod block_words;
#[cfg(test)]
mod locks;
#[cfg(test)]
mod opening;
#[cfg(test)]
mod steps;
#[cfg(test)]
mod turns;
#[cfg(test)]
mod two_passes;
