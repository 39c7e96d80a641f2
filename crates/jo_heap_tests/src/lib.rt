//! Tests of calls on the shared heap, apart, so that each crate is proved once.
#![tactic(auto)]

#[cfg(test)]
mod asks;
#[cfg(test)]
mod calls;
#[cfg(test)]
mod held;
#[cfg(test)]
mod side_by_side;
#[cfg(test)]
mod two_scripts;
