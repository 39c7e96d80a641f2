//! Tests of the machine that runs scripts, apart, so that each crate is proved once.
#![tactic(auto)]

#[cfg(test)]
mod driving;
#[cfg(test)]
mod scripts;
#[cfg(test)]
mod writing;
