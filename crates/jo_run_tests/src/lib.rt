//! Tests of sets of several scripts, apart, so that each crate is proved once.
#![tactic(auto)]

#[cfg(test)]
mod apart;
#[cfg(test)]
mod asked;
#[cfg(test)]
mod counters;
#[cfg(test)]
mod jobs;
#[cfg(test)]
mod meetings;
#[cfg(test)]
mod outcomes;
#[cfg(test)]
mod races;
#[cfg(test)]
mod reference;
#[cfg(test)]
mod runs;
