//! Tests of what runs scripts, apart, so that each crate is proved once.
#![tactic(auto)]

#[cfg(test)]
mod command_lines;
#[cfg(test)]
mod limits;
#[cfg(test)]
mod made;
#[cfg(test)]
mod memory;
#[cfg(test)]
mod refusals;
#[cfg(test)]
mod runs;
#[cfg(test)]
mod scripts;
#[cfg(test)]
mod whole_texts;
