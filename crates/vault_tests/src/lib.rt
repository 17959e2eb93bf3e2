//! Tests of what a vault stands on: maps of blocks, and volumes. They stand apart from the crates that
//! they are of, since a crate that has tests is proved a second time with them. What is above them is
//! tested by the script of `agent_script`.
#![tactic(auto)]

#[cfg(test)]
mod examples;
#[cfg(test)]
mod maps;
#[cfg(test)]
mod volumes;
