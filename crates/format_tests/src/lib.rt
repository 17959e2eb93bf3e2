//! Tests of the formats of deposits: days, names, envelopes, tables and verdicts. They stand
//! apart from the crates that they are of, since a crate that has tests is proved a second time with
//! them.
#![tactic(auto)]

#[cfg(test)]
mod chains;
#[cfg(test)]
mod days;
#[cfg(test)]
mod deposits;
#[cfg(test)]
mod envelopes;
#[cfg(test)]
mod examples;
#[cfg(test)]
mod incremental;
#[cfg(test)]
mod memory;
#[cfg(test)]
mod names;
#[cfg(test)]
mod packing;
#[cfg(test)]
mod tables;
#[cfg(test)]
mod verdicts;
