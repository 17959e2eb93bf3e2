//! The tables of a registry after its deposits, and the deposits that bring them there.
#![tactic(auto)]

mod changed_keys;
mod changes;
mod copies;
mod laws;
mod order;
mod owners;
mod restoring;
mod rows;
mod tables;
mod whole;
mod whole_error;

pub use laws::{
    law_chain_rows, law_changes, law_days, law_deposits, law_passed, law_restored, law_tables,
};
pub use owners::owner_table;
pub use restoring::restore;
pub use whole::pack_whole;
pub use whole_error::WholeError;
