//! The records of the custody, in a database.
#![tactic(auto)]

mod calls;
mod columns;
mod creating;
mod dropping;
mod faults;
mod holds;
mod loading;
mod meta;
mod migrating;
mod notices;
mod parts;
mod registries;
mod releases;
mod store;
mod stored_rows;
mod tables;
mod together;
mod values;

pub use faults::StoreFault;
pub use meta::find_meta;
pub use store::Store;
pub use tables::{has_all_tables, has_any_table, has_earlier_tables};
