//! The comma-separated tables of a deposit (the CSV model of RFC 9022), each in its one spelling, or read from any.
#![tactic(auto)]

mod any_spelling;
mod errors;
mod form;
mod keys;
mod laws;
mod layout;
mod reading;
mod row_checks;
mod rows;
mod spelling;
mod table;

pub use crate::any_spelling::{has_header, read_any_keys, read_any_table};
pub use crate::errors::TableError;
pub use crate::form::Form;
pub use crate::keys::Keys;
pub use crate::laws::{law_one_text, law_table_reader};
pub use crate::layout::{column_names, columns, key_columns};
pub use crate::rows::Rows;
pub use crate::table::{Table, read_keys, read_table, write_table};
