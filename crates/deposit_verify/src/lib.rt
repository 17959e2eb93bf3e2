//! The verification of a deposit: its frame, its envelope, its files and their tables, against what is known of it.
#![tactic(auto)]

mod about;
mod base;
mod breaches;
mod counts;
mod files;
mod files_read;
mod files_reason;
mod found_envelope;
mod header;
mod header_reason;
mod key_set;
mod keys;
mod laws;
mod menu;
mod named_keys;
mod places;
mod reason;
mod reason_text;
mod references;
mod tables;
mod tables_reason;
mod verdict;
mod verification;

pub use about::About;
pub use base::{Base, WholeDeposit, read_whole};
pub use counts::{missing_key, row_counts};
pub use files_read::{FilesRead, deletes_of, envelope_files};
pub use files_reason::{FileList, FilePlace, FilesReason, NoTable, ReadFault};
pub use found_envelope::{FoundEnvelope, find_envelope};
pub use header_reason::{HeaderReason, MenuReason, OtherName};
pub use laws::{
    law_bases, law_chain_numbers, law_chains, law_one_verdict, law_pass, law_reasons,
    law_reference_rules, law_verdict,
};
pub use menu::{menu_reason, wanted_table, wanted_uri};
pub use named_keys::{contained_keys, deleted_keys};
pub use reason::Reason;
pub use reason_text::{MissingKeyText, TableFaultText};
pub use tables_reason::{NoKey, TablesReason, WrongCount};
pub use verdict::Verdict;
pub use verification::{explain, verify};
