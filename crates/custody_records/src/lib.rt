//! What a custody records: registries, parts, notices, releases and holds, as typed values and as the
//! rows of their tables.
#![tactic(auto)]

mod damage;
mod errors;
mod extents;
mod fields;
mod holds;
mod keys;
mod lines;
mod meta;
mod names;
mod notices;
mod parts;
mod purging;
mod records;
mod registries;
mod registry_rows;
mod releases;
mod tables;

pub use damage::RowDamage;
pub use errors::RowError;
pub use extents::write_blob;
pub use holds::{Hold, HoldColumns};
pub use keys::{NoticeKey, PartKey};
pub use lines::Lines;
pub use meta::{Meta, read_number, write_number};
pub use names::Names;
pub use notices::NoticeColumns;
pub use parts::{Part, PartColumns};
pub use records::{RecordLists, Records};
pub use registries::{Registry, read_registry};
pub use registry_rows::AllRows;
pub use releases::{Release, ReleaseColumns};
