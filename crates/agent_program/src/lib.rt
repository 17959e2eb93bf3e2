//! The program over any host: what its words ask for, done over the two files of a folder.
#![tactic(auto)]

mod batch;
mod clock;
mod copies;
mod errors;
mod folder;
mod host;
mod laws;
mod mem_host;
mod output;
mod parts;
mod program;
mod streams;
mod terminal;
#[cfg(test)]
mod tests;
mod vault_calls;

pub use copies::DatabaseCopy;
pub use errors::ProgramError;
pub use folder::{Database, FolderCallEnd, OpenFolder, ReadOnlyFolder};
pub use host::{FileKind, Host, Metadata};
pub use laws::law_batch;
pub use mem_host::{MemClock, MemHost, NamedFile};
pub use output::Output;
pub use program::run;
pub use vault_calls::CallEnd;
