//! The registry's side of a deposit: packed so that it passes, split into parts, checked as the agent does, and unpacked.
//! It knows no files.
#![tactic(auto)]

mod chains;
mod envelopes;
mod followed;
mod laws;
mod pack_error;
mod packing;
mod source;
mod source_reading;
mod splitting;
mod unpacking;
mod writing;

pub use chains::{Chain, ChainFault, NamedDeposit, check};
pub use followed::{LeftOut, left_out};
pub use laws::{law_packed, law_packing, law_refusals};
pub use pack_error::PackError;
pub use packing::pack;
pub use source::{Attributes, Source, TableFile};
pub use source_reading::read_contents;
pub use splitting::{PART_LENGTH_MAX, Part, split};
pub use unpacking::{Unpacked, unpack};
