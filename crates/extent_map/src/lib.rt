//! Which blocks of a volume are free, as one bit a block; and how large a volume and a part may be.
#![tactic(auto)]

mod errors;
mod extent;
mod limits;
mod map;
mod words;

pub use errors::MapError;
pub use extent::Extent;
pub use limits::{
    BLOCK_BYTES, FEWEST_BLOCKS, MAX_EXTENTS, MAX_PART_LEN, MOST_BLOCKS, blocks_for, law_limits,
};
pub use map::ExtentMap;
