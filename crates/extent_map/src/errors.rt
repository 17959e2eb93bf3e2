//! Why there is no map.
use thiserror::Error;

#[derive(Clone, Copy, Debug, PartialEq, Eq, Error)]
pub enum MapError {
    /// An extent names block 0, ends past the size, or has no block.
    #[error("extent out of range")]
    OutOfRange,
    /// A block is in two extents.
    #[error("extents overlap")]
    Overlap,
    #[error("no memory")]
    NoMemory,
}
