//! A part of which the bytes are still coming.
ghost use Rattle.std.specs.Prelude.{◌≡◌, ◌≤◌, length};
ghost use Rattle.extent_map.specs.Limits.{max_extents};

use crate::Extent;
use sha2::Sha256;

/// A part that is being written: the blocks that were taken for it, how many bytes it is to have, how
/// many of them are written, and their SHA-256 so far. The vault makes it by `begin`, and it must be
/// spent: by `finish`, which syncs, or by `abandon`, which gives the blocks back.
pub struct Opened {
    pub(crate) extents: Vec<Extent>,
    pub(crate) len: u32,
    pub(crate) done: u32,
    pub(crate) hasher: Sha256,
    ghost few: { length extents.items ≤ max_extents },
}

impl Opened {
    /// The extents, the length and the hasher.
    pub(crate) fn spend(self) -> (Vec<Extent>, u32, Sha256)
        ensures extents { result.0 ≡ self.extents }
        ensures len { result.1 ≡ self.len }
        ensures hasher { result.2 ≡ self.hasher }
    {
        let Opened {
            extents,
            len,
            done: _done,
            hasher,
        } = self;
        (extents, len, hasher)
    }
}
