//! Runs of blocks.
ghost use Rattle.std.specs.Prelude.{◌<◌, ◌↔◌, IsTrue};

/// A run of blocks.
#[derive(Clone, Copy, Debug, PartialEq, Eq)]
pub struct Extent {
    pub start: u32,
    pub count: u32,
}

impl Extent {
    ghost use Rattle.extent_map.specs.Extents.{IsExtentOf};

    /// Whether it lies in a volume of so many blocks, above block 0, and has a block.
    pub fn is_within(&self, blocks: u32) -> bool
        ensures { IsTrue result ↔ IsExtentOf blocks self.now }
    {
        self.start >= 1
            && self.count >= 1
            && self.start <= blocks
            && self.count <= blocks - self.start
    }
}
