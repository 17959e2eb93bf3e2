//! The map: one bit a block, 1 where it is free, with the number of free blocks beside them.
ghost use Rattle.std.specs.Prelude.{◌≡◌, ◌+◌, ◌*◌, ◌^◌, ◌<◌, ◌≤◌, ℕ, [], ◌∷◌, vec_len, All, false, IsTrue, IfSome, IfNone, IfOk, IfErr, IsErr, IsErrOf};
ghost use Rattle.extent_map.specs.Words.{bit, one_count};
ghost use Rattle.extent_map.specs.Extents.{AllIn, AreApart, AreChosen, AreLowest, AreRising, blocks_of, HasAtLeast, HasFewer, IsExtentOf, IsUsed, IsFirstFit, IsFreeOf, IsFreeRun, IsIn, Takes, GivesBack, SameFree, HasCount};

use crate::words::{clear_run, first_fit, first_one, first_zero, set_run};
use crate::{Extent, MapError};
use std::alloc::{AllocError, Global};

/// Which blocks of a volume are free. Block 0 never is.
#[derive(Drop)]
pub struct ExtentMap {
    words: Vec<u64>,
    blocks: u32,
    free: u32,
    ghost sized: { blocks ≤ 64 * vec_len words },
    ghost few: { vec_len words ≤ 67108864 },
    ghost small: { blocks < 2 ^ 32 },
    ghost in_range: { (b : ℕ) → bit words.items b ≡ 1 → (1 ≤ b) × (b < blocks) },
    ghost counted: { free ≡ one_count words.items blocks },
}

impl ExtentMap {
    ghost use Rattle.extent_map.specs.Map.{IsFree, size_of};
    ghost use Rattle.extent_map.specs.declared.errors.MapError.TheVariants.{OutOfRange, Overlap};

    /// The map of a volume in which just these blocks are used.
    #[tactic(auto, unfolding(crate::specs::Map::IsFree))]
    pub fn from_used(alloc: Global, blocks: u32, used: &[Extent]) -> Result<ExtentMap, MapError>
        ensures size { IfOk result (λ map. size_of map ≡ blocks) }
        ensures exact { IfOk result (λ map. IsFreeOf blocks used.now (IsFree map)) }
        ensures in_range { IfOk result (λ _. All (IsExtentOf blocks) used.now) }
        ensures apart { IfOk result (λ _. AreApart used.now) }
        ensures out_of_range { IsErrOf result OutOfRange → ¬ All (IsExtentOf blocks) used.now }
        ensures overlap { IsErrOf result Overlap → All (IsExtentOf blocks) used.now × (¬ AreApart used.now) }
        ensures no_memory { IsErrOf result MapError.NoMemory → All (IsExtentOf blocks) used.now }
    {
        if !are_within(used, blocks) {
            return Err(MapError::OutOfRange);
        }
        let mut map = ExtentMap::all_free(alloc, blocks)?;
        if !map.use_all(used) {
            return Err(MapError::Overlap);
        }
        Ok(map)
    }

    /// Takes the lowest run of so many free blocks.
    #[tactic(auto, unfolding(crate::specs::Map::IsFree))]
    pub fn place(&mut self, count: u32) -> Option<Extent>
        requires { 1 ≤ count }
        ensures count { IfSome result (λ e. e.count ≡ count) }
        ensures within { IfSome result (IsExtentOf (size_of self.old)) }
        ensures fits { IfSome result (λ e. IsFirstFit (IsFree self.old) count e.start) }
        ensures taken { IfSome result (λ e. Takes (IsFree self.old) (e ∷ []) (IsFree self.new)) }
        ensures none { IfNone result ((start : ℕ) → ¬ IsFreeRun (IsFree self.old) start count) }
        ensures same { IfNone result (SameFree (IsFree self.old) (IsFree self.new)) }
        ensures size { size_of self.new ≡ size_of self.old }
    {
        let start = first_fit(&self.words, count as usize)? as u32;
        let extent = Extent { start, count };
        self.use_up(&extent);
        Some(extent)
    }

    /// Takes so many free blocks: the lowest run of so many, or else, where there is none, the lowest free blocks,
    /// as runs in rising order.
    #[tactic(auto, unfolding(crate::specs::Map::IsFree))]
    pub fn place_all(
        &mut self,
        alloc: Global,
        count: u32,
    ) -> Result<Option<Vec<Extent>>, AllocError>
        requires { 1 ≤ count }
        ensures chosen { IfOk result (λ placed. IfSome placed (λ extents. AreChosen (IsFree self.old) (size_of self.old) count extents.items)) }
        ensures taken { IfOk result (λ placed. IfSome placed (λ extents. Takes (IsFree self.old) extents.items (IsFree self.new))) }
        ensures enough { IfOk result (λ placed. IfSome placed (λ _. HasAtLeast (IsFree self.old) (size_of self.old) count)) }
        ensures none { IfOk result (λ placed. IfNone placed (HasFewer (IsFree self.old) (size_of self.old) count)) }
        ensures none_taken { IfOk result (λ placed. IfNone placed (SameFree (IsFree self.old) (IsFree self.new))) }
        ensures no_memory { IsErr result → SameFree (IsFree self.old) (IsFree self.new) }
        ensures size { size_of self.new ≡ size_of self.old }
    {
        if self.free < count {
            return Ok(None);
        }
        let extents = self.choose(alloc, count)?;
        self.use_each(&extents);
        Ok(Some(extents))
    }

    /// Frees the blocks of an extent that is used.
    #[tactic(auto, unfolding(crate::specs::Map::IsFree))]
    pub fn free(&mut self, extent: &Extent)
        requires { IsUsed (size_of self.old) (IsFree self.old) extent.now }
        ensures freed { GivesBack (IsFree self.old) (extent.now ∷ []) (IsFree self.new) }
        ensures size { size_of self.new ≡ size_of self.old }
    {
        set_run(
            &mut self.words,
            extent.start as usize,
            extent.count as usize,
        );
        self.free += extent.count;
    }

    /// How many blocks are free.
    #[tactic(auto, unfolding(crate::specs::Map::IsFree))]
    pub fn free_blocks(&self) -> u32
        ensures { HasCount (IsFree self.now) (size_of self.now) result }
    {
        self.free
    }

    /// How many blocks the volume has.
    pub fn size(&self) -> u32
        ensures { result ≡ size_of self.now }
    {
        self.blocks
    }

    // The map of a volume in which each block is free but block 0.
    #[tactic(auto, unfolding(crate::specs::Map::IsFree))]
    fn all_free(alloc: Global, blocks: u32) -> Result<ExtentMap, MapError>
        ensures size { IfOk result (λ map. size_of map ≡ blocks) }
        ensures free { IfOk result (λ map. IsFreeOf blocks [] (IsFree map)) }
        ensures kind { IfErr result (λ e. e ≡ MapError.NoMemory) }
    {
        let mut map = ExtentMap::all_used(alloc, blocks)?;
        if blocks < 2 {
            return Ok(map);
        }
        map.free(&Extent {
            start: 1,
            count: blocks - 1,
        });
        Ok(map)
    }

    // The map of a volume in which no block is free.
    #[tactic(auto, unfolding(crate::specs::Map::IsFree))]
    fn all_used(alloc: Global, blocks: u32) -> Result<ExtentMap, MapError>
        ensures size { IfOk result (λ map. size_of map ≡ blocks) }
        ensures none { IfOk result (λ map. (b : ℕ) → ¬ IsFree map b) }
        ensures kind { IfErr result (λ e. e ≡ MapError.NoMemory) }
    {
        let Ok(words) = Vec::from_elem(alloc, 0, (blocks as usize).div_ceil(64)) else {
            return Err(MapError::NoMemory);
        };
        Ok(ExtentMap {
            words,
            blocks,
            free: 0,
        })
    }

    // Takes the blocks of an extent, which are free.
    #[tactic(auto, unfolding(crate::specs::Map::IsFree))]
    fn use_up(&mut self, extent: &Extent)
        requires run { IsFreeRun (IsFree self.old) extent.now.start extent.now.count }
        requires some { 1 ≤ extent.now.count }
        ensures taken { Takes (IsFree self.old) (extent.now ∷ []) (IsFree self.new) }
        ensures size { size_of self.new ≡ size_of self.old }
    {
        clear_run(
            &mut self.words,
            extent.start as usize,
            extent.count as usize,
        );
        self.free -= extent.count;
    }

    // The extents of so many blocks that are to be taken.
    #[tactic(auto, unfolding(crate::specs::Map::IsFree))]
    fn choose(&self, alloc: Global, count: u32) -> Result<Vec<Extent>, AllocError>
        requires some { 1 ≤ count }
        requires enough { count ≤ self.now.free }
        ensures { IfOk result (λ extents. AreChosen (IsFree self.now) (size_of self.now) count extents.items) }
    {
        let Some(start) = first_fit(&self.words, count as usize) else {
            return self.lowest_runs(alloc, count);
        };
        let mut extents = Vec::new(alloc);
        extents.push(Extent {
            start: start as u32,
            count,
        })?;
        Ok(extents)
    }

    // The lowest free blocks, so many of them, as runs in rising order.
    #[tactic(auto, unfolding(crate::specs::Map::IsFree))]
    fn lowest_runs(&self, alloc: Global, count: u32) -> Result<Vec<Extent>, AllocError>
        requires some { 1 ≤ count }
        requires enough { count ≤ self.now.free }
        ensures within { IfOk result (λ runs. All (IsExtentOf (size_of self.now)) runs.items) }
        ensures free { IfOk result (λ runs. AllIn (IsFree self.now) runs.items) }
        ensures count { IfOk result (λ runs. blocks_of runs.items ≡ count) }
        ensures apart { IfOk result (λ runs. AreApart runs.items) }
        ensures rising { IfOk result (λ runs. AreRising runs.items) }
        ensures lowest { IfOk result (λ runs. AreLowest (IsFree self.now) runs.items) }
    {
        let mut runs = Vec::new(alloc);
        let mut left = count;
        let mut from = 0;
        while left > 0 {
            let run = self.next_run(from, left);
            runs.push(run)?;
            left -= run.count;
            from = run.start + run.count;
        }
        Ok(runs)
    }

    // The first run of free blocks from a block on, cut to so many. There is one.
    #[tactic(auto, unfolding(crate::specs::Map::IsFree))]
    fn next_run(&self, from: u32, most: u32) -> Extent
        requires some { 1 ≤ most }
        requires found { (b : ℕ) × (from ≤ b) × IsFree self.now b }
        ensures within { IsExtentOf (size_of self.now) result }
        ensures from { from ≤ result.start }
        ensures before { (b : ℕ) → from ≤ b → b < result.start → ¬ IsFree self.now b }
        ensures run { IsFreeRun (IsFree self.now) result.start result.count }
        ensures most { result.count ≤ most }
        ensures stop { result.count < most → ¬ IsFree self.now (result.start + result.count) }
    {
        let start = first_one(&self.words, from as usize);
        let stop = first_zero(&self.words, start, self.words.len());
        let count = (stop - start).min(most as usize);
        Extent {
            start: start as u32,
            count: count as u32,
        }
    }

    // Takes the blocks of the extents, which are free.
    #[tactic(auto, unfolding(crate::specs::Map::IsFree))]
    fn use_each(&mut self, extents: &[Extent])
        requires within { All (IsExtentOf (size_of self.old)) extents.now }
        requires free { AllIn (IsFree self.old) extents.now }
        requires apart { AreApart extents.now }
        ensures taken { Takes (IsFree self.old) extents.now (IsFree self.new) }
        ensures size { size_of self.new ≡ size_of self.old }
    {
        for extent in extents {
            self.use_up(extent);
        }
    }

    // Takes the blocks of the extents in turn, until one is met that is not free.
    #[tactic(auto, unfolding(crate::specs::Map::IsFree))]
    fn use_all(&mut self, extents: &[Extent]) -> bool
        requires within { All (IsExtentOf (size_of self.old)) extents.now }
        requires free { IsFreeOf (size_of self.old) [] (IsFree self.old) }
        ensures taken { IsTrue result → IsFreeOf (size_of self.old) extents.now (IsFree self.new) }
        ensures apart { IsTrue result → AreApart extents.now }
        ensures overlap { result ≡ false → ¬ AreApart extents.now }
        ensures size { size_of self.new ≡ size_of self.old }
    {
        for extent in extents {
            if !self.is_all_free(extent) {
                return false;
            }
            self.use_up(extent);
        }
        true
    }

    // Whether each block of an extent of the volume is free.
    #[tactic(auto, unfolding(crate::specs::Map::IsFree))]
    fn is_all_free(&self, extent: &Extent) -> bool
        requires { IsExtentOf (size_of self.now) extent.now }
        ensures free { IsTrue result → IsFreeRun (IsFree self.now) extent.now.start extent.now.count }
        ensures used { result ≡ false → (b : ℕ) × IsIn extent.now b × (¬ IsFree self.now b) }
    {
        let start = extent.start as usize;
        let end = start + extent.count as usize;
        first_zero(&self.words, start, end.div_ceil(64)) >= end
    }
}

// Whether each extent lies in a volume of so many blocks, above block 0, and has a block.
fn are_within(extents: &[Extent], blocks: u32) -> bool
    ensures within { IsTrue result → All (IsExtentOf blocks) extents.now }
    ensures not_within { result ≡ false → ¬ All (IsExtentOf blocks) extents.now }
{
    extents.iter().all(|extent| extent.is_within(blocks))
}
