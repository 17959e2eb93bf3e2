//! A map of blocks: by hand, and against a plain one, a list of extents, on random volumes.
ghost use Rattle.std.specs.Prelude.{◌≤◌, ◌<◌};

use extent_map::{Extent, ExtentMap, MapError};
use std::alloc::{AllocError, Global};
use std::test::Fail;

// Used extents of eight blocks, by their starts and counts, with the reason why there is no map of them.
static REFUSED: [(&[(u32, u32)], MapError); 5] = [
    (&[(7, 2)], MapError::OutOfRange),
    (&[(0, 1)], MapError::OutOfRange),
    (&[(1, 0)], MapError::OutOfRange),
    (&[(2, 2), (3, 1)], MapError::Overlap),
    (&[(2, 2), (3, 1), (8, 1)], MapError::OutOfRange),
];

// The used extents, in rising order.
#[derive(Drop)]
struct Plain {
    blocks: u32,
    used: Vec<Extent>,
}

impl Plain {
    fn free_runs(&self, alloc: Global) -> Result<Vec<Extent>, AllocError> {
        let mut runs = Vec::new(alloc);
        let mut from = 1;
        for extent in &self.used {
            push_run(&mut runs, from, extent.start)?;
            from = extent.start.saturating_add(extent.count);
        }
        push_run(&mut runs, from, self.blocks)?;
        Ok(runs)
    }

    fn take(&mut self, extent: Extent) -> Result<(), AllocError> {
        let at = self.used.iter().filter(|e| e.start < extent.start).count();
        self.used.insert(at.min(self.used.len()), extent)?;
        Ok(())
    }
}

// A run from one block to another, where it has any.
fn push_run(runs: &mut Vec<Extent>, from: u32, to: u32) -> Result<(), AllocError> {
    if from < to {
        runs.push(Extent {
            start: from,
            count: to - from,
        })?;
    }
    Ok(())
}

fn blocks_in(runs: &[Extent]) -> u32 {
    runs.iter()
        .fold(0u32, |sum, run| sum.saturating_add(run.count))
}

// The first run that is long enough.
fn first_fit(runs: &[Extent], count: u32) -> Option<Extent> {
    let run = runs.iter().find(|run| run.count >= count)?;
    Some(Extent {
        start: run.start,
        count,
    })
}

// The lowest blocks of the runs, so many of them, where there are as many.
fn lowest(alloc: Global, runs: &[Extent], count: u32) -> Result<Option<Vec<Extent>>, AllocError> {
    let mut chosen = Vec::new(alloc);
    let mut left = count;
    for run in runs {
        let end = run.start.saturating_add(run.count.min(left));
        push_run(&mut chosen, run.start, end)?;
        left = left.saturating_sub(run.count);
    }
    Ok(if left == 0 { Some(chosen) } else { None })
}

fn chosen(alloc: Global, runs: &[Extent], count: u32) -> Result<Option<Vec<Extent>>, AllocError> {
    match first_fit(runs, count) {
        Some(extent) => {
            let mut one = Vec::new(alloc);
            one.push(extent)?;
            Ok(Some(one))
        }
        None => lowest(alloc, runs, count),
    }
}

// A number below a bound, from the generator of Knuth's MMIX.
fn random(state: &mut u64, below: u32) -> u32
    requires { 1 ≤ below }
    ensures { result < below }
{
    *state = state
        .wrapping_mul(6_364_136_223_846_793_005)
        .wrapping_add(1_442_695_040_888_963_407);
    (*state >> 33) as u32 % below
}

// An extent of up to nine blocks in a run.
fn random_part(state: &mut u64, run: &Extent) -> Extent {
    let skipped = random(state, run.count.max(1));
    let most = run.count.saturating_sub(skipped).min(9).max(1);
    Extent {
        start: run.start.saturating_add(skipped),
        count: 1 + random(state, most),
    }
}

// A volume of up to 300 blocks, with some used.
fn random_volume(alloc: Global, state: &mut u64) -> Result<Plain, Fail> {
    let mut plain = Plain {
        blocks: 2 + random(state, 299),
        used: Vec::new(alloc),
    };
    for _ in 0..random(state, 40) {
        let runs = plain.free_runs(alloc)?;
        let at = random(state, 64) as usize % runs.len().max(1);
        let Some(run) = runs.get(at) else {
            break;
        };
        plain.take(random_part(state, run))?;
    }
    Ok(plain)
}

// Places so many blocks in both, once in one run, which is given back, and then in runs.
fn places_alike(
    alloc: Global,
    plain: &mut Plain,
    map: &mut ExtentMap,
    count: u32,
) -> Result<bool, Fail>
    requires { 1 ≤ count }
{
    let runs = plain.free_runs(alloc)?;
    let fit = map.place(count);
    if let Some(extent) = &fit {
        map.free(extent);
    }
    let wanted = chosen(alloc, &runs, count)?;
    let placed = map.place_all(alloc, count)?;
    if let Some(extents) = &wanted {
        for extent in extents {
            plain.take(*extent)?;
        }
    }
    let left = blocks_in(&plain.free_runs(alloc)?);
    Ok(fit == first_fit(&runs, count) && placed == wanted && map.free_blocks() == left)
}

fn is_alike(alloc: Global, seed: u64) -> Result<bool, Fail> {
    let mut state = seed;
    let mut plain = random_volume(alloc, &mut state)?;
    let mut map = ExtentMap::from_used(alloc, plain.blocks, &plain.used)
        .ok()
        .ok_or("a map")?;
    if map.free_blocks() != blocks_in(&plain.free_runs(alloc)?) {
        return Ok(false);
    }
    for _ in 0..12 {
        let count = 1 + random(&mut state, 24);
        if !places_alike(alloc, &mut plain, &mut map, count)? {
            return Ok(false);
        }
    }
    Ok(true)
}

#[test]
fn both_maps_agree(rt: HostRuntime) -> Result<(), Fail> {
    for seed in 0..4000u64 {
        assert!(rt; is_alike(rt.alloc(), seed)?, "seed {seed}");
    }
    Ok(())
}

fn extents_of(alloc: Global, used: &[(u32, u32)]) -> Result<Vec<Extent>, AllocError> {
    let mut extents = Vec::new(alloc);
    for &(start, count) in used {
        extents.push(Extent { start, count })?;
    }
    Ok(extents)
}

fn refusal(alloc: Global, used: &[(u32, u32)]) -> Result<Option<MapError>, Fail> {
    let extents = extents_of(alloc, used)?;
    Ok(ExtentMap::from_used(alloc, 8, &extents).err())
}

// Whether the three free blocks between two extents are too few for four, and are taken by three.
fn is_filled(alloc: Global) -> Result<bool, Fail> {
    let used = extents_of(alloc, &[(1, 1), (5, 3)])?;
    let mut map = ExtentMap::from_used(alloc, 8, &used).ok().ok_or("a map")?;
    let four = map.place(4);
    let three = map.place(3);
    let between = Extent { start: 2, count: 3 };
    Ok(four.is_none() && three == Some(between) && map.free_blocks() == 0)
}

#[test]
fn makes_maps_of_used_extents(rt: HostRuntime) -> Result<(), Fail> {
    for &(used, error) in &REFUSED {
        assert_eq!(rt; refusal(rt.alloc(), used)?, Some(error), "{used:?}");
    }
    assert!(rt; is_filled(rt.alloc())?);
    Ok(())
}
