//! A map of 262,144 blocks, and what is placed in it.
use extent_map::{Extent, ExtentMap};
use std::alloc::{AllocError, Global};
use std::io;

const BLOCKS: u32 = 262_144;

// The first so many odd blocks, one extent each.
fn odd_blocks(alloc: Global, count: u32) -> Result<Vec<Extent>, AllocError> {
    let mut used = Vec::new(alloc);
    for half in 0..count {
        used.push(Extent {
            start: half.saturating_mul(2).saturating_add(1),
            count: 1,
        })?;
    }
    Ok(used)
}

// All blocks but the last 256 are used.
fn all_but_the_end(alloc: Global) -> Result<Vec<Extent>, AllocError> {
    let mut used = Vec::new(alloc);
    used.push(Extent {
        start: 1,
        count: BLOCKS - 257,
    })?;
    Ok(used)
}

fn map_of(alloc: Global, used: &[Extent]) -> Option<ExtentMap> {
    ExtentMap::from_used(alloc, BLOCKS, used).ok()
}

// Makes the map of 100,000 extents, and says how many blocks are free.
fn build(alloc: Global, times: u32) -> Option<u32> {
    let used = odd_blocks(alloc, 100_000).ok()?;
    let mut free = 0;
    for _ in 0..times {
        free = map_of(alloc, &used)?.free_blocks();
    }
    Some(free)
}

// Places 256 blocks in one run and frees them, and says where they lay.
fn place(map: &mut ExtentMap, times: u32) -> Option<u32> {
    let mut start = 0;
    for _ in 0..times {
        let extent = map.place(256)?;
        start = extent.start;
        map.free(&extent);
    }
    Some(start)
}

// Places 256 blocks in runs, as often, and says how many blocks are free then.
fn place_runs(alloc: Global, map: &mut ExtentMap, times: u32) -> Option<u32> {
    for _ in 0..times {
        map.place_all(alloc, 256).ok()??;
    }
    Some(map.free_blocks())
}

fn answer_of(alloc: Global, kind: &str, times: u32) -> Option<u32> {
    match kind {
        "build" => build(alloc, times),
        "end" => place(&mut map_of(alloc, &all_but_the_end(alloc).ok()?)?, times),
        "holes" => place(
            &mut map_of(alloc, &odd_blocks(alloc, 130_943).ok()?)?,
            times,
        ),
        "runs" => place_runs(
            alloc,
            &mut map_of(alloc, &odd_blocks(alloc, 131_072).ok()?)?,
            times,
        ),
        _ => None,
    }
}

/// Does what is asked with a map so often, and prints the number that it comes to.
pub fn print_map(rt: &HostRuntime, kind: &str, times: u32) -> io::Result<()> {
    match answer_of(rt.alloc(), kind, times) {
        Some(number) => println!(rt; "{number}"),
        None => println!(rt; "no answer"),
    }
}
