//! The examples of the pages of the crates that are tested here.
use std::test::Fail;
use vault_volume::{Extent, ExtentMap, MemVolume, Vault};

#[test]
fn maps(rt: HostRuntime) -> Result<(), Fail> {
    let alloc = rt.alloc();
    let used = [Extent { start: 1, count: 1 }, Extent { start: 4, count: 1 }];
    let mut map = ExtentMap::from_used(alloc, 8, &used)?;
    assert_eq!(rt; map.free_blocks(), 5); // 2, 3, 5, 6 and 7

    // The lowest run of two blocks.
    let run = map.place(2).ok_or("no run")?;
    assert_eq!(rt; run, Extent { start: 2, count: 2 });
    map.free(&run);

    // No run has four blocks, so the lowest four are taken.
    let runs = map.place_all(alloc, 4)?.ok_or("too few blocks")?;
    let lowest = [Extent { start: 2, count: 2 }, Extent { start: 5, count: 2 }];
    assert_eq!(rt; runs.as_slice(), lowest.as_slice());
    assert_eq!(rt; map.free_blocks(), 1);
    Ok(())
}

#[test]
fn parts(rt: HostRuntime) -> Result<(), Fail> {
    let alloc = rt.alloc();
    let volume = MemVolume::new(alloc, 8, 16, 4)?;
    let map = ExtentMap::from_used(alloc, 8, &[])?;
    let mut vault = Vault::over(volume, map);

    // The bytes are written to free blocks and synced.
    let staged = vault.stage(alloc, b"hello")?;
    let (extents, len, _digest) = staged.spend();
    assert_eq!(rt;
        extents.as_slice(),
        [Extent { start: 1, count: 1 }].as_slice()
    );
    assert_eq!(rt; (len, vault.free_blocks()), (5, 6));
    Ok(())
}
