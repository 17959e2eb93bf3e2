//! Extents of parts: whether they may hold the parts' bytes.
ghost use Rattle.std.specs.Prelude.{◌≡◌, ◌↔◌, IsTrue, All, true, false};
ghost use Rattle.vault_volume.specs.Extents.{blocks_of};
ghost use Rattle.custody_records.specs.MemoryRecords.{records_of};
ghost use Rattle.custody_records.specs.RegistryRows.{rows_left};
ghost use Rattle.custody_machine.specs.StoredState.{HaveExtentsInRange, AreExtents};
ghost use Rattle.custody_rules.specs.Blocks.{IsInRange, part_extents};

use custody_records::{AllRows, Part, Records};
use vault_volume::{Extent, blocks_for};

/// Whether the extents of each part lie in the volume, are not empty, have not block 0, and have as
/// many blocks as its bytes take.
pub(crate) fn are_in_range(records: &Records) -> bool
    ensures in_range { result ≡ true → HaveExtentsInRange (records_of records.now) }
    ensures broken { result ≡ false → ¬ HaveExtentsInRange (records_of records.now) }
{
    all_in_range(records.parts(), records.blocks())
}

fn all_in_range(mut parts: AllRows<'_, Part>, blocks: u32) -> bool
    ensures { IsTrue result ↔ All (IsInRange blocks) (rows_left parts.entry) }
{
    parts.all(|part| is_in_range(part, blocks))
}

fn is_in_range(part: &Part, blocks: u32) -> bool
    ensures { IsTrue result ↔ IsInRange blocks part.now }
{
    match &part.extents {
        Some(extents) => may_hold(extents, blocks, part.len),
        None => true,
    }
}

/// Whether the extents may hold so many bytes of a volume of so many blocks.
fn may_hold(extents: &[Extent], blocks: u32, len: u32) -> bool
    ensures { IsTrue result ↔ AreExtents blocks len extents.now }
{
    extents.iter().all(|extent| extent.is_within(blocks)) && have_blocks(extents, blocks_for(len))
}

/// Whether the extents have so many blocks.
fn have_blocks(extents: &[Extent], count: u32) -> bool
    ensures { IsTrue result ↔ blocks_of extents.now ≡ count }
{
    let mut left = count;
    for extent in extents {
        match left.checked_sub(extent.count) {
            Some(rest) => left = rest,
            None => return false,
        }
    }
    left == 0
}

/// The extents of a part, none where its bytes are dropped.
pub(crate) fn part_extents(part: &Part) -> &[Extent]
    ensures { result.now ≡ part_extents part.now }
{
    match &part.extents {
        Some(extents) => extents,
        None => &[],
    }
}
