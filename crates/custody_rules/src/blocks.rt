//! Blocks of parts: whether none is named twice, and which are free.
ghost use Rattle.std.specs.Prelude.{◌≡◌, IfOk, IfErr};
ghost use Rattle.custody_records.specs.MemoryRecords.{records_of};
ghost use Rattle.custody_records.specs.RegistryRows.{rows_left};
ghost use Rattle.custody_machine.specs.StoredState.{HaveExtentsInRange, HaveBlocksOnce};
ghost use Rattle.custody_rules.specs.Blocks.{IsMapOf, extents_of_all};
ghost use Rattle.custody_rules.specs.Breaks.{ReportsBreak};

use crate::extents::part_extents;
use custody_machine::{Damage, Failure};
use custody_records::{AllRows, Part, Records};
use std::alloc::{AllocError, Global};
use vault_volume::{Extent, ExtentMap, MapError};

/// The map of the volume of these records, where no block is named twice, within a part or by two: the
/// blocks that no part names are free, but block 0.
pub(crate) fn map_of(alloc: Global, records: &Records) -> Result<ExtentMap, Failure>
    requires { HaveExtentsInRange (records_of records.now) }
    ensures once { IfOk result (λ _. HaveBlocksOnce (records_of records.now)) }
    ensures map { IfOk result (IsMapOf (records_of records.now)) }
    ensures failure { IfErr result (ReportsBreak (records_of records.now)) }
{
    let Ok(used) = extents_of_all(alloc, records.parts()) else {
        return Err(Failure::NoMemory);
    };
    match ExtentMap::from_used(alloc, records.blocks(), &used) {
        Ok(map) => Ok(map),
        Err(MapError::Overlap) => Err(Failure::Damaged(Damage::Overlap)),
        Err(_) => Err(Failure::NoMemory),
    }
}

/// The extents of all parts, one after the other.
fn extents_of_all(alloc: Global, parts: AllRows<'_, Part>) -> Result<Vec<Extent>, AllocError>
    ensures { IfOk result (λ all. all.items ≡ extents_of_all (rows_left parts.entry)) }
{
    let mut all = Vec::new(alloc);
    for part in parts {
        all.extend_from_slice(part_extents(part))?;
    }
    Ok(all)
}
