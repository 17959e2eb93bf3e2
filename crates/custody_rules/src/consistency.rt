//! Whether records belong together, as an opening tests them.
ghost use Rattle.std.specs.Prelude.{IfOk, IfErr};
ghost use Rattle.custody_records.specs.MemoryRecords.{records_of};
ghost use Rattle.custody_machine.specs.StoredState.{AreWhole};
ghost use Rattle.custody_rules.specs.Blocks.{IsMapOf};
ghost use Rattle.custody_rules.specs.Breaks.{ReportsBreak};

use crate::blocks::map_of;
use crate::extents::are_in_range;
use crate::links::are_linked;
use custody_machine::{Damage, Failure};
use custody_records::Records;
use std::alloc::Global;
use vault_volume::ExtentMap;

/// The map of the volume of these records, where they are whole: the blocks that no part names are free,
/// but block 0. Else it tells the first of H5, H6 and H7 that they break, or want of memory.
pub fn whole_map(alloc: Global, records: &Records) -> Result<ExtentMap, Failure>
    ensures whole { IfOk result (λ _. AreWhole (records_of records.now)) }
    ensures map { IfOk result (IsMapOf (records_of records.now)) }
    ensures failure { IfErr result (ReportsBreak (records_of records.now)) }
{
    if !are_in_range(records) {
        return Err(Failure::Damaged(Damage::Extent));
    }
    let map = map_of(alloc, records)?;
    match are_linked(alloc, records) {
        Ok(true) => Ok(map),
        Ok(false) => Err(Failure::Damaged(Damage::Link)),
        Err(_) => Err(Failure::NoMemory),
    }
}
