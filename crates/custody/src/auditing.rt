//! The parts that are held, read and compared with their digests.
ghost use Rattle.std.specs.Prelude.{◌≡◌, ◌-◌, ◌<◌, ◌^◌, false, IfOk, IsSome};
ghost use Rattle.vault_volume.specs.Disk.{CountsFailure};
ghost use Rattle.vault_volume.specs.Vault.{volume_of};
ghost use Rattle.custody_records.specs.MemoryRecords.{records_of};
ghost use Rattle.custody_records.specs.TypedRecords.{part_value};
ghost use Rattle.custody_machine.specs.StoredState.{HaveExtentsInRange};
ghost use Rattle.custody_rules.specs.Blocks.{IsInRange};
ghost use Rattle.custody.specs.Auditing.{AreDamaged, AreHeld, has_digest};
ghost use Rattle.custody.specs.Reading.{CountsReadFailure, ReadsVault};

use crate::Progress;
use crate::upload::digest_part;
use custody_records::{Part, Records};
use deposit_name::DepositName;
use std::alloc::Global;
use vault_volume::{Failed, ReadError, Vault, Volume, blocks_for};

/// The names of the parts that have not their recorded digests, in the order of the records. Each is
/// read in pieces; memory is taken for the names alone. `progress` is told the blocks that were read.
pub(crate) fn audit_parts<V: Volume, P: Progress>(
    alloc: Global,
    vault: &mut Vault<V>,
    records: &Records,
    progress: &mut P,
) -> Result<Vec<DepositName>, ReadError>
    requires range { HaveExtentsInRange (records_of records.now) }
    requires blocks { V.size (volume_of vault.old) ≡ (records_of records.now).blocks }
    requires count { V.failures (volume_of vault.old) < 2 ^ 64 - 1 }
    ensures held { IfOk result (λ names. AreHeld (records_of records.now) names.items) }
    ensures damaged { V.tells → IfOk result (λ names. AreDamaged (records_of records.now) (V.image (volume_of vault.old)) names.items) }
    ensures read { ReadsVault vault.old vault.new }
    ensures failures { CountsReadFailure result (V.failures (volume_of vault.old)) (V.failures (volume_of vault.new)) }
{
    let mut damaged = Vec::new(alloc);
    for part in records.parts() {
        let Ok(intact) = has_digest(vault, part) else {
            return Err(ReadError::VolumeFailed);
        };
        progress.advance(blocks_read(part));
        if !intact {
            let Ok(()) = damaged.push(part.name) else {
                return Err(ReadError::NoMemory);
            };
        }
    }
    Ok(damaged)
}

/// How many blocks an audit reads of a part.
fn blocks_read(part: &Part) -> usize {
    match part.extents {
        Some(_) => blocks_for(part.len) as usize,
        None => 0,
    }
}

/// Whether a part has its recorded digest. One whose bytes are dropped is not read.
fn has_digest<V: Volume>(vault: &mut Vault<V>, part: &Part) -> Result<bool, Failed>
    requires held { IsInRange (V.size (volume_of vault.old)) part.now }
    requires count { V.failures (volume_of vault.old) < 2 ^ 64 - 1 }
    ensures dropped { IfOk result (λ intact. intact ≡ false → IsSome (part_value part.now).extents) }
    ensures digest { V.tells → IfOk result (λ intact. intact ≡ has_digest (V.image (volume_of vault.old)) part.now) }
    ensures read { ReadsVault vault.old vault.new }
    ensures failures { CountsFailure result (V.failures (volume_of vault.old)) (V.failures (volume_of vault.new)) }
{
    match &part.extents {
        Some(extents) => Ok(digest_part(vault, extents, part.len)? == part.digest),
        None => Ok(true),
    }
}
