//! A part that a release hands over, read from the volume and compared with its digest.
ghost use Rattle.std.specs.Prelude.{◌≡◌, ◌+◌, ◌-◌, ◌<◌, ◌^◌, true, false};
ghost use Rattle.vault_volume.specs.Vault.{volume_of};
ghost use Rattle.custody_records.specs.MemoryRecords.{records_of};
ghost use Rattle.custody_machine.specs.StoredState.{AreWhole};
ghost use Rattle.custody.specs.Answers.{stays_open};
ghost use Rattle.custody.specs.Fetching.{IsFetchDecided, IsFetched, answered_bytes};
ghost use Rattle.custody.specs.Reading.{ReadsVault};

use crate::Refused;
use crate::reading::read_sound;
use custody_machine::{Damage, Failure};
use custody_records::Records;
use custody_rules::find_released;
use deposit_name::Reference;
use std::alloc::Global;
use vault_volume::{Vault, Volume};

/// Reads the part that a release hands over under a name.
pub(crate) fn fetch_part<V: Volume>(
    alloc: Global,
    vault: &mut Vault<V>,
    records: &Records,
    reference: &Reference,
    name: &[u8],
) -> Result<Vec<u8>, Refused>
    requires whole { AreWhole (records_of records.now) }
    requires blocks { V.size (volume_of vault.old) ≡ (records_of records.now).blocks }
    requires count { V.failures (volume_of vault.old) < 2 ^ 64 - 1 }
    ensures decided { IsFetchDecided (records_of records.now) reference.now name.now (answered_bytes result) }
    ensures fetched { V.tells → IsFetched (records_of records.now) (V.image (volume_of vault.old)) reference.now name.now (answered_bytes result) }
    ensures read { ReadsVault vault.old vault.new }
    ensures failed { stays_open result ≡ false → V.failures (volume_of vault.new) ≡ V.failures (volume_of vault.old) + 1 }
    ensures not_failed { stays_open result ≡ true → V.failures (volume_of vault.new) ≡ V.failures (volume_of vault.old) }
{
    let (part, extents) = find_released(records, reference, name)?;
    match read_sound(alloc, vault, part, extents)? {
        Some(bytes) => Ok(bytes),
        None => Err(Refused::Failure(Failure::Damaged(Damage::Digest))),
    }
}
