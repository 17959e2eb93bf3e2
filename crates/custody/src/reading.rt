//! The parts of a revision, read from the volume and joined, each compared with its digest.
ghost use Rattle.std.specs.Prelude.{◌≡◌, ◌-◌, ◌<◌, ◌^◌, ◌++◌, true, false, IfOk, IfSome, IfNone};
ghost use Rattle.vault_volume.specs.Extents.{part_bytes};
ghost use Rattle.vault_volume.specs.Vault.{volume_of};
ghost use Rattle.sha2.specs.Sha256.{sha256};
ghost use Rattle.custody_records.specs.MemoryRecords.{records_of};
ghost use Rattle.custody_records.specs.Records.{key_of};
ghost use Rattle.custody_machine.specs.State.{key_with_part};
ghost use Rattle.custody_machine.specs.StoredState.{AreExtents, HaveExtentsInRange, HasDigestAt};
ghost use Rattle.custody.specs.Reading.{ReadsVault, CountsReadFailure, bytes_under, IsRevisionRead};

use custody_records::{Part, PartKey, Records};
use deposit_name::DepositName;
use sha2::{Digest, Sha256};
use std::alloc::Global;
use vault_volume::{Extent, ReadError, Vault, Volume};

/// What was read of the parts of a revision.
#[derive(Debug, Drop)]
pub(crate) enum RevisionBytes {
    /// Their bytes, in the order of the series.
    Whole(Vec<u8>),
    /// The part at this place has not its recorded digest.
    Broken(PartKey),
}

/// Reads the parts of the revision of a name, and joins their bytes. A part whose bytes are dropped
/// adds none.
pub(crate) fn read_revision<V: Volume>(
    alloc: Global,
    vault: &mut Vault<V>,
    records: &Records,
    name: &DepositName,
) -> Result<RevisionBytes, ReadError>
    requires range { HaveExtentsInRange (records_of records.now) }
    requires blocks { V.size (volume_of vault.old) ≡ (records_of records.now).blocks }
    requires count { V.failures (volume_of vault.old) < 2 ^ 64 - 1 }
    ensures joined { V.tells → IfOk result (λ found. IsRevisionRead found (records_of records.now) (V.image (volume_of vault.old)) name.now) }
    ensures read { ReadsVault vault.old vault.new }
    ensures failures { CountsReadFailure result (V.failures (volume_of vault.old)) (V.failures (volume_of vault.new)) }
{
    let Ok(mut joined) = Vec::with_capacity(alloc, count_bytes(records, name)) else {
        return Err(ReadError::NoMemory);
    };
    for place in 1..=8 {
        let key = key_at(name, place);
        if !append_part(alloc, vault, records, &key, &mut joined)? {
            return Ok(RevisionBytes::Broken(key));
        }
    }
    Ok(RevisionBytes::Whole(joined))
}

/// The key of the part at a place of the revision of a name.
fn key_at(name: &DepositName, place: u8) -> PartKey
    ensures { result ≡ key_with_part (key_of name.now) place }
{
    PartKey {
        part: place,
        ..PartKey::of(name)
    }
}

/// How many bytes the parts of a revision have, for the room that they take.
fn count_bytes(records: &Records, name: &DepositName) -> usize {
    let mut count: usize = 0;
    for part in records.parts_of_revision(name) {
        count = count.saturating_add(part.len as usize);
    }
    count
}

/// Appends the bytes of the part with a key, if one is held, and tells whether they have its digest.
fn append_part<V: Volume>(
    alloc: Global,
    vault: &mut Vault<V>,
    records: &Records,
    key: &PartKey,
    joined: &mut Vec<u8>,
) -> Result<bool, ReadError>
    requires range { HaveExtentsInRange (records_of records.now) }
    requires blocks { V.size (volume_of vault.old) ≡ (records_of records.now).blocks }
    requires count { V.failures (volume_of vault.old) < 2 ^ 64 - 1 }
    ensures bytes { V.tells → IfOk result (λ sound. sound ≡ true → joined.new.items ≡ joined.old.items ++ bytes_under (V.image (volume_of vault.old)) (records_of records.now) key.now) }
    ensures sound { V.tells → IfOk result (λ sound. sound ≡ true → HasDigestAt (V.image (volume_of vault.old)) (records_of records.now) key.now) }
    ensures broken { V.tells → IfOk result (λ sound. sound ≡ false → ¬ HasDigestAt (V.image (volume_of vault.old)) (records_of records.now) key.now) }
    ensures read { ReadsVault vault.old vault.new }
    ensures failures { CountsReadFailure result (V.failures (volume_of vault.old)) (V.failures (volume_of vault.new)) }
{
    let Some(part) = records.part(key) else {
        return Ok(true);
    };
    match &part.extents {
        Some(extents) => append_held(alloc, vault, part, extents, joined),
        None => Ok(true),
    }
}

/// Appends the bytes of a part that is held, and tells whether they have its digest.
fn append_held<V: Volume>(
    alloc: Global,
    vault: &mut Vault<V>,
    part: &Part,
    extents: &[Extent],
    joined: &mut Vec<u8>,
) -> Result<bool, ReadError>
    requires held { AreExtents (V.size (volume_of vault.old)) part.now.len extents.now }
    requires count { V.failures (volume_of vault.old) < 2 ^ 64 - 1 }
    ensures bytes { V.tells → IfOk result (λ sound. sound ≡ true → joined.new.items ≡ joined.old.items ++ part_bytes (V.image (volume_of vault.old)) extents.now part.now.len) }
    ensures sound { V.tells → IfOk result (λ sound. sound ≡ true → sha256 (part_bytes (V.image (volume_of vault.old)) extents.now part.now.len) ≡ part.now.digest) }
    ensures broken { V.tells → IfOk result (λ sound. sound ≡ false → ¬ (sha256 (part_bytes (V.image (volume_of vault.old)) extents.now part.now.len) ≡ part.now.digest)) }
    ensures read { ReadsVault vault.old vault.new }
    ensures failures { CountsReadFailure result (V.failures (volume_of vault.old)) (V.failures (volume_of vault.new)) }
{
    match read_sound(alloc, vault, part, extents)? {
        Some(stored) => match joined.extend_from_slice(&stored) {
            Ok(()) => Ok(true),
            Err(_) => Err(ReadError::NoMemory),
        },
        None => Ok(false),
    }
}

/// Reads a part that is held: its bytes, or `None` where they have not its recorded digest.
pub(crate) fn read_sound<V: Volume>(
    alloc: Global,
    vault: &mut Vault<V>,
    part: &Part,
    extents: &[Extent],
) -> Result<Option<Vec<u8>>, ReadError>
    requires held { AreExtents (V.size (volume_of vault.old)) part.now.len extents.now }
    requires count { V.failures (volume_of vault.old) < 2 ^ 64 - 1 }
    ensures bytes { V.tells → IfOk result (λ found. IfSome found (λ stored. stored.items ≡ part_bytes (V.image (volume_of vault.old)) extents.now part.now.len)) }
    ensures sound { V.tells → IfOk result (λ found. IfSome found (λ stored. sha256 (part_bytes (V.image (volume_of vault.old)) extents.now part.now.len) ≡ part.now.digest)) }
    ensures broken { V.tells → IfOk result (λ found. IfNone found (¬ (sha256 (part_bytes (V.image (volume_of vault.old)) extents.now part.now.len) ≡ part.now.digest))) }
    // Whatever the volume is, bytes are answered with the digest alone.
    ensures digest { IfOk result (λ found. IfSome found (λ stored. sha256 stored.items ≡ part.now.digest)) }
    ensures read { ReadsVault vault.old vault.new }
    ensures failures { CountsReadFailure result (V.failures (volume_of vault.old)) (V.failures (volume_of vault.new)) }
{
    let mut stored = Vec::new(alloc);
    vault.read_part(extents, part.len, &mut stored)?;
    if Sha256::digest(&stored) == part.digest {
        Ok(Some(stored))
    } else {
        Ok(None)
    }
}
