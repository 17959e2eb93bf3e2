//! How a release is judged by the records, and what it lists.
ghost use Rattle.std.specs.Prelude.{◌≡◌, IfOk};
ghost use Rattle.custody_records.specs.MemoryRecords.{records_of};
ghost use Rattle.custody_records.specs.TypedRecords.{release_value};
ghost use Rattle.desk.specs.Standing.{ground_stands};
ghost use Rattle.custody_machine.specs.Machine.{Release as Released, is_on_ground, notices_told_to};
ghost use Rattle.custody_machine.specs.Releases.{AreRecordedNames, held_record_names};
ghost use Rattle.custody_machine.specs.Rulings.{Decides};
ghost use Rattle.custody_rules.specs.inside.Releases.{AreInForm, held_part_names};
ghost use Rattle.custody_rules.specs.Rulings.{ruling_of};

use crate::{Change, KeptRecord, Ruling};
use custody_machine::Refusal;
use custody_records::{Names, Part, Records, Release};
use deposit_name::{Reference, Tld};
use desk::{Ground, ground_stands};
use schedule::Sec;
use std::alloc::{AllocError, Global};

/// Judges a release: it is refused; the release that was made on the same request answers it; or one is
/// to be made.
pub(crate) fn judge_release(
    alloc: Global,
    records: &Records,
    reference: Reference,
    tld: Tld,
    reason: Ground,
    now: Sec,
) -> Ruling<'_>
    ensures { Decides (ruling_of result) (records_of records.now) (Released reference tld reason) now }
{
    let Some(_) = records.first_day(&tld) else {
        return Ruling::Refuse(Refusal::RegistryUnknown);
    };
    match records.release(&reference) {
        Some(release) if is_on_ground(release, &tld, reason) => {
            Ruling::Kept(KeptRecord::Release(release))
        }
        Some(_) => Ruling::Refuse(Refusal::ReferenceUsed),
        None if has_ground(alloc, records, &tld, reason, now) => {
            Ruling::Go(Change::Release(reference, tld, reason))
        }
        None => Ruling::Refuse(Refusal::GroundDoesNotStand),
    }
}

/// Whether the release is of this registry, on this ground.
fn is_on_ground(release: &Release, tld: &Tld, reason: Ground) -> bool
    ensures { result ≡ is_on_ground tld.now reason (release_value release.now) }
{
    release.tld == *tld && release.reason == reason
}

/// Whether the ground stands by the notices of the registry.
fn has_ground(alloc: Global, records: &Records, tld: &Tld, reason: Ground, now: Sec) -> bool
    ensures { result ≡ ground_stands reason (notices_told_to (records_of records.now).notices tld.now) now }
{
    ground_stands(alloc, reason, records.notices_of(tld), now)
}

/// The names of the parts of a registry whose bytes are held, by day, revision and place in the series.
/// Each is that of a part that is recorded.
pub fn held_names(alloc: Global, records: &Records, tld: &Tld) -> Result<Names, AllocError>
    ensures names { IfOk result (λ names. names ≡ held_record_names (records_of records.now) tld.now) }
    ensures recorded { IfOk result (λ names. AreRecordedNames (records_of records.now) tld.now names) }
{
    held_part_names(alloc, records.parts_of(tld))
}

/// The names of those of the parts whose bytes are held.
fn held_part_names(alloc: Global, parts: &[Part]) -> Result<Names, AllocError>
    ensures names { IfOk result (λ names. names ≡ held_part_names parts.now) }
    ensures in_form { IfOk result (λ names. AreInForm parts.now) }
{
    let mut names = Names::new(alloc);
    for part in parts {
        if part.extents.is_some() {
            names.push(&part.name)?;
        }
    }
    Ok(names)
}
