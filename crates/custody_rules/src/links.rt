//! Whether the records belong together: each record is looked up among the others.
ghost use Rattle.std.specs.Prelude.{◌≡◌, ℕ, List, ◌&&◌, ◌==◌, true, false, Ok, IfOk};
ghost use Rattle.std.specs.BTreeSet.{contains};
ghost use Rattle.std.specs.List.{list_all};
ghost use Rattle.custody_machine.specs.NameReading.{read_name};
ghost use Rattle.custody_machine.specs.StoredState.{AreLinked, is_name_of_part, revision_of};
ghost use Rattle.custody_records.specs.MemoryRecords.{records_of};
ghost use Rattle.custody_records.specs.RegistryRows.{rows_left};
ghost use Rattle.custody_records.specs.TypedRecords.{notice_key, notice_value, key_of_part, part_value, release_value, hold_value};
ghost use Rattle.custody_rules.specs.inside.Orders.{failed_revision_cmp};
ghost use Rattle.custody_rules.specs.inside.Links.{has_parts, is_revision_due, is_in_series, has_registry, is_notice_linked, is_numbered, is_part_linked, is_release_linked, is_hold_linked, each_passes};

use crate::revision::has_part_of;
use crate::unique_keys::{FailedRevision, failed_revisions, revision_of};
use custody_records::{AllRows, Hold, Names, NoticeKey, Part, PartKey, Records, Release};
use deposit_name::{DepositName, Kind, Tld};
use desk::{Notice, NoticeKind};
use schedule::Day;
use std::alloc::{AllocError, Global};
use std::collections::BTreeSet;

/// Whether the records belong together.
pub(crate) fn are_linked(alloc: Global, records: &Records) -> Result<bool, AllocError>
    ensures linked { IfOk result (λ linked. linked ≡ true → AreLinked (records_of records.now)) }
    ensures broken { IfOk result (λ linked. linked ≡ false → ¬ AreLinked (records_of records.now)) }
{
    let Some(failed) = failed_revisions(alloc, records)? else {
        return Ok(false);
    };
    Ok(
        parts_are_linked(records, &failed, records.parts())
            && notices_are_linked(records, records.notices())
            && references_are_linked(records),
    )
}

fn parts_are_linked(
    records: &Records,
    failed: &BTreeSet<FailedRevision>,
    mut parts: AllRows<'_, Part>,
) -> bool
    ensures { result ≡ list_all (λ p. is_part_linked (records_of records.now) (contains failed_revision_cmp failed.now) (key_of_part p) (part_value p)) (rows_left parts.entry) }
{
    parts.all(|part| part_is_linked(records, failed, part))
}

fn notices_are_linked(records: &Records, mut notices: AllRows<'_, Notice>) -> bool
    ensures { result ≡ list_all (λ n. is_notice_linked (records_of records.now) (notice_key n) (notice_value n)) (rows_left notices.entry) }
{
    notices.all(|notice| notice_is_linked(records, notice))
}

fn releases_are_linked(records: &Records, releases: &[Release]) -> bool
    ensures { result ≡ list_all (λ r. is_release_linked (records_of records.now) (release_value r)) releases.now }
{
    releases
        .iter()
        .all(|release| release_is_linked(records, release))
}

/// Whether the releases and the holds belong to the other records.
fn references_are_linked(records: &Records) -> bool
    ensures { result ≡ (each_passes (λ (_ : List ℕ). is_release_linked (records_of records.now)) (records_of records.now).releases
        && each_passes (λ (_ : List ℕ). is_hold_linked (records_of records.now)) (records_of records.now).holds) }
{
    releases_are_linked(records, records.releases()) && holds_are_linked(records, records.holds())
}

fn holds_are_linked(records: &Records, holds: &[Hold]) -> bool
    ensures { result ≡ list_all (λ h. is_hold_linked (records_of records.now) (hold_value h)) holds.now }
{
    holds.iter().all(|hold| has_registry(records, &hold.tld))
}

/// Whether a registry is recorded.
fn has_registry(records: &Records, tld: &Tld) -> bool
    ensures { result ≡ has_registry (records_of records.now) tld.now }
{
    records.first_day(tld).is_some()
}

/// Whether a part has its registry, the part before it, and the failure that its revision follows.
fn part_is_linked(records: &Records, failed: &BTreeSet<FailedRevision>, part: &Part) -> bool
    ensures { result ≡ is_part_linked (records_of records.now) (contains failed_revision_cmp failed.now) (key_of_part part.now) (part_value part.now) }
{
    let place = PartKey::of(&part.name);
    has_registry(records, &place.tld)
        && is_in_series(records, &place, part.name.kind)
        && is_revision_due(failed, &place)
}

/// Whether the place is the first of its series, or a part of that kind stands before it.
fn is_in_series(records: &Records, place: &PartKey, kind: Kind) -> bool
    ensures { result ≡ is_in_series (records_of records.now) place.now kind }
{
    if place.part <= 1 {
        return true;
    }
    let before = PartKey {
        part: place.part - 1,
        ..*place
    };
    has_part_of(records, &before, kind)
}

/// Whether the revision is the first, or the one before has failed.
fn is_revision_due(failed: &BTreeSet<FailedRevision>, place: &PartKey) -> bool
    ensures { result ≡ is_revision_due (contains failed_revision_cmp failed.now) place.now }
{
    if place.rev == 0 {
        return true;
    }
    let before = FailedRevision {
        tld: place.tld,
        day: place.day,
        rev: place.rev - 1,
    };
    failed.contains(&before)
}

/// Whether a notice has its registry, the notice before it and the part that it judges.
fn notice_is_linked(records: &Records, notice: &Notice) -> bool
    ensures { result ≡ is_notice_linked (records_of records.now) (notice_key notice.now) (notice_value notice.now) }
{
    has_registry(records, &notice.tld)
        && is_numbered(records, &notice.tld, notice.number)
        && has_parts(records, notice)
}

/// Whether the number is the first of its registry's, or a notice has the number before.
fn is_numbered(records: &Records, tld: &Tld, number: u64) -> bool
    ensures { result ≡ is_numbered (records_of records.now) (record { tld = tld.now; number = number }) }
{
    if number <= 1 {
        return true;
    }
    let before = NoticeKey {
        tld: *tld,
        number: number - 1,
    };
    records.notice(&before).is_some()
}

/// Whether the revision that a notice judges has parts.
fn has_parts(records: &Records, notice: &Notice) -> bool
    ensures { result ≡ has_parts (records_of records.now) notice.now.tld notice.now.day (revision_of notice.now.kind) }
{
    match revision_of(&notice.kind) {
        Some(rev) => {
            let first = PartKey {
                tld: notice.tld,
                day: notice.day,
                rev,
                part: 1,
            };
            records.part(&first).is_some()
        }
        None => true,
    }
}

/// Whether a release has its registry, and a part for each of its names.
fn release_is_linked(records: &Records, release: &Release) -> bool
    ensures { result ≡ is_release_linked (records_of records.now) (release_value release.now) }
{
    has_registry(records, &release.tld) && are_names_recorded(records, &release.tld, &release.names)
}

fn are_names_recorded(records: &Records, tld: &Tld, names: &Names) -> bool
    ensures { result ≡ list_all (λ text. is_name_of_part (records_of records.now) tld.now (read_name text)) names.now }
{
    names
        .lines()
        .all(|name| is_name_recorded(records, tld, name))
}

/// Whether the text is the name of a part of the registry that is recorded.
fn is_name_recorded(records: &Records, tld: &Tld, text: &[u8]) -> bool
    ensures { result ≡ is_name_of_part (records_of records.now) tld.now (read_name text.now) }
{
    match DepositName::parse(text) {
        Ok(name) => is_recorded(records, tld, &name),
        Err(_) => false,
    }
}

fn is_recorded(records: &Records, tld: &Tld, name: &DepositName) -> bool
    ensures { result ≡ is_name_of_part (records_of records.now) tld.now (Ok name.now) }
{
    name.tld.as_bytes() == tld.as_bytes() && has_part_of(records, &PartKey::of(name), name.kind)
}
