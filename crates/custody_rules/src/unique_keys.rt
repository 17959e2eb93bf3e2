//! What notices tell that no two of them may tell: each is gathered once, in order.
ghost use Rattle.std.specs.Prelude.{◌≡◌, ◌↔◌, Option, Some, true, IfOk, IfSome, IfNone};
ghost use Rattle.std.specs.BTreeSet.{contains};
ghost use Rattle.std.proofs.lemmas.Map.Lookups.{CmpEqualImpliesEq};
ghost use Rattle.desk.specs.declared.notices.Notice.{Notice};
ghost use Rattle.custody_records.specs.MemoryRecords.{records_of};
ghost use Rattle.custody_records.specs.RegistryRows.{rows_left};
ghost use Rattle.custody_rules.specs.declared.unique_keys.FailedRevision.{FailedRevision};
ghost use Rattle.custody_rules.specs.inside.UniqueKeys.{HaveNoRivals, HaveUniqueKeys, IsKeyAmong, has_failed, subject_of, received_day_of, failed_revision_of};
ghost use Rattle.custody_machine.specs.StoredState.{revision_of};
ghost use Rattle.custody_rules.specs.inside.Orders.{exact_subjects, exact_registry_days, exact_failed_revisions, failed_revision_cmp};

use custody_records::{AllRows, Records};
use deposit_name::Tld;
use desk::{Notice, NoticeKind};
use schedule::Day;
use std::alloc::{AllocError, Global};
use std::collections::BTreeSet;

/// What a notice may tell, and no other one with it.
pub(crate) trait UniqueKey: Ord + Copy + Drop {
    ghost unique_key_of: { Notice → Option Self };

    /// What the notice tells of this kind.
    fn of(notice: &Notice) -> Option<Self>
        ensures { result ≡ unique_key_of notice.now };

    ghost exact: { CmpEqualImpliesEq Self.cmp };
}

/// What a notice is about: a revision of a day's deposit, or the day itself, where it tells an absence.
#[derive(Clone, Copy, Debug, PartialEq, Eq, PartialOrd, Ord)]
pub(crate) struct Subject {
    tld: Tld,
    day: Day,
    rev: Option<u8>,
}

/// A day of a registry: one whose deposit was received and verified, or one that is on hold.
#[derive(Clone, Copy, Debug, PartialEq, Eq, PartialOrd, Ord)]
pub(crate) struct RegistryDay {
    pub(crate) tld: Tld,
    pub(crate) day: Day,
}

/// A revision of a day's deposit that failed.
#[derive(Clone, Copy, Debug, PartialEq, Eq, PartialOrd, Ord)]
pub(crate) struct FailedRevision {
    pub(crate) tld: Tld,
    pub(crate) day: Day,
    pub(crate) rev: u8,
}

impl UniqueKey for Subject {
    ghost unique_key_of = { subject_of };

    ghost exact = { exact_subjects };

    fn of(notice: &Notice) -> Option<Subject> {
        Some(Subject {
            tld: notice.tld,
            day: notice.day,
            rev: revision_of(&notice.kind),
        })
    }
}

impl UniqueKey for RegistryDay {
    ghost unique_key_of = { received_day_of };

    ghost exact = { exact_registry_days };

    fn of(notice: &Notice) -> Option<RegistryDay> {
        match notice.kind {
            NoticeKind::Receipt { .. } => Some(RegistryDay {
                tld: notice.tld,
                day: notice.day,
            }),
            NoticeKind::Failure { .. } | NoticeKind::Absence => None,
        }
    }
}

impl UniqueKey for FailedRevision {
    ghost unique_key_of = { failed_revision_of };

    ghost exact = { exact_failed_revisions };

    fn of(notice: &Notice) -> Option<FailedRevision> {
        match notice.kind {
            NoticeKind::Failure { rev, .. } => Some(FailedRevision {
                tld: notice.tld,
                day: notice.day,
                rev: rev.number(),
            }),
            NoticeKind::Receipt { .. } | NoticeKind::Absence => None,
        }
    }
}

/// The revision of a verdict.
pub(crate) fn revision_of(kind: &NoticeKind) -> Option<u8>
    ensures { result ≡ revision_of kind.now }
{
    match kind {
        NoticeKind::Receipt { rev, .. } | NoticeKind::Failure { rev, .. } => Some(rev.number()),
        NoticeKind::Absence => None,
    }
}

/// All that the notices tell of one kind, or `None` where two of them tell the same.
pub(crate) fn collect_keys<T: UniqueKey>(
    alloc: Global,
    notices: AllRows<'_, Notice>,
) -> Result<Option<BTreeSet<T>>, AllocError>
    ensures all { IfOk result (λ told. IfSome told (λ all. (t : T) → (contains T.cmp all t ≡ true) ↔ IsKeyAmong T.unique_key_of (rows_left notices.entry) t)) }
    ensures once { IfOk result (λ told. IfSome told (λ _. HaveUniqueKeys T.unique_key_of (rows_left notices.entry))) }
    ensures twice { IfOk result (λ told. IfNone told (¬ HaveUniqueKeys T.unique_key_of (rows_left notices.entry))) }
{
    let mut all = BTreeSet::new(alloc);
    for notice in notices {
        if let Some(told) = T::of(notice) {
            if !all.insert(told)? {
                return Ok(None);
            }
        }
    }
    Ok(Some(all))
}

/// The revisions that failed, or `None` where a day has two verdicts of one revision, two receipts
/// or two absences.
pub(crate) fn failed_revisions(
    alloc: Global,
    records: &Records,
) -> Result<Option<BTreeSet<FailedRevision>>, AllocError>
    ensures failed { IfOk result (λ found. IfSome found (λ failed. (t : FailedRevision) → contains failed_revision_cmp failed t ≡ has_failed (records_of records.now).notices t)) }
    ensures once { IfOk result (λ found. IfSome found (λ _. HaveNoRivals (records_of records.now).notices)) }
    ensures twice { IfOk result (λ found. IfNone found (¬ HaveNoRivals (records_of records.now).notices)) }
{
    if collect_keys::<Subject>(alloc, records.notices())?.is_none()
        || collect_keys::<RegistryDay>(alloc, records.notices())?.is_none()
    {
        return Ok(None);
    }
    collect_keys(alloc, records.notices())
}
