//! A day: whether it is in range, and its notices.
ghost use Rattle.std.specs.Prelude.{◌≡◌, ◌||◌, nat_lt, find, option_copied, option_map};
ghost use Rattle.std.specs.FinMap.{entries};
ghost use Rattle.schedule.specs.Schedule.{day_of};
ghost use Rattle.custody_records.specs.MemoryRecords.{records_of};
ghost use Rattle.custody_records.specs.TypedRecords.{notice_entry};
ghost use Rattle.custody_machine.specs.State.{has_notice, is_notice_of};
ghost use Rattle.custody_rules.specs.inside.Sought.{is_sought};

use custody_records::Records;
use deposit_name::Tld;
use desk::{Notice, NoticeKind};
use schedule::{Day, Sec};

/// Whether the day is before the registry's first, or after today.
pub(crate) fn is_day_outside(first_day: Day, day: Day, now: Sec) -> bool
    ensures { result ≡ (nat_lt day first_day || nat_lt (day_of now) day) }
{
    day < first_day || now.day() < day
}

/// What a notice of a day is sought to tell.
#[derive(Clone, Copy)]
pub(crate) enum Sought {
    /// That a revision has passed.
    Receipt,
    /// That this revision has failed.
    FailureOf(u8),
    /// That a revision has passed or failed.
    Verdict,
    /// That this revision has passed or failed.
    VerdictOf(u8),
    /// That no deposit came.
    Absence,
}

/// The first notice of a day that tells it.
pub(crate) fn notice_of<'a>(
    records: &'a Records,
    tld: &Tld,
    day: Day,
    sought: Sought,
) -> Option<&'a Notice>
    ensures { option_map notice_entry (option_copied result) ≡ find (is_notice_of tld.now day (is_sought sought)) (entries (records_of records.now).notices) }
{
    records
        .notices_of(tld)
        .iter()
        .find(|notice| is_notice_of(notice, tld, day, sought))
}

/// Whether a notice of a day tells it.
pub(crate) fn has_notice(records: &Records, tld: &Tld, day: Day, sought: Sought) -> bool
    ensures { result ≡ has_notice (records_of records.now).notices tld.now day (is_sought sought) }
{
    records
        .notices_of(tld)
        .iter()
        .any(|notice| is_notice_of(notice, tld, day, sought))
}

fn is_notice_of(notice: &Notice, tld: &Tld, day: Day, sought: Sought) -> bool
    ensures { result ≡ is_notice_of tld.now day (is_sought sought) (notice_entry notice.now) }
{
    notice.tld == *tld && notice.day == day && is_sought(&notice.kind, sought)
}

fn is_sought(kind: &NoticeKind, sought: Sought) -> bool
    ensures { result ≡ is_sought sought kind.now }
{
    match kind {
        NoticeKind::Receipt { rev, .. } => match sought {
            Sought::Receipt | Sought::Verdict => true,
            Sought::VerdictOf(of) => rev.number() == of,
            Sought::FailureOf(_) | Sought::Absence => false,
        },
        NoticeKind::Failure { rev, .. } => match sought {
            Sought::Verdict => true,
            Sought::FailureOf(of) | Sought::VerdictOf(of) => rev.number() == of,
            Sought::Receipt | Sought::Absence => false,
        },
        NoticeKind::Absence => matches!(sought, Sought::Absence),
    }
}
