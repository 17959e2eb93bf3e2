//! The days of which a registry has no notice.
ghost use Rattle.std.specs.Prelude.{◌≡◌, ◌<◌, ◌+◌, ◌==◌, ◌++◌, ℕ, IfOk, OnOk, map};
ghost use Rattle.std.specs.List.{list_any};
ghost use Rattle.std.specs.Ordering.{nat_cmp};
ghost use Rattle.std.specs.BTreeSet.{contains};
ghost use Rattle.custody_records.specs.MemoryRecords.{records_of};
ghost use Rattle.custody_rules.specs.DueDays.{due_day_pair, due_days, due_days_of};

use custody_records::{Records, Registry};
use deposit_name::Tld;
use desk::Notice;
use schedule::{Day, Sec};
use std::alloc::{AllocError, Global};
use std::collections::BTreeSet;

/// A day of a registry that has passed without a notice.
#[derive(Clone, Copy, Debug, PartialEq)]
pub struct DueDay {
    pub tld: Tld,
    pub day: Day,
}

/// The days that have passed without a notice, of each registry from its first to yesterday.
pub fn due_days(alloc: Global, records: &Records, now: Sec) -> Result<Vec<DueDay>, AllocError>
    ensures { IfOk result (λ due. map due_day_pair due.items ≡ due_days (records_of records.now) now) }
{
    let mut due = Vec::new(alloc);
    for registry in records.registries() {
        add_due(alloc, records, registry, now, &mut due)?;
    }
    Ok(due)
}

fn add_due(
    alloc: Global,
    records: &Records,
    registry: &Registry,
    now: Sec,
    due: &mut Vec<DueDay>,
) -> Result<(), AllocError>
    ensures { OnOk result (map due_day_pair due.new.items ≡ map due_day_pair due.old.items ++ due_days_of (records_of records.now) now (registry.now.tld, registry.now.first_day)) }
{
    let tld = registry.tld;
    let noticed = noticed_days(alloc, records.notices_of(&tld))?;
    let today = now.day();
    let mut day = registry.first_day;
    while day < today {
        if !noticed.contains(&day) {
            due.push(DueDay { tld, day })?;
        }
        day = day_after(day, today);
    }
    Ok(())
}

/// The next day, which a later one shows to be in range.
fn day_after(day: Day, later: Day) -> Day
    requires { day < later }
    ensures { result ≡ day + 1 }
{
    let _last = later.number();
    Day::new(day.number() + 1).unwrap()
}

/// The days of the notices.
fn noticed_days(alloc: Global, notices: &[Notice]) -> Result<BTreeSet<Day>, AllocError>
    ensures { IfOk result (λ days. (day : ℕ) → contains nat_cmp days day ≡ list_any (λ n. n.day == day) notices.now) }
{
    let mut days = BTreeSet::new(alloc);
    for notice in notices {
        days.insert(notice.day)?;
    }
    Ok(days)
}
