//! What the records tell of a deposit before it is read, and the next number of a notice.
ghost use Rattle.std.specs.Prelude.{◌≡◌, ◌≤◌, ◌^◌, List, ℕ, IfNone, IfOk, IfSome, option_map};
ghost use Rattle.std.specs.FinMap.{FinMap};
ghost use Rattle.std.specs.List.{filter, filter_map};
ghost use Rattle.custody_machine.specs.Machine.{first_part, known_of, latest_id, next_number, passed_id};
ghost use Rattle.custody_machine.specs.StoredState.{state_in};
ghost use Rattle.custody_machine.specs.Explaining.{passed_day, with_notices};
ghost use Rattle.custody_records.specs.Keys.{notice_cmp};
ghost use Rattle.custody_records.specs.MemoryRecords.{records_of};
ghost use Rattle.custody_records.specs.Records as recorded;
ghost use Rattle.custody_records.specs.Records.{Records as AllRecords};
ghost use Rattle.deposit_verify.specs.Known.{known_in};
ghost use Rattle.custody_rules.specs.Explaining.{AreNoticesOf};
ghost use Rattle.custody_rules.specs.inside.PassedDeposits.{greatest_notice_number, has_passed, later_pair, passed_pair, passed_deposit_of, passed_deposits_of, tells_full_in};

use crate::revision::has_part_of;
use custody_machine::Statement;
use custody_records::{PartKey, Records};
use deposit_name::{DepositId, DepositName, Kind, Tld};
use deposit_verify::{About, Base};
use desk::{Notice, NoticeKind};
use schedule::Day;
use std::alloc::{AllocError, Global};

/// What is known of a stated deposit by some notices of its registry and the kinds of their deposits. The
/// keys before it are handed in.
pub fn known_about(
    alloc: Global,
    records: &Records,
    notices: &[Notice],
    statement: &Statement,
    name: &DepositName,
    base: Option<Base>,
) -> Result<About, AllocError>
    requires named { name.now ≡ first_part statement.now }
    ensures { IfOk result (λ about. (told : FinMap notice_cmp recorded.Notice) (image : List ℕ) → AreNoticesOf (with_notices (records_of records.now) told) statement.now.tld notices.now
        → known_in about ≡ record (known_of (state_in (with_notices (records_of records.now) told) image) statement.now) { base = base }) }
{
    let full = full_receipts(alloc, records, notices)?;
    Ok(About {
        name: *name,
        id: statement.id,
        latest: latest_passed(notices),
        full: latest_passed(&full),
        passed: passed_ids(alloc, notices)?,
        base,
    })
}

/// The notices that tell that a full deposit passed.
fn full_receipts(
    alloc: Global,
    records: &Records,
    notices: &[Notice],
) -> Result<Vec<Notice>, AllocError>
    ensures { IfOk result (λ full. full.items ≡ filter (tells_full_in (records_of records.now)) notices.now) }
{
    notices
        .iter()
        .filter(|notice| tells_full(records, notice))
        .copied()
        .collect(alloc)
}

/// Whether a notice tells that a full deposit passed: the first part of its revision is one of it.
fn tells_full(records: &Records, notice: &Notice) -> bool
    ensures { result ≡ tells_full_in (records_of records.now) notice.now }
{
    match notice.kind {
        NoticeKind::Receipt { rev, .. } => {
            let first = PartKey {
                tld: notice.tld,
                day: notice.day,
                rev: rev.number(),
                part: 1,
            };
            has_part_of(records, &first, Kind::Full)
        }
        NoticeKind::Failure { .. } | NoticeKind::Absence => false,
    }
}

/// A deposit that passed: its day and its id.
#[derive(Clone, Copy, Debug, PartialEq)]
pub(crate) struct PassedDeposit {
    day: Day,
    id: DepositId,
}

/// The deposit that a receipt tells.
fn passed_deposit_of(notice: &Notice) -> Option<PassedDeposit>
    ensures { option_map passed_pair result ≡ passed_deposit_of notice.now }
{
    let id = passed_id(notice)?;
    Some(PassedDeposit {
        day: notice.day,
        id,
    })
}

fn passed_id(notice: &Notice) -> Option<DepositId>
    ensures { result ≡ passed_id notice.now.kind }
{
    match notice.kind {
        NoticeKind::Receipt { id, .. } => Some(id),
        NoticeKind::Failure { .. } | NoticeKind::Absence => None,
    }
}

/// The latest deposit that passed, of those of one day the first.
fn latest_passed(notices: &[Notice]) -> Option<DepositId>
    ensures { result ≡ latest_id (passed_deposits_of notices.now) }
{
    let mut latest: Option<PassedDeposit> = None;
    for notice in notices {
        if let Some(passed) = passed_deposit_of(notice) {
            latest = Some(later_of(latest, passed));
        }
    }
    Some(latest?.id)
}

/// The later of two deposits, of those of one day the first.
fn later_of(latest: Option<PassedDeposit>, next: PassedDeposit) -> PassedDeposit
    ensures { passed_pair result ≡ later_pair (option_map passed_pair latest) (passed_pair next) }
{
    match latest {
        Some(before) => { if next.day <= before.day { before } else { next } }
        None => next,
    }
}

/// The ids of the deposits that passed, in the order of the notices.
fn passed_ids(alloc: Global, notices: &[Notice]) -> Result<Vec<DepositId>, AllocError>
    ensures { IfOk result (λ ids. ids.items ≡ filter_map (λ notice. passed_id notice.kind) notices.now) }
{
    notices
        .iter()
        .filter_map(|notice| passed_id(notice))
        .collect(alloc)
}

/// The day of the first of some notices that tells that a deposit with this id has passed.
pub fn passed_day(notices: &[Notice], id: &DepositId) -> Option<Day>
    ensures { (records : AllRecords) (tld : List ℕ) → AreNoticesOf records tld notices.now → result ≡ passed_day records.notices tld id.now }
{
    let notice = notices.iter().find(|notice| has_passed(notice, id))?;
    Some(notice.day)
}

/// Whether a notice tells that a deposit with this id has passed.
fn has_passed(notice: &Notice, id: &DepositId) -> bool
    ensures { result ≡ has_passed id.now notice.now }
{
    match passed_id(notice) {
        Some(passed) => passed == *id,
        None => false,
    }
}

/// The number of the next notice of a registry, where there is one.
pub fn next_number(records: &Records, tld: &Tld) -> Option<u64>
    ensures some { IfSome result (λ n. n ≡ next_number (records_of records.now).notices tld.now) }
    ensures none { IfNone result (2 ^ 64 ≤ next_number (records_of records.now).notices tld.now) }
{
    greatest_number(records.notices_of(tld)).checked_add(1)
}

/// The greatest number of a notice, or 0.
fn greatest_number(notices: &[Notice]) -> u64
    ensures { result ≡ greatest_notice_number notices.now }
{
    notices
        .iter()
        .fold(0, |greatest, notice| u64::max(greatest, notice.number))
}
