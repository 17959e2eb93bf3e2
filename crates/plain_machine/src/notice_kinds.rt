//! What a notice tells.
ghost use Rattle.std.specs.Prelude.{◌≡◌, ◌++◌, [], ◌∷◌, if◌then◌else◌, map, max, IfOk, OnOk, nat_le, bytes_eq};
ghost use Rattle.std.specs.List.{filter_map, list_all};
ghost use Rattle.desk.specs.Standing.{is_receipt};
ghost use Rattle.custody_records.specs.Keys.{notice_cmp};
ghost use Rattle.custody_records.specs.TypedRecords.{notice_entry, notice_key};
ghost use Rattle.custody_machine.specs.State.{is_notice_of};
ghost use Rattle.custody_machine.specs.Machine.{has_id, is_absence, is_failure_of, is_receipt_of, is_verdict, is_verdict_of, latest_id, passed_deposit};
ghost use Rattle.plain_machine.specs.Plain.{greatest_number_of, is_receipt_after, is_to};

use custody_records::NoticeKey;
use deposit_name::{DepositId, Tld};
use desk::{Notice, NoticeKind};
use schedule::Day;
use std::alloc::{AllocError, Global};
use std::cmp::Ordering;

pub(crate) fn key_of(notice: &Notice) -> NoticeKey
    ensures { result ≡ notice_key notice.now }
{
    NoticeKey {
        tld: notice.tld,
        number: notice.number,
    }
}

pub(crate) fn compare(row: &Notice, sought: &NoticeKey) -> Ordering
    ensures { result ≡ notice_cmp (notice_key row.now) sought.now }
{
    let registries = row.tld.as_bytes().cmp(sought.tld.as_bytes());
    registries.then(row.number.cmp(&sought.number))
}

fn is_to_registry(notice: &Notice, tld: &Tld) -> bool
    ensures { result ≡ bytes_eq notice.now.tld tld.now }
{
    notice.tld.as_bytes() == tld.as_bytes()
}

fn tells_receipt(notice: &Notice) -> bool
    ensures { result ≡ is_receipt notice.now.kind }
{
    matches!(notice.kind, NoticeKind::Receipt { .. })
}

fn tells_receipt_of(notice: &Notice, of: u8) -> bool
    ensures { result ≡ is_receipt_of of notice.now.kind }
{
    match notice.kind {
        NoticeKind::Receipt { rev, .. } => rev.number() == of,
        NoticeKind::Failure { .. } | NoticeKind::Absence => false,
    }
}

fn tells_failure(notice: &Notice, of: u8) -> bool
    ensures { result ≡ is_failure_of of notice.now.kind }
{
    match notice.kind {
        NoticeKind::Failure { rev, .. } => rev.number() == of,
        NoticeKind::Receipt { .. } | NoticeKind::Absence => false,
    }
}

fn tells_verdict(notice: &Notice, of: u8) -> bool
    ensures { result ≡ is_verdict_of of notice.now.kind }
{
    match notice.kind {
        NoticeKind::Receipt { rev, .. } | NoticeKind::Failure { rev, .. } => rev.number() == of,
        NoticeKind::Absence => false,
    }
}

fn tells_any_verdict(notice: &Notice) -> bool
    ensures { result ≡ is_verdict notice.now.kind }
{
    !tells_absence(notice)
}

fn tells_absence(notice: &Notice) -> bool
    ensures { result ≡ is_absence notice.now.kind }
{
    matches!(notice.kind, NoticeKind::Absence)
}

pub(crate) fn tells_id(notice: &Notice, of: &DepositId) -> bool
    ensures { result ≡ has_id of.now notice.now.kind }
{
    match notice.kind {
        NoticeKind::Receipt { id, .. } | NoticeKind::Failure { id, .. } => {
            id.as_bytes() == of.as_bytes()
        }
        NoticeKind::Absence => false,
    }
}

pub(crate) fn is_receipt_of(notice: &Notice, tld: &Tld, day: Day) -> bool
    ensures { result ≡ is_notice_of tld.now day is_receipt (notice_entry notice.now) }
{
    is_to_registry(notice, tld) && notice.day == day && tells_receipt(notice)
}

pub(crate) fn is_receipt_on(notice: &Notice, tld: &Tld, day: Day, rev: u8) -> bool
    ensures { result ≡ is_notice_of tld.now day (is_receipt_of rev) (notice_entry notice.now) }
{
    is_to_registry(notice, tld) && notice.day == day && tells_receipt_of(notice, rev)
}

pub(crate) fn is_failure_on(notice: &Notice, tld: &Tld, day: Day, rev: u8) -> bool
    ensures { result ≡ is_notice_of tld.now day (is_failure_of rev) (notice_entry notice.now) }
{
    is_to_registry(notice, tld) && notice.day == day && tells_failure(notice, rev)
}

pub(crate) fn is_verdict_on(notice: &Notice, tld: &Tld, day: Day, rev: u8) -> bool
    ensures { result ≡ is_notice_of tld.now day (is_verdict_of rev) (notice_entry notice.now) }
{
    is_to_registry(notice, tld) && notice.day == day && tells_verdict(notice, rev)
}

pub(crate) fn is_verdict_of(notice: &Notice, tld: &Tld, day: Day) -> bool
    ensures { result ≡ is_notice_of tld.now day is_verdict (notice_entry notice.now) }
{
    is_to_registry(notice, tld) && notice.day == day && tells_any_verdict(notice)
}

pub(crate) fn is_absence_of(notice: &Notice, tld: &Tld, day: Day) -> bool
    ensures { result ≡ is_notice_of tld.now day is_absence (notice_entry notice.now) }
{
    is_to_registry(notice, tld) && notice.day == day && tells_absence(notice)
}

pub(crate) fn is_receipt_after(notice: &Notice, tld: &Tld, day: Day) -> bool
    ensures { result ≡ is_receipt_after tld.now day (notice_entry notice.now) }
{
    is_to_registry(notice, tld) && day.number() < notice.day.number() && tells_receipt(notice)
}

// The day and the id of a deposit of the registry that passed.
fn read_passed(notice: &Notice, tld: &Tld) -> Option<(Day, DepositId)>
    ensures { result ≡ passed_deposit tld.now (notice_entry notice.now) }
{
    match notice.kind {
        NoticeKind::Receipt { id, .. } if is_to_registry(notice, tld) => Some((notice.day, id)),
        _ => None,
    }
}

/// The days and ids of the deposits of the registry that passed.
pub(crate) fn read_all_passed(
    alloc: Global,
    rows: &[Notice],
    tld: &Tld,
) -> Result<Vec<(Day, DepositId)>, AllocError>
    ensures { IfOk result (λ all. all.items ≡ filter_map (λ n. passed_deposit tld.now (notice_entry n)) rows.now) }
{
    let mut all = Vec::new(alloc);
    for notice in rows {
        push_passed(&mut all, notice, tld)?;
    }
    Ok(all)
}

// Adds the day and the id, if the notice tells of a deposit of the registry that passed.
fn push_passed(
    all: &mut Vec<(Day, DepositId)>,
    notice: &Notice,
    tld: &Tld,
) -> Result<(), AllocError>
    ensures { OnOk result (all.new.items ≡ all.old.items ++ filter_map (λ n. passed_deposit tld.now (notice_entry n)) (notice.now ∷ [])) }
{
    match read_passed(notice, tld) {
        Some(one) => Ok(all.push(one)?),
        None => Ok(()),
    }
}

/// The greatest number of the notices of a registry, or 0.
pub(crate) fn greatest_number_of(rows: &[Notice], tld: &Tld) -> u64
    ensures { result ≡ greatest_number_of tld.now (map notice_entry rows.now) }
{
    let mut greatest = 0;
    for notice in rows {
        greatest = greater_of(notice, tld, greatest);
    }
    greatest
}

fn greater_of(notice: &Notice, tld: &Tld, greatest: u64) -> u64
    ensures { result ≡ (if bytes_eq notice.now.tld tld.now then max notice.now.number greatest else greatest) }
{
    if is_to_registry(notice, tld) {
        notice.number.max(greatest)
    } else {
        greatest
    }
}

fn is_latest(passed: &[(Day, DepositId)], day: Day) -> bool
    ensures { result ≡ list_all (λ other. nat_le other.0 day) passed.now }
{
    passed.iter().all(|other| other.0.number() <= day.number())
}

// The id of the latest.
pub(crate) fn find_latest(passed: &[(Day, DepositId)]) -> Option<DepositId>
    ensures { result ≡ latest_id passed.now }
{
    passed
        .iter()
        .find(|one| is_latest(passed, one.0))
        .map(|one| one.1)
}

pub(crate) fn ids_of(
    alloc: Global,
    passed: &[(Day, DepositId)],
) -> Result<Vec<DepositId>, AllocError>
    ensures { IfOk result (λ ids. ids.items ≡ map (λ one. one.1) passed.now) }
{
    let mut ids = Vec::new(alloc);
    for one in passed {
        ids.push(one.1)?;
    }
    Ok(ids)
}

/// Whether a registry was told it.
pub(crate) fn is_to(notice: &Notice, tld: &Tld) -> bool
    ensures { result ≡ is_to tld.now notice.now }
{
    notice.tld.as_bytes() == tld.as_bytes()
}
