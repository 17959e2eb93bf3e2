//! How a statement is judged by the records.
ghost use Rattle.std.specs.Prelude.{◌≡◌, ◌≢◌, ◌&&◌, ◌||◌, not, IfSome, option_map, option_copied};
ghost use Rattle.std.specs.FinMap.{entries};
ghost use Rattle.std.specs.List.{list_any};
ghost use Rattle.custody_records.specs.Records.{key_of};
ghost use Rattle.custody_records.specs.MemoryRecords.{records_of};
ghost use Rattle.custody_records.specs.TypedRecords.{notice_entry};
ghost use Rattle.custody_machine.specs.State.{has_notice};
ghost use Rattle.custody_machine.specs.Machine.{Statement as Stated, first_part, is_verdict_of, has_id, first_refusal};
ghost use Rattle.custody_machine.specs.declared.answers.Refusal.TheVariants.{OtherBytes, VolumeFull};
ghost use Rattle.custody_machine.specs.Rulings.{Decides};
ghost use Rattle.custody_rules.specs.Rulings.{ruling_of};
ghost use Rattle.custody_rules.specs.Judging.{are_parts_as_stated_in, differs_in_number, has_dropped_part_in, has_other_kind_in, is_later_receipt, kept_verdict_in, tests_of_statement};

use crate::days::{Sought, has_notice, is_day_outside, notice_of};
use crate::revision::{count_parts, has_dropped_part, has_other_kind};
use crate::{Change, KeptRecord, Ruling};
use custody_machine::{Refusal, Statement};
use custody_records::{PartKey, Records};
use deposit_name::DepositId;
use desk::{Notice, NoticeKind};
use schedule::{Day, Sec};

/// Judges a statement: it is refused; the verdict that was made on it answers it; or its deposit is to
/// be verified.
pub(crate) fn judge_statement<'a>(
    records: &'a Records,
    statement: &Statement,
    now: Sec,
) -> Ruling<'a>
    ensures { Decides (ruling_of result) (records_of records.now) (Stated statement.now) now }
{
    let Some(first_day) = records.first_day(&statement.tld) else {
        return Ruling::Refuse(Refusal::RegistryUnknown);
    };
    match kept_verdict(records, statement) {
        Some(notice) => Ruling::Kept(KeptRecord::Notice(*notice)),
        None => match refusal_of_statement(records, statement, first_day, now) {
            Some(refusal) => Ruling::Refuse(refusal),
            None => Ruling::Go(Change::Verdict(*statement)),
        },
    }
}

/// The verdict that was made on the same statement: its parts are those stated, and it has the id.
fn kept_verdict<'a>(records: &'a Records, statement: &Statement) -> Option<&'a Notice>
    ensures { option_map notice_entry (option_copied result) ≡ kept_verdict_in (records_of records.now) statement.now }
{
    if !are_as_stated(records, statement) {
        return None;
    }
    let sought = Sought::VerdictOf(statement.rev.number());
    let verdict = notice_of(records, &statement.tld, statement.day, sought)?;
    if has_id(verdict, &statement.id) {
        Some(verdict)
    } else {
        None
    }
}

/// Why a statement that was not made before is refused, by the first refusal that stands.
fn refusal_of_statement(
    records: &Records,
    statement: &Statement,
    first_day: Day,
    now: Sec,
) -> Option<Refusal>
    ensures first { result ≡ first_refusal (tests_of_statement (records_of records.now) statement.now first_day now) }
    ensures early { IfSome result (λ refusal. (refusal ≢ OtherBytes) × (refusal ≢ VolumeFull)) }
{
    if is_day_outside(first_day, statement.day, now) {
        return Some(Refusal::DateOutOfRange);
    }
    if has_lost_bytes(records, statement) {
        return Some(Refusal::DroppedAfterKeeping);
    }
    if is_stated(records, statement) {
        return Some(Refusal::AlreadyStated);
    }
    if differs_in_kind(records, statement) {
        return Some(Refusal::TypeDiffers);
    }
    if differs_in_number(records, statement) {
        return Some(Refusal::PartsDiffer);
    }
    if has_later_receipt(records, statement) {
        return Some(Refusal::LaterDayPassed);
    }
    None
}

// ---- notices

/// Whether the revision has a verdict.
fn is_stated(records: &Records, statement: &Statement) -> bool
    ensures { result ≡ has_notice (records_of records.now).notices statement.now.tld statement.now.day (is_verdict_of statement.now.rev) }
{
    let sought = Sought::VerdictOf(statement.rev.number());
    has_notice(records, &statement.tld, statement.day, sought)
}

fn has_id(notice: &Notice, id: &DepositId) -> bool
    ensures { result ≡ has_id id.now notice.now.kind }
{
    match &notice.kind {
        NoticeKind::Receipt { id: of, .. } | NoticeKind::Failure { id: of, .. } => of == id,
        NoticeKind::Absence => false,
    }
}

fn has_later_receipt(records: &Records, statement: &Statement) -> bool
    ensures { result ≡ list_any (is_later_receipt statement.now) (entries (records_of records.now).notices) }
{
    records
        .notices_of(&statement.tld)
        .iter()
        .any(|notice| is_later_receipt(notice, statement))
}

fn is_later_receipt(notice: &Notice, statement: &Statement) -> bool
    ensures { result ≡ is_later_receipt statement.now (notice_entry notice.now) }
{
    notice.tld == statement.tld
        && statement.day < notice.day
        && matches!(notice.kind, NoticeKind::Receipt { .. })
}

// ---- the parts of the revision

/// The place of the first part.
fn first_place(statement: &Statement) -> PartKey
    ensures { result ≡ key_of (first_part statement.now) }
{
    PartKey {
        tld: statement.tld,
        day: statement.day,
        rev: statement.rev.number(),
        part: 1,
    }
}

/// Whether a revision without a verdict has a part whose bytes are dropped.
fn has_lost_bytes(records: &Records, statement: &Statement) -> bool
    ensures { result ≡ (not (has_notice (records_of records.now).notices statement.now.tld statement.now.day (is_verdict_of statement.now.rev))
        && has_dropped_part_in (records_of records.now) (key_of (first_part statement.now))) }
{
    !is_stated(records, statement) && has_dropped_part(records, &first_place(statement))
}

/// Whether the revision has a part of another kind.
fn differs_in_kind(records: &Records, statement: &Statement) -> bool
    ensures { result ≡ has_other_kind_in (records_of records.now) (key_of (first_part statement.now)) statement.now.kind }
{
    has_other_kind(records, &first_place(statement), statement.kind)
}

/// Whether the revision has no part, or another number of parts than is stated.
fn differs_in_number(records: &Records, statement: &Statement) -> bool
    ensures { result ≡ differs_in_number (records_of records.now) statement.now }
{
    let count = count_parts(records, &first_place(statement));
    count == 0 || count != usize::from(statement.parts)
}

fn are_as_stated(records: &Records, statement: &Statement) -> bool
    ensures { result ≡ are_parts_as_stated_in (records_of records.now) statement.now }
{
    !differs_in_kind(records, statement) && !differs_in_number(records, statement)
}
