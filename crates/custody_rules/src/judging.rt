//! How a command is judged by the records, before any volume is looked at.
ghost use Rattle.std.specs.Prelude.{◌≡◌, ◌≢◌, ◌+◌, ◌-◌, ◌==◌, ◌&&◌, ◌||◌, ℕ, List, Ok, not, nat_lt, IfSome, option_map, option_copied};
ghost use Rattle.desk.specs.Standing.{is_receipt};
ghost use Rattle.custody_records.specs.Records.{key_of};
ghost use Rattle.custody_records.specs.MemoryRecords.{records_of};
ghost use Rattle.custody_records.specs.TypedRecords.{key_of_part, part_value};
ghost use Rattle.custody_machine.specs.NameReading.{read_name};
ghost use Rattle.custody_machine.specs.State.{has_notice};
ghost use Rattle.custody_machine.specs.Machine.{Register, is_failure_of, is_verdict_of, max_part_len, first_refusal};
ghost use Rattle.custody_machine.specs.declared.answers.Refusal.TheVariants.{OtherBytes, VolumeFull};
ghost use Rattle.custody_machine.specs.Commands.{command_of};
ghost use Rattle.custody_machine.specs.Rulings.{Decides, DecidesPart};
ghost use Rattle.custody_rules.specs.Rulings.{ruling_of};
ghost use Rattle.custody_rules.specs.Judging.{count_parts_in, has_other_kind_in, part_under, tests_of_new, RulesRecordedPart};

use crate::check_rules::judge_check;
use crate::days::{Sought, has_notice, is_day_outside};
use crate::hold_rules::{judge_hold, judge_lift};
use crate::release_rules::judge_release;
use crate::revision::{count_parts, has_other_kind, is_of_kind, revision_part};
use crate::statement_rules::judge_statement;
use crate::{Change, KeptRecord, Ruling};
use custody_machine::{Command, Refusal};
use custody_records::{Part, PartKey, Records, Registry};
use deposit_name::{DepositName, Kind, Tld};
use desk::{Notice, NoticeKind};
use schedule::{Day, Sec};
use std::alloc::Global;
use vault_volume::MAX_PART_LEN;

/// Judges a command by the records: the least refusal that they decide, the record that answers a
/// repeat, the part whose bytes decide, or the one change that is to be made.
pub fn judge<'a>(alloc: Global, records: &'a Records, command: &Command<'_>, now: Sec) -> Ruling<'a>
    ensures { Decides (ruling_of result) (records_of records.now) (command_of command.now) now }
{
    match command {
        Command::Register(tld, first_day) => judge_registry(records, *tld, *first_day),
        Command::Receive(name, bytes) => judge_part(records, name, bytes.len(), now),
        Command::Statement(statement) => judge_statement(records, statement, now),
        Command::Check(tld, day) => judge_check(records, *tld, *day, now),
        Command::Release(reference, tld, reason) => {
            judge_release(alloc, records, *reference, *tld, *reason, now)
        }
        Command::Hold(reference, tld, day) => judge_hold(records, *reference, *tld, *day, now),
        Command::Lift(reference) => judge_lift(records, *reference),
        Command::Purge => Ruling::Go(Change::Purge),
    }
}

fn judge_registry(records: &Records, tld: Tld, first_day: Day) -> Ruling<'_>
    ensures { (now : ℕ) → Decides (ruling_of result) (records_of records.now) (Register tld first_day) now }
{
    match records.first_day(&tld) {
        Some(kept) => Ruling::Kept(KeptRecord::Registry(Registry {
            tld,
            first_day: kept,
        })),
        None => Ruling::Go(Change::Registry(Registry { tld, first_day })),
    }
}

/// Judges a part of so many bytes that is sent under a name.
pub fn judge_part<'a>(records: &'a Records, name: &[u8], len: usize, now: Sec) -> Ruling<'a>
    ensures { DecidesPart (ruling_of result) (records_of records.now) name.now len now }
{
    match DepositName::parse(name) {
        Ok(name) => judge_named(records, &name, len, now),
        Err(fault) => Ruling::Refuse(Refusal::NameRefused(fault)),
    }
}

fn judge_named<'a>(records: &'a Records, name: &DepositName, len: usize, now: Sec) -> Ruling<'a>
    ensures { (text : List ℕ) → read_name text ≡ Ok name.now → DecidesPart (ruling_of result) (records_of records.now) text len now }
{
    let Some(first_day) = records.first_day(&name.tld) else {
        return Ruling::Refuse(Refusal::RegistryUnknown);
    };
    match part_under(records, name) {
        Some(part) => judge_recorded(part, len),
        None => match refusal_of_new(records, name, first_day, len, now) {
            Some(refusal) => Ruling::Refuse(refusal),
            None => Ruling::Go(Change::Part(*name)),
        },
    }
}

// A part that is recorded under the name already.
fn judge_recorded(part: &Part, len: usize) -> Ruling<'_>
    ensures { RulesRecordedPart (ruling_of result) part.now len }
{
    if is_out_of_size(len) {
        return Ruling::Refuse(Refusal::Size);
    }
    match &part.extents {
        Some(extents) => Ruling::Compare(part, extents),
        None => Ruling::Refuse(Refusal::DroppedAfterKeeping),
    }
}

// Why a part of a new name is refused, by the first refusal that stands.
fn refusal_of_new(
    records: &Records,
    name: &DepositName,
    first_day: Day,
    len: usize,
    now: Sec,
) -> Option<Refusal>
    ensures first { result ≡ first_refusal (tests_of_new (records_of records.now) name.now first_day len now) }
    ensures early { IfSome result (λ refusal. (refusal ≢ OtherBytes) × (refusal ≢ VolumeFull)) }
{
    if is_day_outside(first_day, name.day, now) {
        return Some(Refusal::DateOutOfRange);
    }
    if is_out_of_size(len) {
        return Some(Refusal::Size);
    }
    if is_revision_not_due(records, name) {
        return Some(Refusal::RevisionNotDue);
    }
    if is_stated(records, name) {
        return Some(Refusal::AlreadyStated);
    }
    if differs_in_kind(records, name) {
        return Some(Refusal::TypeDiffers);
    }
    if is_out_of_order(records, name) {
        return Some(Refusal::PartOutOfOrder);
    }
    None
}

fn is_out_of_size(len: usize) -> bool
    ensures { result ≡ (len == 0 || nat_lt max_part_len len) }
{
    len == 0 || len > MAX_PART_LEN as usize
}

// The day has a receipt, or the revision before has no failure.
fn is_revision_not_due(records: &Records, name: &DepositName) -> bool
    ensures { result ≡ (has_notice (records_of records.now).notices name.now.tld name.now.day is_receipt
        || (nat_lt 0 name.now.rev && not (has_notice (records_of records.now).notices name.now.tld name.now.day (is_failure_of (name.now.rev - 1))))) }
{
    has_notice(records, &name.tld, name.day, Sought::Receipt)
        || name.rev > 0
            && !has_notice(
                records,
                &name.tld,
                name.day,
                Sought::FailureOf(name.rev - 1),
            )
}

fn is_stated(records: &Records, name: &DepositName) -> bool
    ensures { result ≡ has_notice (records_of records.now).notices name.now.tld name.now.day (is_verdict_of name.now.rev) }
{
    has_notice(records, &name.tld, name.day, Sought::VerdictOf(name.rev))
}

// The part that is recorded under a name: one of another kind in its place is not.
pub(crate) fn part_under<'a>(records: &'a Records, name: &DepositName) -> Option<&'a Part>
    ensures found { option_map part_value (option_copied result) ≡ part_under (records_of records.now) name.now }
    ensures key { IfSome result (λ part. key_of_part part.now ≡ key_of name.now) }
{
    revision_part(records, &PartKey::of(name), name.part).filter(|part| is_of_kind(part, name.kind))
}

fn differs_in_kind(records: &Records, name: &DepositName) -> bool
    ensures { result ≡ has_other_kind_in (records_of records.now) (key_of name.now) name.now.kind }
{
    has_other_kind(records, &PartKey::of(name), name.kind)
}

fn is_out_of_order(records: &Records, name: &DepositName) -> bool
    ensures { result ≡ not (count_parts_in (records_of records.now) (key_of name.now) + 1 == name.now.part) }
{
    count_parts(records, &PartKey::of(name)) + 1 != usize::from(name.part)
}
