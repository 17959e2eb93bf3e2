//! A revision that has failed, and the notices before that.
ghost use Rattle.std.specs.Prelude.{◌≡◌, ℕ, List, Some, IfErr, IfOk, is_some, true};
ghost use Rattle.std.specs.FinMap.{get};
ghost use Rattle.desk.specs.declared.notices.NoticeKind.TheVariants.{Failure};
ghost use Rattle.custody_records.specs.MemoryRecords.{records_of};
ghost use Rattle.custody_records.specs.Records.{PartRecord};
ghost use Rattle.custody_records.specs.TypedRecords.{notice_key};
ghost use Rattle.custody_machine.specs.Explaining.{explain_refusal, records_before};
ghost use Rattle.custody_machine.specs.Machine.{is_failure_of};
ghost use Rattle.custody_machine.specs.StoredState.{AreLinked, state_in};
ghost use Rattle.custody_rules.specs.Explaining.{AreNoticesOf, HasFailed, failure_key};
ghost use Rattle.custody_rules.specs.Judging.{count_parts_in};

use crate::days::{Sought, notice_of};
use crate::revision::{count_parts, has_dropped_part};
use custody_machine::{Refusal, Statement};
use custody_records::{PartKey, Records};
use deposit_name::Tld;
use desk::{Check, Notice, NoticeKind, Revision};
use schedule::Day;
use std::alloc::{AllocError, Global};

/// A revision that has failed: the number of its notice, the check that it names, and what was stated.
#[derive(Clone, Copy, Debug, PartialEq)]
pub struct StatedFailure {
    pub number: u64,
    pub check: Check,
    pub statement: Statement,
}

/// The failure of a revision whose parts are all held; or why there is none to explain.
pub fn find_failure(
    records: &Records,
    tld: &Tld,
    day: Day,
    rev: Revision,
) -> Result<StatedFailure, Refusal>
    requires linked { AreLinked (records_of records.now) }
    ensures found { IfOk result (λ found. HasFailed (records_of records.now) tld.now day rev found) }
    ensures refused { IfErr result (λ refusal. (image : List ℕ) → explain_refusal (state_in (records_of records.now) image) tld.now day rev ≡ Some refusal) }
{
    if records.first_day(tld).is_none() {
        return Err(Refusal::RegistryUnknown);
    }
    let sought = Sought::FailureOf(rev.number());
    let Some(notice) = notice_of(records, tld, day, sought) else {
        return Err(Refusal::NoFailure);
    };
    let first = PartKey {
        tld: *tld,
        day,
        rev: rev.number(),
        part: 1,
    };
    if has_dropped_part(records, &first) {
        return Err(Refusal::DroppedAfterKeeping);
    }
    Ok(stated_failure(records, notice, &first))
}

/// What a notice of failure tells, and what was stated of its parts.
fn stated_failure(records: &Records, notice: &Notice, first: &PartKey) -> StatedFailure
    requires failed { is_failure_of first.now.rev notice.now.kind ≡ true }
    requires recorded { is_some (get (records_of records.now).parts first.now) ≡ true }
    ensures place { notice_key notice.now ≡ failure_key result }
    ensures day { result.statement.day ≡ notice.now.day }
    ensures told { notice.now.kind ≡ Failure result.statement.rev result.statement.id result.check }
    ensures first { (part : PartRecord) × (get (records_of records.now).parts first.now ≡ Some part) × (part.kind ≡ result.statement.kind) }
    ensures parts { result.statement.parts ≡ count_parts_in (records_of records.now) first.now }
{
    let NoticeKind::Failure { rev, id, check } = notice.kind else {
        unreachable!()
    };
    let Some(part) = records.part(first) else {
        unreachable!()
    };
    StatedFailure {
        number: notice.number,
        check,
        statement: Statement {
            tld: notice.tld,
            day: notice.day,
            kind: part.name.kind,
            rev,
            parts: count_parts(records, first) as u8,
            id,
        },
    }
}

/// The notices of a registry with lower numbers.
pub fn notices_before(
    alloc: Global,
    records: &Records,
    tld: &Tld,
    number: u64,
) -> Result<Vec<Notice>, AllocError>
    ensures { IfOk result (λ notices. AreNoticesOf (records_before (records_of records.now) (record { tld = tld.now; number = number })) tld.now notices.items) }
{
    records
        .notices_of(tld)
        .iter()
        .filter(|notice| notice.number < number)
        .copied()
        .collect(alloc)
}
