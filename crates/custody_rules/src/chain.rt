//! The deposits that a stated one follows.
ghost use Rattle.std.specs.Prelude.{◌≡◌, ◌==◌, ◌&&◌, List, ℕ, IfOk};
ghost use Rattle.std.specs.BTreeSet.{contains};
ghost use Rattle.std.specs.FinMap.{FinMap};
ghost use Rattle.std.specs.List.{list_any};
ghost use Rattle.custody_records.specs.MemoryRecords.{records_of};
ghost use Rattle.custody_records.specs.Keys.{notice_cmp};
ghost use Rattle.custody_records.specs.Records as recorded;
ghost use Rattle.custody_records.specs.Records.{key_of};
ghost use Rattle.custody_machine.specs.Machine.{chain_of, held_chain, later_names, latest_full, passed_first_names};
ghost use Rattle.custody_machine.specs.StoredState.{state_in};
ghost use Rattle.custody_rules.specs.Judging.{has_dropped_part_in};
ghost use Rattle.custody_machine.specs.Explaining.{with_notices};
ghost use Rattle.custody_rules.specs.Explaining.{AreNoticesOf};
ghost use Rattle.custody_rules.specs.declared.chain.PassedRevision.{PassedRevision};
ghost use Rattle.custody_rules.specs.inside.Chains.{has_passed_by, passed_revision_of, revision_of_name};
ghost use Rattle.custody_rules.specs.inside.Orders.{passed_revision_cmp};

use crate::revision::has_dropped_part;
use custody_machine::Statement;
use custody_records::{PartKey, Records};
use deposit_name::{DepositName, Kind, Tld};
use desk::{Notice, NoticeKind};
use schedule::Day;
use std::alloc::{AllocError, Global};
use std::collections::BTreeSet;

/// A revision of a day's deposit that passed.
#[derive(Clone, Copy, Debug, PartialEq, Eq, PartialOrd, Ord)]
struct PassedRevision {
    day: Day,
    rev: u8,
}

/// The deposits that a stated one follows by some notices of its registry, oldest first, each by the name
/// of its first part, where all their parts are held: of a differential one the latest full one that passed
/// and all of later days, of an incremental one that full one (the types of RFC 8909, section 2).
pub fn held_chain(
    alloc: Global,
    records: &Records,
    notices: &[Notice],
    statement: &Statement,
) -> Result<Vec<DepositName>, AllocError>
    ensures { IfOk result (λ chain. (told : FinMap notice_cmp recorded.Notice) (image : List ℕ) → AreNoticesOf (with_notices (records_of records.now) told) statement.now.tld notices.now
        → chain.items ≡ held_chain (state_in (with_notices (records_of records.now) told) image) statement.now) }
{
    let passed = passed_first_names(alloc, records, notices, &statement.tld)?;
    let chain = chain_of(alloc, statement.kind, &passed)?;
    if is_any_dropped(records, &chain) {
        Ok(Vec::new(alloc))
    } else {
        Ok(chain)
    }
}

/// Whether the bytes of a part of these deposits are dropped.
fn is_any_dropped(records: &Records, chain: &[DepositName]) -> bool
    ensures { result ≡ list_any (λ name. has_dropped_part_in (records_of records.now) (key_of name)) chain.now }
{
    chain
        .iter()
        .any(|name| has_dropped_part(records, &PartKey::of(name)))
}

/// The first parts of a registry's deposits that passed by its notices, by day.
fn passed_first_names(
    alloc: Global,
    records: &Records,
    notices: &[Notice],
    tld: &Tld,
) -> Result<Vec<DepositName>, AllocError>
    ensures { IfOk result (λ names. (told : FinMap notice_cmp recorded.Notice) (image : List ℕ) → AreNoticesOf (with_notices (records_of records.now) told) tld.now notices.now
        → names.items ≡ passed_first_names (state_in (with_notices (records_of records.now) told) image) tld.now) }
{
    let passed = passed_revisions(alloc, notices, tld)?;
    records
        .parts_of(tld)
        .iter()
        .filter(|part| is_first_of_passed(&passed, &part.name))
        .map(|part| part.name)
        .collect(alloc)
}

/// Whether a name is that of the first part of one of these revisions.
fn is_first_of_passed(passed: &BTreeSet<PassedRevision>, name: &DepositName) -> bool
    ensures { result ≡ (name.now.part == 1 && contains passed_revision_cmp passed.now (revision_of_name name.now)) }
{
    let revision = PassedRevision {
        day: name.day,
        rev: name.rev,
    };
    name.part == 1 && passed.contains(&revision)
}

/// The revisions of a registry that passed by these notices.
fn passed_revisions(
    alloc: Global,
    notices: &[Notice],
    tld: &Tld,
) -> Result<BTreeSet<PassedRevision>, AllocError>
    ensures { IfOk result (λ passed. (revision : PassedRevision) → contains passed_revision_cmp passed revision ≡ has_passed_by notices.now tld.now revision) }
{
    let mut passed = BTreeSet::new(alloc);
    for notice in notices {
        if notice.tld == *tld {
            if let Some(revision) = passed_revision_of(notice) {
                passed.insert(revision)?;
            }
        }
    }
    Ok(passed)
}

/// The revision that passed by a notice.
fn passed_revision_of(notice: &Notice) -> Option<PassedRevision>
    ensures { result ≡ passed_revision_of notice.now }
{
    match notice.kind {
        NoticeKind::Receipt { rev, .. } => Some(PassedRevision {
            day: notice.day,
            rev: rev.number(),
        }),
        NoticeKind::Failure { .. } | NoticeKind::Absence => None,
    }
}

/// Of the deposits that passed those that one of a kind follows.
fn chain_of(
    alloc: Global,
    kind: Kind,
    passed: &[DepositName],
) -> Result<Vec<DepositName>, AllocError>
    ensures { IfOk result (λ chain. chain.items ≡ chain_of kind passed.now (latest_full passed.now)) }
{
    let mut chain = Vec::new(alloc);
    let Some(full) = latest_full(passed) else {
        return Ok(chain);
    };
    match kind {
        Kind::Full => {}
        Kind::Incr => chain.push(full)?,
        Kind::Diff => {
            chain.push(full)?;
            chain.extend_from_slice(&later_names(alloc, full.day, passed)?)?;
        }
    }
    Ok(chain)
}

fn latest_full(passed: &[DepositName]) -> Option<DepositName>
    ensures { result ≡ latest_full passed.now }
{
    passed
        .iter()
        .filter(|name| name.kind == Kind::Full)
        .copied()
        .last()
}

fn later_names(
    alloc: Global,
    day: Day,
    passed: &[DepositName],
) -> Result<Vec<DepositName>, AllocError>
    ensures { IfOk result (λ later. later.items ≡ later_names day passed.now) }
{
    passed
        .iter()
        .filter(|name| day < name.day)
        .copied()
        .collect(alloc)
}
