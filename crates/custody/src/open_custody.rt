//! What a custody holds, and the commands over it.
ghost use Rattle.std.specs.Prelude.{◌≡◌, ℕ, ◌≤◌, length, None, OnOk, IfOk, vec_len, vec_capacity};
ghost use Rattle.std.specs.FinMap.{get};
ghost use Rattle.deposit_name.specs.Name.{Name};
ghost use Rattle.custody_records.specs.MemoryRecords.{records_of, HasNoticeRoom, HasPartRoom, HasReleaseRoom};
ghost use Rattle.custody_records.specs.Records.{key_of};
ghost use Rattle.custody_records.specs.Rows.{greatest_integer};
ghost use Rattle.custody_records.specs.TypedRecords.{notice_key, notice_value, release_key, release_value};
ghost use Rattle.custody_machine.specs.Machine as machine;
ghost use Rattle.custody_machine.specs.Machine.{next_number, verdict_notice};
ghost use Rattle.custody_machine.specs.Commands.{command_of};
ghost use Rattle.custody_machine.specs.Releases.{AreRecordedNames, release_of_records};
ghost use Rattle.custody_machine.specs.Rulings.{AddsAbsence, AddsHold, AddsRelease, AddsVerdict, DropsBytes, LiftsHold, GoRuling, BringsPart, Decides};
ghost use Rattle.custody_rules.specs.Rulings.{change_of};
ghost use Rattle.custody.specs.Upload.{KeepsStaged};
ghost use Rattle.custody.specs.OpenCustody.{current_records, KeepsOrder, HasExecuted};

use crate::verifying::verify_stated;
use crate::{Record, Refused, Reply};
use custody_machine::{Command, Statement};
use custody_records::{Hold, Part, Records, Registry, Release};
use custody_rules::{Change, Ruling, due_parts, held_names, judge, next_number};
use custody_store::Store;
use deposit_name::{DepositName, Reference, Tld};
use deposit_verify::Verdict;
use desk::{Ground, Notice, NoticeKind};
use schedule::{Day, Sec};
use sqlite::Alter;
use std::alloc::{AllocError, Global};
use vault_volume::{Extent, MAX_EXTENTS, Staged, Vault, Volume};

/// The bytes of parts in a vault, the records of them in a store, and the same records in memory.
#[derive(Drop)]
pub struct OpenCustody<V: Volume, S: Alter> {
    pub vault: Vault<V>,
    pub store: Store<S>,
    pub records: Records,
}

impl<V: Volume, S: Alter> OpenCustody<V, S> {
    /// Does a command at a moment: a part is received, and any other command is judged by the records, and
    /// then refused, answered by what is kept, or made.
    pub fn execute(
        &mut self,
        alloc: Global,
        command: &Command<'_>,
        now: Sec,
    ) -> Result<Reply, Refused>
        requires order { KeepsOrder self.old }
        ensures { HasExecuted S.Store self.old (command_of command.now) now result self.new }
    {
        if let Command::Receive(name, bytes) = command {
            return self.receive(alloc, name, bytes, now);
        }
        match judge(alloc, &self.records, command, now) {
            Ruling::Refuse(refusal) => Err(Refused::Refusal(refusal)),
            Ruling::Kept(kept) => Ok(Reply {
                record: Record::of_kept(alloc, &kept)?,
                is_repeat: true,
            }),
            Ruling::Compare(..) => unreachable!(),
            Ruling::Go(change) => self.make_change(alloc, change, command, now),
        }
    }

    /// Makes the change that a command was judged to make. It brings no part.
    fn make_change(
        &mut self,
        alloc: Global,
        change: Change,
        command: &Command<'_>,
        now: Sec,
    ) -> Result<Reply, Refused>
        requires order { KeepsOrder self.old }
        requires ruled { Decides (GoRuling (change_of change)) (current_records self.old) (command_of command.now) now }
        requires other { (name : Name) → ¬ BringsPart (command_of command.now) name }
        ensures { HasExecuted S.Store self.old (command_of command.now) now result self.new }
    {
        match change {
            Change::Registry(registry) => self.keep_registry(registry),
            Change::Part(_) => unreachable!(),
            Change::Verdict(statement) => self.keep_verdict(alloc, &statement, now),
            Change::Absence(tld, day) => self.keep_absence(alloc, tld, day, now),
            Change::Release(reference, tld, reason) => {
                self.keep_release(alloc, reference, tld, reason, now)
            }
            Change::Hold(reference, tld, day) => self.keep_hold(reference, tld, day, now),
            Change::Lift(reference) => self.lift(&reference, now),
            Change::Purge => self.drop_bytes(alloc, now),
        }
    }

    /// Records a registry that is new.
    fn keep_registry(&mut self, registry: Registry) -> Result<Reply, Refused>
        requires order { KeepsOrder self.old }
        requires new { get (current_records self.old).registries registry.tld ≡ None }
        ensures { (now : ℕ) → HasExecuted S.Store self.old (machine.Register registry.tld registry.first_day) now result self.new }
    {
        self.records.reserve_registry()?;
        self.store.insert_registry(&registry)?;
        self.records.add_registry(registry);
        Ok(Reply {
            record: Record::from(registry),
            is_repeat: false,
        })
    }

    /// Records a part whose bytes are settled, with room for its extents in the reply.
    pub(crate) fn keep_staged(
        &mut self,
        name: &DepositName,
        staged: Staged,
        room: Vec<Extent>,
        now: Sec,
    ) -> Result<Reply, Refused>
        requires part { HasPartRoom name.now.tld self.old.records }
        requires new { get (current_records self.old).parts (key_of name.now) ≡ None }
        requires empty { vec_len room ≡ 0 }
        requires extents { vec_capacity room ≡ 256 }
        ensures { KeepsStaged S.Store self.old self.new name.now now staged result }
    {
        let (extents, len, digest) = self.store.insert_part(name, now, staged)?;
        let name = *name;
        let record = Record::Part {
            name,
            received: now,
            len,
            digest,
            extents: copy_into(room, &extents),
        };
        self.records.add_part(Part {
            name,
            received: now,
            len,
            digest,
            extents: Some(extents),
        });
        Ok(Reply {
            record,
            is_repeat: false,
        })
    }

    /// Verifies a deposit whose parts are all there, and records a notice of the verdict.
    fn keep_verdict(
        &mut self,
        alloc: Global,
        statement: &Statement,
        now: Sec,
    ) -> Result<Reply, Refused>
        requires order { KeepsOrder self.old }
        requires ruled { Decides (GoRuling (AddsVerdict statement.now)) (current_records self.old) (machine.Statement statement.now) now }
        ensures { HasExecuted S.Store self.old (machine.Statement statement.now) now result self.new }
    {
        let number = reserve_number(alloc, &mut self.records, &statement.tld)?;
        let verdict = verify_stated(alloc, &mut self.vault, &self.records, statement)?;
        let notice = notice_of(statement, verdict, number, now);
        self.store.insert_notice(&notice)?;
        self.records.add_notice(&notice);
        Ok(Reply {
            record: Record::Notice(notice),
            is_repeat: false,
        })
    }

    /// Records that the deposit of a day was not received.
    fn keep_absence(
        &mut self,
        alloc: Global,
        tld: Tld,
        day: Day,
        now: Sec,
    ) -> Result<Reply, Refused>
        requires order { KeepsOrder self.old }
        requires ruled { Decides (GoRuling (AddsAbsence tld day)) (current_records self.old) (machine.Check tld day) now }
        ensures { HasExecuted S.Store self.old (machine.Check tld day) now result self.new }
    {
        let number = reserve_number(alloc, &mut self.records, &tld)?;
        let notice = Notice {
            number,
            tld,
            day,
            at: now,
            kind: NoticeKind::Absence,
        };
        self.store.insert_notice(&notice)?;
        self.records.add_notice(&notice);
        Ok(Reply {
            record: Record::Notice(notice),
            is_repeat: false,
        })
    }

    /// Records that the deposits of a registry are handed over. The names are listed, and copied for the
    /// reply, before anything is written.
    fn keep_release(
        &mut self,
        alloc: Global,
        reference: Reference,
        tld: Tld,
        reason: Ground,
        now: Sec,
    ) -> Result<Reply, Refused>
        requires order { KeepsOrder self.old }
        requires ruled { Decides (GoRuling (AddsRelease reference tld reason)) (current_records self.old) (machine.Release reference tld reason) now }
        ensures { HasExecuted S.Store self.old (machine.Release reference tld reason) now result self.new }
    {
        let (release, told) = list_release(alloc, &mut self.records, reference, tld, reason, now)?;
        self.store.insert_release(&release)?;
        self.records.add_release(release);
        Ok(Reply {
            record: Record::Release(told),
            is_repeat: false,
        })
    }

    /// Records that a day of a registry is on hold.
    fn keep_hold(
        &mut self,
        reference: Reference,
        tld: Tld,
        day: Day,
        now: Sec,
    ) -> Result<Reply, Refused>
        requires order { KeepsOrder self.old }
        requires ruled { Decides (GoRuling (AddsHold reference tld day)) (current_records self.old) (machine.Hold reference tld day) now }
        ensures { HasExecuted S.Store self.old (machine.Hold reference tld day) now result self.new }
    {
        let hold = Hold {
            reference,
            tld,
            day,
            at: now,
            lifted: None,
        };
        self.records.reserve_hold()?;
        self.store.insert_hold(&hold)?;
        self.records.add_hold(&hold);
        Ok(Reply {
            record: Record::Hold(hold),
            is_repeat: false,
        })
    }

    /// Records that the hold of a reference is lifted.
    fn lift(&mut self, reference: &Reference, now: Sec) -> Result<Reply, Refused>
        requires order { KeepsOrder self.old }
        requires ruled { Decides (GoRuling (LiftsHold reference.now)) (current_records self.old) (machine.Lift reference.now) now }
        ensures { HasExecuted S.Store self.old (machine.Lift reference.now) now result self.new }
    {
        let hold = *self.records.hold(reference).unwrap();
        self.store.lift_hold(reference, now)?;
        self.records.lift_hold(&hold, now);
        Ok(Reply {
            record: Record::Lifting {
                reference: *reference,
                at: now,
            },
            is_repeat: false,
        })
    }

    /// Drops the bytes that were kept for a year, of days that are not on hold. Their blocks are given
    /// back when that is committed, and not before.
    fn drop_bytes(&mut self, alloc: Global, now: Sec) -> Result<Reply, Refused>
        requires order { KeepsOrder self.old }
        requires ruled { Decides (GoRuling DropsBytes) (current_records self.old) machine.Purge now }
        ensures { HasExecuted S.Store self.old machine.Purge now result self.new }
    {
        let due = due_parts(alloc, &self.records, now.day())?;
        self.store.drop_bytes(&due.keys)?;
        self.records.drop_bytes(&due.keys);
        self.vault.give_back(&due.extents);
        let count = due.keys.len();
        Ok(Reply {
            record: Record::Purge { count },
            is_repeat: false,
        })
    }
}

/// The number of a registry's next notice, where there is memory for the notice, and a row can hold
/// its number.
fn reserve_number(alloc: Global, records: &mut Records, tld: &Tld) -> Result<u64, AllocError>
    ensures same { records_of records.new ≡ records_of records.old }
    ensures room { OnOk result (HasNoticeRoom tld.now records.new) }
    ensures next { IfOk result (λ number. number ≡ next_number (records_of records.old).notices tld.now) }
    ensures small { IfOk result (λ number. number ≤ greatest_integer) }
{
    records.reserve_notice(alloc, tld)?;
    match next_number(records, tld) {
        Some(number) if number <= i64::MAX as u64 => Ok(number),
        _ => Err(AllocError),
    }
}

/// The notice of a verdict on the deposit that is stated.
pub(crate) fn notice_of(statement: &Statement, verdict: Verdict, number: u64, now: Sec) -> Notice
    ensures key { notice_key result ≡ record { tld = statement.now.tld; number = number } }
    ensures value { notice_value result ≡ verdict_notice statement.now verdict now }
{
    let rev = statement.rev;
    let id = statement.id;
    Notice {
        number,
        tld: statement.tld,
        day: statement.day,
        at: now,
        kind: match verdict {
            Verdict::Pass => NoticeKind::Receipt { rev, id },
            Verdict::Fail(check) => NoticeKind::Failure { rev, id, check },
        },
    }
}

/// The release of what is held of a registry, with memory for it among the records, and a copy of it for
/// a reply.
fn list_release(
    alloc: Global,
    records: &mut Records,
    reference: Reference,
    tld: Tld,
    reason: Ground,
    now: Sec,
) -> Result<(Release, Release), AllocError>
    ensures same { records_of records.new ≡ records_of records.old }
    ensures room { OnOk result (HasReleaseRoom records.new) }
    ensures key { IfOk result (λ listed. release_key listed.0 ≡ reference) }
    ensures value { IfOk result (λ listed. release_value listed.0 ≡ release_of_records (records_of records.old) tld reason now) }
    ensures recorded { IfOk result (λ listed. AreRecordedNames (records_of records.old) tld listed.0.names) }
    ensures copy { IfOk result (λ listed. listed.1 ≡ listed.0) }
{
    records.reserve_release()?;
    let release = Release {
        reference,
        tld,
        reason,
        at: now,
        names: held_names(alloc, records, &tld)?,
    };
    let told = release.try_clone(alloc)?;
    Ok((release, told))
}

/// Takes the memory for one more part of a registry, and for its extents in a reply.
pub(crate) fn make_room(
    alloc: Global,
    records: &mut Records,
    tld: &Tld,
) -> Result<Vec<Extent>, AllocError>
    ensures same { records_of records.new ≡ records_of records.old }
    ensures part { OnOk result (HasPartRoom tld.now records.new) }
    ensures empty { IfOk result (λ room. vec_len room ≡ 0) }
    ensures extents { IfOk result (λ room. vec_capacity room ≡ 256) }
{
    let room = Vec::with_capacity(alloc, MAX_EXTENTS)?;
    records.reserve_part(alloc, tld)?;
    Ok(room)
}

/// The extents, in room that was taken for them.
fn copy_into(room: Vec<Extent>, extents: &[Extent]) -> Vec<Extent>
    requires empty { vec_len room ≡ 0 }
    requires fits { length extents.now ≤ vec_capacity room }
    ensures { result.items ≡ extents.now }
{
    let mut room = room;
    let _ = room.extend_from_slice(extents);
    room
}
