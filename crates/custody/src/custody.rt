//! The custody.
ghost use Rattle.std.specs.Prelude.{◌≡◌, ◌≢◌, ℕ, List, [], ◌-◌, ◌<◌, ◌≤◌, ◌^◌, length, is_none, true, false, IfOk, IfErr, OnErr, MatchResult};
ghost use Rattle.std.specs.Coded.{Π_prop};
ghost use Rattle.vault_volume.specs.Vault.{volume_of};
ghost use Rattle.custody_records.specs.MemoryRecords.{records_of};
ghost use Rattle.custody_records.specs.Rows.{Rows};
ghost use Rattle.custody_store.specs.StoreState.{store_state, has_earlier_tables, HasKnownTables};
ghost use Rattle.custody_machine.specs.declared.damage.Damage.TheVariants as damage;
ghost use Rattle.custody_machine.specs.Commands.{command_of};
ghost use Rattle.custody_machine.specs.Damage.{IsDamaged};
ghost use Rattle.custody.specs.Answers.{closing_failure};
ghost use Rattle.custody.specs.OpenCustody.{current_records, store_state_of, KeepsOrder, KeepsOrder-prop};
ghost use Rattle.custody.specs.Opening.{HasNoRecord, ReportsDamage, OnlyReads, OnlyMigrates, free_blocks};

use crate::auditing::audit_parts;
use crate::explaining::explain_failure;
use crate::fetching::fetch_part;
use crate::open_custody::OpenCustody;
use crate::opening::{identify, load_current, make_records, may_begin, open_custody_over};
use crate::previewing::preview_notice;
use crate::receiving::drop_body;
use crate::{Explanation, InitError, Outcome, Progress, ReceiveError, Refused, Reply};
use custody_machine::{Command, Failure, Statement};
use custody_records::Records;
use custody_store::{Store, has_earlier_tables};
use deposit_name::{DepositName, Reference, Tld};
use desk::{Notice, Revision};
use schedule::{Day, Sec};
use sqlite::{Alter, Connection};
use std::alloc::{AllocError, Global};
use std::io::Read;
use vault_volume::{ReadError, Volume};

/// What is kept for registries: a vault with the bytes of parts, a store with their records, and the
/// records in memory. It is closed after a failure of the volume or the database.
#[derive(Drop)]
pub struct Custody<V: Volume, S: Alter> {
    open_custody: OpenCustody<V, S>,
    failure: Option<Failure>,
    ghost order: { is_none failure ≡ true → KeepsOrder open_custody } by { Π_prop λ _. KeepsOrder-prop open_custody },
}

impl<V: Volume, S: Alter> Custody<V, S> {
    ghost use Rattle.custody.specs.Custody.{
      HasApplied,
      HasRun,
      failure_of,
      open_custody_of,
      is_open,
      timed_commands,
    };
    ghost use Rattle.custody.specs.Receiving.{HasReceived};
    ghost use Rattle.custody.specs.Fetching.{HasFetched, bytes_if_answered};
    ghost use Rattle.custody.specs.Previewing.{HasPreviewed};
    ghost use Rattle.custody.specs.Explaining.{HasExplained};
    ghost use Rattle.custody.specs.Auditing.{HasAudited, answered_names};
    ghost use Rattle.custody.specs.Calls.{
      HasBegun,
      IsBegunDurably,
      IsNotBegun,
      LeavesNone,
      IsOpened,
      IsLoaded,
      IsNotOpenedFor,
    };

    /// Begins a custody over a volume of 2 to 262,144 blocks and a database with no record of one:
    /// block 0 is written and synced, and then the records are made. Over a database with a table of
    /// the records it begins none, and writes nothing. Where it fails, volume and database are handed
    /// back.
    pub fn init(
        alloc: Global,
        volume: V,
        db: Connection<S>,
        number: u64,
    ) -> Result<Custody<V, S>, (InitError, V, Connection<S>)>
        requires { V.failures volume < 2 ^ 64 - 1 }
        ensures new { IfOk result (λ c. HasBegun V.Volume S.Store volume db number c) }
        ensures kept { IfOk result (λ c. IsBegunDurably V.Volume S.Store volume db c) }
        ensures not_begun { IfErr result (λ e. IsNotBegun V.Volume S.Store volume db e.0 e.1 e.2) }
        ensures leaves { IfErr result (λ e. (store_state S.Store e.2).IsHonest → LeavesNone V.Volume S.Store volume db number e.0 e.1 e.2) }
        // Where there was no record, a stop before the commit leaves none.
        ensures within { (store_state S.Store db).IsAtRest → HasNoRecord (store_state S.Store db).rows
            → (rows : Rows) (image : List ℕ) → (store_state S.Store db).may_leave rows → IsDamaged damage.NoRecord rows image }
    {
        let mut volume = volume;
        let mut db = db;
        let blocks = volume.size();
        if let Err(error) = may_begin(&mut db, blocks) {
            return Err((error, volume, db));
        }
        let mut store = Store::over(db);
        match make_records(alloc, &mut volume, &mut store, number, blocks) {
            Ok((records, map)) => Ok(Custody {
                open_custody: open_custody_over(volume, store, records, map),
                failure: None,
            }),
            Err(failure) => Err((InitError::Failure(failure), volume, store.into_inner())),
        }
    }

    /// Opens what a restart left: it reads the records and block 0, and changes no record. A database of
    /// schema 1 in which nothing is damaged is made one of schema 2, by one commit; else nothing is
    /// written. Where it fails, volume and database are handed back.
    pub fn open(
        alloc: Global,
        volume: V,
        db: Connection<S>,
    ) -> Result<Custody<V, S>, (Failure, V, Connection<S>)>
        requires { V.failures volume < 2 ^ 64 - 1 }
        ensures opened { IfOk result (λ c. IsOpened V.Volume S.Store volume db c) }
        ensures loaded { IfOk result (λ c. IsLoaded V.Volume S.Store volume db c) }
        ensures cause { IfErr result (λ e. IsNotOpenedFor V.Volume S.Store volume db e.0 e.1 e.2) }
        ensures damaged { HasKnownTables (store_state S.Store db)
            → IfErr result (λ e. (store_state S.Store e.2).IsHonest → ReportsDamage V.tells (store_state S.Store db).rows (V.image volume) e.0) }
        // Where a table is missing, or that of holds is there, volume and database are only read.
        ensures reads { has_earlier_tables (store_state S.Store db) ≡ false → MatchResult result
            (λ c. OnlyReads V.Volume S.Store volume db (volume_of (open_custody_of c).vault) (open_custody_of c).store result)
            (λ e. OnlyReads V.Volume S.Store volume db e.1 e.2 result) }
        // Else tables of schema 1 are made those of schema 2, where it opens.
        ensures migrates { has_earlier_tables (store_state S.Store db) ≡ true → MatchResult result
            (λ c. OnlyMigrates V.Volume S.Store volume db (volume_of (open_custody_of c).vault) (open_custody_of c).store result)
            (λ e. OnlyMigrates V.Volume S.Store volume db e.1 e.2 result) }
        // And where it does not, they are only read, unless the database failed.
        ensures unchanged { IfErr result (λ e. e.0 ≢ Failure.StoreFailed → OnlyReads V.Volume S.Store volume db e.1 e.2 result) }
    {
        let mut volume = volume;
        let mut db = db;
        let is_earlier = has_earlier_tables(&db);
        let (number, blocks) = match identify(&mut volume, &mut db) {
            Ok(found) => found,
            Err(failure) => return Err((failure, volume, db)),
        };
        let mut store = Store::over(db);
        match load_current(alloc, &mut store, number, blocks, is_earlier) {
            Ok((records, map)) => Ok(Custody {
                open_custody: open_custody_over(volume, store, records, map),
                failure: None,
            }),
            Err(failure) => Err((failure, volume, store.into_inner())),
        }
    }

    /// Hands the volume and the database back. It writes nothing.
    pub fn close(self) -> (V, Connection<S>)
        ensures volume { result.0 ≡ volume_of (open_custody_of self).vault }
        ensures store { result.1 ≡ (open_custody_of self).store }
        // No transaction is open, where none was.
        ensures mode { (store_state_of S.Store (open_custody_of self)).in_transaction ≡ false → (store_state S.Store result.1).in_transaction ≡ false }
    {
        let OpenCustody { vault, store, .. } = self.open_custody;
        (vault.into_inner(), store.into_inner())
    }

    /// Does a command at a moment.
    pub fn apply(
        &mut self,
        alloc: Global,
        command: &Command<'_>,
        now: Sec,
    ) -> Result<Reply, Refused>
        ensures { HasApplied self.old (command_of command.now) now result self.new }
    {
        if !self.is_open() {
            return Err(Refused::Failure(Failure::Closed));
        }
        let answer = self.open_custody.execute(alloc, command, now);
        self.failure = closing_failure(&answer);
        answer
    }

    /// Receives a part of so many bytes while they are read: those that were read already, followed by
    /// what the reader gives. Where they do not all come, nothing is recorded.
    pub fn receive_from<R: Read>(
        &mut self,
        alloc: Global,
        name: &[u8],
        len: u32,
        first: &[u8],
        reader: &mut R,
        now: Sec,
    ) -> Result<Reply, ReceiveError>
        requires { length first.now ≤ len }
        ensures { HasReceived (R.remaining reader.old) self.old name.now len first.now now result self.new }
    {
        let mut body = first.chain(reader);
        if !self.is_open() {
            drop_body(len, &mut body)?;
            return Err(ReceiveError::Refused(Refused::Failure(Failure::Closed)));
        }
        let upload = self
            .open_custody
            .open_upload(alloc, name, len as usize, now);
        let (upload, came) = self.open_custody.take_body(upload, len, &mut body);
        if let Err(ended) = came {
            self.failure = self.open_custody.give_up(upload);
            return Err(ended);
        }
        let answer = self.open_custody.complete(upload, now);
        self.failure = closing_failure(&answer);
        Ok(answer?)
    }

    /// Does commands in order, each at its moment. Where there is no memory for the answers, it does none.
    pub fn run(
        &mut self,
        alloc: Global,
        commands: &[(Command<'_>, Sec)],
    ) -> Result<Vec<Outcome>, AllocError>
        ensures run { IfOk result (λ answers. HasRun self.old (timed_commands commands.now) answers.items self.new) }
        ensures none { OnErr result (self.new ≡ self.old) }
    {
        let mut answers = Vec::with_capacity(alloc, commands.len())?;
        for (command, now) in commands {
            let answer = self.apply(alloc, command, *now);
            answers.push_reserved(answer);
        }
        Ok(answers)
    }

    /// Reads the part that a release hands over under a name into `out`, in place of what is there.
    /// Where it is refused or fails, `out` is empty.
    pub fn fetch(
        &mut self,
        alloc: Global,
        reference: &Reference,
        name: &[u8],
        out: &mut Vec<u8>,
    ) -> Result<(), Refused>
        ensures fetched { HasFetched self.old reference.now name.now (bytes_if_answered result out.new.items) self.new }
        ensures empty { OnErr result (out.new.items ≡ []) }
    {
        out.clear();
        if !self.is_open() {
            return Err(Refused::Failure(Failure::Closed));
        }
        let OpenCustody { vault, records, .. } = &mut self.open_custody;
        let answer = fetch_part(alloc, vault, records, reference, name);
        self.failure = closing_failure(&answer);
        *out = answer?;
        Ok(())
    }

    /// The notice that a statement would be answered with at a moment, with number 0. Nothing is recorded.
    pub fn preview(
        &mut self,
        alloc: Global,
        statement: &Statement,
        now: Sec,
    ) -> Result<Notice, Refused>
        ensures { HasPreviewed self.old statement.now now result self.new }
    {
        if !self.is_open() {
            return Err(Refused::Failure(Failure::Closed));
        }
        let OpenCustody { vault, records, .. } = &mut self.open_custody;
        let answer = preview_notice(alloc, vault, records, statement, now);
        self.failure = closing_failure(&answer);
        answer
    }

    /// Why a revision has failed, found again by what was known when it was stated. Nothing is recorded.
    pub fn explain(
        &mut self,
        alloc: Global,
        tld: &Tld,
        day: Day,
        rev: Revision,
    ) -> Result<Explanation, Refused>
        ensures { HasExplained self.old tld.now day rev result self.new }
    {
        if !self.is_open() {
            return Err(Refused::Failure(Failure::Closed));
        }
        let OpenCustody { vault, records, .. } = &mut self.open_custody;
        let answer = explain_failure(alloc, vault, records, tld, day, rev);
        self.failure = closing_failure(&answer);
        answer
    }

    /// Reads each part that is held against its recorded digest, and names those that have it not, in the
    /// order of the records. It writes nothing. It says to `progress` how many blocks of them it has read.
    pub fn audit<P: Progress>(
        &mut self,
        alloc: Global,
        progress: &mut P,
    ) -> Result<Vec<DepositName>, Failure>
        ensures { HasAudited self.old (answered_names result) self.new }
    {
        if !self.is_open() {
            return Err(Failure::Closed);
        }
        let OpenCustody { vault, records, .. } = &mut self.open_custody;
        let held = records
            .blocks()
            .saturating_sub(1)
            .saturating_sub(vault.free_blocks());
        progress.begin(held as usize);
        match audit_parts(alloc, vault, records, progress) {
            Ok(damaged) => Ok(damaged),
            Err(ReadError::NoMemory) => Err(Failure::NoMemory),
            Err(ReadError::VolumeFailed) => {
                self.failure = Some(Failure::VolumeFailed);
                Err(Failure::VolumeFailed)
            }
        }
    }

    /// The failure that closed it, where it is closed.
    pub fn failure(&self) -> Option<Failure>
        ensures { result ≡ failure_of self.now }
    {
        self.failure
    }

    fn is_open(&self) -> bool
        ensures { result ≡ is_open self.now }
    {
        self.failure.is_none()
    }

    /// The records.
    pub fn records(&self) -> Result<&Records, Failure>
        ensures found { IfOk result (λ records. (is_open self.now ≡ true) × (records_of records.now ≡ current_records (open_custody_of self.now))) }
        ensures closed { IfErr result (λ failure. (is_open self.now ≡ false) × (failure ≡ Failure.Closed)) }
    {
        if self.is_open() {
            Ok(&self.open_custody.records)
        } else {
            Err(Failure::Closed)
        }
    }

    /// How many blocks are free, and how many there are but block 0.
    pub fn room(&self) -> Result<(u32, u32), Failure>
        ensures found { IfOk result (λ room. (is_open self.now ≡ true) × (room.0 ≡ free_blocks (current_records (open_custody_of self.now))) × (room.1 ≡ (current_records (open_custody_of self.now)).blocks - 1)) }
        ensures closed { IfErr result (λ failure. (is_open self.now ≡ false) × (failure ≡ Failure.Closed)) }
    {
        let blocks = self.records()?.blocks();
        Ok((
            self.open_custody.vault.free_blocks(),
            blocks.saturating_sub(1),
        ))
    }
}

/// The failure of the volume or the database that closes a custody, where an answer tells one.
pub(crate) fn closing_failure<T>(answer: &Result<T, Refused>) -> Option<Failure>
    ensures { result ≡ closing_failure answer.now }
{
    match answer {
        Err(
            Refused::Failure(
                failure @ (Failure::VolumeFailed | Failure::StoreFailed | Failure::Closed),
            ),
        ) => Some(*failure),
        _ => None,
    }
}
