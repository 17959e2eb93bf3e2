//! The store: a connection with the tables of the records.
ghost use Rattle.std.specs.Prelude.{◌≡◌, ◌^◌, ◌<◌, ◌≤◌, true, false, pos, Err, IfOk, IfErr, MatchResult};
ghost use Rattle.sqlite.specs.Held.{state};
ghost use Rattle.std.specs.Int.{IsInRange};
ghost use Rattle.schedule.specs.Schedule.{IsDay, IsMoment};
ghost use Rattle.deposit_name.specs.Identifiers.{IsTld};
ghost use Rattle.custody_records.specs.Rows.{greatest_integer, initial_rows, with_registry_row, with_part_row, with_notice_row, with_handover_row, with_hold_row, with_lifting};
ghost use Rattle.custody_records.specs.Form.{form_of, InForm, OutOfForm};
ghost use Rattle.custody_records.specs.MemoryRecords.{records_of};
ghost use Rattle.custody_records.specs.declared.damage.RowDamage.{RowDamage};
ghost use Rattle.custody_records.specs.declared.damage.RowDamage.TheVariants as damage;
ghost use Rattle.custody_records.specs.RowsOfRecords.{digits_of, row_of_registry, IsNotice, IsRelease, IsHold};
ghost use Rattle.custody_records.specs.TypedRecords.{notice_key, notice_value, release_key, release_value, hold_key, hold_value};
ghost use Rattle.custody_store.specs.Calls.{RunsStatement, RunsTogether};
ghost use Rattle.custody_store.specs.Statements.{create_statements, migrate_statements, insert_registry_text, insert_registry_values, insert_part_text, insert_part_values, insert_notice_text, insert_notice_values, insert_handover_text, insert_handover_values, insert_hold_text, insert_hold_values, lift_text, lift_values, drop_bytes_statements};
ghost use Rattle.custody_store.specs.Dropping.{rows_without_bytes};
ghost use Rattle.custody_store.specs.TypedRows.{staged_row, typed_notice_row, typed_release_row, typed_hold_row};
ghost use Rattle.custody_store.specs.StoreState.{store_state, Commits, CreatesTables, Migrates, ChangesNothing, has_any_table, has_all_tables};

use crate::calls::run;
use crate::creating::create_all;
use crate::dropping::drop_all;
use crate::faults::StoreFault;
use crate::loading::{load_records, volume_in};
use crate::meta::select_meta;
use crate::migrating::migrate_tables;
use crate::notices::kind_columns;
use crate::releases::ground_of;
use crate::tables::{has_all_tables, has_any_table, has_table};
use crate::values::{
    blob, day, keep_day_value, large, moment, moment_or_null, number, small, text,
};
use custody_records::{
    Hold, PartKey, Records, Registry, Release, RowDamage, write_blob, write_number,
};
use deposit_name::{DepositName, Reference};
use desk::Notice;
use schedule::Sec;
use sqlite::{Alter, Connection};
use std::alloc::Global;
use std::marker::Model;
use vault_volume::{Extent, Staged};

/// The records, in the tables of a database.
#[derive(Drop)]
pub struct Store<S: Alter> {
    db: Connection<S>,
}

impl<S: Alter> Model for Store<S> {
    ghost use Rattle.sqlite.specs.Held.{Held, held_code};

    ghost Value = { Held S };

    ghost coded = { held_code S.code };

    ghost view = { λ s. s.db };
}

// `runs`: whatever other tables there are, a call that writes runs these statements, and no others.
// `in_form`: the fields of what is written are in form, as their types have it.
impl<S: Alter> Store<S> {
    /// The store of a connection with no transaction open.
    pub fn over(db: Connection<S>) -> Store<S>
        ensures { result ≡ db }
    {
        Store { db }
    }

    /// The connection, with no transaction open.
    pub fn into_inner(self) -> Connection<S>
        ensures { result ≡ self }
    {
        let Store { db } = self;
        db
    }

    /// Makes the tables of schema 2, with the number and the blocks of the volume.
    pub fn create(&mut self, number: u64, blocks: u32) -> Result<(), StoreFault>
        ensures founds { CreatesTables (store_state S.Store self.old) (store_state S.Store self.new) (initial_rows (digits_of number) (pos blocks)) result }
        ensures runs { has_any_table (store_state S.Store self.old) ≡ false → RunsTogether S.Store (create_statements (digits_of number) blocks) self.old self.new result }
        // Where one of the tables is there, it fails, and nothing is done.
        ensures taken { has_any_table (store_state S.Store self.old) ≡ true → (result ≡ Err StoreFault.Failed) × (self.new ≡ self.old) }
        ensures kind { IfErr result (λ e. e ≡ StoreFault.Failed) }
    {
        if has_any_table(&self.db) {
            return Err(StoreFault::Failed);
        }
        create_all(&mut self.db, &write_number(number), blocks)
    }

    /// Makes tables of schema 1 those of schema 2, and commits it: the table of holds is there then.
    pub fn migrate(&mut self) -> Result<(), StoreFault>
        ensures migrates { Migrates (store_state S.Store self.old) (store_state S.Store self.new) result }
        ensures runs { RunsTogether S.Store migrate_statements self.old self.new result }
        ensures kind { IfErr result (λ e. e ≡ StoreFault.Failed) }
    {
        migrate_tables(&mut self.db)
    }

    /// Adds a registry, and commits it.
    pub fn insert_registry(&mut self, registry: &Registry) -> Result<(), StoreFault>
        ensures commits { Commits (store_state S.Store self.old) (store_state S.Store self.new)
            (with_registry_row (row_of_registry registry.now.tld registry.now.first_day) (store_state S.Store self.old).rows) result }
        ensures runs { RunsStatement insert_registry_text (insert_registry_values (row_of_registry registry.now.tld registry.now.first_day)) (state S.Store self.old) (state S.Store self.new) result }
        ensures in_form { IsTld registry.now.tld × IsDay registry.now.first_day }
        ensures kind { IfErr result (λ e. e ≡ StoreFault.Failed) }
    {
        run(
            &mut self.db,
            "INSERT INTO registry (tld, first_day) VALUES (?1, ?2)",
            &[text(registry.tld.as_bytes()), day(registry.first_day)],
        )
    }

    /// Adds a part where its bytes were staged, and commits it. The extents, the length and the digest
    /// are handed back. No row may name a block of these extents.
    pub fn insert_part(
        &mut self,
        name: &DepositName,
        received: Sec,
        staged: Staged,
    ) -> Result<(Vec<Extent>, u32, [u8; 32]), StoreFault>
        ensures handed { IfOk result (λ t. (t.0.items ≡ staged.extents) × (t.1 ≡ staged.len) × (t.2 ≡ staged.digest)) }
        ensures commits { Commits (store_state S.Store self.old) (store_state S.Store self.new)
            (with_part_row (staged_row name.now received staged) (store_state S.Store self.old).rows) result }
        ensures runs { RunsStatement insert_part_text (insert_part_values (staged_row name.now received staged)) (state S.Store self.old) (state S.Store self.new) result }
        ensures in_form { IsMoment received }
        ensures kind { IfErr result (λ e. e ≡ StoreFault.Failed) }
    {
        let (extents, len, digest) = staged.spend();
        let bytes = write_blob(&extents);
        run(
            &mut self.db,
            "INSERT INTO part (tld, day, rev, part, kind, received, keep_day, len, sha, extents) VALUES (?1, ?2, ?3, ?4, ?5, ?6, ?7, ?8, ?9, ?10)",
            &[
                text(name.tld.as_bytes()),
                day(name.day),
                small(name.rev),
                small(name.part),
                text(name.kind.as_bytes()),
                moment(received),
                keep_day_value(received.day()),
                number(len),
                blob(&digest),
                blob(&bytes),
            ],
        )?;
        Ok((extents, len, digest))
    }

    /// Adds a notice, and commits it.
    pub fn insert_notice(&mut self, notice: &Notice) -> Result<(), StoreFault>
        ensures commits { Commits (store_state S.Store self.old) (store_state S.Store self.new)
            (with_notice_row (typed_notice_row notice.now) (store_state S.Store self.old).rows) result }
        ensures runs { notice.now.number < 2 ^ 63 → RunsStatement insert_notice_text (insert_notice_values (typed_notice_row notice.now)) (state S.Store self.old) (state S.Store self.new) result }
        ensures in_form { IsInRange 1 greatest_integer notice.now.number → IsNotice (notice_key notice.now) (notice_value notice.now) }
        // A greater number has no place in a column, and nothing is done.
        ensures large { 2 ^ 63 ≤ notice.now.number → (result ≡ Err StoreFault.Failed) × (self.new ≡ self.old) }
        ensures kind { IfErr result (λ e. e ≡ StoreFault.Failed) }
    {
        let Some(number) = large(notice.number) else {
            return Err(StoreFault::Failed);
        };
        let (kind, rev, id) = kind_columns(&notice.kind);
        run(
            &mut self.db,
            "INSERT INTO notice (tld, number, kind, day, rev, id, at) VALUES (?1, ?2, ?3, ?4, ?5, ?6, ?7)",
            &[
                text(notice.tld.as_bytes()),
                number,
                small(kind),
                day(notice.day),
                small(rev),
                text(id),
                moment(notice.at),
            ],
        )
    }

    /// Adds a release, and commits it.
    pub fn insert_release(&mut self, release: &Release) -> Result<(), StoreFault>
        ensures commits { Commits (store_state S.Store self.old) (store_state S.Store self.new)
            (with_handover_row (typed_release_row release.now) (store_state S.Store self.old).rows) result }
        ensures runs { RunsStatement insert_handover_text (insert_handover_values (typed_release_row release.now)) (state S.Store self.old) (state S.Store self.new) result }
        ensures in_form { IsRelease (release_key release.now) (release_value release.now) }
        ensures kind { IfErr result (λ e. e ≡ StoreFault.Failed) }
    {
        run(
            &mut self.db,
            "INSERT INTO handover (reference, tld, ground, at, names) VALUES (?1, ?2, ?3, ?4, ?5)",
            &[
                text(release.reference.as_bytes()),
                text(release.tld.as_bytes()),
                text(ground_of(&release.reason)),
                moment(release.at),
                text(release.names.as_text()),
            ],
        )
    }

    /// Adds a hold, and commits it.
    pub fn insert_hold(&mut self, hold: &Hold) -> Result<(), StoreFault>
        ensures commits { Commits (store_state S.Store self.old) (store_state S.Store self.new)
            (with_hold_row (typed_hold_row hold.now) (store_state S.Store self.old).rows) result }
        ensures runs { RunsStatement insert_hold_text (insert_hold_values (typed_hold_row hold.now)) (state S.Store self.old) (state S.Store self.new) result }
        ensures in_form { IsHold (hold_key hold.now) (hold_value hold.now) }
        ensures kind { IfErr result (λ e. e ≡ StoreFault.Failed) }
    {
        run(
            &mut self.db,
            "INSERT INTO hold (reference, tld, day, at, lifted) VALUES (?1, ?2, ?3, ?4, ?5)",
            &[
                text(hold.reference.as_bytes()),
                text(hold.tld.as_bytes()),
                day(hold.day),
                moment(hold.at),
                moment_or_null(hold.lifted),
            ],
        )
    }

    /// Writes when the hold of a reference was lifted, and commits it.
    pub fn lift_hold(&mut self, reference: &Reference, at: Sec) -> Result<(), StoreFault>
        ensures commits { Commits (store_state S.Store self.old) (store_state S.Store self.new)
            (with_lifting reference.now at (store_state S.Store self.old).rows) result }
        ensures runs { RunsStatement lift_text (lift_values reference.now at) (state S.Store self.old) (state S.Store self.new) result }
        ensures in_form { IsMoment at }
        ensures kind { IfErr result (λ e. e ≡ StoreFault.Failed) }
    {
        run(
            &mut self.db,
            "UPDATE hold SET lifted = ?2 WHERE reference = ?1",
            &[text(reference.as_bytes()), moment(at)],
        )
    }

    /// Drops the bytes of the parts with these keys, and commits it, whole or not at all. Their records stay.
    pub fn drop_bytes(&mut self, keys: &[PartKey]) -> Result<(), StoreFault>
        ensures commits { Commits (store_state S.Store self.old) (store_state S.Store self.new) (rows_without_bytes keys.now (store_state S.Store self.old).rows) result }
        ensures runs { RunsTogether S.Store (drop_bytes_statements keys.now) self.old self.new result }
        ensures kind { IfErr result (λ e. e ≡ StoreFault.Failed) }
    {
        drop_all(&mut self.db, keys)
    }

    /// The records, where meta has a row. It fails where meta has none.
    pub fn load(&mut self, alloc: Global) -> Result<Records, StoreFault>
        ensures found { (store_state S.Store self.new).IsHonest → (store_state S.Store self.old).HasSchemaTablesFirst → MatchResult result
            (λ records. form_of (store_state S.Store self.old).rows ≡ InForm (records_of records))
            (λ e. (why : RowDamage) → e ≡ StoreFault.Damaged why → form_of (store_state S.Store self.old).rows ≡ OutOfForm why) }
        ensures reads { ChangesNothing (store_state S.Store self.old) (store_state S.Store self.new) result }
        // Where a table is not there, the rows are damaged, whatever else is.
        ensures missing { has_all_tables (store_state S.Store self.old) ≡ false → (result ≡ Err (StoreFault.Damaged damage.Form)) × (self.new ≡ self.old) }
    {
        if !has_all_tables(&self.db) {
            return Err(StoreFault::Damaged(RowDamage::Form));
        }
        let meta = select_meta(&mut self.db)?;
        let has_holds = has_table(self.db.schema(), "hold");
        let volume = volume_in(&meta, has_holds)?;
        load_records(&mut self.db, has_holds, volume, alloc)
    }
}
