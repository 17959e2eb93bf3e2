//! The bytes of parts, dropped in one transaction.
ghost use Rattle.std.specs.Prelude.{◌≡◌, IsTrue, IfErr, OnOk};
ghost use Rattle.sqlite.specs.State.{HasCleanDisk, Survives, KeepsCommit};
ghost use Rattle.sqlite.specs.Held.{state};
ghost use Rattle.custody_store.specs.Calls.{AreRun, RunsTogether};
ghost use Rattle.custody_store.specs.Dropping.{rows_without_bytes};
ghost use Rattle.custody_store.specs.Statements.{drop_bytes_statements};
ghost use Rattle.custody_store.specs.StoreState.{store_state, Commits};

use crate::faults::StoreFault;
use crate::values::{day, small, text};
use custody_records::PartKey;
use sqlite::{Alter, Connection, Transaction};

/// Drops the bytes of the parts with these keys in turn, up to the first that fails.
fn drop_each<S: Alter>(tx: &mut Transaction<'_, S>, keys: &[PartKey]) -> Result<(), StoreFault>
    ensures same_reference { tx.new.conn.ghost_name ≡ tx.old.conn.ghost_name }
    ensures runs { HasCleanDisk (state S.Store tx.new.conn.now)
        → OnOk result (IsTrue tx.old.conn.now.in_transaction → AreRun S.Store (drop_bytes_statements keys.now) tx.old.conn.now tx.new.conn.now) }
    ensures keeps { HasCleanDisk (state S.Store tx.new.conn.now) → KeepsCommit (state S.Store tx.old.conn.now) (state S.Store tx.new.conn.now) }
    ensures survives { Survives (state S.Store tx.old.conn.now) (state S.Store tx.new.conn.now) (λ _. ⊥) }
    ensures kind { IfErr result (λ e. e ≡ StoreFault.Failed) }
{
    for key in keys {
        tx.execute(
            "UPDATE part SET extents = NULL WHERE tld = ?1 AND day = ?2 AND rev = ?3 AND part = ?4",
            &[
                text(key.tld.as_bytes()),
                day(key.day),
                small(key.rev),
                small(key.part),
            ],
        )?;
    }
    Ok(())
}

/// Drops the bytes of the parts with these keys in one transaction, whole or not at all. It fails where a
/// transaction is open.
pub fn drop_all<S: Alter>(db: &mut Connection<S>, keys: &[PartKey]) -> Result<(), StoreFault>
    ensures commits { Commits (store_state S.Store db.old) (store_state S.Store db.new) (rows_without_bytes keys.now (store_state S.Store db.old).rows) result }
    ensures runs { RunsTogether S.Store (drop_bytes_statements keys.now) db.old db.new result }
    ensures kind { IfErr result (λ e. e ≡ StoreFault.Failed) }
{
    if !db.is_autocommit() {
        return Err(StoreFault::Failed);
    }
    let mut tx = db.transaction();
    drop_each(&mut tx, keys)?;
    tx.commit()?;
    Ok(())
}
