//! Statements that run together, in one transaction.
ghost use Rattle.std.specs.Prelude.{◌≡◌, ◌∷◌, ◌++◌, [], false, map, IsTrue, IfErr, OnOk};
ghost use Rattle.sqlite.specs.State.{HasCleanDisk, Survives, KeepsCommit};
ghost use Rattle.sqlite.specs.Held.{state};
ghost use Rattle.sqlite.specs.Values.{bound};
ghost use Rattle.custody_store.specs.Calls.{AreRun, RunsTogether};

use crate::faults::StoreFault;
use sqlite::types::ValueRef;
use sqlite::{Alter, Connection, Transaction};

/// Runs the texts in turn, which have no values, and then the statement, up to the first that fails.
fn run_all<S: Alter>(
    tx: &mut Transaction<'_, S>,
    texts: &[&str],
    sql: &str,
    params: &[ValueRef<'_>],
) -> Result<(), StoreFault>
    ensures same_reference { tx.new.conn.ghost_name ≡ tx.old.conn.ghost_name }
    ensures runs { HasCleanDisk (state S.Store tx.new.conn.now)
        → OnOk result (IsTrue tx.old.conn.now.in_transaction → AreRun S.Store (map (λ t. (t.now, [])) texts.now ++ (sql.now, bound params.now) ∷ []) tx.old.conn.now tx.new.conn.now) }
    ensures keeps { HasCleanDisk (state S.Store tx.new.conn.now) → KeepsCommit (state S.Store tx.old.conn.now) (state S.Store tx.new.conn.now) }
    ensures survives { Survives (state S.Store tx.old.conn.now) (state S.Store tx.new.conn.now) (λ _. ⊥) }
    ensures kind { IfErr result (λ e. e ≡ StoreFault.Failed) }
{
    for text in texts {
        tx.execute(text, &[])?;
    }
    tx.execute(sql, params)?;
    Ok(())
}

/// Runs the texts and then the statement in one transaction, whole or not at all. It fails where a
/// transaction is open.
pub fn together<S: Alter>(
    db: &mut Connection<S>,
    texts: &[&str],
    sql: &str,
    params: &[ValueRef<'_>],
) -> Result<(), StoreFault>
    ensures runs { RunsTogether S.Store (map (λ t. (t.now, [])) texts.now ++ (sql.now, bound params.now) ∷ []) db.old db.new result }
    ensures trust { HasCleanDisk (state S.Store db.new) → HasCleanDisk (state S.Store db.old) }
    ensures mode { db.old.in_transaction ≡ false → db.new.in_transaction ≡ false }
    ensures kind { IfErr result (λ e. e ≡ StoreFault.Failed) }
{
    if !db.is_autocommit() {
        return Err(StoreFault::Failed);
    }
    let mut tx = db.transaction();
    run_all(&mut tx, texts, sql, params)?;
    tx.commit()?;
    Ok(())
}
