//! The two kinds of call of the database, a statement alone and a query.
ghost use Rattle.std.specs.Prelude.{◌≡◌, IfErr};
ghost use Rattle.sqlite.specs.Held.{state};
ghost use Rattle.sqlite.specs.Values.{bound};
ghost use Rattle.custody_store.specs.Calls.{RunsStatement, RunsQuery, row_items};

use crate::faults::StoreFault;
use sqlite::types::ValueRef;
use sqlite::{Alter, Connection, Row};

/// Runs one statement that is no query.
pub fn run<S: Alter>(
    db: &mut Connection<S>,
    sql: &str,
    params: &[ValueRef<'_>],
) -> Result<(), StoreFault>
    ensures runs { RunsStatement sql.now (bound params.now) (state S.Store db.old) (state S.Store db.new) result }
    ensures kind { IfErr result (λ e. e ≡ StoreFault.Failed) }
{
    match db.execute(sql, params) {
        Ok(_) => Ok(()),
        Err(_) => Err(StoreFault::Failed),
    }
}

/// Runs one query, and answers all its rows.
pub fn ask<S: Alter>(db: &mut Connection<S>, sql: &str) -> Result<Vec<Row>, StoreFault>
    ensures asks { RunsQuery sql.now row_items (state S.Store db.old) (state S.Store db.new) result }
    ensures kind { IfErr result (λ e. e ≡ StoreFault.Failed) }
{
    match db.query_all(sql, &[]) {
        Ok(rows) => Ok(rows),
        Err(_) => Err(StoreFault::Failed),
    }
}
