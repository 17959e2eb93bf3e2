//! Records as rows of tables, and the one way to read a table.
ghost use Rattle.std.specs.Prelude.{◌≡◌, Option, None, Some, IfErr, MatchResult};
ghost use Rattle.sqlite.specs.Given.{Returns};
ghost use Rattle.sqlite.specs.Held.{state};
ghost use Rattle.sqlite.specs.Listing.{understood};
ghost use Rattle.sqlite.specs.Order as sql;
ghost use Rattle.sqlite.specs.State.{HasCleanDisk};
ghost use Rattle.custody_records.specs.declared.damage.RowDamage.TheVariants as damage;
ghost use Rattle.custody_records.specs.declared.errors.RowError.TheVariants.{OutOfForm};
ghost use Rattle.custody_store.specs.StoreState.{store_state, ChangesNothing};
ghost use Rattle.custody_store.specs.inside.Loading.{ReadsAnswer, ReadsNoAnswer, IsFormFault};

use crate::faults::StoreFault;
use custody_records::RowError;
use sqlite::{Alter, Connection, Row};
use std::alloc::Global;

/// A record that stands in a row of a table.
pub trait Stored: Drop {
    // The columns of a row, the key among them, and what is recorded of it.
    ghost Columns: { Type 0 };

    ghost Key: { Type 0 };

    ghost Value: { Type 0 };

    // A row as a query answers it.
    ghost answered: { sql.Row → Columns };

    // What a row in form stands for.
    ghost read: { Columns → Option (Key × Value) };

    ghost key_of: { Self → Key };

    ghost value_of: { Self → Value };

    /// The record of a row, where its fields are in form.
    fn of_row(alloc: Global, row: &Row) -> Result<Self, RowError>
        ensures { MatchResult result (λ it. read (answered row.now) ≡ Some (key_of it, value_of it)) (λ e. e ≡ OutOfForm → read (answered row.now) ≡ None) };
}

/// Asks one query: the records of its rows, each of which is read before the next is asked for.
pub fn load_rows<T: Stored, S: Alter>(
    db: &mut Connection<S>,
    sql: &str,
    alloc: Global,
) -> Result<Vec<T>, StoreFault>
    requires { ¬ Returns (understood db.old.schema sql.now) }
    ensures found { HasCleanDisk (state S.Store db.new) → MatchResult result
        (λ list. ReadsAnswer T.read T.key_of T.value_of T.answered sql.now (state S.Store db.old) (state S.Store db.new) list.items)
        (λ e. e ≡ StoreFault.Damaged damage.Form → ReadsNoAnswer T.read T.key_of T.value_of T.answered sql.now (state S.Store db.old)) }
    ensures reads { ChangesNothing (store_state S.Store db.old) (store_state S.Store db.new) result }
    ensures kind { IfErr result IsFormFault }
{
    let mut list = Vec::new(alloc);
    let mut rows = db.query(sql, &[])?;
    for _ in 0..u64::MAX {
        rows.advance()?;
        let Some(row) = rows.get() else {
            return Ok(list);
        };
        let record = T::of_row(alloc, row)?;
        if list.push(record).is_err() {
            return Err(StoreFault::Failed);
        }
    }
    Err(StoreFault::Failed)
}
