//! The rows of holds.
ghost use Rattle.std.specs.Prelude.{◌≡◌, ℕ, true, codes, List, None, IfErr, MatchResult};
ghost use Rattle.custody_records.specs.Form.{hold_in, holds_in, keyed_map};
ghost use Rattle.custody_records.specs.Keys.{text_cmp};
ghost use Rattle.custody_records.specs.Records as specs;
ghost use Rattle.custody_records.specs.Rows.{HoldRow};
ghost use Rattle.custody_records.specs.TypedRecords.{hold_key, hold_row, hold_value};
ghost use Rattle.custody_records.specs.declared.damage.RowDamage.TheVariants as damage;
ghost use Rattle.custody_store.specs.Reading.{answered_hold};
ghost use Rattle.custody_store.specs.StoreState.{store_state, ChangesNothing};
ghost use Rattle.custody_store.specs.inside.Loading.{ReadsTable, IsFormFault};

use crate::columns::{bytes_at, integer_at, integer_or_null_at};
use crate::faults::StoreFault;
use crate::stored_rows::{Stored, load_rows};
use custody_records::{Hold, HoldColumns, RowError};
use sqlite::{Alter, Connection, Row};
use std::alloc::Global;

fn hold_columns(row: &Row) -> HoldColumns<'_>
    ensures { hold_row result ≡ answered_hold row.now }
{
    HoldColumns {
        reference: bytes_at(row, 0),
        tld: bytes_at(row, 1),
        day: integer_at(row, 2),
        at: integer_at(row, 3),
        lifted: integer_or_null_at(row, 4),
    }
}

impl Stored for Hold {
    ghost Columns = { HoldRow };

    ghost Key = { List ℕ };

    ghost Value = { specs.Hold };

    ghost answered = { answered_hold };

    ghost read = { hold_in };

    ghost key_of = { hold_key };

    ghost value_of = { hold_value };

    fn of_row(_alloc: Global, row: &Row) -> Result<Hold, RowError> {
        match hold_columns(row).read() {
            Some(hold) => Ok(hold),
            None => Err(RowError::OutOfForm),
        }
    }
}

/// The records of holds, in the order in which they were recorded.
fn load_holds<S: Alter>(db: &mut Connection<S>, alloc: Global) -> Result<Vec<Hold>, StoreFault>
    ensures found { (store_state S.Store db.new).IsHonest → (store_state S.Store db.old).HasSchemaTablesFirst → (store_state S.Store db.old).has_table (codes "hold") ≡ true → ReadsTable text_cmp hold_in hold_key hold_value (store_state S.Store db.old).rows.holds result }
    ensures reads { ChangesNothing (store_state S.Store db.old) (store_state S.Store db.new) result }
    ensures kind { IfErr result IsFormFault }
{
    load_rows::<Hold, S>(
        db,
        "SELECT reference, tld, day, at, lifted FROM hold ORDER BY rowid",
        alloc,
    )
}

/// The records of holds, of which a database without their table has none.
pub fn load_holds_if<S: Alter>(
    db: &mut Connection<S>,
    has_holds: bool,
    alloc: Global,
) -> Result<Vec<Hold>, StoreFault>
    ensures found { (store_state S.Store db.new).IsHonest → (store_state S.Store db.old).HasSchemaTablesFirst → (store_state S.Store db.old).has_table (codes "hold") ≡ has_holds → MatchResult result
        (λ list. holds_in has_holds (store_state S.Store db.old).rows.holds ≡ keyed_map text_cmp hold_key hold_value list.items)
        (λ e. e ≡ StoreFault.Damaged damage.Form → holds_in has_holds (store_state S.Store db.old).rows.holds ≡ None) }
    ensures reads { ChangesNothing (store_state S.Store db.old) (store_state S.Store db.new) result }
    ensures kind { IfErr result IsFormFault }
{
    if has_holds {
        load_holds(db, alloc)
    } else {
        Ok(Vec::new(alloc))
    }
}
