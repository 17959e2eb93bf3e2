//! The row of meta.
ghost use Rattle.std.specs.Prelude.{◌≡◌, false, codes, map, Ok, Some, None, IfOk, IfErr, option_map, slice_get};
ghost use Rattle.custody_records.specs.Rows.{first_meta};
ghost use Rattle.custody_records.specs.TypedRecords.{meta_of};
ghost use Rattle.custody_store.specs.Reading.{answered_meta};
ghost use Rattle.custody_store.specs.StoreState.{store_state, HasMetaOrNone, ChangesNothing};

use crate::calls::ask;
use crate::columns::{bytes_at, integer_at};
use crate::faults::StoreFault;
use crate::tables::has_table;
use custody_records::Meta;
use sqlite::{Alter, Connection, Row};

fn meta_of(row: &Row) -> Meta
    ensures { result ≡ meta_of (answered_meta row.now) }
{
    Meta::from_columns(
        integer_at(row, 0),
        integer_at(row, 1),
        bytes_at(row, 2),
        integer_at(row, 3),
    )
}

/// The first row.
pub fn first_of(rows: &[Row]) -> Option<Meta>
    ensures { result ≡ option_map meta_of (slice_get (map answered_meta rows.now) 0) }
{
    match rows.first() {
        Some(row) => Some(meta_of(row)),
        None => None,
    }
}

/// The rows of meta, in the order in which they were added.
pub fn select_meta<S: Alter>(db: &mut Connection<S>) -> Result<Vec<Row>, StoreFault>
    ensures found { (store_state S.Store db.new).IsHonest → (store_state S.Store db.old).HasMetaFirst
        → IfOk result (λ rows. (store_state S.Store db.old).rows.meta ≡ Some (map answered_meta rows.items)) }
    ensures reads { ChangesNothing (store_state S.Store db.old) (store_state S.Store db.new) result }
    ensures kind { IfErr result (λ e. e ≡ StoreFault.Failed) }
{
    ask(
        db,
        "SELECT one, schema_no, number, blocks FROM meta ORDER BY rowid",
    )
}

/// The first row of meta, or `None` where there is no table meta or no row in it.
pub fn find_meta<S: Alter>(db: &mut Connection<S>) -> Result<Option<Meta>, StoreFault>
    ensures found { (store_state S.Store db.new).IsHonest → HasMetaOrNone (store_state S.Store db.old)
        → IfOk result (λ found. found ≡ option_map meta_of (first_meta (store_state S.Store db.old).rows)) }
    ensures reads { ChangesNothing (store_state S.Store db.old) (store_state S.Store db.new) result }
    // A row that is there is answered, whatever its fields are.
    ensures kind { IfErr result (λ e. e ≡ StoreFault.Failed) }
    ensures missing { (store_state S.Store db.old).has_table (codes "meta") ≡ false → (result ≡ Ok None) × (db.new ≡ db.old) }
{
    if !has_table(db.schema(), "meta") {
        return Ok(None);
    }
    let rows = select_meta(db)?;
    Ok(first_of(&rows))
}
