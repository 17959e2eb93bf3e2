//! The rows of parts.
ghost use Rattle.std.specs.Prelude.{◌≡◌, IfErr};
ghost use Rattle.custody_records.specs.Form.{part_in};
ghost use Rattle.custody_records.specs.Keys.{PartKey, part_cmp};
ghost use Rattle.custody_records.specs.Records.{PartRecord};
ghost use Rattle.custody_records.specs.Rows.{PartRow};
ghost use Rattle.custody_records.specs.TypedRecords.{key_of_part, part_row, part_value};
ghost use Rattle.custody_store.specs.Reading.{answered_part};
ghost use Rattle.custody_store.specs.StoreState.{store_state, ChangesNothing};
ghost use Rattle.custody_store.specs.inside.Loading.{ReadsTable, IsFormFault};

use crate::columns::{bytes_at, bytes_or_null_at, integer_at};
use crate::faults::StoreFault;
use crate::stored_rows::{Stored, load_rows};
use custody_records::{Part, PartColumns, RowError};
use sqlite::{Alter, Connection, Row};
use std::alloc::Global;

fn part_columns(row: &Row) -> PartColumns<'_>
    ensures { part_row result ≡ answered_part row.now }
{
    PartColumns {
        tld: bytes_at(row, 0),
        day: integer_at(row, 1),
        rev: integer_at(row, 2),
        part: integer_at(row, 3),
        kind: bytes_at(row, 4),
        received: integer_at(row, 5),
        keep_day: integer_at(row, 6),
        len: integer_at(row, 7),
        sha: bytes_at(row, 8),
        extents: bytes_or_null_at(row, 9),
    }
}

impl Stored for Part {
    ghost Columns = { PartRow };

    ghost Key = { PartKey };

    ghost Value = { PartRecord };

    ghost answered = { answered_part };

    ghost read = { part_in };

    ghost key_of = { key_of_part };

    ghost value_of = { part_value };

    fn of_row(alloc: Global, row: &Row) -> Result<Part, RowError> {
        part_columns(row).read(alloc)
    }
}

/// The records of parts, in the order in which they were recorded.
pub fn load_parts<S: Alter>(db: &mut Connection<S>, alloc: Global) -> Result<Vec<Part>, StoreFault>
    ensures found { (store_state S.Store db.new).IsHonest → (store_state S.Store db.old).HasSchemaTablesFirst → ReadsTable part_cmp part_in key_of_part part_value (store_state S.Store db.old).rows.parts result }
    ensures reads { ChangesNothing (store_state S.Store db.old) (store_state S.Store db.new) result }
    ensures kind { IfErr result IsFormFault }
{
    load_rows::<Part, S>(
        db,
        "SELECT tld, day, rev, part, kind, received, keep_day, len, sha, extents FROM part ORDER BY rowid",
        alloc,
    )
}
