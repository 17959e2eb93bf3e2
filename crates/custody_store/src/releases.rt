//! The rows of releases.
ghost use Rattle.std.specs.Prelude.{◌≡◌, ℕ, List, IfErr};
ghost use Rattle.custody_records.specs.Form.{release_in};
ghost use Rattle.custody_records.specs.Keys.{text_cmp};
ghost use Rattle.custody_records.specs.Records as specs;
ghost use Rattle.custody_records.specs.Rows.{HandoverRow};
ghost use Rattle.custody_records.specs.TypedRecords.{handover_row, release_key, release_value};
ghost use Rattle.custody_store.specs.Reading.{answered_handover};
ghost use Rattle.desk.specs.Grounds.{ground_text};
ghost use Rattle.custody_store.specs.StoreState.{store_state, ChangesNothing};
ghost use Rattle.custody_store.specs.inside.Loading.{ReadsTable, IsFormFault};

use crate::columns::{bytes_at, integer_at};
use crate::faults::StoreFault;
use crate::stored_rows::{Stored, load_rows};
use custody_records::{Release, ReleaseColumns, RowError};
use desk::Ground;
use sqlite::{Alter, Connection, Row};
use std::alloc::Global;

/// The text of a ground in a row.
pub(crate) fn ground_of(ground: &Ground) -> &'static [u8]
    ensures { result.now ≡ ground_text ground.now }
{
    ground.as_str().as_bytes()
}

fn release_columns(row: &Row) -> ReleaseColumns<'_>
    ensures { handover_row result ≡ answered_handover row.now }
{
    ReleaseColumns {
        reference: bytes_at(row, 0),
        tld: bytes_at(row, 1),
        reason: bytes_at(row, 2),
        at: integer_at(row, 3),
        names: bytes_at(row, 4),
    }
}

impl Stored for Release {
    ghost Columns = { HandoverRow };

    ghost Key = { List ℕ };

    ghost Value = { specs.Release };

    ghost answered = { answered_handover };

    ghost read = { release_in };

    ghost key_of = { release_key };

    ghost value_of = { release_value };

    fn of_row(alloc: Global, row: &Row) -> Result<Release, RowError> {
        release_columns(row).read(alloc)
    }
}

/// The records of releases, in the order in which they were recorded.
pub fn load_releases<S: Alter>(
    db: &mut Connection<S>,
    alloc: Global,
) -> Result<Vec<Release>, StoreFault>
    ensures found { (store_state S.Store db.new).IsHonest → (store_state S.Store db.old).HasSchemaTablesFirst → ReadsTable text_cmp release_in release_key release_value (store_state S.Store db.old).rows.handovers result }
    ensures reads { ChangesNothing (store_state S.Store db.old) (store_state S.Store db.new) result }
    ensures kind { IfErr result IsFormFault }
{
    load_rows::<Release, S>(
        db,
        "SELECT reference, tld, ground, at, names FROM handover ORDER BY rowid",
        alloc,
    )
}
