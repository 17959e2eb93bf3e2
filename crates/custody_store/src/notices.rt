//! The rows of notices.
ghost use Rattle.std.specs.Prelude.{◌≡◌, IfErr};
ghost use Rattle.custody_records.specs.Form.{notice_in};
ghost use Rattle.custody_records.specs.Keys.{NoticeKey, notice_cmp};
ghost use Rattle.custody_records.specs.Records as specs;
ghost use Rattle.custody_records.specs.Rows.{NoticeRow};
ghost use Rattle.custody_records.specs.TypedRecords.{notice_key, notice_row, notice_value};
ghost use Rattle.custody_records.specs.RowsOfRecords.{IsNoticeKind, kind_number, kind_rev, kind_id};
ghost use Rattle.custody_store.specs.Reading.{answered_notice};
ghost use Rattle.custody_store.specs.StoreState.{store_state, ChangesNothing};
ghost use Rattle.custody_store.specs.inside.Loading.{ReadsTable, IsFormFault};

use crate::columns::{bytes_at, integer_at};
use crate::faults::StoreFault;
use crate::stored_rows::{Stored, load_rows};
use custody_records::{NoticeColumns, RowError};
use desk::{Notice, NoticeKind};
use sqlite::{Alter, Connection, Row};
use std::alloc::Global;

/// The number of a kind in a row, and the revision and the id of the deposit that is told of: 0 and no text
/// for an absence.
pub(crate) fn kind_columns(kind: &NoticeKind) -> (u8, u8, &[u8])
    ensures number { result.0 ≡ kind_number kind.now }
    ensures rev { result.1 ≡ kind_rev kind.now }
    ensures id { result.2.now ≡ kind_id kind.now }
    ensures in_form { IsNoticeKind kind.now }
{
    match kind {
        NoticeKind::Receipt { rev, id } => (0, rev.number(), id.as_bytes()),
        NoticeKind::Failure { rev, id, check } => (check.number(), rev.number(), id.as_bytes()),
        NoticeKind::Absence => (20, 0, &[]),
    }
}

fn notice_columns(row: &Row) -> NoticeColumns<'_>
    ensures { notice_row result ≡ answered_notice row.now }
{
    NoticeColumns {
        tld: bytes_at(row, 0),
        number: integer_at(row, 1),
        kind: integer_at(row, 2),
        day: integer_at(row, 3),
        rev: integer_at(row, 4),
        id: bytes_at(row, 5),
        at: integer_at(row, 6),
    }
}

impl Stored for Notice {
    ghost Columns = { NoticeRow };

    ghost Key = { NoticeKey };

    ghost Value = { specs.Notice };

    ghost answered = { answered_notice };

    ghost read = { notice_in };

    ghost key_of = { notice_key };

    ghost value_of = { notice_value };

    fn of_row(_alloc: Global, row: &Row) -> Result<Notice, RowError> {
        match notice_columns(row).read() {
            Some(notice) => Ok(notice),
            None => Err(RowError::OutOfForm),
        }
    }
}

/// The records of notices, in the order in which they were recorded.
pub fn load_notices<S: Alter>(
    db: &mut Connection<S>,
    alloc: Global,
) -> Result<Vec<Notice>, StoreFault>
    ensures found { (store_state S.Store db.new).IsHonest → (store_state S.Store db.old).HasSchemaTablesFirst → ReadsTable notice_cmp notice_in notice_key notice_value (store_state S.Store db.old).rows.notices result }
    ensures reads { ChangesNothing (store_state S.Store db.old) (store_state S.Store db.new) result }
    ensures kind { IfErr result IsFormFault }
{
    load_rows::<Notice, S>(
        db,
        "SELECT tld, number, kind, day, rev, id, at FROM notice ORDER BY rowid",
        alloc,
    )
}
