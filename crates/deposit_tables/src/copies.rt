//! Rows that are copied field by field.
ghost use Rattle.std.specs.Prelude.{◌≡◌, ◌≤◌, ◌<◌, ◌++◌, [], IfOk, OnOk, List, ℕ, flat_map, get_or, length};
ghost use Rattle.csv.specs.Records.{fields_of, partial_of};
ghost use Rattle.dnrd_csv.specs.Table.{HaveWidth};

use csv::ByteRecord;
use dnrd_csv::Rows;
use std::alloc::{AllocError, Global};

// Copies a row behind the fields.
pub(crate) fn push_row(
    rows: &Rows,
    row: usize,
    width: usize,
    fields: &mut ByteRecord,
) -> Result<(), AllocError>
    requires row { row < length rows.now }
    requires width { length (get_or rows.now row []) ≡ width }
    requires partial { partial_of fields.old ≡ [] }
    ensures fields { OnOk result (fields_of fields.new ≡ fields_of fields.old ++ get_or rows.now row []) }
    ensures partial { OnOk result (partial_of fields.new ≡ []) }
{
    for column in 0..width {
        fields.push_field(rows.field(row, column))?;
    }
    Ok(())
}

// How many bytes the fields of a row have.
fn row_bytes(rows: &Rows, row: usize, width: usize) -> usize
    requires row { row < length rows.now }
    requires width { length (get_or rows.now row []) ≡ width }
{
    let mut bytes: usize = 0;
    for column in 0..width {
        bytes = bytes.saturating_add(rows.field(row, column).len());
    }
    bytes
}

// How many bytes the fields of rows have.
fn field_bytes(rows: &Rows, width: usize) -> usize
    requires { HaveWidth width rows.now }
{
    let mut bytes: usize = 0;
    for row in 0..rows.len() {
        bytes = bytes.saturating_add(row_bytes(rows, row, width));
    }
    bytes
}

// No fields, with room for those of rows. (Fields that outgrow their room are copied to a new one, and leave the old.)
pub(crate) fn room_for(alloc: Global, rows: &Rows, width: usize) -> Result<ByteRecord, AllocError>
    requires { HaveWidth width rows.now }
    ensures fields { IfOk result (λ room. fields_of room ≡ []) }
    ensures partial { IfOk result (λ room. partial_of room ≡ []) }
{
    let fields = rows.len().saturating_mul(width);
    ByteRecord::with_capacity(alloc, field_bytes(rows, width), fields)
}

// The same, with room for those of more rows.
pub(crate) fn room_for_both(
    alloc: Global,
    rows: &Rows,
    more: &Rows,
    width: usize,
) -> Result<ByteRecord, AllocError>
    requires rows { HaveWidth width rows.now }
    requires more { HaveWidth width more.now }
    ensures fields { IfOk result (λ room. fields_of room ≡ []) }
    ensures partial { IfOk result (λ room. partial_of room ≡ []) }
{
    let count = rows.len().saturating_add(more.len());
    let bytes = field_bytes(rows, width).saturating_add(field_bytes(more, width));
    ByteRecord::with_capacity(alloc, bytes, count.saturating_mul(width))
}

// The rows that fields of at least two columns are.
pub(crate) fn rows_of_fields(fields: ByteRecord, width: usize) -> Rows
    requires some { 2 ≤ width }
    requires rows { (rows : List (List (List ℕ))) × HaveWidth width rows × (fields_of fields ≡ flat_map (λ row. row) rows) }
    ensures { (rows : List (List (List ℕ))) → HaveWidth width rows → fields_of fields ≡ flat_map (λ row. row) rows → result ≡ rows }
{
    match Rows::from_fields(fields, width) {
        Some(rows) => rows,
        None => unreachable!(),
    }
}
