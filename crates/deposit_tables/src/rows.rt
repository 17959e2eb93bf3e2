//! The rows of a table that a deposit keeps.
ghost use Rattle.std.specs.Prelude.{◌≡◌, ◌≤◌, ◌<◌, ◌++◌, ◌↔◌, [], Contains, IfOk, IsTrue, OnOk, List, ℕ, filter, flat_map, get_or, if◌then◌else◌, length};
ghost use Rattle.std.specs.List.Sorted.{IsSorted};
ghost use Rattle.csv.specs.Records.{fields_of, partial_of};
ghost use Rattle.dnrd_csv.specs.Table.{HaveWidth};
ghost use Rattle.dnrd_csv.specs.inside.RowKeys.{borrowed_texts};
ghost use Rattle.deposit_verify.specs.inside.SortedKeys.{borrowed_text_cmp};
ghost use Rattle.deposit_tables.specs.RowsAfter.{is_kept, rows_after};

use crate::copies::{push_row, room_for_both, rows_of_fields};
use csv::ByteRecord;
use dnrd_csv::Rows;
use std::alloc::{AllocError, Global};

/// Whether a text is one of the keys, which ascend.
pub(crate) fn has_key(keys: &[&[u8]], text: &[u8]) -> bool
    requires { IsSorted borrowed_text_cmp keys.now }
    ensures { IsTrue result ↔ Contains (borrowed_texts keys.now) text.now }
{
    keys.binary_search(&text).is_ok()
}

// Whether a row is of none of these objects, whose keys ascend.
fn is_row_kept(rows: &Rows, row: usize, renewed: &[&[u8]]) -> bool
    requires row { row < length rows.now }
    requires some { 0 < length (get_or rows.now row []) }
    requires sorted { IsSorted borrowed_text_cmp renewed.now }
    ensures { result ≡ is_kept (borrowed_texts renewed.now) (get_or rows.now row []) }
{
    !has_key(renewed, rows.field(row, 0))
}

// Copies a row behind the fields, unless its object is renewed.
fn push_if_kept(
    rows: &Rows,
    row: usize,
    width: usize,
    renewed: &[&[u8]],
    fields: &mut ByteRecord,
) -> Result<(), AllocError>
    requires row { row < length rows.now }
    requires some { 2 ≤ width }
    requires width { length (get_or rows.now row []) ≡ width }
    requires sorted { IsSorted borrowed_text_cmp renewed.now }
    requires partial { partial_of fields.old ≡ [] }
    ensures fields { OnOk result (fields_of fields.new
        ≡ fields_of fields.old ++ (if is_kept (borrowed_texts renewed.now) (get_or rows.now row []) then get_or rows.now row [] else [])) }
    ensures partial { OnOk result (partial_of fields.new ≡ []) }
{
    if is_row_kept(rows, row, renewed) {
        return push_row(rows, row, width, fields);
    }
    Ok(())
}

// Copies the rows whose objects are not renewed behind the fields.
fn push_kept(
    rows: &Rows,
    width: usize,
    renewed: &[&[u8]],
    fields: &mut ByteRecord,
) -> Result<(), AllocError>
    requires some { 2 ≤ width }
    requires width { HaveWidth width rows.now }
    requires sorted { IsSorted borrowed_text_cmp renewed.now }
    requires partial { partial_of fields.old ≡ [] }
    ensures fields { OnOk result (fields_of fields.new
        ≡ fields_of fields.old ++ flat_map (λ row. row) (filter (is_kept (borrowed_texts renewed.now)) rows.now)) }
    ensures partial { OnOk result (partial_of fields.new ≡ []) }
{
    for row in 0..rows.len() {
        push_if_kept(rows, row, width, renewed, fields)?;
    }
    Ok(())
}

/// The rows of a table of some columns after a deposit that has such rows, and renews objects, whose keys ascend: those
/// from before that are of no renewed object, and those that the deposit has.
pub(crate) fn rows_after(
    alloc: Global,
    before: &Rows,
    contained: &Rows,
    width: usize,
    renewed: &[&[u8]],
) -> Result<Rows, AllocError>
    requires some { 2 ≤ width }
    requires before { HaveWidth width before.now }
    requires contained { HaveWidth width contained.now }
    requires sorted { IsSorted borrowed_text_cmp renewed.now }
    ensures { IfOk result (λ rows. rows ≡ rows_after before.now contained.now (borrowed_texts renewed.now)) }
{
    let mut fields = room_for_both(alloc, before, contained, width)?;
    push_kept(before, width, renewed, &mut fields)?;
    push_kept(contained, width, &[], &mut fields)?;
    Ok(rows_of_fields(fields, width))
}
