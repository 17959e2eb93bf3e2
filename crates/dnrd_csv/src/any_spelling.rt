//! Reading rows in any spelling of CSV: with quotes where none are called for, CR LF, or no line end behind the last row.
ghost use Rattle.std.specs.Prelude.{◌≡◌, ◌<◌, ◌≤◌, ◌↔◌, ◌%◌, ◌^◌, ◌∷◌, [], false, true, ℕ, List, All, IfErr, IfNone, IfOk, IfSome, IsTrue, flat_map, get_or, length, map, take};
ghost use Rattle.csv.specs.Records.{fields_of};
ghost use Rattle.deposit_name.specs.Tables.{has_deletes};
ghost use Rattle.dnrd_csv.specs.AnySpelling.{HasHeader, RefusesTableRows, rows_below_header, rows_found};
ghost use Rattle.dnrd_csv.specs.Form.{HasForm};
ghost use Rattle.dnrd_csv.specs.declared.form.Form.TheVariants.{HostName};
ghost use Rattle.dnrd_csv.specs.inside.Spellings.{BeginsWithKey, IsRowReader, RefusesWidth, rows_cut, rows_left};
ghost use Rattle.dnrd_csv.specs.Table.{HaveWidth, IsFirstOutOfForm, IsTable, columns_of, key_columns_of};
ghost use Rattle.dnrd_csv.specs.Text.{key_rows, table_text};

use crate::errors::TableError;
use crate::form::Form;
use crate::keys::Keys;
use crate::layout::{columns, key_columns};
use crate::reading::append;
use crate::row_checks::{first_out_of_form, first_repeat};
use crate::rows::Rows;
use crate::spelling::field_at;
use crate::table::Table;
use csv::{ByteRecord, Reader, ReaderBuilder};
use deposit_name::TableName;
use std::alloc::{AllocError, Global};

// A reader of rows of any length.
fn reader_of(alloc: Global, text: &[u8]) -> Reader<&[u8]>
    ensures reading { IsRowReader result }
    ensures rows { rows_left result ≡ rows_found text.now }
{
    ReaderBuilder::new()
        .has_headers(false)
        .flexible(true)
        .from_reader(alloc, text)
}

// Reads the next row, if there is one.
fn next_row(reader: &mut Reader<&[u8]>, row: &mut ByteRecord) -> Result<bool, TableError>
    requires { IsRowReader reader.old }
    ensures reading { IfOk result (λ found. found ≡ true → IsRowReader reader.new) }
    ensures row { IfOk result (λ found. found ≡ true → rows_left reader.old ≡ fields_of row.new ∷ rows_left reader.new) }
    ensures end { IfOk result (λ found. found ≡ false → rows_left reader.old ≡ []) }
    ensures memory { IfErr result (λ fault. fault ≡ TableError.OutOfMemory) }
{
    let found = reader.read_byte_record(row)?;
    Ok(found)
}

/// Whether the first row of a text is these names.
///
/// # Errors
///
/// Want of memory, and nothing else.
pub fn has_header(alloc: Global, names: &[&str], text: &[u8]) -> Result<bool, AllocError>
    ensures { IfOk result (λ has. IsTrue has ↔ HasHeader (map (λ name. name.now) names.now) text.now) }
{
    let mut reader = reader_of(alloc, text);
    let mut row = ByteRecord::new(alloc);
    match next_row(&mut reader, &mut row) {
        Ok(found) => Ok(found && are_names(&row, names)),
        Err(_) => Err(AllocError),
    }
}

// Whether the fields of a row are these names.
fn are_names(row: &ByteRecord, names: &[&str]) -> bool
    ensures { IsTrue result ↔ (fields_of row.now ≡ map (λ name. name.now) names.now) }
{
    if row.len() != names.len() {
        return false;
    }
    for i in 0..names.len() {
        if field_at(row, i) != names[i].as_bytes() {
            return false;
        }
    }
    true
}

// The fields of the rows that a reader has left, if each has so many.
fn read_fields(
    alloc: Global,
    reader: &mut Reader<&[u8]>,
    width: usize,
) -> Result<ByteRecord, TableError>
    requires reading { IsRowReader reader.old }
    requires few { length (rows_left reader.old) < 2 ^ 64 }
    ensures width { IfOk result (λ fields. HaveWidth width (rows_left reader.old)) }
    ensures fields { IfOk result (λ fields. fields_of fields ≡ flat_map (λ row. row) (rows_left reader.old)) }
    ensures refused { IfErr result (RefusesWidth width (rows_left reader.old)) }
{
    let mut row = ByteRecord::new(alloc);
    let mut fields = ByteRecord::new(alloc);
    let mut count: usize = 0;
    while next_row(reader, &mut row)? {
        if row.len() != width {
            let fields = row.len();
            return Err(TableError::ColumnCount { row: count, fields });
        }
        append(&row, &mut fields)?;
        count += 1;
    }
    Ok(fields)
}

// The fields of the rows of a text below its header, if each has so many.
fn fields_below_header(
    alloc: Global,
    text: &[u8],
    has_header: bool,
    width: usize,
) -> Result<ByteRecord, TableError>
    ensures width { IfOk result (λ fields. HaveWidth width (rows_below_header has_header text.now)) }
    ensures fields { IfOk result (λ fields. fields_of fields ≡ flat_map (λ row. row) (rows_below_header has_header text.now)) }
    ensures refused { IfErr result (RefusesWidth width (rows_below_header has_header text.now)) }
{
    let mut reader = reader_of(alloc, text);
    let mut header = ByteRecord::new(alloc);
    if has_header && !next_row(&mut reader, &mut header)? {
        return Ok(ByteRecord::new(alloc));
    }
    read_fields(alloc, &mut reader, width)
}

// The first field that is not in form, of rows of one field each.
fn first_field_out_of_form(form: Form, fields: &ByteRecord) -> Option<usize>
    ensures none { IfNone result (All (HasForm form) (fields_of fields.now)) }
    ensures some { IfSome result (λ row. IsFirstOutOfForm (form ∷ []) (key_rows (fields_of fields.now)) row 0 (get_or (fields_of fields.now) row [])) }
    ensures within { IfSome result (λ row. row < length (fields_of fields.now)) }
{
    for i in 0..fields.len() {
        if !form.accepts(field_at(fields, i)) {
            return Some(i);
        }
    }
    None
}

// The first key that is not in form, where rows are keys alone.
fn first_key_out_of_form(columns: &[Form], fields: &ByteRecord) -> Option<usize>
    ensures none { IfNone result (length columns.now ≡ 1 → All (HasForm (get_or columns.now 0 HostName)) (fields_of fields.now)) }
    ensures one { IfSome result (λ row. length columns.now ≡ 1) }
    ensures some { IfSome result (λ row. IsFirstOutOfForm (get_or columns.now 0 HostName ∷ []) (key_rows (fields_of fields.now)) row 0 (get_or (fields_of fields.now) row [])) }
    ensures within { IfSome result (λ row. row < length (fields_of fields.now)) }
{
    if columns.len() != 1 {
        return None;
    }
    first_field_out_of_form(columns[0], fields)
}

// The rows that these fields are. A row of one empty field is none, and is out of form.
fn rows_of(alloc: Global, columns: &[Form], fields: ByteRecord) -> Result<Rows, TableError>
    requires begins { BeginsWithKey columns.now }
    requires fits { length (fields_of fields) % length columns.now ≡ 0 }
    ensures rows { IfOk result (λ rows. rows ≡ rows_cut (length columns.now) (fields_of fields)) }
    ensures width { IfOk result (λ rows. HaveWidth (length columns.now) rows) }
    ensures refused { (key : ℕ) → IfErr result (RefusesTableRows columns.now key (rows_cut (length columns.now) (fields_of fields))) }
{
    if let Some(row) = first_key_out_of_form(columns, &fields) {
        let field = field_at(&fields, row).to_vec(alloc)?;
        return Err(TableError::FieldForm {
            row,
            column: 0,
            field,
        });
    }
    let width = columns.len();
    let count = fields.len() / width;
    Ok(Rows {
        fields,
        width,
        count,
    })
}

// The rows of these columns, of which the first ones are the key.
fn read_any_rows(
    alloc: Global,
    columns: &[Form],
    key: usize,
    text: &[u8],
    has_header: bool,
) -> Result<Rows, TableError>
    requires begins { BeginsWithKey columns.now }
    requires some { 1 ≤ key }
    requires most { key ≤ 3 }
    requires within { key ≤ length columns.now }
    ensures rows { IfOk result (λ rows. rows ≡ rows_below_header has_header text.now) }
    ensures ok { IfOk result (λ rows. IsTable columns.now key (table_text rows) rows) }
    ensures refused { IfErr result (RefusesTableRows columns.now key (rows_below_header has_header text.now)) }
{
    let fields = fields_below_header(alloc, text, has_header, columns.len())?;
    let rows = rows_of(alloc, columns, fields)?;
    if let Some((row, column)) = first_out_of_form(columns, &rows) {
        let field = rows.field(row, column).to_vec(alloc)?;
        return Err(TableError::FieldForm { row, column, field });
    }
    if let Some((row, earlier)) = first_repeat(alloc, key, &rows)? {
        return Err(TableError::DuplicateKey { row, earlier });
    }
    Ok(rows)
}

/// Reads a table from a text in any spelling of CSV, below its header where it has one. Lines without a byte count for
/// nothing, as does a byte order mark.
///
/// # Errors
///
/// The first of K3 to K5 of all rows, which count from 0 below the header, or want of memory.
pub fn read_any_table(
    alloc: Global,
    name: TableName,
    text: &[u8],
    has_header: bool,
) -> Result<Table, TableError>
    ensures name { IfOk result (λ table. table.name ≡ name) }
    ensures rows { IfOk result (λ table. table.rows ≡ rows_below_header has_header text.now) }
    // Their text in their one spelling is a table.
    ensures ok { IfOk result (λ table. IsTable (columns_of name) (key_columns_of name) (table_text table.rows) table.rows) }
    ensures refused { IfErr result (RefusesTableRows (columns_of name) (key_columns_of name) (rows_below_header has_header text.now)) }
{
    let rows = read_any_rows(alloc, columns(name), key_columns(name), text, has_header)?;
    Ok(Table { name, rows })
}

/// Reads a file of deleted keys from a text in any spelling of CSV, of a table whose keys a deposit may delete.
///
/// # Errors
///
/// As [`read_any_table`].
pub fn read_any_keys(
    alloc: Global,
    name: TableName,
    text: &[u8],
    has_header: bool,
) -> Result<Keys, TableError>
    requires { has_deletes name ≡ true }
    ensures rows { IfOk result (λ keys. key_rows keys ≡ rows_below_header has_header text.now) }
    ensures ok { IfOk result (λ keys. IsTable (take 1 (columns_of name)) 1 (table_text (key_rows keys)) (key_rows keys)) }
    ensures refused { IfErr result (RefusesTableRows (take 1 (columns_of name)) 1 (rows_below_header has_header text.now)) }
{
    let rows = read_any_rows(alloc, &columns(name)[..1], 1, text, has_header)?;
    Ok(Keys::from_fields(rows.into_fields()))
}
