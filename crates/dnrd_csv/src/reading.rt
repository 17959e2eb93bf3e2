//! Reading rows in their one spelling.
ghost use Rattle.std.specs.Prelude.{◌≡◌, ◌≢◌, ◌⊎◌, ◌↔◌, ◌++◌, [], false, ℕ, List, IfErr, IfNone, IfOk, IfSome, IsSome, IsTrue, IsUtf8, OnOk, length, nat_eq};
ghost use Rattle.std.specs.List.{starts_with};
ghost use Rattle.csv.specs.Records.{fields_of, partial_of};
ghost use Rattle.dnrd_csv.specs.inside.RowReading.{IsAtRow, RefusesRow, RefusesRows};
ghost use Rattle.dnrd_csv.specs.Table.{HaveWidth};
ghost use Rattle.dnrd_csv.specs.Text.{IsRow, IsTextOf, byte_order_mark, row_text};

use crate::errors::TableError;
use crate::rows::Rows;
use crate::spelling::{field_at, write_row};
use csv::{ByteRecord, Reader, ReaderBuilder};
use std::alloc::{AllocError, Global};
use std::str;

// U+FEFF in UTF-8.
const BYTE_ORDER_MARK: [u8; 3] = [0xEF, 0xBB, 0xBF];

// Whether a row has a field, and is not one empty field.
fn is_row(row: &ByteRecord) -> bool
    ensures { IsTrue result ↔ IsRow (fields_of row.now) }
{
    match row.len() {
        0 => false,
        1 => !field_at(row, 0).is_empty(),
        _ => true,
    }
}

// The text of a row, in place of what was there.
fn spell(row: &ByteRecord, text: &mut Vec<u8>) -> Result<(), AllocError>
    ensures { OnOk result (text.new.items ≡ row_text (fields_of row.now)) }
{
    text.clear();
    write_row(row, 0, row.len(), text)
}

// What follows a front, if the text begins with it.
fn after<'t>(text: &'t [u8], front: &[u8]) -> Option<&'t [u8]>
    ensures some { IfSome result (λ rest. text.now ≡ front.now ++ rest.now) }
    ensures only { (rest : List ℕ) → text.now ≡ front.now ++ rest → IsSome result }
{
    if text.len() < front.len() {
        return None;
    }
    let (start, rest) = text.split_at(front.len());
    if start == front { Some(rest) } else { None }
}

// Reads the row at the front, behind so many, if it has its one spelling, and gives what follows it.
fn next_row<'t>(
    reader: &mut Reader<&'t [u8]>,
    row: &mut ByteRecord,
    spelled: &mut Vec<u8>,
    count: usize,
    text: &'t [u8],
) -> Result<&'t [u8], TableError>
    requires { IsAtRow reader.old text.now }
    ensures row { IfOk result (λ _. IsRow (fields_of row.new)) }
    ensures text { IfOk result (λ rest. text.now ≡ row_text (fields_of row.new) ++ rest.now) }
    ensures at { IfOk result (λ rest. IsAtRow reader.new rest.now) }
    ensures refused { IfErr result (λ fault. RefusesRow count text.now fault) }
{
    let found = reader.read_byte_record(row)?;
    if !found {
        return Err(TableError::NotRows { row: count });
    }
    if !is_row(row) {
        return Err(TableError::NotRows { row: count });
    }
    spell(row, spelled)?;
    match after(text, spelled) {
        Some(rest) => Ok(rest),
        None => Err(TableError::NotRows { row: count }),
    }
}

/// Adds the fields of a row.
pub fn append(row: &ByteRecord, fields: &mut ByteRecord) -> Result<(), AllocError>
    requires { partial_of fields.old ≡ [] }
    ensures fields { OnOk result (fields_of fields.new ≡ fields_of fields.old ++ fields_of row.now) }
    ensures partial { OnOk result (partial_of fields.new ≡ []) }
{
    for field in row.iter() {
        fields.push_field(field)?;
    }
    Ok(())
}

// Keeps a row behind so many while all have had the width. Gives the first without it, and how many fields that has.
fn keep(
    row: &ByteRecord,
    count: usize,
    width: usize,
    uneven: Option<(usize, usize)>,
    fields: &mut ByteRecord,
) -> Result<Option<(usize, usize)>, AllocError>
    requires { partial_of fields.old ≡ [] }
    ensures even { IfOk result (λ first. IfNone first ((uneven ≡ None) × (length (fields_of row.now) ≡ width)
        × (fields_of fields.new ≡ fields_of fields.old ++ fields_of row.now))) }
    ensures uneven { IfOk result (λ first. IfSome first (λ place. (uneven ≡ Some place)
        ⊎ ((uneven ≡ None) × (place.0 ≡ count) × (place.1 ≡ length (fields_of row.now)) × (place.1 ≢ width)))) }
    ensures partial { OnOk result (partial_of fields.new ≡ []) }
{
    if uneven.is_some() {
        return Ok(uneven);
    }
    if row.len() != width {
        return Ok(Some((count, row.len())));
    }
    append(row, fields)?;
    Ok(None)
}

// The rows of a text with no byte order mark.
fn read_unmarked(alloc: Global, text: &[u8], width: usize) -> Result<Rows, TableError>
    requires utf8 { IsUtf8 text.now }
    requires unmarked { starts_with nat_eq text.now byte_order_mark ≡ false }
    ensures ok { IfOk result (λ rows. IsTextOf text.now rows × HaveWidth width rows) }
    ensures refused { IfErr result (λ fault. RefusesRows width text.now fault) }
{
    let mut reader = ReaderBuilder::new()
        .has_headers(false)
        .flexible(true)
        .from_reader(alloc, text);
    let mut row = ByteRecord::new(alloc);
    let mut spelled = Vec::new(alloc);
    let mut fields = ByteRecord::new(alloc);
    let mut count: usize = 0;
    let mut uneven = None;
    let mut rest = text;
    while !rest.is_empty() {
        rest = next_row(&mut reader, &mut row, &mut spelled, count, rest)?;
        uneven = keep(&row, count, width, uneven, &mut fields)?;
        count += 1;
    }
    match uneven {
        Some((row, fields)) => Err(TableError::ColumnCount { row, fields }),
        None => Ok(Rows {
            fields,
            width,
            count,
        }),
    }
}

/// The rows of which the bytes are the text, if each has so many fields.
pub fn read_rows(alloc: Global, text: &[u8], width: usize) -> Result<Rows, TableError>
    ensures ok { IfOk result (λ rows. IsUtf8 text.now × IsTextOf text.now rows × HaveWidth width rows) }
    ensures refused { IfErr result (λ fault. RefusesRows width text.now fault) }
{
    if let Err(error) = str::from_utf8(text) {
        return Err(TableError::NotUtf8 {
            offset: error.valid_up_to(),
        });
    }
    if text.starts_with(BYTE_ORDER_MARK.as_slice()) {
        return Err(TableError::NotRows { row: 0 });
    }
    read_unmarked(alloc, text, width)
}
