//! Whether rows have the forms and the keys of a table, and where they do not.
ghost use Rattle.std.specs.Prelude.{◌≡◌, ◌≤◌, ◌<◌, ◌↔◌, [], true, All, IfNone, IfOk, IfSome, IsSomeAnd, IsTrue, MatchOption, get_or, length, map, take};
ghost use Rattle.std.specs.List.{AllAdjacentBelow, AllZip};
ghost use Rattle.dnrd_csv.specs.Form.{HasForm};
ghost use Rattle.dnrd_csv.specs.inside.RowKeys.{AreAtTheirPlaces, AreNeighbours, Ascend, borrowed_texts, key_texts, keys_of, padded_key};
ghost use Rattle.dnrd_csv.specs.Table.{HaveForms, HaveDistinctKeys, HaveWidth, IsFirstFieldOutOfForm, IsFirstOutOfForm, IsFirstRepeat};

use crate::form::Form;
use crate::rows::Rows;
use std::alloc::{AllocError, Global};

// The first column of a row of which the field is not in its form.
fn column_out_of_form(columns: &[Form], rows: &Rows, i: usize) -> Option<usize>
    requires row { i < length rows.now }
    requires columns { length (get_or rows.now i []) ≡ length columns.now }
    ensures none { IfNone result (AllZip HasForm columns.now (get_or rows.now i [])) }
    ensures some { IfSome result (λ column. IsFirstFieldOutOfForm columns.now (get_or rows.now i []) column (get_or (get_or rows.now i []) column [])) }
{
    for (column, form) in columns.iter().enumerate() {
        if !form.accepts(rows.field(i, column)) {
            return Some(column);
        }
    }
    None
}

/// The row and the column of the first field that is not in the form of its column.
pub fn first_out_of_form(columns: &[Form], rows: &Rows) -> Option<(usize, usize)>
    requires { HaveWidth (length columns.now) rows.now }
    ensures none { IfNone result (HaveForms columns.now rows.now) }
    ensures some { IfSome result (λ place. IsFirstOutOfForm columns.now rows.now place.0 place.1 (get_or (get_or rows.now place.0 []) place.1 [])) }
{
    for row in 0..rows.len() {
        if let Some(column) = column_out_of_form(columns, rows, row) {
            return Some((row, column));
        }
    }
    None
}

// The key of a row: its first one, two or three fields, with empty ones after them.
fn key_of(rows: &Rows, i: usize, key: usize) -> [&[u8]; 3]
    requires row { i < length rows.now }
    requires some { 1 ≤ key }
    requires most { key ≤ 3 }
    requires within { key ≤ length (get_or rows.now i []) }
    ensures { borrowed_texts result ≡ padded_key (take key (get_or rows.now i [])) }
{
    let second = if key >= 2 { rows.field(i, 1) } else { b"" };
    let third = if key >= 3 { rows.field(i, 2) } else { b"" };
    [rows.field(i, 0), second, third]
}

// Whether each row's key is above the one before it.
fn keys_ascend(key: usize, rows: &Rows) -> bool
    requires some { 1 ≤ key }
    requires most { key ≤ 3 }
    requires within { All (λ row. key ≤ length row) rows.now }
    ensures { result ≡ true → HaveDistinctKeys key rows.now }
{
    for i in 1..rows.len() {
        let last = key_of(rows, i - 1, key);
        let next = key_of(rows, i, key);
        if !last.cmp(&next).is_lt() {
            return false;
        }
    }
    true
}

// The keys of rows, in their order.
fn keys_of<'r>(alloc: Global, key: usize, rows: &'r Rows) -> Result<Vec<[&'r [u8]; 3]>, AllocError>
    requires some { 1 ≤ key }
    requires most { key ≤ 3 }
    requires within { All (λ row. key ≤ length row) rows.now }
    ensures { IfOk result (λ keys. map borrowed_texts keys.items ≡ keys_of key rows.now) }
{
    let mut keys = Vec::with_capacity(alloc, rows.len())?;
    for i in 0..rows.len() {
        keys.push(key_of(rows, i, key))?;
    }
    Ok(keys)
}

// Whether each of the keys is above the one before it.
fn ascend(keys: &[[&[u8]; 3]]) -> bool
    ensures { IsTrue result ↔ Ascend (map borrowed_texts keys.now) }
{
    for i in 1..keys.len() {
        if !keys[i - 1].cmp(&keys[i]).is_lt() {
            return false;
        }
    }
    true
}

// Whether no two rows agree in their first fields, those of the key.
fn have_distinct_keys(alloc: Global, key: usize, rows: &Rows) -> Result<bool, AllocError>
    requires some { 1 ≤ key }
    requires most { key ≤ 3 }
    requires within { All (λ row. key ≤ length row) rows.now }
    ensures { IfOk result (λ have. IsTrue have ↔ HaveDistinctKeys key rows.now) }
{
    if keys_ascend(key, rows) {
        return Ok(true);
    }
    let mut keys = keys_of(alloc, key, rows)?;
    keys.sort_unstable();
    Ok(ascend(&keys))
}

// The keys of rows, each with the place of its row.
fn placed_keys<'r>(
    alloc: Global,
    key: usize,
    rows: &'r Rows,
) -> Result<Vec<([&'r [u8]; 3], usize)>, AllocError>
    requires some { 1 ≤ key }
    requires most { key ≤ 3 }
    requires within { All (λ row. key ≤ length row) rows.now }
    ensures keys { IfOk result (λ placed. map key_texts placed.items ≡ keys_of key rows.now) }
    ensures places { IfOk result (λ placed. AreAtTheirPlaces placed.items) }
{
    let mut placed = Vec::with_capacity(alloc, rows.len())?;
    for i in 0..rows.len() {
        placed.push((key_of(rows, i, key), i))?;
    }
    Ok(placed)
}

// Whether a row stands before the first one that was found.
fn is_before(row: usize, first: Option<(usize, usize)>) -> bool
    ensures { IsTrue result ↔ IfSome first (λ place. row < place.0) }
{
    match first {
        Some((least, _)) => row < least,
        None => true,
    }
}

// Of sorted keys, the least row that stands behind a neighbour with its key, and that neighbour's row.
fn first_of_neighbours(placed: &[([&[u8]; 3], usize)]) -> Option<(usize, usize)>
    ensures least { AllAdjacentBelow (λ one other. key_texts one ≡ key_texts other → IsSomeAnd result (λ first. first.0 ≤ other.1)) placed.now (length placed.now) }
    ensures found { IfSome result (λ first. AreNeighbours placed.now first.0 first.1) }
{
    let mut first = None;
    for i in 1..placed.len() {
        let (last, earlier) = placed[i - 1];
        let (next, row) = placed[i];
        if last == next && is_before(row, first) {
            first = Some((row, earlier));
        }
    }
    first
}

/// The first row that agrees with an earlier one in its first fields, those of the key, and that earlier row.
pub fn first_repeat(
    alloc: Global,
    key: usize,
    rows: &Rows,
) -> Result<Option<(usize, usize)>, AllocError>
    requires some { 1 ≤ key }
    requires most { key ≤ 3 }
    requires within { All (λ row. key ≤ length row) rows.now }
    ensures { IfOk result (λ found. MatchOption found (HaveDistinctKeys key rows.now) (λ first. IsFirstRepeat key rows.now first.0 first.1)) }
{
    if have_distinct_keys(alloc, key, rows)? {
        return Ok(None);
    }
    let mut placed = placed_keys(alloc, key, rows)?;
    placed.sort_unstable();
    Ok(first_of_neighbours(&placed))
}
