//! Rows in ascending order.
ghost use Rattle.std.specs.Prelude.{◌≡◌, ◌≤◌, ◌<◌, ◌↔◌, ◌-◌, [], ℕ, List, Contains, IfOk, IsTrue, get_or, length};
ghost use Rattle.std.specs.List.Sorted.{IsSortedBy};
ghost use Rattle.std.specs.declared.cmp.Ordering.TheVariants.{Equal};
ghost use Rattle.dnrd_csv.specs.Table.{HaveWidth};
ghost use Rattle.dnrd_csv.specs.inside.RowKeys.{borrowed_texts};
ghost use Rattle.deposit_tables.specs.Restored.{RowsAscend, row_cmp};
ghost use Rattle.deposit_tables.specs.inside.Places.{ArePlaces, is_below, six_fields};

use crate::copies::{push_row, room_for, rows_of_fields};
use dnrd_csv::Rows;
use std::alloc::{AllocError, Global};
use std::cmp::Ordering;

// The field of a row in a column: empty where there is no such row or column.
fn field_at(rows: &Rows, width: usize, place: usize, column: usize) -> &[u8]
    requires { HaveWidth width rows.now }
    ensures { result.now ≡ get_or (get_or rows.now place []) column [] }
{
    if place < rows.len() && column < width {
        rows.field(place, column)
    } else {
        b""
    }
}

/// The fields of a row, and empty ones behind them, six in all: no table has more columns.
pub(crate) fn fields_at(rows: &Rows, width: usize, place: usize) -> [&[u8]; 6]
    requires { HaveWidth width rows.now }
    ensures { borrowed_texts result ≡ six_fields (get_or rows.now place []) }
{
    [
        field_at(rows, width, place, 0),
        field_at(rows, width, place, 1),
        field_at(rows, width, place, 2),
        field_at(rows, width, place, 3),
        field_at(rows, width, place, 4),
        field_at(rows, width, place, 5),
    ]
}

/// How the row at a place compares with six fields.
pub(crate) fn compare_to(rows: &Rows, width: usize, place: usize, fields: &[&[u8]; 6]) -> Ordering
    requires { HaveWidth width rows.now }
    ensures { result ≡ row_cmp (six_fields (get_or rows.now place [])) (borrowed_texts fields.now) }
{
    fields_at(rows, width, place).cmp(fields)
}

// How the rows at two places compare.
fn compare_at(rows: &Rows, width: usize, one: usize, other: usize) -> Ordering
    requires { HaveWidth width rows.now }
    ensures { result ≡ row_cmp (six_fields (get_or rows.now one [])) (six_fields (get_or rows.now other [])) }
{
    compare_to(rows, width, one, &fields_at(rows, width, other))
}

fn places_of(alloc: Global, rows: &Rows) -> Result<Vec<usize>, AllocError>
    ensures { IfOk result (λ places. ArePlaces (length rows.now) places.items) }
{
    let mut places = Vec::with_capacity(alloc, rows.len())?;
    for place in 0..rows.len() {
        places.push(place)?;
    }
    Ok(places)
}

/// The places of rows, in ascending order of these.
pub(crate) fn sorted_places(
    alloc: Global,
    rows: &Rows,
    width: usize,
) -> Result<Vec<usize>, AllocError>
    requires { HaveWidth width rows.now }
    ensures places { IfOk result (λ places. ArePlaces (length rows.now) places.items) }
    ensures sorted { IfOk result (λ places. IsSortedBy (is_below rows.now) places.items) }
{
    let mut places = places_of(alloc, rows)?;
    places.sort_unstable_by(|one, other| compare_at(rows, width, *one, *other));
    Ok(places)
}

// Whether the row at a place among sorted ones is the same as the one before it.
fn is_repeat(rows: &Rows, width: usize, places: &[usize], i: usize) -> bool
    requires width { HaveWidth width rows.now }
    requires inside { i < length places.now }
    ensures { IsTrue result ↔ ((0 < i) × (row_cmp (six_fields (get_or rows.now (get_or places.now (i - 1) 0) [])) (six_fields (get_or rows.now (get_or places.now i 0) [])) ≡ Equal)) }
{
    i > 0 && compare_at(rows, width, places[i - 1], places[i]).is_eq()
}

/// Rows in ascending order, each once.
pub(crate) fn sorted_rows(alloc: Global, rows: &Rows, width: usize) -> Result<Rows, AllocError>
    requires some { 2 ≤ width }
    requires most { width ≤ 6 }
    requires width { HaveWidth width rows.now }
    ensures width { IfOk result (HaveWidth width) }
    ensures ascend { IfOk result RowsAscend }
    ensures same { IfOk result (λ sorted. (row : List (List ℕ)) → Contains sorted row ↔ Contains rows.now row) }
{
    let places = sorted_places(alloc, rows, width)?;
    let mut fields = room_for(alloc, rows, width)?;
    for i in 0..places.len() {
        if !is_repeat(rows, width, &places, i) {
            push_row(rows, places[i], width, &mut fields)?;
        }
    }
    Ok(rows_of_fields(fields, width))
}
