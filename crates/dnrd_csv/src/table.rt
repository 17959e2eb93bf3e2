//! Reading and writing tables, and files of deleted keys.
ghost use Rattle.std.specs.Prelude.{◌≡◌, ◌≤◌, true, ℕ, List, IfErr, IfOk, MatchResult, length, take};
ghost use Rattle.deposit_name.specs.Tables.{has_deletes};
ghost use Rattle.dnrd_csv.specs.Table.{IsTable, RefusesTableFile, columns_of, key_columns_of};
ghost use Rattle.dnrd_csv.specs.Text.{key_rows, table_text};

use crate::errors::TableError;
use crate::form::Form;
use crate::keys::Keys;
use crate::layout::{columns, key_columns};
use crate::reading::read_rows;
use crate::row_checks::{first_out_of_form, first_repeat};
use crate::rows::Rows;
use deposit_name::TableName;
use std::alloc::{AllocError, Global};

/// A table, by its rows.
#[derive(Drop)]
pub struct Table {
    pub name: TableName,
    pub rows: Rows,
}

// The rows of these columns, of which the first ones are the key.
fn read_columns(
    alloc: Global,
    columns: &[Form],
    key: usize,
    text: &[u8],
) -> Result<Rows, TableError>
    requires some { 1 ≤ key }
    requires most { key ≤ 3 }
    requires within { key ≤ length columns.now }
    ensures ok { IfOk result (λ rows. IsTable columns.now key text.now rows) }
    ensures refused { IfErr result (λ fault. RefusesTableFile columns.now key text.now fault) }
{
    let rows = read_rows(alloc, text, columns.len())?;
    if let Some((row, column)) = first_out_of_form(columns, &rows) {
        let field = rows.field(row, column).to_vec(alloc)?;
        return Err(TableError::FieldForm { row, column, field });
    }
    if let Some((row, earlier)) = first_repeat(alloc, key, &rows)? {
        return Err(TableError::DuplicateKey { row, earlier });
    }
    Ok(rows)
}

/// Reads a table.
///
/// # Errors
///
/// The first fault of the whole file in the order of [`TableError`], or want of memory.
pub fn read_table(alloc: Global, name: TableName, text: &[u8]) -> Result<Table, TableError>
    // What is accepted is the text of the rows, which are in form.
    ensures name { IfOk result (λ table. table.name ≡ name) }
    ensures ok { IfOk result (λ table. IsTable (columns_of name) (key_columns_of name) text.now table.rows) }
    // The refusal is the first that stands.
    ensures refused { IfErr result (λ fault. RefusesTableFile (columns_of name) (key_columns_of name) text.now fault) }
    // What is the text of rows in form is accepted as these rows, unless memory runs out.
    ensures only { (rows : List (List (List ℕ))) → IsTable (columns_of name) (key_columns_of name) text.now rows
        → MatchResult result (λ table. table.rows ≡ rows) (λ fault. fault ≡ TableError.OutOfMemory) }
{
    let rows = read_columns(alloc, columns(name), key_columns(name), text)?;
    Ok(Table { name, rows })
}

/// Reads a file of deleted keys, of a table whose keys a deposit may delete.
///
/// # Errors
///
/// As [`read_table`].
pub fn read_keys(alloc: Global, name: TableName, text: &[u8]) -> Result<Keys, TableError>
    requires { has_deletes name ≡ true }
    ensures ok { IfOk result (λ keys. IsTable (take 1 (columns_of name)) 1 text.now (key_rows keys)) }
    ensures refused { IfErr result (λ fault. RefusesTableFile (take 1 (columns_of name)) 1 text.now fault) }
    ensures only { (rows : List (List (List ℕ))) → IsTable (take 1 (columns_of name)) 1 text.now rows
        → MatchResult result (λ keys. key_rows keys ≡ rows) (λ fault. fault ≡ TableError.OutOfMemory) }
{
    let rows = read_columns(alloc, &columns(name)[..1], 1, text)?;
    Ok(Keys::from_fields(rows.into_fields()))
}

/// The text of a table.
pub fn write_table(alloc: Global, table: &Table) -> Result<Vec<u8>, AllocError>
    ensures { IfOk result (λ text. text.items ≡ table_text table.now.rows) }
{
    let mut text = Vec::new(alloc);
    table.rows.write(&mut text)?;
    Ok(text)
}
