//! What takes the tables of a registry to later ones.
ghost use Rattle.std.specs.Prelude.{◌≡◌, ◌≤◌, ◌<◌, ◌++◌, [], All, Contains, IfOk, IsTrue, OnOk, false, filter, flat_map, length, map};
ghost use Rattle.csv.specs.Records.{fields_of, partial_of};
ghost use Rattle.dnrd_csv.specs.Table.{HaveWidth, columns_of};
ghost use Rattle.dnrd_csv.specs.inside.RowKeys.{borrowed_texts};
ghost use Rattle.deposit_name.specs.Tables.{has_deletes};
ghost use Rattle.deposit_name.specs.declared.table.TableName.{TableName as Table};
ghost use Rattle.deposit_verify.specs.References.{column};
ghost use Rattle.deposit_verify.specs.Tables.{AreAllTables, table_of};
ghost use Rattle.deposit_verify.specs.inside.SortedKeys.{AreSortedKeys};
ghost use Rattle.deposit_tables.specs.Owners.{owner_key};
ghost use Rattle.deposit_tables.specs.Restored.{AreRows};
ghost use Rattle.deposit_tables.specs.inside.Changing.{AreChangesOf, KeysAscend, changed_keys_of, is_owned_by, is_gone, keys_of_table};

use crate::changed_keys::ChangedKeys;
use crate::copies::{push_row, rows_of_fields};
use crate::order::sorted_rows;
use crate::owners::table_name_at;
use crate::rows::has_key;
use csv::ByteRecord;
use deposit_name::TableName;
use dnrd_csv::{Keys, Rows, columns};
use std::alloc::{AllocError, Global};

/// What takes some tables to later ones: of each of the eight, in the order of a deposit.
#[derive(Drop)]
pub struct Changes {
    /// The rows of its objects that are new or changed, ascending.
    pub contents: Vec<Rows>,
    /// The keys of its objects that are gone, ascending: none where it has rows of another table's objects.
    pub deletes: Vec<Keys>,
}

// Copies the rows of these objects, whose keys ascend, behind the fields.
fn push_rows_of(
    rows: &Rows,
    width: usize,
    keys: &[&[u8]],
    fields: &mut ByteRecord,
) -> Result<(), AllocError>
    requires some { 2 ≤ width }
    requires width { HaveWidth width rows.now }
    requires ascend { KeysAscend (borrowed_texts keys.now) }
    requires partial { partial_of fields.old ≡ [] }
    ensures fields { OnOk result (fields_of fields.new
        ≡ fields_of fields.old ++ flat_map (λ row. row) (filter (is_owned_by (borrowed_texts keys.now)) rows.now)) }
    ensures partial { OnOk result (partial_of fields.new ≡ []) }
{
    for row in 0..rows.len() {
        if has_key(keys, rows.field(row, 0)) {
            push_row(rows, row, width, fields)?;
        }
    }
    Ok(())
}

// The rows of these objects, whose keys ascend, in ascending order.
fn rows_of_objects(
    alloc: Global,
    rows: &Rows,
    width: usize,
    keys: &[&[u8]],
) -> Result<Rows, AllocError>
    requires some { 2 ≤ width }
    requires most { width ≤ 6 }
    requires width { HaveWidth width rows.now }
    requires ascend { KeysAscend (borrowed_texts keys.now) }
    ensures width { IfOk result (HaveWidth width) }
    ensures rows { IfOk result (AreRows (λ row. Contains rows.now row × Contains (borrowed_texts keys.now) (owner_key row))) }
{
    let mut fields = ByteRecord::new(alloc);
    push_rows_of(rows, width, keys, &mut fields)?;
    sorted_rows(alloc, &rows_of_fields(fields, width), width)
}

// The keys of rows, in ascending order.
fn sorted_keys<'t>(alloc: Global, rows: &'t Rows) -> Result<Vec<&'t [u8]>, AllocError>
    requires { All (λ row. 0 < length row) rows.now }
    ensures { IfOk result (λ keys. AreSortedKeys keys.items rows.now) }
{
    let mut keys = Vec::with_capacity(alloc, rows.len())?;
    for row in 0..rows.len() {
        keys.push(rows.field(row, 0))?;
    }
    keys.sort_unstable();
    Ok(keys)
}

// Of some keys those that no row has.
fn gone_keys(alloc: Global, keys: &[&[u8]], rows: &Rows) -> Result<Keys, AllocError>
    requires { All (λ row. 0 < length row) rows.now }
    ensures { IfOk result (λ gone. gone ≡ filter (is_gone (column 0 rows.now)) (borrowed_texts keys.now)) }
{
    let own = sorted_keys(alloc, rows)?;
    let mut fields = ByteRecord::new(alloc);
    for key in keys {
        if !has_key(&own, key) {
            fields.push_field(key)?;
        }
    }
    Ok(Keys::from_fields(fields))
}

// The keys of a table's objects that are gone: none where it has rows of another table's.
fn gone_in(
    alloc: Global,
    changed: &ChangedKeys<'_>,
    new: &Rows,
    name: TableName,
) -> Result<Keys, AllocError>
    requires { HaveWidth (length (columns_of name)) new.now }
    ensures gone { IfOk result (λ gone. IsTrue (has_deletes name) → gone ≡ filter (is_gone (column 0 new.now)) (changed_keys_of changed.now name)) }
    ensures none { IfOk result (λ gone. has_deletes name ≡ false → gone ≡ []) }
{
    if !name.has_deletes() {
        return Ok(Keys::from_fields(ByteRecord::new(alloc)));
    }
    gone_keys(alloc, changed.owners_in(name), new)
}

// The rows of the objects that are new or changed.
fn changed_contents(
    alloc: Global,
    changed: &ChangedKeys<'_>,
    new: &[Rows],
) -> Result<Vec<Rows>, AllocError>
    requires new { AreAllTables new.now }
    requires ascend { (name : Table) → KeysAscend (changed_keys_of changed.now name) }
    ensures all { IfOk result (λ contents. AreAllTables contents.items) }
    ensures rows { IfOk result (λ contents. (name : Table)
        → AreRows (λ row. Contains (table_of new.now name) row × Contains (changed_keys_of changed.now name) (owner_key row)) (table_of contents.items name)) }
{
    let mut contents = Vec::with_capacity(alloc, 8)?;
    for place in 0..8 {
        let name = table_name_at(place);
        let width = columns(name).len();
        let keys = changed.owners_in(name);
        contents.push(rows_of_objects(alloc, &new[place], width, keys)?)?;
    }
    Ok(contents)
}

// The keys of the objects that are gone.
fn changed_deletes(
    alloc: Global,
    changed: &ChangedKeys<'_>,
    new: &[Rows],
) -> Result<Vec<Keys>, AllocError>
    requires { AreAllTables new.now }
    ensures eight { IfOk result (λ deletes. length deletes.items ≡ 8) }
    ensures gone { IfOk result (λ deletes. (name : Table) → IsTrue (has_deletes name)
        → keys_of_table deletes.items name ≡ filter (is_gone (column 0 (table_of new.now name))) (changed_keys_of changed.now name)) }
    ensures none { IfOk result (λ deletes. (name : Table) → has_deletes name ≡ false → keys_of_table deletes.items name ≡ []) }
{
    let mut deletes = Vec::with_capacity(alloc, 8)?;
    for place in 0..8 {
        let name = table_name_at(place);
        deletes.push(gone_in(alloc, changed, &new[place], name)?)?;
    }
    Ok(deletes)
}

/// What takes each of some earlier tables to these.
///
/// # Errors
///
/// Want of memory, and nothing else.
pub fn changes_since(alloc: Global, olds: &[&[Rows]], new: &[Rows]) -> Result<Changes, AllocError>
    requires olds { All (λ old. AreAllTables old.now) olds.now }
    requires new { AreAllTables new.now }
    ensures { IfOk result (AreChangesOf (map (λ old. table_of old.now) olds.now) (table_of new.now)) }
{
    let changed = ChangedKeys::of(alloc, olds, new)?;
    Ok(Changes {
        contents: changed_contents(alloc, &changed, new)?,
        deletes: changed_deletes(alloc, &changed, new)?,
    })
}
