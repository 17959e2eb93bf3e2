//! The tables of a registry after one deposit more.
ghost use Rattle.std.specs.Prelude.{◌≡◌, ◌↔◌, [], ℕ, List, Contains, IfOk, length};
ghost use Rattle.std.specs.List.Sorted.{IsSorted};
ghost use Rattle.dnrd_csv.specs.Table.{HaveWidth, columns_of};
ghost use Rattle.dnrd_csv.specs.inside.RowKeys.{borrowed_texts};
ghost use Rattle.deposit_name.specs.declared.table.TableName.{TableName};
ghost use Rattle.envelope.specs.Envelope.{env_of};
ghost use Rattle.deposit_verify.specs.Rows.{rows_under};
ghost use Rattle.deposit_verify.specs.Tables.{AreAllTables, AreCountable, table_of};
ghost use Rattle.deposit_verify.specs.inside.SortedKeys.{borrowed_text_cmp};
ghost use Rattle.deposit_tables.specs.RowsAfter.{renewed_by, rows_after, deposit_rows, tables_after};
ghost use Rattle.deposit_tables.specs.inside.Restoring.{reading_in};

use crate::copies::rows_of_fields;
use crate::owners::{owner_table, table_name_at};
use crate::rows::rows_after;
use csv::ByteRecord;
use deposit_name::TableName;
use deposit_verify::{WholeDeposit, contained_keys, deleted_keys, deletes_of};
use dnrd_csv::{Rows, columns};
use envelope::FileEntry;
use std::alloc::{AllocError, Global};

// The keys of the objects whose rows of a table a deposit renews, in ascending order.
fn renewed_keys<'d>(
    alloc: Global,
    whole: &'d WholeDeposit,
    name: TableName,
) -> Result<Vec<&'d [u8]>, AllocError>
    requires { AreCountable (env_of whole.now.envelope) whole.now.files.tables.items whole.now.files.deleted.items }
    ensures sorted { IfOk result (λ keys. IsSorted borrowed_text_cmp keys.items) }
    ensures same { IfOk result (λ keys. (key : List ℕ) → Contains (borrowed_texts keys.items) key
        ↔ Contains (renewed_by (reading_in whole.now) name) key) }
{
    let WholeDeposit { envelope, files } = whole;
    let owner = owner_table(name);
    let contained = contained_keys(alloc, &envelope.contents, &files.tables, owner)?;
    let deleted = deleted_keys(alloc, deletes_of(envelope), &files.deleted, owner)?;
    let mut keys = contained_keys(alloc, &envelope.contents, &files.tables, name)?;
    keys.extend_from_slice(&contained)?;
    keys.extend_from_slice(&deleted)?;
    keys.sort_unstable();
    Ok(keys)
}

// The table under the entry of a name, or the given one, which has no rows, where there is no such entry.
fn table_under<'f>(
    entries: &[FileEntry],
    tables: &'f [Rows],
    name: TableName,
    none: &'f Rows,
) -> &'f Rows
    requires count { length tables.now ≡ length entries.now }
    requires none { none.now ≡ [] }
    ensures { result.now ≡ rows_under entries.now tables.now name }
{
    for i in 0..entries.len() {
        if entries[i].name == name {
            return &tables[i];
        }
    }
    none
}

// A table after a deposit.
fn table_after(
    alloc: Global,
    before: &Rows,
    whole: &WholeDeposit,
    name: TableName,
) -> Result<Rows, AllocError>
    requires files { AreCountable (env_of whole.now.envelope) whole.now.files.tables.items whole.now.files.deleted.items }
    requires before { HaveWidth (length (columns_of name)) before.now }
    requires contained { HaveWidth (length (columns_of name)) (deposit_rows (reading_in whole.now) name) }
    ensures { IfOk result (λ rows. rows ≡ rows_after before.now (deposit_rows (reading_in whole.now) name) (renewed_by (reading_in whole.now) name)) }
{
    let renewed = renewed_keys(alloc, whole, name)?;
    let width = columns(name).len();
    let none = rows_of_fields(ByteRecord::new(alloc), width);
    let contained = table_under(&whole.envelope.contents, &whole.files.tables, name, &none);
    Ok(rows_after(alloc, before, contained, width, &renewed)?)
}

// All tables after a deposit.
pub(crate) fn tables_after(
    alloc: Global,
    before: Vec<Rows>,
    whole: &WholeDeposit,
) -> Result<Vec<Rows>, AllocError>
    requires files { AreCountable (env_of whole.now.envelope) whole.now.files.tables.items whole.now.files.deleted.items }
    requires before { AreAllTables before.items }
    requires contained { (name : TableName) → HaveWidth (length (columns_of name)) (deposit_rows (reading_in whole.now) name) }
    ensures eight { IfOk result (λ tables. length tables.items ≡ 8) }
    ensures each { IfOk result (λ tables. (name : TableName) → table_of tables.items name ≡ tables_after (table_of before.items) (reading_in whole.now) name) }
{
    let mut tables = before;
    for place in 0..8 {
        let name = table_name_at(place);
        tables[place] = table_after(alloc, &tables[place], whole, name)?;
    }
    Ok(tables)
}
