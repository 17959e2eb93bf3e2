//! The keys that a deposit names.
ghost use Rattle.std.specs.Prelude.{◌≡◌, ◌<◌, ℕ, List, [], All, IfNone, IfOk, IfSome, get_or, length, map};
ghost use Rattle.dnrd_csv.specs.Text.{key_rows};
ghost use Rattle.deposit_verify.specs.References.{column};
ghost use Rattle.deposit_verify.specs.Rows.{rows_under};

use crate::keys::{first_fields, key_texts};
use deposit_name::TableName;
use dnrd_csv::{Keys, Rows};
use envelope::FileEntry;
use std::alloc::{AllocError, Global};

// The place of the entry of a name, where there is one.
fn place_of(entries: &[FileEntry], name: TableName) -> Option<usize>
    ensures inside { IfSome result (λ i. i < length entries.now) }
    ensures found { IfSome result (λ i. (tables : List (List (List (List ℕ)))) → length tables ≡ length entries.now
        → get_or tables i [] ≡ rows_under entries.now tables name) }
    ensures none { IfNone result ((tables : List (List (List (List ℕ)))) → length tables ≡ length entries.now
        → [] ≡ column 0 (rows_under entries.now tables name)) }
{
    for i in 0..entries.len() {
        if entries[i].name == name {
            return Some(i);
        }
    }
    None
}

/// The keys that stand in the table of a name, in the order of its rows.
pub fn contained_keys<'t>(
    alloc: Global,
    entries: &[FileEntry],
    tables: &'t [Rows],
    name: TableName,
) -> Result<Vec<&'t [u8]>, AllocError>
    requires count { length tables.now ≡ length entries.now }
    requires fields { All (λ rows. All (λ row. 0 < length row) rows) tables.now }
    ensures { IfOk result (λ keys. map (λ key. key.now) keys.items ≡ column 0 (rows_under entries.now tables.now name)) }
{
    match place_of(entries, name) {
        Some(i) => first_fields(alloc, &tables[i]),
        None => Ok(Vec::new(alloc)),
    }
}

/// The deleted keys of the table of a name, in their order.
pub fn deleted_keys<'t>(
    alloc: Global,
    entries: &[FileEntry],
    deleted: &'t [Keys],
    name: TableName,
) -> Result<Vec<&'t [u8]>, AllocError>
    requires { length deleted.now ≡ length entries.now }
    ensures { IfOk result (λ keys. map (λ key. key.now) keys.items
        ≡ column 0 (rows_under entries.now (map key_rows deleted.now) name)) }
{
    match place_of(entries, name) {
        Some(i) => key_texts(alloc, &deleted[i]),
        None => Ok(Vec::new(alloc)),
    }
}
