//! The keys of tables, and their order.
ghost use Rattle.std.specs.Prelude.{◌≡◌, ◌<◌, ◌↔◌, All, Contains, IfOk, IsTrue, length};
ghost use Rattle.std.specs.List.Sorted.{IsSorted};
ghost use Rattle.dnrd_csv.specs.inside.RowKeys.{borrowed_texts};
ghost use Rattle.deposit_verify.specs.References.{column};
ghost use Rattle.deposit_verify.specs.inside.SortedKeys.{AreSortedKeys, AreSortedTexts, borrowed_text_cmp};

use dnrd_csv::{Keys, Rows};
use std::alloc::{AllocError, Global};

/// The first fields of rows, in their order.
pub fn first_fields<'t>(alloc: Global, rows: &'t Rows) -> Result<Vec<&'t [u8]>, AllocError>
    requires { All (λ row. 0 < length row) rows.now }
    ensures { IfOk result (λ keys. borrowed_texts keys.items ≡ column 0 rows.now) }
{
    let mut keys = Vec::with_capacity(alloc, rows.len())?;
    for i in 0..rows.len() {
        keys.push(rows.field(i, 0))?;
    }
    Ok(keys)
}

/// The texts of a file of keys, in its order.
pub fn key_texts<'t>(alloc: Global, keys: &'t Keys) -> Result<Vec<&'t [u8]>, AllocError>
    ensures { IfOk result (λ texts. borrowed_texts texts.items ≡ keys.now) }
{
    let mut texts = Vec::with_capacity(alloc, keys.len())?;
    for i in 0..keys.len() {
        texts.push(keys.key(i))?;
    }
    Ok(texts)
}

/// Two lists of keys in one, in ascending order.
pub fn sorted_texts<'t>(
    alloc: Global,
    one: &[&'t [u8]],
    other: &[&'t [u8]],
) -> Result<Vec<&'t [u8]>, AllocError>
    ensures { IfOk result (λ keys. AreSortedTexts keys.items (borrowed_texts one.now) (borrowed_texts other.now)) }
{
    let mut keys = Vec::with_capacity(alloc, one.len())?;
    keys.extend_from_slice(one)?;
    keys.extend_from_slice(other)?;
    keys.sort_unstable();
    Ok(keys)
}

/// The keys of a table whose key is the first column, in ascending order.
pub fn sorted_keys<'t>(alloc: Global, rows: &'t Rows) -> Result<Vec<&'t [u8]>, AllocError>
    requires { All (λ row. 0 < length row) rows.now }
    ensures { IfOk result (λ keys. AreSortedKeys keys.items rows.now) }
{
    let mut keys = first_fields(alloc, rows)?;
    keys.sort_unstable();
    Ok(keys)
}

/// Whether a text is one of the keys, which ascend.
pub fn has_key(keys: &[&[u8]], text: &[u8]) -> bool
    requires { IsSorted borrowed_text_cmp keys.now }
    ensures { IsTrue result ↔ Contains (borrowed_texts keys.now) text.now }
{
    keys.binary_search(&text).is_ok()
}
