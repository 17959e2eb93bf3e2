//! Packing what has changed between the tables after a chain and those of a registry.
ghost use Rattle.std.specs.Prelude.{◌≡◌, ◌≢◌, ◌≤◌, ◌↔◌, [], ℕ, All, IfErr, IfOk, IfSome, IsTrue, List, MatchOption, false, length, map};
ghost use Rattle.std.specs.List.{AllZip};
ghost use Rattle.dnrd_csv.specs.Text.{key_rows, table_text};
ghost use Rattle.deposit_name.specs.Tables.{has_deletes};
ghost use Rattle.deposit_name.specs.declared.table.TableName.{TableName as Table};
ghost use Rattle.deposit_verify.specs.Chain.{IsChain};
ghost use Rattle.deposit_verify.specs.Deposit.{IsKeyFileOf, IsTableOf};
ghost use Rattle.deposit_verify.specs.Places.{all_tables};
ghost use Rattle.deposit_verify.specs.References.{AreReferencesKept};
ghost use Rattle.deposit_verify.specs.Tables.{AreAllTables, table_of};
ghost use Rattle.deposit_verify.specs.declared.base.Base.{Base as BaseKeys};
ghost use Rattle.deposit_verify.specs.declared.files_reason.FileList.TheVariants.{Contents};
ghost use Rattle.deposit_pack.specs.PackErrors.{HasOwnHeader};
ghost use Rattle.deposit_pack.specs.Packing.{deposit_length_max, named_rows, objects_in, table_names};
ghost use Rattle.deposit_pack.specs.Unpacking.{file_names};
ghost use Rattle.deposit_pack.specs.declared.source.Attributes.{Attributes as AttributesOf};
ghost use Rattle.deposit_tables.specs.Restored.{AreTablesOf};
ghost use Rattle.deposit_tables.specs.Whole.{IsPackedSince, IsWholeError, chains_before, tables_in};
ghost use Rattle.deposit_tables.specs.inside.Changing.{AreChangesOf, keys_of_table};
ghost use Rattle.deposit_tables.specs.inside.Packing.{MayBeWritten, ArePackedChanges, IsChangesError, named_rows_under, text_rows};

use crate::changes::{Changes, changes_since};
use crate::laws::law_restored;
use crate::owners::table_name_at;
use crate::restoring::{restore, restore_full};
use crate::whole_error::WholeError;
use deposit_name::{Kind, TableName};
use deposit_pack::{Attributes, PackError, Source, TableFile, pack, read_contents};
use deposit_verify::{Base, missing_key};
use dnrd_csv::{Keys, Rows, law_table_reader};
use std::alloc::{AllocError, Global};

// The file of a table, or of its deleted keys, in its one spelling.
#[derive(Drop)]
struct TableText {
    name: TableName,
    text: Vec<u8>,
}

// The files of the tables that have a row.
fn contents_texts(alloc: Global, tables: &[Rows]) -> Result<Vec<TableText>, AllocError>
    requires eight { length tables.now ≡ 8 }
    requires in_form { (name : Table) → IsTableOf name (table_text (table_of tables.now name)) (table_of tables.now name) }
    ensures rows { IfOk result (λ texts. (name : Table) → named_rows_under (map text_rows texts.items) name ≡ table_of tables.now name) }
    ensures some { IfOk result (λ texts. All (λ f. f.rows ≢ []) (map text_rows texts.items)) }
{
    law_table_reader();
    let mut texts = Vec::with_capacity(alloc, 8)?;
    for place in 0..8 {
        if !tables[place].is_empty() {
            let name = table_name_at(place);
            let mut text = Vec::new(alloc);
            tables[place].write(&mut text)?;
            texts.push(TableText { name, text })?;
        }
    }
    Ok(texts)
}

// The files of the keys that are deleted, of the tables of which there are any.
fn deletes_texts(alloc: Global, deletes: &[Keys]) -> Result<Vec<TableText>, AllocError>
    requires eight { length deletes.now ≡ 8 }
    requires none { (name : Table) → has_deletes name ≡ false → keys_of_table deletes.now name ≡ [] }
    requires in_form { (name : Table) → IsTrue (has_deletes name) → IsKeyFileOf name (table_text (key_rows (keys_of_table deletes.now name))) (key_rows (keys_of_table deletes.now name)) }
    ensures rows { IfOk result (λ texts. (name : Table) → named_rows_under (map text_rows texts.items) name ≡ key_rows (keys_of_table deletes.now name)) }
    ensures some { IfOk result (λ texts. All (λ f. f.rows ≢ []) (map text_rows texts.items)) }
{
    law_table_reader();
    let mut texts = Vec::with_capacity(alloc, 8)?;
    for place in 0..8 {
        if !deletes[place].is_empty() {
            let name = table_name_at(place);
            let mut text = Vec::new(alloc);
            deletes[place].write(&mut text)?;
            texts.push(TableText { name, text })?;
        }
    }
    Ok(texts)
}

// The files under their names.
fn table_files<'t>(alloc: Global, texts: &'t [TableText]) -> Result<Vec<TableFile<'t>>, AllocError>
    ensures { IfOk result (λ files. map (named_rows false) files.items ≡ map text_rows texts.now) }
{
    texts
        .iter()
        .map(|table| TableFile {
            name: table.name,
            text: &table.text,
        })
        .collect(alloc)
}

// Packs changes.
fn pack_changes(
    alloc: Global,
    attributes: &Attributes,
    changes: &Changes,
    base: &Base,
) -> Result<Vec<u8>, PackError>
    requires { MayBeWritten changes.now }
    ensures packed { (olds : List (Table → List (List (List ℕ)))) (new : Table → List (List (List ℕ))) → AreChangesOf olds new changes.now
        → IfOk result (λ bytes. ArePackedChanges olds new attributes.now base.now bytes.items) }
    ensures length { IfOk result (λ bytes. length bytes.items ≤ deposit_length_max) }
    ensures refused { (olds : List (Table → List (List (List ℕ)))) (new : Table → List (List (List ℕ))) → AreChangesOf olds new changes.now
        → IfErr result (IsChangesError olds new attributes.now base.now) }
{
    law_table_reader();
    let contents_texts = contents_texts(alloc, &changes.contents)?;
    let deletes_texts = deletes_texts(alloc, &changes.deletes)?;
    let contents = table_files(alloc, &contents_texts)?;
    let deletes = table_files(alloc, &deletes_texts)?;
    let source = Source {
        contents: &contents,
        deletes: &deletes,
        has_headers: false,
    };
    pack(alloc, attributes, &source, Some(base))
}

// Whether these are the files of all eight tables, in the order of a deposit.
fn are_all_tables(files: &[TableFile<'_>]) -> bool
    ensures { IsTrue result ↔ file_names files.now ≡ all_tables }
{
    if files.len() != 8 {
        return false;
    }
    for (place, file) in files.iter().enumerate() {
        if file.name != table_name_at(place) {
            return false;
        }
    }
    true
}

// The tables of a registry's files, in which each object that a row names is there.
fn read_whole_tables(alloc: Global, source: &Source<'_>) -> Result<Vec<Rows>, WholeError>
    ensures all { IfOk result (λ tables. AreAllTables tables.items) }
    ensures rows { IfOk result (λ tables. table_of tables.items ≡ tables_in source.now) }
    ensures in_form { IfOk result (λ tables. (name : Table) → IsTableOf name (table_text (table_of tables.items name)) (table_of tables.items name)) }
    ensures headers { IfOk result (λ _. IsTrue source.now.has_headers → All (HasOwnHeader Contents) source.now.contents.now) }
    ensures kept { IfOk result (λ _. AreReferencesKept (tables_in source.now)) }
    ensures named { IfOk result (λ _. table_names (objects_in source.now).contents ≡ all_tables) }
    ensures refused { (chain : List (List ℕ)) (a : AttributesOf) (base : BaseKeys) → IfErr result (IsWholeError chain a source.entry.now base) }
{
    if !are_all_tables(source.contents) {
        return Err(WholeError::Tables);
    }
    let tables = read_contents(alloc, source.contents, source.has_headers)?;
    match missing_key(alloc, &tables)? {
        Some(missing) => Err(WholeError::Reference(missing)),
        None => Ok(tables),
    }
}

// The tables after each of the chains that a deposit of this kind continues: none where these deposits are no chain.
fn tables_before(
    alloc: Global,
    kind: Kind,
    chain: Vec<Vec<u8>>,
) -> Result<Option<Vec<Vec<Rows>>>, AllocError>
    ensures chained { IfOk result (λ found. MatchOption found (¬ IsChain (map (λ d. d.items) chain.items)) (λ _. IsChain (map (λ d. d.items) chain.items))) }
    ensures all { IfOk result (λ found. IfSome found (λ olds. All (λ old. AreAllTables old.items) olds.items)) }
    ensures restored { IfOk result (λ found. IfSome found (λ olds. AllZip AreTablesOf (chains_before kind (map (λ d. d.items) chain.items)) (map (λ old. table_of old.items) olds.items))) }
{
    let mut olds = Vec::with_capacity(alloc, 2)?;
    if kind == Kind::Incr && chain.len() > 1 {
        match restore_full(alloc, &chain[0])? {
            Some(tables) => olds.push(tables)?,
            None => return Ok(None),
        }
    }
    match restore(alloc, chain)? {
        Some(tables) => olds.push(tables)?,
        None => return Ok(None),
    }
    Ok(Some(olds))
}

/// Packs the deposit of what has changed between a chain of deposits, which it continues, and the tables of a registry's
/// files: each object that is new or changed, with all its rows, and the key of each that is gone. An incremental deposit
/// also has what has changed since the full one. The files of `source` are those of all eight tables; its deleted keys are
/// not read. `base` is the keys that the deposit adds to. The deposits of the chain are freed before the files are read.
///
/// # Errors
///
/// One of U1 to U12 that holds, no chain, or want of memory.
pub fn pack_whole(
    alloc: Global,
    attributes: &Attributes,
    source: &Source<'_>,
    chain: Vec<Vec<u8>>,
    base: &Base,
) -> Result<Vec<u8>, WholeError>
    // It is the deposit of what has changed.
    ensures packed { IfOk result (λ bytes. IsPackedSince (map (λ d. d.items) chain.items) attributes.now (tables_in source.entry.now) base.now bytes.items) }
    ensures length { IfOk result (λ bytes. length bytes.items ≤ deposit_length_max) }
    // The files are those of all tables, each with its header where they have any, and whatever an object names is there.
    ensures named { IfOk result (λ _. table_names (objects_in source.entry.now).contents ≡ all_tables) }
    ensures headers { IfOk result (λ _. IsTrue source.entry.now.has_headers → All (HasOwnHeader Contents) source.entry.now.contents.now) }
    ensures kept { IfOk result (λ _. AreReferencesKept (tables_in source.entry.now)) }
    // The deposits are a chain.
    ensures chained { IfOk result (λ _. IsChain (map (λ d. d.items) chain.items)) }
    ensures refused { IfErr result (IsWholeError (map (λ d. d.items) chain.items) attributes.now source.entry.now base.now) }
{
    law_restored();
    let Some(olds) = tables_before(alloc, attributes.name.kind, chain)? else {
        return Err(WholeError::Chain);
    };
    let new = read_whole_tables(alloc, source)?;
    let before: Vec<&[Rows]> = olds.iter().map(|old| old.as_slice()).collect(alloc)?;
    let changes = changes_since(alloc, &before, &new)?;
    Ok(pack_changes(alloc, attributes, &changes, base)?)
}
