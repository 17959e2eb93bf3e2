//! Reading a registry's files.
ghost use Rattle.std.specs.Prelude.{◌≡◌, ℕ, List, Bool, All, IfErr, IfOk, IsTrue, Option, map, true};
ghost use Rattle.deposit_name.specs.Tables.{has_deletes};
ghost use Rattle.dnrd_csv.specs.AnySpelling.{HasHeader, rows_below_header};
ghost use Rattle.dnrd_csv.specs.Text.{key_rows, table_text};
ghost use Rattle.deposit_verify.specs.Deposit.{IsKeyFileOf, IsTableOf};
ghost use Rattle.deposit_verify.specs.declared.base.Base.{Base};
ghost use Rattle.deposit_verify.specs.declared.files_reason.FileList.TheVariants.{Contents, Deletes};
ghost use Rattle.deposit_pack.specs.Packable.{AreKeyRows, AreTableRows};
ghost use Rattle.deposit_pack.specs.PackErrors.{HasOwnHeader, HaveHeaders, IsReadingError, IsPackError, RefusesRowsOf, header_of};
ghost use Rattle.deposit_pack.specs.Packing.{objects_in, named_rows, rows_of};
ghost use Rattle.deposit_pack.specs.declared.source.Attributes.{Attributes};
ghost use Rattle.deposit_pack.specs.declared.source.Source.{Source as SourceFiles};
ghost use Rattle.deposit_pack.specs.inside.Reading.{IsSourceError, rows_placed};
ghost use Rattle.deposit_pack.specs.inside.Steps.{AreRead};

use crate::pack_error::PackError;
use crate::source::{Source, TableFile};
use deposit_verify::{FileList, FilePlace, FilesRead, NoTable};
use dnrd_csv::{Keys, Rows, TableError, column_names, has_header, read_any_keys, read_any_table};
use std::alloc::Global;

// Looks for the header of a file, of these names.
fn find_header(alloc: Global, file: FilePlace, names: &[&str], text: &[u8]) -> Result<(), PackError>
    ensures found { IfOk result (λ _. HasHeader (map (λ name. name.now) names.now) text.now) }
    ensures lacking { map (λ name. name.now) names.now ≡ header_of file.list file.name → IfErr result (IsSourceError true file text.now) }
{
    if has_header(alloc, names, text)? {
        return Ok(());
    }
    Err(PackError::Header(file))
}

// What is said of a file whose rows are refused.
fn table_error(file: FilePlace, fault: TableError) -> PackError
    ensures { (has_headers : Bool) (text : List ℕ) → RefusesRowsOf file.list (rows_placed has_headers file text) fault → IsSourceError has_headers file text result }
{
    match fault {
        TableError::OutOfMemory => PackError::Memory,
        _ => PackError::Table(NoTable { file, fault }),
    }
}

// The rows of a table's file.
fn read_rows(
    alloc: Global,
    file: FilePlace,
    text: &[u8],
    has_headers: bool,
) -> Result<Rows, PackError>
    requires { file.list ≡ Contents }
    ensures header { IfOk result (λ _. IsTrue has_headers → HasHeader (header_of Contents file.name) text.now) }
    ensures rows { IfOk result (λ rows. rows ≡ rows_below_header has_headers text.now) }
    ensures right { IfOk result (λ rows. IsTableOf file.name (table_text rows) rows) }
    ensures refused { IfErr result (IsSourceError has_headers file text.now) }
{
    if has_headers {
        find_header(alloc, file, column_names(file.name), text)?;
    }
    let read = read_any_table(alloc, file.name, text, has_headers);
    let table = read.map_err(|fault| table_error(file, fault))?;
    Ok(table.rows)
}

// The keys of a file of deleted keys.
fn read_keys(
    alloc: Global,
    file: FilePlace,
    text: &[u8],
    has_headers: bool,
) -> Result<Keys, PackError>
    requires list { file.list ≡ Deletes }
    requires name { IsTrue (has_deletes file.name) }
    ensures header { IfOk result (λ _. IsTrue has_headers → HasHeader (header_of Deletes file.name) text.now) }
    ensures rows { IfOk result (λ keys. key_rows keys ≡ rows_below_header has_headers text.now) }
    ensures right { IfOk result (λ keys. IsKeyFileOf file.name (table_text (key_rows keys)) (key_rows keys)) }
    ensures refused { IfErr result (IsSourceError has_headers file text.now) }
{
    if has_headers {
        find_header(alloc, file, &column_names(file.name)[..1], text)?;
    }
    read_any_keys(alloc, file.name, text, has_headers).map_err(|fault| table_error(file, fault))
}

/// The rows of the file of each of some tables.
///
/// # Errors
///
/// One of U4 and U5 that holds, or want of memory.
pub fn read_contents(
    alloc: Global,
    contents: &[TableFile<'_>],
    has_headers: bool,
) -> Result<Vec<Rows>, PackError>
    ensures headers { IfOk result (λ _. IsTrue has_headers → All (HasOwnHeader Contents) contents.now) }
    ensures rows { IfOk result (λ tables. tables.items ≡ rows_of (map (named_rows has_headers) contents.now)) }
    ensures right { IfOk result (λ tables. All AreTableRows (map (named_rows has_headers) contents.now)) }
    ensures file { IfErr result IsReadingError }
    ensures refused { (a : Attributes) (source : SourceFiles) (base : Option Base) → source.contents.now ≡ contents.now → source.has_headers ≡ has_headers
        → IfErr result (IsPackError a source base) }
{
    let mut tables = Vec::with_capacity(alloc, contents.len())?;
    for (place, TableFile { name, text }) in contents.iter().enumerate() {
        let list = FileList::Contents;
        let file = FilePlace {
            list,
            place,
            name: *name,
        };
        tables.push(read_rows(alloc, file, text, has_headers)?)?;
    }
    Ok(tables)
}

// The keys of each file of deleted keys.
fn read_deletes(
    alloc: Global,
    deletes: &[TableFile<'_>],
    has_headers: bool,
) -> Result<Vec<Keys>, PackError>
    requires { All (λ f. IsTrue (has_deletes f.name)) deletes.now }
    ensures headers { IfOk result (λ _. IsTrue has_headers → All (HasOwnHeader Deletes) deletes.now) }
    ensures rows { IfOk result (λ deleted. map key_rows deleted.items ≡ rows_of (map (named_rows has_headers) deletes.now)) }
    ensures right { IfOk result (λ deleted. All AreKeyRows (map (named_rows has_headers) deletes.now)) }
    ensures refused { (a : Attributes) (source : SourceFiles) (base : Option Base) → source.deletes.now ≡ deletes.now → source.has_headers ≡ has_headers
        → IfErr result (IsPackError a source base) }
{
    let mut deleted = Vec::with_capacity(alloc, deletes.len())?;
    for (place, TableFile { name, text }) in deletes.iter().enumerate() {
        let list = FileList::Deletes;
        let file = FilePlace {
            list,
            place,
            name: *name,
        };
        deleted.push(read_keys(alloc, file, text, has_headers)?)?;
    }
    Ok(deleted)
}

/// Reads the files of a registry, of which each list names tables that it may name.
pub fn read_source(alloc: Global, source: &Source<'_>) -> Result<FilesRead, PackError>
    requires { All (λ f. IsTrue (has_deletes f.name)) (objects_in source.now).deletes }
    ensures headers { IfOk result (λ _. HaveHeaders source.entry.now) }
    ensures read { IfOk result (AreRead (objects_in source.entry.now)) }
    ensures refused { (a : Attributes) (base : Option Base) → IfErr result (IsPackError a source.entry.now base) }
{
    let tables = read_contents(alloc, source.contents, source.has_headers)?;
    let deleted = read_deletes(alloc, source.deletes, source.has_headers)?;
    Ok(FilesRead { tables, deleted })
}
