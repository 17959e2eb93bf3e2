//! Reading the files of a deposit as tables.
ghost use Rattle.std.specs.Prelude.{◌≡◌, true, ℕ, List, All, IfErr, IfOk, IsTrue, MatchResult, length};
ghost use Rattle.std.specs.List.{AllZip};
ghost use Rattle.dnrd_csv.specs.inside.RowKeys.{borrowed_texts};
ghost use Rattle.deposit_name.specs.Tables.{has_deletes};
ghost use Rattle.dnrd_csv.specs.Text.{key_rows};
ghost use Rattle.deposit_verify.specs.Deposit.{IsKeyFileOf, IsKeyFile, IsTableOf};
ghost use Rattle.deposit_verify.specs.FilesReasons.{IsKeysFault, IsNoKeyFile, IsNoTable, IsTableFault};
ghost use Rattle.deposit_verify.specs.Tables.{AreKeysReadAs, AreReadAs, HasNoTable};

use crate::files_reason::{FileList, FilePlace, NoTable};
use deposit_name::TableName;
use dnrd_csv::{Keys, Rows, TableError, read_keys, read_table};
use envelope::FileEntry;
use std::alloc::{AllocError, Global};

// The rows of a file, or why it is no table.
fn rows_of(
    alloc: Global,
    name: TableName,
    file: &[u8],
) -> Result<Result<Rows, TableError>, AllocError>
    ensures read { IfOk result (λ read. MatchResult read (IsTableOf name file.now)
        (λ _. (rows : List (List (List ℕ))) → ¬ IsTableOf name file.now rows)) }
    ensures fault { IfOk result (λ read. IfErr read (IsTableFault name file.now)) }
{
    match read_table(alloc, name, file) {
        Ok(table) => Ok(Ok(table.rows)),
        Err(TableError::OutOfMemory) => Err(AllocError),
        Err(fault) => Ok(Err(fault)),
    }
}

/// The tables of the files of contents, each under the name of its entry, or the first that is none.
pub fn read_tables(
    alloc: Global,
    entries: &[FileEntry],
    files: &[&[u8]],
) -> Result<Result<Vec<Rows>, NoTable>, AllocError>
    requires { length files.now ≡ length entries.now }
    ensures read { IfOk result (λ read. MatchResult read
        (λ tables. AreReadAs entries.now (borrowed_texts files.now) tables.items)
        (λ _. HasNoTable entries.now (borrowed_texts files.now))) }
    ensures place { IfOk result (λ read. IfErr read (IsNoTable entries.now (borrowed_texts files.now))) }
{
    let mut tables = Vec::with_capacity(alloc, entries.len())?;
    for place in 0..entries.len() {
        let name = entries[place].name;
        match rows_of(alloc, name, files[place])? {
            Ok(rows) => tables.push(rows)?,
            Err(fault) => {
                let list = FileList::Contents;
                let file = FilePlace { list, place, name };
                return Ok(Err(NoTable { file, fault }));
            }
        }
    }
    Ok(Ok(tables))
}

// The keys of a file of deleted keys, or why it is none.
fn keys_of(
    alloc: Global,
    name: TableName,
    file: &[u8],
) -> Result<Result<Keys, TableError>, AllocError>
    requires { has_deletes name ≡ true }
    ensures read { IfOk result (λ read. MatchResult read (λ keys. IsKeyFileOf name file.now (key_rows keys))
        (λ _. (rows : List (List (List ℕ))) → ¬ IsKeyFileOf name file.now rows)) }
    ensures fault { IfOk result (λ read. IfErr read (IsKeysFault name file.now)) }
{
    match read_keys(alloc, name, file) {
        Ok(keys) => Ok(Ok(keys)),
        Err(TableError::OutOfMemory) => Err(AllocError),
        Err(fault) => Ok(Err(fault)),
    }
}

/// The keys of the files of deletes, each of the table that its entry names, or the first that is none of deleted keys.
pub fn read_key_files(
    alloc: Global,
    entries: &[FileEntry],
    files: &[&[u8]],
) -> Result<Result<Vec<Keys>, NoTable>, AllocError>
    requires count { length files.now ≡ length entries.now }
    requires named { All (λ entry. IsTrue (has_deletes entry.name)) entries.now }
    ensures read { IfOk result (λ read. MatchResult read
        (λ keys. AreKeysReadAs entries.now (borrowed_texts files.now) keys.items)
        (λ _. ¬ AllZip IsKeyFile entries.now (borrowed_texts files.now))) }
    ensures place { IfOk result (λ read. IfErr read (IsNoKeyFile entries.now (borrowed_texts files.now))) }
{
    let mut all = Vec::with_capacity(alloc, entries.len())?;
    for place in 0..entries.len() {
        let name = entries[place].name;
        match keys_of(alloc, name, files[place])? {
            Ok(keys) => all.push(keys)?,
            Err(fault) => {
                let list = FileList::Deletes;
                let file = FilePlace { list, place, name };
                return Ok(Err(NoTable { file, fault }));
            }
        }
    }
    Ok(Ok(all))
}
