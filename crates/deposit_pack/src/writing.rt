//! Writing the files of a deposit.
ghost use Rattle.std.specs.Prelude.{◌≡◌, ◌≤◌, ◌<◌, List, IfErr, IfOk, Option, length, map};
ghost use Rattle.sha2.specs.Sha256.{sha256};
ghost use Rattle.envelope.specs.Envelope.{file_length_max};
ghost use Rattle.dnrd_csv.specs.Text.{key_rows};
ghost use Rattle.deposit_verify.specs.declared.base.Base.{Base};
ghost use Rattle.deposit_pack.specs.PackErrors.{IsPackError};
ghost use Rattle.deposit_pack.specs.Packing.{NamedRows, table_names, objects_in, rows_of};
ghost use Rattle.deposit_pack.specs.Unpacking.{file_names};
ghost use Rattle.deposit_pack.specs.declared.pack_error.PackError.TheVariants.{Length};
ghost use Rattle.deposit_pack.specs.declared.source.Attributes.{Attributes};
ghost use Rattle.deposit_pack.specs.inside.Steps.{AreRead, AreWritten};
ghost use Rattle.deposit_pack.specs.inside.Writing.{AreAppended, IsWriteError};

use crate::pack_error::PackError;
use crate::source::{Source, TableFile};
use crate::splitting::DEPOSIT_LENGTH_MAX;
use deposit_name::TableName;
use deposit_verify::FilesRead;
use dnrd_csv::{Keys, Rows};
use envelope::FileEntry;
use sha2::{Digest, Sha256};
use std::alloc::Global;

/// The files of a deposit, one behind the other, and their entries.
#[derive(Drop)]
pub struct WrittenFiles {
    pub bytes: Vec<u8>,
    pub contents: Vec<FileEntry>,
    pub deletes: Vec<FileEntry>,
}

// The entry of a file.
fn packed_entry(name: TableName, file: &[u8]) -> Result<FileEntry, PackError>
    ensures made { IfOk result (λ entry. entry ≡ record { length = length file.now; name = name; sha256 = sha256 file.now }) }
    ensures short { IfOk result (λ entry. length file.now ≤ file_length_max) }
    ensures long { IfErr result (λ error. (error ≡ Length) × (file_length_max < length file.now)) }
{
    if file.len() > DEPOSIT_LENGTH_MAX {
        return Err(PackError::Length);
    }
    Ok(FileEntry {
        length: file.len() as u32,
        name,
        sha256: Sha256::digest(file),
    })
}

// Writes tables behind the bytes.
fn write_tables(
    alloc: Global,
    contents: &[TableFile<'_>],
    tables: &[Rows],
    bytes: &mut Vec<u8>,
) -> Result<Vec<FileEntry>, PackError>
    requires { length tables.now ≡ length contents.now }
    ensures written { (files : List NamedRows) → table_names files ≡ file_names contents.now → rows_of files ≡ tables.now
        → IfOk result (λ entries. AreAppended files bytes.old.items bytes.new.items entries.items) }
    ensures refused { (files : List NamedRows) → table_names files ≡ file_names contents.now → rows_of files ≡ tables.now
        → IfErr result (IsWriteError files) }
{
    let mut entries = Vec::with_capacity(alloc, contents.len())?;
    for i in 0..contents.len() {
        let start = bytes.len();
        tables[i].write(bytes)?;
        entries.push(packed_entry(contents[i].name, &bytes[start..])?)?;
    }
    Ok(entries)
}

// Writes deleted keys behind the bytes.
fn write_keys(
    alloc: Global,
    deletes: &[TableFile<'_>],
    deleted: &[Keys],
    bytes: &mut Vec<u8>,
) -> Result<Vec<FileEntry>, PackError>
    requires { length deleted.now ≡ length deletes.now }
    ensures written { (files : List NamedRows) → table_names files ≡ file_names deletes.now → rows_of files ≡ map key_rows deleted.now
        → IfOk result (λ entries. AreAppended files bytes.old.items bytes.new.items entries.items) }
    ensures refused { (files : List NamedRows) → table_names files ≡ file_names deletes.now → rows_of files ≡ map key_rows deleted.now
        → IfErr result (IsWriteError files) }
{
    let mut entries = Vec::with_capacity(alloc, deletes.len())?;
    for i in 0..deletes.len() {
        let start = bytes.len();
        deleted[i].write(bytes)?;
        entries.push(packed_entry(deletes[i].name, &bytes[start..])?)?;
    }
    Ok(entries)
}

// How many bytes the files have together.
fn total_length(source: &Source<'_>) -> usize {
    let mut total: usize = 0;
    for file in source.contents.iter().chain(source.deletes) {
        total = total.saturating_add(file.text.len());
    }
    total
}

/// Writes the tables and the deleted keys of a registry's files, each in its one spelling.
pub fn write_files(
    alloc: Global,
    source: &Source<'_>,
    files: &FilesRead,
) -> Result<WrittenFiles, PackError>
    requires { AreRead (objects_in source.now) files.now }
    ensures written { IfOk result (AreWritten (objects_in source.entry.now)) }
    // No deposit of them is short enough.
    ensures refused { (a : Attributes) (base : Option Base) → IfErr result (IsPackError a source.entry.now base) }
{
    let mut bytes = Vec::with_capacity(alloc, total_length(source))?;
    let contents = write_tables(alloc, source.contents, &files.tables, &mut bytes)?;
    let deletes = write_keys(alloc, source.deletes, &files.deleted, &mut bytes)?;
    Ok(WrittenFiles {
        bytes,
        contents,
        deletes,
    })
}
