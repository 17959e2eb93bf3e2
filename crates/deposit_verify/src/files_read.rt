//! What is read behind an envelope.
ghost use Rattle.std.specs.Prelude.{◌≡◌, ◌≤◌, ℕ, List, IfErr, IfOk, MatchResult, length, map, slice_get};
ghost use Rattle.dnrd_csv.specs.inside.RowKeys.{borrowed_texts};
ghost use Rattle.envelope.specs.Envelope.{IsEnvelope, env_of};
ghost use Rattle.deposit_verify.specs.Checks.{HasMenu};
ghost use Rattle.deposit_verify.specs.Deposit.{AreFiles, all_entries, contents_files, deletes_files, deletes_of};
ghost use Rattle.deposit_verify.specs.FilesReasons.{IsFilesReason, IsReadFault, entries_in, fault_check, place_among_all};
ghost use Rattle.deposit_verify.specs.Tables.{AreReadFrom, IsUnread};

use crate::files::{all_entries, cut_files, total_length};
use crate::files_reason::{FileList, FilePlace, FilesReason, ReadFault};
use crate::tables::{read_key_files, read_tables};
use deposit_name::TableName;
use dnrd_csv::{Keys, Rows};
use envelope::{Envelope, FileEntry};
use std::alloc::{AllocError, Global};

/// The files of a deposit as they are read, each at the place of its entry.
#[derive(Drop)]
pub struct FilesRead {
    /// The tables of contents.
    pub tables: Vec<Rows>,
    /// The deleted keys.
    pub deleted: Vec<Keys>,
}

/// The entries of the files of deleted keys.
pub fn deletes_of(envelope: &Envelope) -> &[FileEntry]
    ensures { result.now ≡ deletes_of (env_of envelope.now) }
{
    match &envelope.deletes {
        Some(deletes) => deletes.as_slice(),
        None => &[],
    }
}

// A place among all files, as one in its list.
fn file_place(envelope: &Envelope, place: usize, name: TableName) -> FilePlace
    ensures place { place_among_all (env_of envelope.now) result ≡ place }
    ensures entry { slice_get (entries_in (env_of envelope.now) result.list) result.place
        ≡ slice_get (all_entries (env_of envelope.now)) place }
    ensures name { result.name ≡ name }
{
    let contents = envelope.contents.len();
    let (list, place) = if place < contents {
        (FileList::Contents, place)
    } else {
        (FileList::Deletes, place - contents)
    };
    FilePlace { list, place, name }
}

/// Cuts the bytes behind an envelope into its files, or tells why they are not its files.
///
/// # Errors
///
/// Want of memory, and nothing else.
pub fn envelope_files<'d>(
    alloc: Global,
    envelope: &Envelope,
    rest: &'d [u8],
) -> Result<Result<Vec<&'d [u8]>, FilesReason>, AllocError>
    requires { IsEnvelope (env_of envelope.now) }
    ensures cut { IfOk result (λ cut. MatchResult cut
        (λ files. AreFiles (all_entries (env_of envelope.now)) rest.now (map (λ file. file.now) files.items))
        (λ _. (files : List (List ℕ)) → ¬ AreFiles (all_entries (env_of envelope.now)) rest.now files)) }
    ensures reason { IfOk result (λ cut. IfErr cut (IsFilesReason (env_of envelope.now) rest.now)) }
{
    let entries = all_entries(alloc, envelope)?;
    let said = total_length(&entries);
    let there = rest.len();
    if said != there {
        return Ok(Err(FilesReason::Lengths { said, there }));
    }
    match cut_files(alloc, &entries, rest)? {
        Ok(files) => Ok(Ok(files)),
        Err(other) => {
            let place = file_place(envelope, other.place, other.entry.name);
            let said = other.entry.sha256;
            let found = other.found;
            Ok(Err(FilesReason::Digest { place, said, found }))
        }
    }
}

// The files of contents, and those of deletes.
fn parted<'f, 'd>(envelope: &Envelope, files: &'f [&'d [u8]]) -> (&'f [&'d [u8]], &'f [&'d [u8]])
    requires { length (env_of envelope.now).contents ≤ length files.now }
    ensures contents { borrowed_texts result.0.now ≡ contents_files (env_of envelope.now) (borrowed_texts files.now) }
    ensures deletes { borrowed_texts result.1.now ≡ deletes_files (env_of envelope.now) (borrowed_texts files.now) }
{
    files.split_at(envelope.contents.len())
}

/// Reads the files of a deposit, or tells the first place at which they fail one of their checks.
pub fn read_files(
    alloc: Global,
    envelope: &Envelope,
    rest: &[u8],
) -> Result<Result<FilesRead, ReadFault>, AllocError>
    requires form { IsEnvelope (env_of envelope.now) }
    requires menu { HasMenu (env_of envelope.now) }
    ensures read { IfOk result (λ read. MatchResult read
        (λ files. AreReadFrom (env_of envelope.now) rest.now files.tables.items files.deleted.items)
        (λ fault. IsUnread (env_of envelope.now) rest.now (fault_check fault))) }
    ensures place { IfOk result (λ read. IfErr read (IsReadFault (env_of envelope.now) rest.now)) }
{
    let files = match envelope_files(alloc, envelope, rest)? {
        Ok(files) => files,
        Err(reason) => return Ok(Err(ReadFault::Files(reason))),
    };
    let (contents, deletes) = parted(envelope, &files);
    let tables = match read_tables(alloc, &envelope.contents, contents)? {
        Ok(tables) => tables,
        Err(reason) => return Ok(Err(ReadFault::Table(reason))),
    };
    let deleted = match read_key_files(alloc, deletes_of(envelope), deletes)? {
        Ok(deleted) => deleted,
        Err(reason) => return Ok(Err(ReadFault::Deletes(reason))),
    };
    Ok(Ok(FilesRead { tables, deleted }))
}
