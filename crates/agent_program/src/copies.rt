//! The database of a folder that may not be written: what its files hold, copied into memory.
ghost use Rattle.std.specs.Prelude.{◌≡◌, IfErr, IfOk, IsTrue};
ghost use Rattle.sqlite_disk.specs.Memory.{memory_is_usable};
ghost use Rattle.sqlite.specs.Files.{Finds, file_state};
ghost use Rattle.sqlite.specs.State.{HasCleanDisk};
ghost use Rattle.agent_program.specs.Copies.{AreCopies, IsCopy, IsCopyHeld, IsReaderOf};
ghost use Rattle.agent_program.specs.Errors.{IsOfVault};

use crate::errors::{MISSING, ProgramError};
use crate::folder::{UNABLE, log_path, open_error};
use crate::host::{FileKind, Host};
use sqlite::{Connection, FileStore, Files, Options};
use sqlite_disk::{Disk, Memory};
use std::alloc::Global;
use std::io::{self, Read};

/// A database in memory that begins as a copy.
pub type DatabaseCopy = Connection<FileStore<Memory>>;

/// Copies the database in a file, with its log, which may be missing.
pub fn copy_database<H: Host>(host: &H, path: &str) -> Result<DatabaseCopy, ProgramError>
    // It is the one that the host holds.
    ensures found { H.File.tells → IfOk result (IsCopyHeld (H.BlockFiles.holds host.now) (H.is_there host.now) path.now) }
    ensures error { IfErr result IsOfVault }
{
    refuse_journal(host, path)?;
    let Some(db) = open_if_there(host, path)? else {
        return Err(ProgramError::of_file(host.alloc(), path, MISSING));
    };
    let log = open_if_there(host, &log_path(host.alloc(), path)?)?;
    open_copies(host.alloc(), path, db, log)
}

/// Opens a file to read it. It may be missing, and is else a file of one name: SQLite has the log of a link
/// beside the file that it leads to.
fn open_if_there<H: Host>(host: &H, path: &str) -> Result<Option<H::Reader>, ProgramError>
    ensures bytes { H.File.tells → IfOk result (IsReaderOf (H.BlockFiles.holds host.now) (H.is_there host.now) H.Reader.remaining path.now) }
    ensures error { IfErr result IsOfVault }
{
    let found = match host.symlink_metadata(path) {
        Ok(found) => found,
        Err(error) if error.kind() == io::ErrorKind::NotFound => return Ok(None),
        Err(error) => return Err(ProgramError::by_file(host.alloc(), path, error)),
    };
    if found.kind != FileKind::File || found.names != 1 {
        return Err(ProgramError::of_file(host.alloc(), path, UNABLE));
    }
    match host.open(path) {
        Ok(file) => Ok(Some(file)),
        Err(error) => Err(ProgramError::by_file(host.alloc(), path, error)),
    }
}

/// Refuses a database that has a rollback journal, which only SQLite can play back.
fn refuse_journal<H: Host>(host: &H, path: &str) -> Result<(), ProgramError>
    ensures { IfErr result IsOfVault }
{
    let journal = format!(in host.alloc(); "{path}-journal")?;
    match host.symlink_metadata(&journal) {
        Ok(found) if found.kind != FileKind::File || found.len > 0 => {
            Err(ProgramError::of_file(host.alloc(), path, UNABLE))
        }
        Err(error) if error.kind() != io::ErrorKind::NotFound => {
            Err(ProgramError::by_file(host.alloc(), &journal, error))
        }
        _ => Ok(()),
    }
}

/// Opens a database over copies of what its file and its log hold.
fn open_copies<R: Read + Drop>(
    alloc: Global,
    path: &str,
    db: R,
    log: Option<R>,
) -> Result<DatabaseCopy, ProgramError>
    // What the copies hold is found in it.
    ensures found { IfOk result (λ found. HasCleanDisk (file_state found) → AreCopies R.remaining db log (λ files. Finds files found)) }
    ensures error { IfErr result IsOfVault }
{
    let files = Files {
        log: copy_file(alloc, &log_path(alloc, path)?, log)?,
        db: copy_file(alloc, path, Some(db))?,
    };
    // What is written to the log is in memory alone, so its salts may be known.
    match Connection::open_files(alloc, files, Options::new(0)) {
        Ok(found) => Ok(found),
        Err((error, left)) => {
            drop(left.into_files());
            Err(open_error(alloc, path, error))
        }
    }
}

/// Copies a file into memory. One that is missing is empty.
fn copy_file<R: Read + Drop>(
    alloc: Global,
    path: &str,
    file: Option<R>,
) -> Result<Memory, ProgramError>
    ensures usable { IfOk result (λ copy. IsTrue (memory_is_usable copy)) }
    ensures bytes { IfOk result (IsCopy R.remaining file) }
    ensures error { IfErr result IsOfVault }
{
    let mut copy = Memory::new(alloc);
    let Some(mut file) = file else {
        return Ok(copy);
    };
    let mut bytes = Vec::new(alloc);
    if let Err(error) = file.read_to_end(&mut bytes) {
        return Err(ProgramError::by_file(alloc, path, error));
    }
    match copy.write_at(0, &bytes) {
        Ok(()) => Ok(copy),
        Err(error) => Err(ProgramError::by_file(alloc, path, error)),
    }
}
