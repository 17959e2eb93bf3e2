//! The databases of examples, and what a stop leaves of them.
use crate::fault::ScriptFault;
use sqlite::{Connection, FileStore, Files, Options};
use sqlite_disk::{Crash, Disk, Fuse, Memory};
use std::alloc::{AllocError, Global};

/// A file in memory, of which so many calls are answered.
type File = Fuse<Memory>;

/// How many calls of the log and of the database file are answered. Each later one fails.
#[derive(Clone, Copy)]
pub struct Calls {
    pub log: u64,
    pub db: u64,
}

/// All calls are answered.
pub const ALL: Calls = Calls {
    log: u64::MAX,
    db: u64::MAX,
};

/// A database in two files in memory.
pub type Database = Connection<FileStore<File>>;

/// The files of a database: after it was `closed`, or as a stop finds them.
pub fn files_of(db: Database, how: &str) -> Result<Files<File>, ScriptFault> {
    if how == "closed" {
        db.close_files().ok().ok_or(ScriptFault::Line)
    } else {
        Ok(db.into_store().close())
    }
}

/// What is left of the log and of the database file. What was written to the log and not synced is
/// `lost`, or `torn`, or else kept.
pub fn left_of(
    alloc: Global,
    files: Files<File>,
    how: &str,
) -> Result<(Vec<u8>, Vec<u8>), AllocError> {
    let Files { mut log, mut db } = files;
    let written = Vec::from_slice(alloc, log.inner().bytes())?;
    log.crash();
    db.crash();
    let db = Vec::from_slice(alloc, db.inner().bytes())?;
    match how {
        "lost" => Ok((Vec::from_slice(alloc, log.inner().bytes())?, db)),
        "torn" => Ok((torn(alloc, log.inner().bytes(), &written)?, db)),
        _ => Ok((written, db)),
    }
}

/// The bytes of a torn log: of those from the first that was changed on, the first half was written.
fn torn(alloc: Global, synced: &[u8], written: &[u8]) -> Result<Vec<u8>, AllocError> {
    let same = synced
        .iter()
        .zip(written)
        .take_while(|(old, new)| old == new)
        .count();
    let cut = same.saturating_add(written.len().saturating_sub(same) / 2);
    let mut bytes = Vec::new(alloc);
    for byte in written.iter().take(cut) {
        bytes.push(*byte)?;
    }
    for byte in synced.iter().skip(cut) {
        bytes.push(*byte)?;
    }
    Ok(bytes)
}

/// A synced file of these bytes.
fn file_of(alloc: Global, bytes: &[u8], calls: u64) -> Result<File, ScriptFault> {
    let mut memory = Memory::new(alloc);
    if !memory.may_be_used() {
        return Err(ScriptFault::Line);
    }
    memory.write_at(0, bytes)?;
    memory.sync()?;
    Ok(Fuse::new(memory, calls))
}

/// A database over files of these bytes, so many of whose calls are answered.
pub fn open_files(
    alloc: Global,
    log: &[u8],
    db: &[u8],
    calls: Calls,
) -> Result<Database, ScriptFault> {
    let log = file_of(alloc, log, calls.log)?;
    let files = Files {
        log,
        db: file_of(alloc, db, calls.db)?,
    };
    if !files.may_be_used() {
        return Err(ScriptFault::Line);
    }
    match Connection::open_files(alloc, files, Options::new(1)) {
        Ok(db) => Ok(db),
        Err(_) => Err(ScriptFault::Unopened),
    }
}
