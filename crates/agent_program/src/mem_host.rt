//! A machine in memory, for tests and for theorems: a folder with its two files, and one file more.
ghost use Rattle.std.specs.Prelude.{◌≡◌, ◌≢◌, ◌++◌, ℕ, List, None, Some, true, IfOk, IsTrue, codes, is_some, map, option_map, string_bytes};
ghost use Rattle.std.specs.IoError.{error_kind};
ghost use Rattle.std.proofs.Common.{◌∙◌, ap, inr};
ghost use Rattle.agent_program.specs.SettledFiles.{IsFoundSettled, IsSettledFrom};
ghost use Rattle.sqlite_disk.specs.Memory.{memory_bytes, memory_is_usable};
ghost use Rattle.agent_program.specs.Host.{bytes_or_none};

use crate::folder::Database;
use crate::host::{FileKind, Host, Metadata};
use http_api::{MemClients, ServiceError};
use schedule::Sec;
use sqlite::{Connection, Error, ErrorCode, Files, Options};
use sqlite_disk::{Disk, Memory};
use std::alloc::{AllocError, Global};
use std::io::{self, ErrorKind};
use std::time::{Clock, Duration};
use vault_volume::{Access, BlockFile, BlockFiles, FileError, MemFile, MemFiles};

/// A clock that stands still.
#[derive(Clone, Copy)]
pub struct MemClock {
    now: Sec,
}

impl Clock for MemClock {
    fn monotonic(&self) -> io::Result<Duration> {
        self.since_1970()
    }

    fn since_1970(&self) -> io::Result<Duration> {
        Ok(Duration::from_secs(self.now.seconds() as u64))
    }
}

/// A file by its path.
#[derive(Clone, Copy)]
pub struct NamedFile<'r> {
    pub path: &'r str,
    pub bytes: &'r [u8],
}

/// A machine with one folder, whose files may be read and written. While the volume or the database is
/// open, it holds none.
#[derive(Drop)]
pub struct MemHost<'r> {
    alloc: Global,
    words: Vec<String>,
    folder: &'r str,
    volumes: MemFiles,
    database_path: String,
    log_path: String,
    database: Option<Files<Memory>>,
    other: NamedFile<'r>,
    clock: MemClock,
    requests: &'r [&'r [u8]],
    ghost log_is: { string_bytes log_path ≡ string_bytes database_path ++ codes "-wal" },
}

/// What is opened in place of a stream that is closed.
const NULL: &str = "/dev/null";

impl<'r> MemHost<'r> {
    ghost use Rattle.agent_program.specs.MemHost.{held_in, is_beside, is_database};

    /// The folder has no files yet. A volume that is made has room for so many calls and syncs, as
    /// `MemVolume::new` says.
    pub fn new(
        alloc: Global,
        words: Vec<String>,
        folder: &'r str,
        other: NamedFile<'r>,
        requests: &'r [&'r [u8]],
        now: Sec,
        calls: usize,
        syncs: usize,
    ) -> Result<MemHost<'r>, AllocError>
        ensures words { IfOk result (λ h. ⟦<MemHost<'r> as Host>⟧.given_words h ≡ Some (map string_bytes words.items)) }
        ensures moment { IfOk result (λ h. ⟦<MemHost<'r> as Host>⟧.shown h ≡ Some now) }
        ensures none { IfOk result (λ h. (path : List ℕ) → path ≢ other.entry.path.now → ⟦<MemHost<'r> as BlockFiles>⟧.holds h path ≡ None) }
    {
        let volume_path = format!(in alloc; "{folder}/vault.vol")?;
        let database_path = format!(in alloc; "{folder}/custody.db")?;
        let log_path = format!(in alloc; "{database_path}-wal")?;
        Ok(MemHost {
            alloc,
            words,
            folder,
            volumes: MemFiles::new(alloc, volume_path, calls, syncs),
            database_path,
            log_path,
            database: None,
            other,
            clock: MemClock { now },
            requests,
        })
    }

    /// The program is started again, with these words.
    pub fn start(&mut self, words: Vec<String>)
        ensures words { ⟦<MemHost<'r> as Host>⟧.given_words self.new ≡ Some (map string_bytes words.items) }
        ensures moment { ⟦<MemHost<'r> as Host>⟧.shown self.new ≡ ⟦<MemHost<'r> as Host>⟧.shown self.old }
        ensures same { (path : List ℕ) → ⟦<MemHost<'r> as BlockFiles>⟧.holds self.new path ≡ ⟦<MemHost<'r> as BlockFiles>⟧.holds self.old path }
    {
        self.words = words;
    }

    // Whether a path is that of the database.
    fn names_database(&self, path: &str) -> bool
        ensures { result ≡ true → string_bytes self.now.database_path ≡ path.now }
    {
        self.database_path.as_str() == path
    }

    // Whether a path is one of the database's, or that of the other file.
    fn is_beside(&self, path: &str) -> bool
        ensures { result ≡ is_beside self.now path.now }
    {
        self.is_database(path) || self.other.path == path
    }

    // Whether a path is one of the database's.
    fn is_database(&self, path: &str) -> bool
        ensures { result ≡ is_database self.now path.now }
    {
        self.database_path.as_str() == path || self.log_path.as_str() == path
    }

    // Whether a file of a path is held.
    fn has(&self, path: &str) -> bool
        ensures { result ≡ is_some (held_in self.now path.now) }
    {
        if self.is_database(path) {
            return self.database.is_some();
        }
        self.other.path == path || self.volumes.has(path)
    }
}

impl<'r> BlockFiles for MemHost<'r> {
    ghost use Rattle.agent_program.specs.MemHost.{IsVolumeOpenIn, IsSameBeside, held_in};

    type File = MemFile;

    ghost holds = { held_in };

    ghost is_open = { IsVolumeOpenIn };

    ghost same_beside = { IsSameBeside };

    ghost beside_through = { λ _ _ _ first second. record { path_is = second.path_is ∙ first.path_is; database_is = second.database_is ∙ first.database_is; clock_is = second.clock_is ∙ first.clock_is } };

    fn find(&mut self, path: &str, access: Access) -> Result<MemFile, FileError> {
        if self.is_beside(path) {
            return Err(FileError::Io(io::Error::from(ErrorKind::Unsupported)));
        }
        self.volumes.find(path, access)
    }

    fn make(&mut self, path: &str, blocks: u32) -> Result<MemFile, FileError> {
        if self.is_beside(path) {
            return Err(FileError::Io(io::Error::from(ErrorKind::Unsupported)));
        }
        self.volumes.make(path, blocks)
    }

    fn close(&mut self, path: &str, file: MemFile) {
        self.volumes.close(path, file);
    }
}

impl<'r> Host for MemHost<'r> {
    ghost use Rattle.agent_program.specs.MemHost.{IsDatabaseOpenIn, IsThereIn};

    type Reader = &'r [u8];

    type DatabaseFile = Memory;

    type Terminal = Vec<u8>;

    type Clock = MemClock;

    type Clients = MemClients<'r>;

    ghost given_words = { λ h. Some (map string_bytes h.words.items) };

    ghost shown = { λ h. Some h.clock.now };

    ghost is_there = { IsThereIn };

    ghost is_database_open = { IsDatabaseOpenIn };

    ghost held_is_there = { λ _ _ _ held. inr held };

    ghost beside_open = { λ _ _ _ same is_open. (same.path_is ∙ is_open.0, same.database_is ∙ is_open.1) };

    ghost beside_shown = { λ _ _ same. ap (λ clock. Some clock.now) same.clock_is };

    fn alloc(&self) -> Global {
        self.alloc
    }

    fn words(&self) -> io::Result<Vec<String>> {
        match self.words.clone() {
            Ok(words) => Ok(words),
            Err(_) => Err(out_of_memory()),
        }
    }

    fn now(&self) -> Option<Sec> {
        Some(self.clock.now)
    }

    fn clock(&self) -> &MemClock {
        &self.clock
    }

    /// It does not say how long a file is.
    fn metadata(&self, path: &str) -> io::Result<Metadata> {
        let kind = if path == self.folder {
            FileKind::Folder
        } else if path == NULL && !self.is_database(path) {
            FileKind::Other
        } else if self.has(path) {
            FileKind::File
        } else {
            return Err(io::Error::from(ErrorKind::NotFound));
        };
        Ok(Metadata {
            kind,
            len: 0,
            names: 1,
        })
    }

    fn symlink_metadata(&self, path: &str) -> io::Result<Metadata> {
        self.metadata(path)
    }

    /// The other file opens, and the null device.
    fn open(&self, path: &str) -> io::Result<&'r [u8]> {
        if self.is_database(path) {
            return Err(io::Error::from(ErrorKind::Unsupported));
        }
        if self.other.path == path {
            return Ok(self.other.bytes);
        }
        if path == NULL && !self.has(path) {
            return Ok(b"");
        }
        Err(io::Error::from(ErrorKind::Unsupported))
    }

    fn try_writing(&self, path: &str) -> io::Result<()> {
        if self.has(path) {
            return Ok(());
        }
        Err(io::Error::from(ErrorKind::NotFound))
    }

    fn sync_folder(&self, _folder: &str) -> io::Result<()> {
        Ok(())
    }

    fn open_database(&mut self, path: &str) -> Result<Database<Memory>, Error> {
        if !self.names_database(path) {
            return Err(Error::SqliteFailure(ErrorCode::CannotOpen));
        }
        let files = or_new(self.alloc, self.database.take());
        match open_settled(self.alloc, files) {
            Ok(db) => Ok(db),
            Err((error, files)) => {
                self.database = Some(files);
                Err(error)
            }
        }
    }

    fn close_database(&mut self, _path: &str, db: Memory, log: Memory) {
        self.database = Some(Files { log, db });
    }

    fn listen(&self, port: u16) -> Result<MemClients<'r>, ServiceError> {
        MemClients::new(self.alloc, self.requests).map_err(|_| ServiceError::Socket {
            port,
            cause: out_of_memory(),
        })
    }

    fn terminal(&self) -> Option<Vec<u8>> {
        None
    }
}

fn out_of_memory() -> io::Error
    ensures { error_kind result ≡ ErrorKind.OutOfMemory }
{
    io::Error::from(ErrorKind::OutOfMemory)
}

// The files of a database, or new ones.
fn or_new(alloc: Global, database: Option<Files<Memory>>) -> Files<Memory>
    ensures db { memory_bytes result.db ≡ bytes_or_none (option_map (λ files. memory_bytes files.db) database) }
    ensures log { memory_bytes result.log ≡ bytes_or_none (option_map (λ files. memory_bytes files.log) database) }
{
    match database {
        Some(files) => files,
        None => Files {
            log: Memory::new(alloc),
            db: Memory::new(alloc),
        },
    }
}

// Opens a database over files that are settled before, and hands them back where it does not open.
fn open_settled(
    alloc: Global,
    files: Files<Memory>,
) -> Result<Database<Memory>, (Error, Files<Memory>)>
    ensures { IfOk result (IsFoundSettled files) }
{
    let mut files = files;
    if !settle(&mut files.log) || !settle(&mut files.db) {
        return Err((Error::SqliteFailure(ErrorCode::SystemIoFailure), files));
    }
    match Connection::open_files(alloc, files, Options::new(0)) {
        Ok(db) => Ok(db),
        Err((error, left)) => Err((error, left.into_files())),
    }
}

// Settles a file, and answers whether it is settled and may be used.
fn settle(file: &mut Memory) -> bool
    ensures settled { result ≡ true → IsSettledFrom file.old file.new }
    ensures usable { result ≡ true → IsTrue (memory_is_usable file.new) }
{
    file.may_be_used() && file.sync().is_ok()
}
