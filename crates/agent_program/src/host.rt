//! The machine on which the program runs, as far as the program uses it.
ghost use Rattle.std.specs.Prelude.{◌≡◌, ℕ, List, Option, Some, IfErr, IfOk, IfSome, IsSome, OnOk, map, string_bytes};
ghost use Rattle.std.specs.IoError.{error_kind};
ghost use Rattle.http_api.specs.Clients.{IsOfSocket};
ghost use Rattle.agent_program.specs.Host.{IsDatabaseHeld, IsOtherPath, log_path};

use crate::folder::Database;
use http_api::{Clients, ServiceError};
use schedule::Sec;
use sqlite::Error;
use sqlite_disk::Disk;
use std::alloc::Global;
use std::io::{self, ErrorKind, Read, Write};
use std::time::Clock;
use vault_volume::{BlockFile, BlockFiles};

/// What a path leads to.
#[derive(Clone, Copy, Debug, PartialEq, Eq)]
pub enum FileKind {
    File,
    Folder,
    Other,
}

/// What the machine says of a path.
#[derive(Clone, Copy, Debug, PartialEq, Eq)]
pub struct Metadata {
    pub kind: FileKind,
    /// How many bytes it has.
    pub len: u64,
    /// How many names it has.
    pub names: u64,
}

/// A method is a call or two of the machine. What it reveals of its files holds of a host whose files
/// reveal their images (`BlockFile::tells`). Methods by `&self` change no file.
pub trait Host: BlockFiles {
    /// A file that is open to be read.
    type Reader: Read + Drop;

    /// An open file of the database.
    type DatabaseFile: Disk + Drop;

    /// Standard error, where that is a terminal.
    type Terminal: Write + Drop;

    /// The clock by which the connections of a service have their moments, and end.
    type Clock: Clock;

    /// The clients of a service.
    type Clients: Clients + Drop;

    /// The words with which the program was started, where they are known; the first is its name.
    ghost given_words: { Self → Option (List (List ℕ)) };

    /// The moment that the clock shows, where it is known.
    ghost shown: { Self → Option ℕ };

    /// A file stands at a path, open or not.
    ghost is_there: { Self → List ℕ → Type 0 };

    /// A database was opened by a path, and has not been closed.
    ghost is_database_open: { Self → List ℕ → Type 0 };

    fn alloc(&self) -> Global;

    fn words(&self) -> io::Result<Vec<String>>
        ensures words { IfOk result (λ words. IfSome (given_words self.now) (λ given. map string_bytes words.items ≡ given)) };

    fn now(&self) -> Option<Sec>
        ensures moment { IfSome result (λ now. IfSome (shown self.now) (λ moment. now ≡ moment)) };

    fn clock(&self) -> &Self::Clock;

    /// What a path leads to.
    fn metadata(&self, path: &str) -> io::Result<Metadata>
        ensures there { Self.File.tells → IfOk result (λ found. found.kind ≡ FileKind.File → is_there self.now path.now) }
        ensures missing { Self.File.tells → IfErr result (λ e. error_kind e ≡ ErrorKind.NotFound → is_there self.now path.now → ⊥) };

    /// What stands at a path, which may be a link that leads on.
    fn symlink_metadata(&self, path: &str) -> io::Result<Metadata>
        ensures missing { Self.File.tells → IfErr result (λ e. error_kind e ≡ ErrorKind.NotFound → is_there self.now path.now → ⊥) };

    /// Opens a file to read it from its start.
    fn open(&self, path: &str) -> io::Result<Self::Reader>
        ensures there { Self.File.tells → OnOk result (is_there self.now path.now) }
        ensures bytes { IfOk result (λ file. IfSome (Self.BlockFiles.holds self.now path.now) (λ all. Self.Reader.remaining file ≡ Some all)) };

    /// Opens a file for reading and writing, and closes it.
    fn try_writing(&self, path: &str) -> io::Result<()>;

    /// Settles the names of the files in a folder.
    fn sync_folder(&self, folder: &str) -> io::Result<()>;

    /// Opens the database in the file of a path and its log, settled. Those that are missing are made.
    fn open_database(&mut self, path: &str) -> Result<Database<Self::DatabaseFile>, Error>
        ensures found { Self.File.tells → IfOk result (IsDatabaseHeld (Self.BlockFiles.holds self.old) Self.DatabaseFile.Disk path.now) }
        // One that is there is one that it holds.
        ensures there { Self.File.tells → OnOk result (is_there self.old path.now → IsSome (Self.BlockFiles.holds self.old path.now)) }
        ensures open { Self.File.tells → OnOk result (is_database_open self.new path.now) }
        // The files of other paths stay.
        ensures others { Self.File.tells → (other : List ℕ) → IsOtherPath path.now other → Self.BlockFiles.holds self.new other ≡ Self.BlockFiles.holds self.old other }
        ensures others_open { Self.File.tells → (other : List ℕ) → IsOtherPath path.now other → Self.BlockFiles.is_open self.old other → Self.BlockFiles.is_open self.new other }
        ensures moment { shown self.new ≡ shown self.old };

    /// Closes the files of a database that was opened by a path, which keep their bytes.
    fn close_database(&mut self, path: &str, db: Self::DatabaseFile, log: Self::DatabaseFile)
        requires { Self.File.tells → is_database_open self.old path.now }
        ensures db { Self.File.tells → Self.BlockFiles.holds self.new path.now ≡ Some (Self.DatabaseFile.Disk.seen db) }
        ensures log { Self.File.tells → Self.BlockFiles.holds self.new (log_path path.now) ≡ Some (Self.DatabaseFile.Disk.seen log) }
        // The files of other paths stay.
        ensures others { Self.File.tells → (other : List ℕ) → IsOtherPath path.now other → Self.BlockFiles.holds self.new other ≡ Self.BlockFiles.holds self.old other }
        ensures others_open { Self.File.tells → (other : List ℕ) → IsOtherPath path.now other → Self.BlockFiles.is_open self.old other → Self.BlockFiles.is_open self.new other };

    /// Listens at a port of the machine itself.
    fn listen(&self, port: u16) -> Result<Self::Clients, ServiceError>
        ensures { IfErr result IsOfSocket };

    /// Standard error, where that is a terminal.
    fn terminal(&self) -> Option<Self::Terminal>;

    ghost held_is_there: { (h : Self) (path : List ℕ) → Self.File.tells → IsSome (Self.BlockFiles.holds h path) → is_there h path };

    // The calls on the volumes' files change neither the databases that are open nor the clock.
    ghost beside_open: { (old new : Self) (path : List ℕ) → Self.BlockFiles.same_beside old new → is_database_open old path → is_database_open new path };

    ghost beside_shown: { (old new : Self) → Self.BlockFiles.same_beside old new → shown new ≡ shown old };
}
