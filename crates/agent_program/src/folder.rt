//! The two files of a vault's folder.
ghost use Rattle.std.specs.Prelude.{◌≡◌, ◌≢◌, ◌*◌, ℕ, List, true, false, string_bytes, replicate, IfErr, IfOk, IsSome, OnErr, OnOk};
ghost use Rattle.vault_volume.specs.Disk.{LeavesOneImage};
ghost use Rattle.vault_volume.specs.File.{is_new_file};
ghost use Rattle.sqlite.specs.Files.{over_files};
ghost use Rattle.custody_store.specs.StoreState.{store_state, HasMetaOrNone};
ghost use Rattle.custody.specs.Opening.{HasNoRecord};
ghost use Rattle.agent_program.specs.Copies.{IsCopyFound};
ghost use Rattle.agent_program.specs.Errors.{IsOfVault, IsOpenError};
ghost use Rattle.agent_program.specs.Folder.{AreOpen, IsAsked, IsFolderLeft, IsFolderHeld, IsFolderMade, IsFolderRead, IsVolumeMade, ListsNothing, end_status, end_volume};
ghost use Rattle.agent_program.specs.Host.{AreFilesLeft, AreSameOutside, IsDatabaseHeld, IsDatabaseLeft, IsOtherPath, IsVolumeHeld, database_path as path_of_database, log_path as path_of_log, volume_path as path_of_volume};

use crate::copies::{DatabaseCopy, copy_database};
use crate::errors::ProgramError;
use crate::host::{FileKind, Host};
use crate::vault_calls::CallEnd;
use custody::has_record;
use custody_machine::Failure;
use custody_store::has_any_table;
use sqlite::{Alter, Connection, Error, ErrorCode, FileStore, Files};
use sqlite_disk::{Disk, Memory};
use std::alloc::{AllocError, Global};
use std::io;
use vault_volume::{Access, BlockFile, BlockFiles, FileVolume, Volume};

/// The database in files of a kind.
pub type Database<D> = Connection<FileStore<D>>;

/// The two files of a vault's folder, open.
#[derive(Drop)]
pub struct OpenFolder<F: BlockFile, D: Disk + Drop> {
    pub volume: FileVolume<F>,
    pub db: Connection<FileStore<D>>,
}

/// The two files of a vault's folder that may not be written: the volume, and a copy of the database.
#[derive(Drop)]
pub struct ReadOnlyFolder<F: BlockFile> {
    pub volume: FileVolume<F>,
    pub db: DatabaseCopy,
}

/// How an order over a folder ended.
#[derive(Drop)]
pub enum FolderCallEnd<F: BlockFile, D: Disk + Drop> {
    Open(CallEnd<FileVolume<F>, FileStore<D>>),
    ReadOnly(CallEnd<FileVolume<F>, FileStore<Memory>>),
}

impl<F: BlockFile, D: Disk + Drop> FolderCallEnd<F, D> {
    /// The exit status.
    pub fn status(&self) -> u8
        ensures { result ≡ end_status self.now }
    {
        match self {
            FolderCallEnd::Open(ended) => ended.status,
            FolderCallEnd::ReadOnly(ended) => ended.status,
        }
    }

    /// The volume as the order left it.
    pub fn volume(&self) -> &FileVolume<F>
        ensures { result.now ≡ end_volume self.now }
    {
        match self {
            FolderCallEnd::Open(ended) => &ended.volume,
            FolderCallEnd::ReadOnly(ended) => &ended.volume,
        }
    }
}

/// What becomes of a database's log as the database is closed.
#[derive(Clone, Copy)]
enum LogAtClose {
    /// It is copied into the database's file, if that can be done.
    Copy,
    Keep,
}

/// What is said of a database whose files are not those of one.
pub const UNABLE: &str = "unable to open database file";

/// Opens the two files of a folder, which have to be there.
pub fn open_folder<H: Host>(
    host: &mut H,
    folder: &str,
) -> Result<OpenFolder<H::File, H::DatabaseFile>, ProgramError>
    ensures failures { IfOk result (λ files. ⟦<FileVolume<H::File> as Volume>⟧.failures files.volume ≡ 0) }
    // It makes no volume.
    ensures found { IfOk result (λ files. is_new_file files.volume ≡ false) }
    // They are those that the host holds in the folder.
    ensures held { H.File.tells → IfOk result (λ files. IsFolderHeld (H.BlockFiles.holds host.old) ⟦<FileVolume<H::File> as Volume>⟧ H.DatabaseFile.Disk folder.now files.volume files.db) }
    ensures open { H.File.tells → OnOk result (H.BlockFiles.is_open host.new (path_of_volume folder.now) × H.is_database_open host.new (path_of_database folder.now)) }
    // After an error the volume is as it was.
    ensures unopened { H.File.tells → OnErr result (H.BlockFiles.holds host.new (path_of_volume folder.now) ≡ H.BlockFiles.holds host.old (path_of_volume folder.now)) }
    // The files of other paths stay.
    ensures others { H.File.tells → AreSameOutside (H.BlockFiles.holds host.old) (H.BlockFiles.holds host.new) folder.now }
    ensures moment { H.shown host.new ≡ H.shown host.old }
    ensures error { IfErr result IsOfVault }
{
    find_folder(host, folder)?;
    let path = volume_path(host.alloc(), folder)?;
    let volume = open_volume(host, &path, Access::ReadAndWrite)?;
    match find_and_open_database(host, folder) {
        Ok(db) => Ok(OpenFolder { volume, db }),
        Err(error) => {
            host.close(&path, volume.into_file());
            Err(error)
        }
    }
}

/// Opens the two files of a folder only to read them.
pub fn open_folder_to_read<H: Host>(
    host: &mut H,
    folder: &str,
) -> Result<ReadOnlyFolder<H::File>, ProgramError>
    ensures failures { IfOk result (λ files. ⟦<FileVolume<H::File> as Volume>⟧.failures files.volume ≡ 0) }
    ensures found { IfOk result (λ files. is_new_file files.volume ≡ false) }
    ensures held { H.File.tells → IfOk result (λ files. IsFolderRead (H.BlockFiles.holds host.old) ⟦<FileVolume<H::File> as Volume>⟧ folder.now files.volume files.db) }
    ensures open { H.File.tells → OnOk result (H.BlockFiles.is_open host.new (path_of_volume folder.now)) }
    // After an error the volume is as it was.
    ensures unopened { H.File.tells → OnErr result (H.BlockFiles.holds host.new (path_of_volume folder.now) ≡ H.BlockFiles.holds host.old (path_of_volume folder.now)) }
    // The files of other paths stay.
    ensures others { H.File.tells → (other : List ℕ) → other ≢ path_of_volume folder.now → H.BlockFiles.holds host.new other ≡ H.BlockFiles.holds host.old other }
    ensures error { IfErr result IsOfVault }
{
    find_folder(host, folder)?;
    let path = volume_path(host.alloc(), folder)?;
    let volume = open_volume(host, &path, Access::Read)?;
    match copy_found_database(host, folder) {
        Ok(db) => Ok(ReadOnlyFolder { volume, db }),
        Err(error) => {
            host.close(&path, volume.into_file());
            Err(error)
        }
    }
}

/// Whether a file of a vault's folder is there and may not be written, as on a medium that is only read.
pub fn is_read_only<H: Host>(host: &H, folder: &str) -> Result<bool, ProgramError>
    ensures { IfErr result IsOfVault }
{
    let volume = volume_path(host.alloc(), folder)?;
    let db = database_path(host.alloc(), folder)?;
    let log = log_path(host.alloc(), &db)?;
    // Of a pipe, an open to read would wait for a writer.
    if !is_file(host, &volume) {
        return Ok(false);
    }
    Ok(
        may_not_be_written(host, &volume)
            || may_not_be_written(host, &db)
            || may_not_be_written(host, &log),
    )
}

fn is_file<H: Host>(host: &H, path: &str) -> bool {
    match host.metadata(path) {
        Ok(found) => found.kind == FileKind::File,
        Err(_) => false,
    }
}

fn may_not_be_written<H: Host>(host: &H, path: &str) -> bool {
    match host.try_writing(path) {
        Ok(()) => false,
        Err(error) => matches!(
            error.kind(),
            io::ErrorKind::PermissionDenied | io::ErrorKind::ReadOnlyFilesystem
        ),
    }
}

/// Makes the two files of a folder. A volume of which the database has a record is left as it is.
pub fn create_folder<H: Host>(
    host: &mut H,
    folder: &str,
    blocks: u32,
) -> Result<OpenFolder<H::File, H::DatabaseFile>, ProgramError>
    ensures failures { IfOk result (λ files. ⟦<FileVolume<H::File> as Volume>⟧.failures files.volume ≡ 0) }
    ensures size { IfOk result (λ files. is_new_file files.volume ≡ true → ⟦<FileVolume<H::File> as Volume>⟧.size files.volume ≡ blocks) }
    // A volume is made anew only where nothing is listed.
    ensures bare { IfOk result (λ files. is_new_file files.volume ≡ true → ListsNothing (store_state over_files files.db)) }
    // So the database has no record of one.
    ensures unrecorded { IfOk result (λ files. is_new_file files.volume ≡ true → HasMetaOrNone (store_state over_files files.db) → (store_state over_files files.db).IsHonest
        → HasNoRecord (store_state over_files files.db).rows) }
    // The database is that of the folder, and a volume that is not new too.
    ensures held { H.File.tells → IfOk result (λ files. IsFolderMade (H.BlockFiles.holds host.old) ⟦<FileVolume<H::File> as Volume>⟧ H.DatabaseFile.Disk folder.now blocks files.volume files.db) }
    ensures open { H.File.tells → OnOk result (H.BlockFiles.is_open host.new (path_of_volume folder.now) × H.is_database_open host.new (path_of_database folder.now)) }
    // The files of other paths stay.
    ensures others { H.File.tells → AreSameOutside (H.BlockFiles.holds host.old) (H.BlockFiles.holds host.new) folder.now }
    ensures error { IfErr result IsOfVault }
{
    find_folder(host, folder)?;
    let path = database_path(host.alloc(), folder)?;
    let mut db = open_database(host, &path)?;
    match open_or_create_volume(host, folder, blocks, &mut db) {
        Ok(volume) => Ok(OpenFolder { volume, db }),
        Err(error) => {
            close_database(host, &path, db, LogAtClose::Keep);
            Err(error)
        }
    }
}

/// Opens the database of a folder, which has to be there.
fn find_and_open_database<H: Host>(
    host: &mut H,
    folder: &str,
) -> Result<Database<H::DatabaseFile>, ProgramError>
    ensures held { H.File.tells → IfOk result (IsDatabaseHeld (H.BlockFiles.holds host.old) H.DatabaseFile.Disk (path_of_database folder.now)) }
    ensures there { H.File.tells → OnOk result (IsSome (H.BlockFiles.holds host.old (path_of_database folder.now))) }
    ensures open { H.File.tells → OnOk result (H.is_database_open host.new (path_of_database folder.now)) }
    // The files of other paths stay.
    ensures others { H.File.tells → (other : List ℕ) → IsOtherPath (path_of_database folder.now) other → H.BlockFiles.holds host.new other ≡ H.BlockFiles.holds host.old other }
    ensures others_open { H.File.tells → (other : List ℕ) → IsOtherPath (path_of_database folder.now) other → H.BlockFiles.is_open host.old other → H.BlockFiles.is_open host.new other }
    ensures moment { H.shown host.new ≡ H.shown host.old }
    ensures error { IfErr result IsOfVault }
{
    let path = database_path(host.alloc(), folder)?;
    find_database(host, &path)?;
    open_database(host, &path)
}

/// Copies the database of a folder.
fn copy_found_database<H: Host>(host: &H, folder: &str) -> Result<DatabaseCopy, ProgramError>
    ensures found { H.File.tells → IfOk result (IsCopyFound (H.BlockFiles.holds host.now) (path_of_database folder.now)) }
    ensures error { IfErr result IsOfVault }
{
    let path = database_path(host.alloc(), folder)?;
    copy_database(host, &path)
}

/// Opens the volume of a folder for its database, and makes one where the database is new. One that has
/// tables and no record has failed, and the volume is left as it is.
fn open_or_create_volume<H: Host, S: Alter>(
    host: &mut H,
    folder: &str,
    blocks: u32,
    db: &mut Connection<S>,
) -> Result<FileVolume<H::File>, ProgramError>
    ensures failures { IfOk result (λ volume. ⟦<FileVolume<H::File> as Volume>⟧.failures volume ≡ 0) }
    ensures bare { IfOk result (λ volume. is_new_file volume ≡ true → ListsNothing (store_state S.Store db.new)) }
    ensures unrecorded { IfOk result (λ volume. is_new_file volume ≡ true → HasMetaOrNone (store_state S.Store db.new) → (store_state S.Store db.new).IsHonest
        → HasNoRecord (store_state S.Store db.new).rows) }
    ensures size { IfOk result (λ volume. is_new_file volume ≡ true → ⟦<FileVolume<H::File> as Volume>⟧.size volume ≡ blocks) }
    // The database is only asked whether it has a record.
    ensures asked { OnOk result (IsAsked (store_state S.Store db.old) (store_state S.Store db.new)) }
    ensures held { H.File.tells → IfOk result (λ volume. IsVolumeMade (H.BlockFiles.holds host.old) ⟦<FileVolume<H::File> as Volume>⟧ folder.now blocks volume) }
    ensures open { H.File.tells → OnOk result (H.BlockFiles.is_open host.new (path_of_volume folder.now)) }
    // The files of other paths stay, and the database open.
    ensures others { H.File.tells → (other : List ℕ) → other ≢ path_of_volume folder.now → H.BlockFiles.holds host.new other ≡ H.BlockFiles.holds host.old other }
    ensures beside { (path : List ℕ) → H.is_database_open host.old path → H.is_database_open host.new path }
    ensures error { IfErr result IsOfVault }
{
    let path = volume_path(host.alloc(), folder)?;
    let is_new = lists_nothing(db);
    match has_record(db) {
        Ok(true) => open_volume(host, &path, Access::ReadAndWrite),
        Ok(false) if is_new => create_volume(host, folder, &path, blocks),
        Ok(false) => Err(ProgramError::Failure(Failure::StoreFailed)),
        Err(failure) => Err(ProgramError::Failure(failure)),
    }
}

/// Whether nothing is listed in a database. (A table is not among its tables where an index or a trigger
/// on it is none that the database reads.)
fn lists_nothing<S: Alter>(db: &Connection<S>) -> bool
    ensures { result ≡ true → ListsNothing (store_state S.Store db.now) }
{
    let schema = db.schema();
    let tables = schema.tables.as_slice().len();
    let indexes = schema.indexes.as_slice().len();
    let views = schema.views.as_slice().len();
    tables == 0 && indexes == 0 && views == 0 && !has_any_table(db)
}

/// Closes the files that an order has left in a folder, whose volume is locked until the database is closed.
/// What was acknowledged is kept also where the database's log cannot be copied.
pub fn close_folder<H: Host>(
    host: &mut H,
    volume_path: &str,
    database_path: &str,
    ended: FolderCallEnd<H::File, H::DatabaseFile>,
)
    requires apart { IsOtherPath database_path.now volume_path.now }
    requires open { H.File.tells → AreOpen (H.BlockFiles.is_open host.old) (H.is_database_open host.old) volume_path.now database_path.now ended }
    ensures left { H.File.tells → IsFolderLeft ⟦<FileVolume<H::File> as Volume>⟧ (H.BlockFiles.holds host.old) (H.BlockFiles.holds host.new) volume_path.now database_path.now ended }
    // The files of other paths stay.
    ensures others { H.File.tells → (other : List ℕ) → other ≢ volume_path.now → IsOtherPath database_path.now other → H.BlockFiles.holds host.new other ≡ H.BlockFiles.holds host.old other }
{
    match ended {
        FolderCallEnd::Open(
            CallEnd {
                has_vault,
                volume,
                db,
                ..
            },
        ) => {
            let log = if has_vault {
                LogAtClose::Copy
            } else {
                LogAtClose::Keep
            };
            close_database(host, database_path, db, log);
            host.close(volume_path, volume.into_file());
        }
        FolderCallEnd::ReadOnly(CallEnd { volume, .. }) => {
            host.close(volume_path, volume.into_file());
        }
    }
}

/// Closes a database that was opened by a path.
fn close_database<H: Host>(host: &mut H, path: &str, db: Database<H::DatabaseFile>, log: LogAtClose)
    requires { H.File.tells → H.is_database_open host.old path.now }
    ensures left { H.File.tells → IsDatabaseLeft (H.BlockFiles.holds host.new) H.DatabaseFile.Disk path.now db }
    // The files of other paths stay.
    ensures others { H.File.tells → (other : List ℕ) → IsOtherPath path.now other → H.BlockFiles.holds host.new other ≡ H.BlockFiles.holds host.old other }
    ensures others_open { H.File.tells → (other : List ℕ) → IsOtherPath path.now other → H.BlockFiles.is_open host.old other → H.BlockFiles.is_open host.new other }
{
    let files = into_files(db, log);
    host.close_database(path, files.db, files.log);
}

/// The files of a database, which is closed.
fn into_files<D: Disk + Drop>(db: Database<D>, log: LogAtClose) -> Files<D>
    ensures { AreFilesLeft db result }
{
    match log {
        LogAtClose::Keep => db.into_store().close(),
        LogAtClose::Copy => match db.close_files() {
            Ok(files) => files,
            Err((_, store)) => store.close(),
        },
    }
}

/// Finds the folder of a vault, which has to be there.
fn find_folder<H: Host>(host: &H, folder: &str) -> Result<(), ProgramError>
    ensures { IfErr result IsOfVault }
{
    let is_folder = match host.metadata(folder) {
        Ok(found) => found.kind == FileKind::Folder,
        Err(error) if error.kind() == io::ErrorKind::NotFound => false,
        Err(error) => return Err(ProgramError::by_file(host.alloc(), folder, error)),
    };
    if !is_folder {
        return Err(ProgramError::of_file(host.alloc(), folder, "folder missing"));
    }
    Ok(())
}

/// Finds the database of a path, which has to be there.
fn find_database<H: Host>(host: &H, path: &str) -> Result<(), ProgramError>
    ensures there { H.File.tells → OnOk result (H.is_there host.now path.now) }
    ensures error { IfErr result IsOfVault }
{
    match host.metadata(path) {
        Ok(found) if found.kind == FileKind::File => Ok(()),
        Ok(_) => Err(ProgramError::of_file(host.alloc(), path, UNABLE)),
        Err(error) => Err(ProgramError::by_file(host.alloc(), path, error)),
    }
}

/// The path of the database in a folder.
pub fn database_path(alloc: Global, folder: &str) -> Result<String, AllocError>
    ensures { IfOk result (λ path. string_bytes path ≡ path_of_database folder.now) }
{
    format!(in alloc; "{folder}/custody.db")
}

/// The path of the log of a database.
pub fn log_path(alloc: Global, database: &str) -> Result<String, AllocError>
    ensures { IfOk result (λ path. string_bytes path ≡ path_of_log database.now) }
{
    format!(in alloc; "{database}-wal")
}

/// The path of the volume in a folder.
pub fn volume_path(alloc: Global, folder: &str) -> Result<String, AllocError>
    ensures { IfOk result (λ path. string_bytes path ≡ path_of_volume folder.now) }
{
    format!(in alloc; "{folder}/vault.vol")
}

fn open_volume<H: Host>(
    host: &mut H,
    path: &str,
    access: Access,
) -> Result<FileVolume<H::File>, ProgramError>
    ensures failures { IfOk result (λ volume. ⟦<FileVolume<H::File> as Volume>⟧.failures volume ≡ 0) }
    ensures found { IfOk result (λ volume. is_new_file volume ≡ false) }
    ensures held { H.File.tells → IfOk result (IsVolumeHeld (H.BlockFiles.holds host.old) ⟦<FileVolume<H::File> as Volume>⟧ path.now) }
    ensures open { H.File.tells → OnOk result (H.BlockFiles.is_open host.new path.now) }
    ensures unopened { H.File.tells → OnErr result (H.BlockFiles.holds host.new path.now ≡ H.BlockFiles.holds host.old path.now) }
    // The files of other paths stay.
    ensures others { H.File.tells → (other : List ℕ) → other ≢ path.now → H.BlockFiles.holds host.new other ≡ H.BlockFiles.holds host.old other }
    ensures beside { H.BlockFiles.same_beside host.old host.new }
    ensures error { IfErr result IsOfVault }
{
    match FileVolume::open(host, path, access) {
        Ok(volume) => Ok(volume),
        Err(cause) => Err(ProgramError::of_file(host.alloc(), path, cause)),
    }
}

/// Makes the volume of a path, which is in a folder.
fn create_volume<H: Host>(
    host: &mut H,
    folder: &str,
    path: &str,
    blocks: u32,
) -> Result<FileVolume<H::File>, ProgramError>
    ensures failures { IfOk result (λ volume. ⟦<FileVolume<H::File> as Volume>⟧.failures volume ≡ 0) }
    ensures size { IfOk result (λ volume. ⟦<FileVolume<H::File> as Volume>⟧.size volume ≡ blocks) }
    ensures made { IfOk result (λ volume. is_new_file volume ≡ true) }
    ensures zeros { H.File.tells → IfOk result (λ volume. ⟦<FileVolume<H::File> as Volume>⟧.image volume ≡ replicate (4096 * blocks) 0) }
    ensures settled { H.File.tells → IfOk result (λ volume. LeavesOneImage (⟦<FileVolume<H::File> as Volume>⟧.image volume) (⟦<FileVolume<H::File> as Volume>⟧.left_at volume (⟦<FileVolume<H::File> as Volume>⟧.moment volume))) }
    ensures open { H.File.tells → OnOk result (H.BlockFiles.is_open host.new path.now) }
    // The files of other paths stay.
    ensures others { H.File.tells → (other : List ℕ) → other ≢ path.now → H.BlockFiles.holds host.new other ≡ H.BlockFiles.holds host.old other }
    ensures beside { H.BlockFiles.same_beside host.old host.new }
    ensures error { IfErr result IsOfVault }
{
    let volume = match FileVolume::create(host, path, blocks) {
        Ok(volume) => volume,
        Err(cause) => return Err(ProgramError::of_file(host.alloc(), path, cause)),
    };
    match host.sync_folder(folder) {
        Ok(()) => Ok(volume),
        Err(error) => {
            host.close(path, volume.into_file());
            Err(ProgramError::by_file(host.alloc(), folder, error))
        }
    }
}

/// Opens the database of a path, and makes it where it is not there.
fn open_database<H: Host>(
    host: &mut H,
    path: &str,
) -> Result<Database<H::DatabaseFile>, ProgramError>
    ensures held { H.File.tells → IfOk result (IsDatabaseHeld (H.BlockFiles.holds host.old) H.DatabaseFile.Disk path.now) }
    ensures there { H.File.tells → OnOk result (H.is_there host.old path.now → IsSome (H.BlockFiles.holds host.old path.now)) }
    ensures open { H.File.tells → OnOk result (H.is_database_open host.new path.now) }
    // The files of other paths stay.
    ensures others { H.File.tells → (other : List ℕ) → IsOtherPath path.now other → H.BlockFiles.holds host.new other ≡ H.BlockFiles.holds host.old other }
    ensures others_open { H.File.tells → (other : List ℕ) → IsOtherPath path.now other → H.BlockFiles.is_open host.old other → H.BlockFiles.is_open host.new other }
    ensures moment { H.shown host.new ≡ H.shown host.old }
    ensures error { IfErr result IsOfVault }
{
    match host.open_database(path) {
        Ok(db) => Ok(db),
        Err(error) => {
            if let Error::SqliteFailure(ErrorCode::CannotOpen) = error {
                find_log(host, path)?;
            }
            Err(open_error(host.alloc(), path, error))
        }
    }
}

/// Finds the log of a database whose own file opens. It may be missing, and is else to be a file that may
/// be read and written.
fn find_log<H: Host>(host: &H, path: &str) -> Result<(), ProgramError>
    ensures { IfErr result IsOfVault }
{
    if host.try_writing(path).is_err() {
        return Ok(());
    }
    let log = log_path(host.alloc(), path)?;
    match host.try_writing(&log) {
        Err(error) if error.kind() != io::ErrorKind::NotFound => {
            Err(ProgramError::by_file(host.alloc(), &log, error))
        }
        _ => Ok(()),
    }
}

/// Why a database is not opened.
pub fn open_error(alloc: Global, path: &str, error: Error) -> ProgramError
    ensures kind { IsOpenError path.now error result }
    ensures vault { IsOfVault result }
{
    match error {
        Error::SqliteFailure(ErrorCode::DatabaseBusy) => {
            ProgramError::of_file(alloc, path, "file in use")
        }
        Error::SqliteFailure(ErrorCode::CannotOpen) => {
            ProgramError::of_file(alloc, path, UNABLE)
        }
        Error::SqliteFailure(ErrorCode::OutOfMemory) => ProgramError::Failure(Failure::NoMemory),
        _ => ProgramError::Failure(Failure::StoreFailed),
    }
}
