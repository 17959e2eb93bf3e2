//! The machine's files. They reveal nothing, since `std` says nothing of the bytes of a file: that they
//! follow the model of a disk is a premise of whoever relies on it.
ghost use Rattle.std.specs.Prelude.{[], None, IfErr};
ghost use Rattle.vault_volume.specs.File.{IsNotOfLength};

use crate::{Access, BLOCK_BYTES, BlockFile, BlockFiles, FileError, FileVolume};
use std::fs::{File, OpenOptions, TryLockError};
use std::io;
use std::os::unix::fs::FileExt;
use std::rt::Files;

/// Each method is one call of `std`. While it is there, no other process can open the file as a volume.
#[derive(Drop)]
pub struct HostFile {
    file: File,
}

impl BlockFile for HostFile {
    ghost tells = { ⊥ };

    ghost failures = { λ _. 0 };

    ghost image = { λ _. [] };

    ghost moment = { λ _. 0 };

    ghost left_at = { λ _ _ _. ⊥ };

    fn len(&self) -> io::Result<u64> {
        Ok(self.file.metadata()?.len())
    }

    fn read_exact_at(&mut self, out: &mut [u8], at: u64) -> io::Result<()> {
        self.file.read_exact_at(out, at)
    }

    fn write_all_at(&mut self, bytes: &[u8], at: u64) -> io::Result<()> {
        self.file.write_all_at(bytes, at)
    }

    fn sync_all(&mut self) -> io::Result<()> {
        self.file.sync_all()
    }
}

/// A volume in one of the machine's files.
pub type HostVolume = FileVolume<HostFile>;

/// The machine's files, by their paths.
#[derive(Drop)]
pub struct HostFiles<'a, R: Files<File = File>> {
    rt: &'a R,
}

impl<'a, R: Files<File = File>> HostFiles<'a, R> {
    pub fn new(rt: &'a R) -> HostFiles<'a, R> {
        HostFiles { rt }
    }
}

impl<'a, R: Files<File = File>> BlockFiles for HostFiles<'a, R> {
    type File = HostFile;

    ghost holds = { λ _ _. None };

    ghost is_open = { λ _ _. ⊥ };

    ghost same_beside = { λ _ _. Unit {0} };

    ghost beside_through = { λ _ _ _ _ same. same };

    /// Where the file is opened only to be read, each call that writes fails.
    fn find(&mut self, path: &str, access: Access) -> Result<HostFile, FileError> {
        let is_written = matches!(access, Access::ReadAndWrite);
        let found = open_locked(
            self.rt,
            path,
            OpenOptions::new().read(true).write(is_written),
        )?;
        // A process that was killed may have left writes that no sync has settled.
        if is_written {
            found.file.sync_all().map_err(FileError::Io)?;
        }
        Ok(found)
    }

    fn make(&mut self, path: &str, blocks: u32) -> Result<HostFile, FileError> {
        let opened = open_locked(
            self.rt,
            path,
            OpenOptions::new().read(true).write(true).create(true),
        )?;
        zero(&opened.file, blocks).map_err(FileError::Io)?;
        Ok(opened)
    }

    fn close(&mut self, _path: &str, file: HostFile) {
        drop(file);
    }
}

// The file, locked against each other one who would open it so. One that is locked is left as it is.
fn open_locked<R: Files<File = File>>(
    rt: &R,
    path: &str,
    options: &OpenOptions,
) -> Result<HostFile, FileError>
    ensures kind { IfErr result IsNotOfLength }
{
    let file = match options.open(rt, path) {
        Ok(file) => file,
        Err(e) if e.kind() == io::ErrorKind::NotFound => return Err(FileError::Missing),
        Err(e) => return Err(FileError::Io(e)),
    };
    match file.try_lock() {
        Ok(()) => Ok(HostFile { file }),
        Err(TryLockError::WouldBlock) => Err(FileError::Locked),
        Err(TryLockError::Error(e)) => Err(FileError::Io(e)),
    }
}

// Gives the file so many blocks of zero bytes.
fn zero(file: &File, blocks: u32) -> io::Result<()> {
    file.set_len(0)?;
    file.set_len(BLOCK_BYTES * blocks as u64)?;
    file.sync_all()
}
