//! A machine in memory, for tests and for theorems: its one file is a `MemVolume`.
ghost use Rattle.std.specs.Prelude.{◌≡◌, ℕ, List, Some, None, length, string_bytes, is_ok, is_some};

use crate::{Access, BLOCK_BYTES, BlockFile, BlockFiles, Failed, FileError, MemVolume, Volume};
use std::alloc::Global;
use std::io;

/// An open file in memory.
#[derive(Drop)]
pub struct MemFile {
    volume: MemVolume,
}

impl BlockFile for MemFile {
    ghost tells = { Unit {0} };

    ghost failures = { λ f. ⟦<MemVolume as Volume>⟧.failures f.volume };

    ghost image = { λ f. ⟦<MemVolume as Volume>⟧.image f.volume };

    ghost moment = { λ f. ⟦<MemVolume as Volume>⟧.moment f.volume };

    ghost left_at = { λ f. ⟦<MemVolume as Volume>⟧.left_at f.volume };

    fn len(&self) -> io::Result<u64> {
        Ok(BLOCK_BYTES * self.volume.size() as u64)
    }

    fn read_exact_at(&mut self, out: &mut [u8], at: u64) -> io::Result<()> {
        as_io(self.volume.read(at, out))
    }

    fn write_all_at(&mut self, bytes: &[u8], at: u64) -> io::Result<()> {
        as_io(self.volume.write_at(at, bytes))
    }

    fn sync_all(&mut self) -> io::Result<()> {
        as_io(self.volume.sync())
    }
}

fn as_io(outcome: Result<(), Failed>) -> io::Result<()>
    ensures { is_ok result ≡ is_ok outcome }
{
    outcome.map_err(|_| io::Error::from(io::ErrorKind::Other))
}

/// A machine that can have one file, of one name. While that is open, it holds none.
#[derive(Drop)]
pub struct MemFiles {
    alloc: Global,
    name: String,
    calls: usize,
    syncs: usize,
    volume: Option<MemVolume>,
}

impl MemFiles {
    ghost use Rattle.vault_volume.specs.MemFile.{mem_file_name};

    /// It has no file yet. One that it makes has room for so many calls and syncs, as `MemVolume::new` says.
    pub fn new(alloc: Global, name: String, calls: usize, syncs: usize) -> MemFiles
        ensures name { mem_file_name result ≡ string_bytes name }
        ensures none { (path : List ℕ) → ⟦<MemFiles as BlockFiles>⟧.holds result path ≡ None }
    {
        MemFiles {
            alloc,
            name,
            calls,
            syncs,
            volume: None,
        }
    }

    /// Whether it holds a file of this path that is not open.
    pub fn has(&self, path: &str) -> bool
        ensures { result ≡ is_some (⟦<MemFiles as BlockFiles>⟧.holds self.now path.now) }
    {
        self.name.as_str() == path && self.volume.is_some()
    }

    /// The machine comes back after a stop. What was open in its file holds the bytes of `fill` there.
    pub fn restart(&mut self, file: MemFile, fill: &[u8])
        requires { length fill.now ≡ length (⟦<MemFile as BlockFile>⟧.image file) }
        ensures restarted { (c : List ℕ) × (⟦<MemFiles as BlockFiles>⟧.holds self.new (mem_file_name self.new) ≡ Some c) × ⟦<MemFile as BlockFile>⟧.left_at file (⟦<MemFile as BlockFile>⟧.moment file) c }
        ensures name { mem_file_name self.new ≡ mem_file_name self.old }
    {
        let mut volume = file.volume;
        volume.restart(fill);
        self.volume = Some(volume);
    }
}

impl BlockFiles for MemFiles {
    ghost use Rattle.vault_volume.specs.MemFile.{IsOpenAt, held_at};

    type File = MemFile;

    ghost holds = { held_at };

    ghost is_open = { IsOpenAt };

    ghost same_beside = { λ _ _. Unit {0} };

    ghost beside_through = { λ _ _ _ _ same. same };

    /// The file may be written, whatever it is opened for.
    fn find(&mut self, path: &str, _access: Access) -> Result<MemFile, FileError> {
        if self.name.as_str() != path {
            return Err(FileError::Missing);
        }
        match self.volume.take() {
            Some(mut volume) => {
                volume.reopen();
                Ok(MemFile { volume })
            }
            None => Err(FileError::Missing),
        }
    }

    fn make(&mut self, path: &str, blocks: u32) -> Result<MemFile, FileError> {
        if self.name.as_str() != path {
            return Err(FileError::Io(io::Error::from(io::ErrorKind::StorageFull)));
        }
        match MemVolume::new(self.alloc, blocks, self.calls, self.syncs) {
            Ok(volume) => {
                self.volume = None;
                Ok(MemFile { volume })
            }
            Err(_) => Err(FileError::Io(io::Error::from(io::ErrorKind::OutOfMemory))),
        }
    }

    fn close(&mut self, _path: &str, file: MemFile) {
        self.volume = Some(file.volume);
    }
}
