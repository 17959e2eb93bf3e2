//! The machine itself. Each method is a call or two of `std` or of the database, and reveals nothing, since
//! those say nothing of the bytes of files: that they follow the model is believed.
ghost use Rattle.std.specs.Prelude.{None};
ghost use Rattle.std.proofs.Common.{refl};

use agent_program::{Database, FileKind, Host, Metadata};
use http_api::{Clients, Listener, ServiceError};
use schedule::Sec;
use sqlite::{Connection, Error, FileFrom, Wary};
use std::alloc::Global;
use std::env;
use std::fs::{self, File, OpenOptions};
use std::io::{self, Stderr};
use std::os::unix::fs::MetadataExt;
use vault_volume::{Access, BlockFiles, FileError, HostFile, HostFiles};

/// The machine on which the program runs.
#[derive(Drop)]
pub struct Machine<'r> {
    rt: &'r HostRuntime,
}

impl<'r> Machine<'r> {
    pub fn new(rt: &'r HostRuntime) -> Machine<'r> {
        Machine { rt }
    }
}

impl<'r> BlockFiles for Machine<'r> {
    type File = HostFile;

    ghost holds = { λ _ _. None };

    ghost is_open = { λ _ _. ⊥ };

    ghost same_beside = { λ _ _. Unit {0} };

    ghost beside_through = { λ _ _ _ _ same. same };

    fn find(&mut self, path: &str, access: Access) -> Result<HostFile, FileError> {
        HostFiles::new(self.rt).find(path, access)
    }

    fn make(&mut self, path: &str, blocks: u32) -> Result<HostFile, FileError> {
        HostFiles::new(self.rt).make(path, blocks)
    }

    fn close(&mut self, path: &str, file: HostFile) {
        HostFiles::new(self.rt).close(path, file);
    }
}

impl<'r> Host for Machine<'r> {
    type Reader = File;

    /// It supposes nothing of a torn write, so each commit syncs twice.
    type DatabaseFile = FileFrom<Wary>;

    type Terminal = Stderr;

    type Clock = HostRuntime;

    type Clients = Listener<'r, HostRuntime>;

    ghost given_words = { λ _. None };

    ghost shown = { λ _. None };

    ghost is_there = { λ _ _. ⊥ };

    ghost is_database_open = { λ _ _. ⊥ };

    ghost held_is_there = { λ _ _ no _. absurd no };

    ghost beside_open = { λ _ _ _ _ no. absurd no };

    ghost beside_shown = { λ _ _ _. refl };

    fn alloc(&self) -> Global {
        self.rt.alloc()
    }

    fn words(&self) -> io::Result<Vec<String>> {
        env::args(self.rt)?
            .collect::<Vec<String>>(self.rt.alloc())
            .map_err(io::Error::from)
    }

    fn now(&self) -> Option<Sec> {
        Sec::of_clock(self.rt)
    }

    fn clock(&self) -> &HostRuntime {
        self.rt
    }

    fn metadata(&self, path: &str) -> io::Result<Metadata> {
        Ok(as_metadata(&fs::metadata(self.rt, path)?))
    }

    fn symlink_metadata(&self, path: &str) -> io::Result<Metadata> {
        Ok(as_metadata(&fs::symlink_metadata(self.rt, path)?))
    }

    fn open(&self, path: &str) -> io::Result<File> {
        File::open(self.rt, path)
    }

    fn try_writing(&self, path: &str) -> io::Result<()> {
        OpenOptions::new()
            .read(true)
            .write(true)
            .open(self.rt, path)?;
        Ok(())
    }

    fn sync_folder(&self, folder: &str) -> io::Result<()> {
        File::open(self.rt, folder)?.sync_all()
    }

    fn open_database(&mut self, path: &str) -> Result<Database<FileFrom<Wary>>, Error> {
        Connection::open_from(self.rt, path, false, Wary).map_err(|failed| failed.0)
    }

    fn close_database(&mut self, _path: &str, db: FileFrom<Wary>, log: FileFrom<Wary>) {
        drop((db, log));
    }

    fn listen(&self, port: u16) -> Result<Listener<'r, HostRuntime>, ServiceError> {
        Listener::bind(self.rt, port, self.rt)
    }

    /// Whether it is one is known by the name of what it is.
    fn terminal(&self) -> Option<Stderr> {
        let path = fs::read_link(self.rt, "/proc/self/fd/2").ok()?;
        let name = path.as_str();
        if name.starts_with("/dev/pts/") || name.starts_with("/dev/tty") {
            return Some(self.rt.stderr());
        }
        None
    }
}

fn as_metadata(found: &fs::Metadata) -> Metadata {
    Metadata {
        kind: if found.is_file() {
            FileKind::File
        } else if found.is_dir() {
            FileKind::Folder
        } else {
            FileKind::Other
        },
        len: found.len(),
        names: found.nlink(),
    }
}
