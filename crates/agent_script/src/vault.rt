//! The vault of an example.
ghost use Rattle.std.specs.Prelude.{◌-◌, ◌<◌};

use crate::fault::ScriptFault;
use answer_lines::{Line, VolumeNumber, print_line, tell_init};
use custody::Custody;
use custody_machine::Failure;
use sqlite::{Alter, Connection};
use std::alloc::Global;
use std::io::Write;
use vault_volume::{MemVolume, Volume};

/// A vault over memory: open, or closed with what a stop has left of it.
#[derive(Drop)]
pub enum Vault<S: Alter + Drop> {
    Open(Custody<MemVolume, S>),
    Closed(MemVolume, Connection<S>),
}

/// An opening: the custody, or why there is none.
type Opened<S> = Result<Custody<MemVolume, S>, (Failure, MemVolume, Connection<S>)>;

impl<S: Alter + Drop> Vault<S> {
    pub fn is_open(&self) -> bool {
        matches!(self, Vault::Open(_))
    }

    pub fn close(self) -> (MemVolume, Connection<S>) {
        match self {
            Vault::Open(custody) => custody.close(),
            Vault::Closed(volume, db) => (volume, db),
        }
    }

    pub fn closed(self) -> Vault<S> {
        let (volume, db) = self.close();
        Vault::Closed(volume, db)
    }

    /// Begins a vault over what a closed one holds, and prints its line; answers the status too.
    pub fn begin<W: Write, E: Write>(
        self,
        alloc: Global,
        number: VolumeNumber,
        out: &mut W,
        err: &mut E,
    ) -> Result<(Vault<S>, u8), ScriptFault> {
        let (volume, db) = self.close();
        if volume.failures() > 99 {
            return Err(ScriptFault::Line);
        }
        let blocks = volume.size();
        match Custody::init(alloc, volume, db, number.get()) {
            Ok(custody) => {
                let status = print_line(&Line::Ready { blocks, number }, out);
                Ok((Vault::Open(custody), status))
            }
            Err((error, volume, db)) => {
                let status = tell_init(&error, err);
                Ok((Vault::Closed(volume, db), status))
            }
        }
    }

    /// The custody of the vault, which is opened where it is closed.
    pub fn open(self, alloc: Global) -> Result<Opened<S>, ScriptFault> {
        match self {
            Vault::Open(custody) => Ok(Ok(custody)),
            Vault::Closed(volume, db) => {
                if volume.failures() > 99 {
                    return Err(ScriptFault::Line);
                }
                Ok(Custody::open(alloc, volume, db))
            }
        }
    }
}
