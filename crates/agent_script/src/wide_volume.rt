//! A volume that only says how large it is.
use crate::fault::ScriptFault;
use custody::Custody;
use sqlite::Connection;
use std::alloc::Global;
use std::io::Write;
use vault_volume::{Failed, Volume};

/// It fails at each call.
#[derive(Drop)]
struct Wide {
    blocks: u32,
    failures: u64,
}

impl Volume for Wide {
    ghost use Rattle.std.specs.Prelude.{ℕ, List, []};

    ghost tells = { ⊥ };

    ghost size = { λ v. v.blocks };

    ghost failures = { λ v. v.failures };

    ghost image = { λ _. [] };

    ghost moment = { λ _. 0 };

    ghost left_at = { λ _ _ _. ⊥ };

    ghost image_length = { λ _ tells. absurd tells };

    fn size(&self) -> u32 {
        self.blocks
    }

    fn failures(&self) -> u64 {
        self.failures
    }

    fn read(&mut self, _at: u64, _out: &mut [u8]) -> Result<(), Failed> {
        self.failures += 1;
        Err(Failed)
    }

    fn write_at(&mut self, _at: u64, _bytes: &[u8]) -> Result<(), Failed> {
        self.failures += 1;
        Err(Failed)
    }

    fn sync(&mut self) -> Result<(), Failed> {
        self.failures += 1;
        Err(Failed)
    }
}

/// Begins a vault over the largest volume that there may be, and over one block more, and prints why
/// there is none.
pub fn show_sizes<W: Write>(alloc: Global, out: &mut W) -> Result<(), ScriptFault> {
    writeln!(out, "! sizes")?;
    for blocks in [262_144, 262_145] {
        let db = Connection::open_in_memory(alloc)?;
        let volume = Wide {
            blocks,
            failures: 0,
        };
        match Custody::init(alloc, volume, db, 1) {
            Ok(_) => writeln!(out, "{blocks} blocks: ready")?,
            Err((error, _, _)) => writeln!(out, "{blocks} blocks: {error}")?,
        }
    }
    writeln!(out)?;
    Ok(())
}
