//! A volume in memory whose machine stops between two of its calls or within one, or of whose calls one fails.
ghost use Rattle.std.specs.Prelude.{◌≡◌, ◌-◌, ◌<◌, ◌^◌, IsTrue, IfOk};

use crate::fault::ScriptFault;
use std::alloc::{AllocError, Global};
use vault_volume::{BLOCK_BYTES, Failed, MemVolume, Volume};

/// The bytes of a block.
pub const BLOCK: usize = BLOCK_BYTES as usize;

/// A call that changes what a stop may leave.
#[derive(Clone, Copy, PartialEq, Eq)]
pub enum Change {
    Write,
    Sync,
}

/// What becomes of the calls.
#[derive(Clone, Copy)]
pub enum Script {
    Answers,
    /// After so many writes and syncs the machine stops, before the next one or within it.
    Stops { after: usize, is_within: bool },
    /// The machine stands still.
    Stands,
}

/// What bytes hold that were open when the machine stopped.
#[derive(Clone, Copy)]
pub enum Filling {
    Zeros,
    Ones,
    /// The bytes that were being written.
    Written,
    /// The old bytes of each block, the last one first.
    Reversed,
    /// The bytes of block 0.
    Head,
}

/// What becomes of one call.
#[derive(Clone, Copy)]
enum Turn {
    Answered,
    /// It is broken off: what it would have written is open.
    Broken,
    /// It never comes.
    Missed,
}

/// The calls since a script was given.
#[derive(Drop)]
struct Calls {
    script: Script,
    count: usize,
    /// The writes and syncs, also those that fail.
    changes: Vec<Change>,
}

impl Calls {
    /// Counts the next call, and tells what becomes of it.
    fn turn(&mut self, change: Option<Change>) -> Turn {
        let turn = match self.script {
            Script::Stands => Turn::Missed,
            Script::Stops { after, is_within } => {
                if change.is_none() || self.changes.len() != after {
                    Turn::Answered
                } else if is_within {
                    Turn::Broken
                } else {
                    Turn::Missed
                }
            }
            Script::Answers => Turn::Answered,
        };
        if !matches!(turn, Turn::Answered) {
            self.script = Script::Stands;
        }
        if let Some(change) = change {
            let _ = self.changes.push(change);
        }
        self.count = self.count.saturating_add(1);
        turn
    }
}

#[derive(Drop)]
pub struct Stopping {
    disk: MemVolume,
    /// The bytes with all that was to be written, also by the call in which the machine stopped.
    written: Vec<u8>,
    /// The bytes when they were last settled.
    settled: Vec<u8>,
    calls: Calls,
    failures: u64,
}

impl Stopping {
    pub fn new(alloc: Global, blocks: u32) -> Result<Stopping, AllocError>
        ensures { IfOk result (λ v. ⟦<Stopping as Volume>⟧.failures v ≡ 0) }
    {
        let disk = MemVolume::new(alloc, blocks, 400, 16)?;
        Ok(Stopping {
            written: Vec::from_slice(alloc, disk.bytes())?,
            settled: Vec::from_slice(alloc, disk.bytes())?,
            disk,
            calls: Calls {
                script: Script::Answers,
                count: 0,
                changes: Vec::with_capacity(alloc, 64)?,
            },
            failures: 0,
        })
    }

    /// From now on the calls, which are counted anew, follow a script.
    pub fn follow(&mut self, script: Script) {
        self.calls.script = script;
        self.calls.count = 0;
        self.calls.changes.clear();
    }

    /// The same, where all are answered but the one of this number.
    pub fn fail(&mut self, alloc: Global, number: usize) -> Result<(), AllocError> {
        self.follow(Script::Answers);
        let number = self.disk.calls().saturating_add(number) as u64;
        self.disk.fail_at(vec![in alloc; number; 1]?);
        Ok(())
    }

    /// The writes and syncs since the script was given.
    pub fn changes(&self) -> &[Change] {
        &self.calls.changes
    }

    /// How many calls there were since the script was given.
    pub fn calls(&self) -> usize {
        self.calls.count
    }

    /// The machine comes back after a stop, and all calls are answered.
    pub fn restart(&mut self, alloc: Global, filling: Filling) -> Result<(), ScriptFault> {
        let fill = self.fill_of(alloc, filling)?;
        if fill.len() != BLOCK * self.disk.size() as usize {
            return Err(ScriptFault::Line);
        }
        self.disk.restart(&fill);
        self.written = Vec::from_slice(alloc, self.disk.bytes())?;
        self.settled = Vec::from_slice(alloc, self.disk.bytes())?;
        self.follow(Script::Answers);
        Ok(())
    }

    fn fill_of(&self, alloc: Global, filling: Filling) -> Result<Vec<u8>, AllocError> {
        let mut fill = Vec::with_capacity(alloc, self.written.len())?;
        for at in 0..self.written.len() {
            fill.push(self.byte_of(filling, at))?;
        }
        Ok(fill)
    }

    fn byte_of(&self, filling: Filling, at: usize) -> u8 {
        let within = at % BLOCK;
        let byte = match filling {
            Filling::Zeros => return 0,
            Filling::Ones => return 255,
            Filling::Written => self.written.get(at),
            Filling::Reversed => self.settled.get(at - within + (BLOCK - 1 - within)),
            Filling::Head => self.settled.get(within),
        };
        byte.copied().unwrap_or(0)
    }
}

/// Whether the next call is made of the disk, which fails where it is broken off.
fn comes(calls: &mut Calls, disk: &mut MemVolume, change: Option<Change>) -> bool
    ensures size { ⟦<MemVolume as Volume>⟧.size disk.new ≡ ⟦<MemVolume as Volume>⟧.size disk.old }
    ensures count { IsTrue result → ⟦<MemVolume as Volume>⟧.failures disk.new < 2 ^ 64 - 1 }
{
    match calls.turn(change) {
        Turn::Answered => {}
        Turn::Broken => disk.stop_at(disk.calls() as u64),
        Turn::Missed => return false,
    }
    disk.failures() < 99
}

/// Puts bytes where they are to be written.
fn put(image: &mut [u8], at: u64, bytes: &[u8]) {
    if let Some(rest) = image.get_mut(at as usize..) {
        for (place, byte) in rest.iter_mut().zip(bytes) {
            *place = *byte;
        }
    }
}

impl Volume for Stopping {
    ghost use Rattle.std.specs.Prelude.{ℕ, List, []};

    ghost tells = { ⊥ };

    ghost size = { λ v. ⟦<MemVolume as Volume>⟧.size v.disk };

    ghost failures = { λ v. v.failures };

    ghost image = { λ _. [] };

    ghost moment = { λ _. 0 };

    ghost left_at = { λ _ _ _. ⊥ };

    ghost image_length = { λ _ tells. absurd tells };

    fn size(&self) -> u32 {
        self.disk.size()
    }

    fn failures(&self) -> u64 {
        self.failures
    }

    fn read(&mut self, at: u64, out: &mut [u8]) -> Result<(), Failed> {
        if comes(&mut self.calls, &mut self.disk, None) && self.disk.read(at, out).is_ok() {
            return Ok(());
        }
        self.failures += 1;
        Err(Failed)
    }

    fn write_at(&mut self, at: u64, bytes: &[u8]) -> Result<(), Failed> {
        if comes(&mut self.calls, &mut self.disk, Some(Change::Write)) {
            put(&mut self.written, at, bytes);
            if self.disk.write_at(at, bytes).is_ok() {
                return Ok(());
            }
        }
        self.failures += 1;
        Err(Failed)
    }

    fn sync(&mut self) -> Result<(), Failed> {
        if comes(&mut self.calls, &mut self.disk, Some(Change::Sync)) && self.disk.sync().is_ok() {
            put(&mut self.settled, 0, &self.written);
            return Ok(());
        }
        self.failures += 1;
        Err(Failed)
    }
}
