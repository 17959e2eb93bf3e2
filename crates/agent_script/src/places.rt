//! The places where a session is broken off, and what open bytes hold then.
use crate::stopping::{Change, Filling};
use std::alloc::{AllocError, Global};
use std::fmt;

/// Where a session is broken off.
#[derive(Clone, Copy)]
pub enum Place {
    /// After so many writes and syncs of the volume, before the next one or within it.
    Change { after: usize, is_within: bool },
    /// Within the commit of the step of this number: its rows are kept or lost.
    Commit { step: usize, is_kept: bool },
    /// The call of the volume of this number fails.
    Call { number: usize },
}

/// A place, and what open bytes hold then.
#[derive(Clone, Copy)]
pub struct Way {
    pub place: Place,
    pub filling: Filling,
}

/// What a session has done.
#[derive(Drop)]
pub struct Trace {
    /// Its writes and syncs of the volume.
    pub changes: Vec<Change>,
    /// How many calls of the volume there were.
    pub calls: usize,
    /// The numbers of the steps that were committed.
    pub commits: Vec<usize>,
}

impl Trace {
    pub fn new(alloc: Global) -> Trace {
        Trace {
            changes: Vec::new(alloc),
            calls: 0,
            commits: Vec::new(alloc),
        }
    }

    /// How many of its calls were writes, and how many syncs.
    pub fn writes_and_syncs(&self) -> (usize, usize) {
        let is_write = |change: &&Change| **change == Change::Write;
        let writes = self.changes.iter().filter(is_write).count();
        (writes, self.changes.len().saturating_sub(writes))
    }

    /// The ways to stop such a session: before and within each write, sync and commit, and behind the
    /// last. (Before one of them is behind the one before it.)
    pub fn stops(&self, alloc: Global) -> Result<Vec<Way>, AllocError> {
        let mut ways = Vec::new(alloc);
        let mut is_open = false;
        for (after, change) in self.changes.iter().enumerate() {
            let is_write = *change == Change::Write;
            let is_within = false;
            add(&mut ways, Place::Change { after, is_within }, is_open)?;
            let is_within = true;
            add(
                &mut ways,
                Place::Change { after, is_within },
                is_open || is_write,
            )?;
            is_open = is_write;
        }
        for step in &self.commits {
            let (step, is_kept) = (*step, false);
            add(&mut ways, Place::Commit { step, is_kept }, false)?;
            let is_kept = true;
            add(&mut ways, Place::Commit { step, is_kept }, false)?;
        }
        Ok(ways)
    }

    /// The ways in which one call of its volume fails.
    pub fn failures(&self, alloc: Global) -> Result<Vec<Way>, AllocError> {
        let mut ways = Vec::new(alloc);
        for number in 0..self.calls {
            add(&mut ways, Place::Call { number }, true)?;
        }
        Ok(ways)
    }
}

/// A way for each filling, where bytes may be open, and else one.
fn add(ways: &mut Vec<Way>, place: Place, is_open: bool) -> Result<(), AllocError> {
    let filling = Filling::Ones;
    ways.push(Way { place, filling })?;
    if is_open {
        let others = [
            Filling::Zeros,
            Filling::Written,
            Filling::Reversed,
            Filling::Head,
        ];
        for filling in others {
            ways.push(Way { place, filling })?;
        }
    }
    Ok(())
}

impl fmt::Display for Place {
    fn fmt<W: fmt::Write>(&self, f: &mut fmt::Formatter<W>) -> fmt::Result {
        match self {
            Place::Change {
                after,
                is_within: false,
            } => write!(f, "a stop behind {after} writes and syncs"),
            Place::Change {
                after,
                is_within: true,
            } => write!(f, "a stop within the next of {after} writes and syncs"),
            Place::Commit {
                step,
                is_kept: false,
            } => write!(f, "a stop before the commit of step {step}"),
            Place::Commit {
                step,
                is_kept: true,
            } => write!(f, "a stop behind the commit of step {step}"),
            Place::Call { number } => write!(f, "the failure of call {number}"),
        }
    }
}

impl fmt::Display for Filling {
    fn fmt<W: fmt::Write>(&self, f: &mut fmt::Formatter<W>) -> fmt::Result {
        f.write_str(match self {
            Filling::Zeros => "zeros",
            Filling::Ones => "ones",
            Filling::Written => "what was written",
            Filling::Reversed => "the old bytes reversed",
            Filling::Head => "block 0",
        })
    }
}

impl fmt::Display for Way {
    fn fmt<W: fmt::Write>(&self, f: &mut fmt::Formatter<W>) -> fmt::Result {
        write!(f, "{}, with {}", self.place, self.filling)
    }
}
