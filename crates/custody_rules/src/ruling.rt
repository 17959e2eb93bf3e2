//! What records decide of a command.
use custody_machine::{Refusal, Statement};
use custody_records::{Hold, Part, Registry, Release};
use deposit_name::{DepositName, Reference, Tld};
use desk::{Ground, Notice};
use schedule::{Day, Sec};
use vault_volume::Extent;

/// What the records decide of a command, whatever the volume holds.
#[derive(Clone, Copy, Debug)]
pub enum Ruling<'a> {
    /// It is refused.
    Refuse(Refusal),
    /// It is a repeat, and answered by this record.
    Kept(KeptRecord<'a>),
    /// A part is held under its name, at these extents: the bytes there decide.
    Compare(&'a Part, &'a [Extent]),
    /// It makes this change, and nothing but room can refuse it.
    Go(Change),
}

/// A record that answers a repeat.
#[derive(Clone, Copy, Debug, PartialEq)]
pub enum KeptRecord<'a> {
    Registry(Registry),
    Notice(Notice),
    Release(&'a Release),
    Hold(&'a Hold),
    /// The hold of this reference was lifted at this moment.
    Lifting(Reference, Sec),
}

/// The one change of the records that a command makes.
#[derive(Clone, Copy, Debug, PartialEq)]
pub enum Change {
    /// A registry is taken on.
    Registry(Registry),
    /// A part is kept under this name, with the bytes of the command.
    Part(DepositName),
    /// The deposit that is stated is verified, and a notice of the verdict is kept.
    Verdict(Statement),
    /// The notice that the day has passed without a deposit is kept.
    Absence(Tld, Day),
    /// The deposits of a registry are handed over: a release of its parts that are held is kept.
    Release(Reference, Tld, Ground),
    /// A day of a registry is held under a reference.
    Hold(Reference, Tld, Day),
    /// The hold of a reference is lifted.
    Lift(Reference),
    /// The bytes that were kept for a year are dropped.
    Purge,
}
