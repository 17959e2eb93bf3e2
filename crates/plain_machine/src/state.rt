//! What a plain program keeps, and what it answers.
ghost use Rattle.std.specs.Prelude.{◌≡◌, true};
ghost use Rattle.plain_machine.specs.DistinctPlaces.{have_distinct_places};

use crate::holds::PlainHolds;
use crate::notices::PlainNotices;
use custody_machine::Refusal;
use custody_records::Release;
use deposit_name::{DepositName, Reference, Tld};
use desk::{Ground, Notice};
use schedule::{Day, Sec};

/// A registry with its first day.
#[derive(Clone, Copy)]
pub struct PlainRegistry {
    pub tld: Tld,
    pub first_day: Day,
}

/// What is kept of a part.
#[derive(Drop)]
pub enum PlainContent {
    /// Its bytes.
    Held(Vec<u8>),
    /// Their number, after the keeping year.
    Dropped(usize),
}

/// A part as it was received.
#[derive(Drop)]
pub struct PlainPart {
    pub name: DepositName,
    pub received: Sec,
    pub content: PlainContent,
}

/// What is kept: of two registries of one name the first counts, and of two releases of one reference.
#[derive(Drop)]
pub struct PlainState {
    pub registries: Vec<PlainRegistry>,
    /// Each place of a revision once.
    pub parts: Vec<PlainPart>,
    pub notices: PlainNotices,
    pub releases: Vec<Release>,
    pub holds: PlainHolds,
    ghost once: { have_distinct_places parts.items ≡ true },
}

/// The answer to a command, with the record that it made, or found made.
#[derive(Clone, Copy, Debug, PartialEq, Eq)]
pub enum PlainAnswer {
    Registry {
        tld: Tld,
        first_day: Day,
        is_repeat: bool,
    },
    Part {
        name: DepositName,
        received: Sec,
        len: usize,
        is_repeat: bool,
    },
    Notice {
        notice: Notice,
        is_repeat: bool,
    },
    /// A release of so many names.
    Release {
        reference: Reference,
        tld: Tld,
        reason: Ground,
        at: Sec,
        count: usize,
        is_repeat: bool,
    },
    /// A hold as it is kept: lifted, where it comes again after its lifting.
    Hold {
        reference: Reference,
        tld: Tld,
        day: Day,
        at: Sec,
        lifted: Option<Sec>,
        is_repeat: bool,
    },
    /// The lifting of the hold of a reference.
    Lifting {
        reference: Reference,
        at: Sec,
        is_repeat: bool,
    },
    /// Of how many parts the bytes were dropped.
    Purge {
        count: usize,
    },
    Refused(Refusal),
}
