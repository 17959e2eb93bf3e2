//! The lines of replies.
ghost use Rattle.std.specs.Prelude.{◌≡◌, Some};
ghost use Rattle.answer_lines.specs.Lines.{line_text};
ghost use Rattle.answer_lines.specs.Printing.{names_behind};

use crate::VolumeNumber;
use custody::Record;
use custody_records::Release;
use deposit_name::{DepositName, Reference, Tld};
use desk::{Ground, Notice};
use schedule::{Day, Sec};
use std::{fmt, str};

/// A line of a reply, written without its line feed.
#[derive(Clone, Copy, Debug, PartialEq, Eq)]
pub enum Line {
    /// The vault stands, with so many blocks and this number.
    Ready {
        blocks: u32,
        number: VolumeNumber,
    },
    /// The registry is recorded, with its first day.
    Registered {
        tld: Tld,
        first: Day,
    },
    /// The part is kept, received at that moment.
    Received {
        name: DepositName,
        length: u32,
        at: Sec,
    },
    /// A notice, as the report of its registry has it.
    Notice(Notice),
    /// Deposits are handed over: so many names are listed.
    Released {
        reference: Reference,
        tld: Tld,
        reason: Ground,
        at: Sec,
        count: usize,
    },
    /// A day of the registry is put on hold.
    Held {
        reference: Reference,
        tld: Tld,
        day: Day,
        at: Sec,
    },
    /// The hold of the reference is lifted.
    Lifted {
        reference: Reference,
        at: Sec,
    },
    /// Of how many parts a purge dropped the bytes.
    Purged {
        count: usize,
    },
    /// A registry of the records.
    Registry {
        tld: Tld,
        first: Day,
    },
    /// A part of the records whose bytes are held.
    Part {
        name: DepositName,
        length: u32,
        at: Sec,
    },
    /// A part of the records whose bytes are dropped.
    Dropped {
        name: DepositName,
        length: u32,
        at: Sec,
    },
    /// A release of the records, with the number of its names.
    Release {
        reference: Reference,
        tld: Tld,
        reason: Ground,
        at: Sec,
        count: usize,
    },
    /// A hold of the records that stands.
    Hold {
        reference: Reference,
        tld: Tld,
        day: Day,
        at: Sec,
    },
    /// A hold of the records that was lifted.
    LiftedHold {
        reference: Reference,
        tld: Tld,
        day: Day,
        at: Sec,
        lifted: Sec,
    },
    /// A day that a sweep would record as missed.
    Due {
        tld: Tld,
        day: Day,
    },
    /// So many parts of a revision of that day are held.
    Waiting {
        tld: Tld,
        day: Day,
        revision: u8,
        count: usize,
    },
    /// The SHA-256 of a part of the records, as `sha256sum` prints it.
    Digest {
        digest: [u8; 32],
        name: DepositName,
    },
    /// A part whose bytes have not its digest.
    Damaged {
        name: DepositName,
    },
    /// So many parts are held, and each has its digest.
    Sound {
        count: usize,
    },
    /// The free blocks, of all but the head's.
    Room {
        free: u32,
        total: u32,
    },
    /// Requests are taken at this port of the host itself.
    Listening {
        port: u16,
    },
}

impl Line {
    ghost use Rattle.std.specs.Prelude.{◌≡◌};
    ghost use Rattle.answer_lines.specs.Printing.{line_of};

    /// The line of the record that a command made, or found made.
    pub fn of_record(told: &Record) -> Line
        ensures { result ≡ line_of told.now }
    {
        match told {
            Record::Registry { tld, first_day } => Line::Registered {
                tld: *tld,
                first: *first_day,
            },
            Record::Part {
                name,
                received,
                len,
                ..
            } => Line::Received {
                name: *name,
                length: *len,
                at: *received,
            },
            Record::Notice(notice) => Line::Notice(*notice),
            Record::Release(release) => Line::Released {
                reference: release.reference,
                tld: release.tld,
                reason: release.reason,
                at: release.at,
                count: release.names.count(),
            },
            Record::Hold(hold) => Line::Held {
                reference: hold.reference,
                tld: hold.tld,
                day: hold.day,
                at: hold.at,
            },
            Record::Lifting { reference, at } => Line::Lifted {
                reference: *reference,
                at: *at,
            },
            Record::Purge { count } => Line::Purged { count: *count },
        }
    }
}

/// The names that a record lists, as the lines behind its own.
pub fn names_behind(told: &Record) -> &[u8]
    ensures { result.now ≡ names_behind told.now }
{
    match told {
        Record::Release(release) => release.names.as_text(),
        Record::Registry { .. }
        | Record::Part { .. }
        | Record::Notice(_)
        | Record::Hold(_)
        | Record::Lifting { .. }
        | Record::Purge { .. } => &[],
    }
}

impl fmt::Display for Line {
    ghost output = { λ l. Some (line_text l) };

    fn fmt<W: fmt::Write>(&self, f: &mut fmt::Formatter<W>) -> fmt::Result {
        let bytes = self.bytes();
        // A line is ASCII, so there is no `Err`.
        let text = str::from_utf8(&bytes[..bytes.len() - 1]).map_err(|_| fmt::Error)?;
        f.write_str(text)
    }
}
