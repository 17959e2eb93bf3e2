//! What a custody answers.
ghost use Rattle.std.specs.Prelude.{◌≡◌, IfOk, OnErr, true};
ghost use Rattle.custody_rules.specs.Rulings.{record_of};
ghost use Rattle.custody.specs.Answers.{lists_names, repeated_record};

use crate::opening::failure_of;
use custody_machine::{Code, ExitStatus, Failure, Refusal};
use custody_records::{Hold, Registry, Release};
use custody_rules::KeptRecord;
use custody_store::StoreFault;
use deposit_name::{DepositName, Reference, Tld};
use desk::Notice;
use schedule::{Day, Sec};
use std::alloc::{AllocError, Global};
use std::fmt;
use vault_volume::{Extent, ReadError, StageError};

/// The record that a command made, or found made.
#[derive(Debug, PartialEq, Drop)]
pub enum Record {
    Registry {
        tld: Tld,
        first_day: Day,
    },
    /// A part that is held: when it was received, how many bytes it has, their SHA-256, and the extents
    /// where they lie, in their order.
    Part {
        name: DepositName,
        received: Sec,
        len: u32,
        digest: [u8; 32],
        extents: Vec<Extent>,
    },
    Notice(Notice),
    Release(Release),
    Hold(Hold),
    /// When the hold of a reference was lifted.
    Lifting {
        reference: Reference,
        at: Sec,
    },
    /// Of how many parts a purge dropped the bytes. It is no record of its own.
    Purge {
        count: usize,
    },
}

impl Record {
    /// The record that answers a repeat. Only a release takes memory, for its names.
    pub(crate) fn of_kept(alloc: Global, kept: &KeptRecord<'_>) -> Result<Record, AllocError>
        ensures told { IfOk result (λ told. told ≡ repeated_record kept.now) }
        ensures release { OnErr result (lists_names (record_of kept.now) ≡ true) }
    {
        match kept {
            KeptRecord::Registry(registry) => Ok(Record::from(*registry)),
            KeptRecord::Notice(notice) => Ok(Record::Notice(*notice)),
            KeptRecord::Release(release) => Ok(Record::Release(release.try_clone(alloc)?)),
            KeptRecord::Hold(hold) => Ok(Record::Hold(**hold)),
            KeptRecord::Lifting(reference, at) => Ok(Record::Lifting {
                reference: *reference,
                at: *at,
            }),
        }
    }
}

impl From<Registry> for Record {
    ghost use Rattle.std.specs.Prelude.{◌≡◌};
    ghost use Rattle.custody.specs.declared.answers.Record.TheVariants as of;

    ghost from_gives = { λ registry r. r ≡ of.Registry registry.tld registry.first_day };

    fn from(registry: Registry) -> Record {
        Record::Registry {
            tld: registry.tld,
            first_day: registry.first_day,
        }
    }
}

/// A command was accepted.
#[derive(Debug, PartialEq, Drop)]
pub struct Reply {
    pub record: Record,
    /// The record was there before, and nothing has changed.
    pub is_repeat: bool,
}

/// A command was not accepted. It prints as its number and text.
#[derive(Clone, Copy, Debug, PartialEq, Eq)]
pub enum Refused {
    Refusal(Refusal),
    Failure(Failure),
}

/// What a command is answered.
pub type Outcome = Result<Reply, Refused>;

/// Why there is no custody over a volume and a database. It prints as its number and text.
#[derive(Clone, Copy, Debug, PartialEq, Eq)]
pub enum InitError {
    /// The database has a record of a vault.
    AlreadyInitialised,
    /// The volume has fewer than 2 blocks, or more than 262,144.
    Size,
    Failure(Failure),
}

impl InitError {
    ghost use Rattle.std.specs.Prelude.{◌≡◌};
    ghost use Rattle.custody.specs.Answers.{init_error_code};
    ghost use Rattle.custody_machine.specs.Codes.{code_row};

    /// Its row.
    pub fn code(&self) -> Code
        ensures { code_row result ≡ init_error_code self.now }
    {
        let (number, text) = match self {
            InitError::AlreadyInitialised => ("I1", "already initialised"),
            InitError::Size => ("I2", "size"),
            InitError::Failure(failure) => return failure.code(),
        };
        Code {
            number,
            text,
            status: ExitStatus::Refused,
            http: None,
        }
    }
}

impl From<Refusal> for Refused {
    ghost use Rattle.std.specs.Prelude.{◌≡◌};
    ghost use Rattle.custody.specs.declared.answers.Refused.TheVariants as refused;

    ghost from_gives = { λ refusal r. r ≡ refused.Refusal refusal };

    fn from(refusal: Refusal) -> Refused {
        Refused::Refusal(refusal)
    }
}

impl From<Failure> for Refused {
    ghost use Rattle.std.specs.Prelude.{◌≡◌};
    ghost use Rattle.custody.specs.declared.answers.Refused.TheVariants as refused;

    ghost from_gives = { λ failure r. r ≡ refused.Failure failure };

    fn from(failure: Failure) -> Refused {
        Refused::Failure(failure)
    }
}

impl From<AllocError> for Refused {
    ghost use Rattle.std.specs.Prelude.{◌≡◌};
    ghost use Rattle.custody.specs.declared.answers.Refused.TheVariants as refused;
    ghost use Rattle.custody_machine.specs.declared.answers.Failure.TheVariants as failure;

    ghost from_gives = { λ _ r. r ≡ refused.Failure failure.NoMemory };

    fn from(_: AllocError) -> Refused {
        Refused::Failure(Failure::NoMemory)
    }
}

impl From<StoreFault> for Refused {
    ghost use Rattle.std.specs.Prelude.{◌≡◌};
    ghost use Rattle.custody.specs.declared.answers.Refused.TheVariants as refused;
    ghost use Rattle.custody.specs.Opening.{failure_of};

    ghost from_gives = { λ fault r. r ≡ refused.Failure (failure_of fault) };

    fn from(fault: StoreFault) -> Refused {
        Refused::Failure(failure_of(fault))
    }
}

impl From<StageError> for Refused {
    ghost use Rattle.std.specs.Prelude.{◌≡◌};
    ghost use Rattle.custody.specs.Answers.{refused_of_stage_error};

    ghost from_gives = { λ error r. r ≡ refused_of_stage_error error };

    fn from(error: StageError) -> Refused {
        match error {
            StageError::Full => Refused::Refusal(Refusal::VolumeFull),
            StageError::NoMemory => Refused::Failure(Failure::NoMemory),
            StageError::VolumeFailed => Refused::Failure(Failure::VolumeFailed),
        }
    }
}

impl From<ReadError> for Refused {
    ghost use Rattle.std.specs.Prelude.{◌≡◌};
    ghost use Rattle.custody.specs.Answers.{refused_of_read_error};

    ghost from_gives = { λ error r. r ≡ refused_of_read_error error };

    fn from(error: ReadError) -> Refused {
        match error {
            ReadError::NoMemory => Refused::Failure(Failure::NoMemory),
            ReadError::VolumeFailed => Refused::Failure(Failure::VolumeFailed),
        }
    }
}

impl From<Failure> for InitError {
    ghost use Rattle.std.specs.Prelude.{◌≡◌};
    ghost use Rattle.custody.specs.declared.answers.InitError.TheVariants as init_error;

    ghost from_gives = { λ failure e. e ≡ init_error.Failure failure };

    fn from(failure: Failure) -> InitError {
        InitError::Failure(failure)
    }
}

impl fmt::Display for Refused {
    ghost use Rattle.std.specs.Prelude.{Some};
    ghost use Rattle.custody.specs.Answers.{refused_text};

    ghost output = { λ r. Some (refused_text r) };

    fn fmt<W: fmt::Write>(&self, f: &mut fmt::Formatter<W>) -> fmt::Result {
        match self {
            Refused::Refusal(refusal) => write!(f, "{refusal}"),
            Refused::Failure(failure) => write!(f, "{failure}"),
        }
    }
}

impl fmt::Display for InitError {
    ghost use Rattle.std.specs.Prelude.{Some};
    ghost use Rattle.custody.specs.Answers.{init_error_text};

    ghost output = { λ e. Some (init_error_text e) };

    fn fmt<W: fmt::Write>(&self, f: &mut fmt::Formatter<W>) -> fmt::Result {
        match self {
            InitError::Failure(failure) => write!(f, "{failure}"),
            _ => write!(f, "{}", self.code()),
        }
    }
}
