//! What a command line asks for.
ghost use Rattle.std.specs.Prelude.{◌≡◌, Some};
ghost use Rattle.agent_cli.specs.BatchLines.{is_whole_call};
ghost use Rattle.agent_cli.specs.Faults.{IsStatusOf, argument_text, word_fault_text};
ghost use Rattle.agent_cli.specs.Reads.{only_reads};
ghost use Rattle.agent_cli.specs.declared.order.WordFault.TheVariants.{NoMemory};

use answer_lines::VolumeNumber;
use clap::error::ErrorKind;
use custody_machine::{Command, ExitStatus, Failure, Statement};
use deposit_name::{Reference, Tld};
use desk::Revision;
use schedule::{Day, Sec};
use std::alloc::AllocError;
use std::fmt;

/// A call of the program: the folder of the vault, the moment that the words name, and what is to
/// be done there.
#[derive(Clone, Copy)]
pub struct Order<'a> {
    pub folder: &'a str,
    /// The moment of the call, where the words name it.
    pub now: Option<Sec>,
    pub deed: Deed<'a>,
}

/// What is to be done in a folder. Each value is in form.
#[derive(Clone, Copy)]
pub enum Deed<'a> {
    Init {
        blocks: u32,
        number: VolumeNumber,
    },
    /// A part file is put: its bytes are not read yet.
    Put {
        file: &'a str,
    },
    /// The notice that a statement would be answered with is told.
    Preview(Statement),
    /// A command of the agent.
    Do(Command<'a>),
    /// The days that a sweep would record are listed.
    Due,
    Sweep {
        /// How many absences may be recorded, where there is a limit.
        at_most: Option<u32>,
    },
    Fetch {
        reference: Reference,
        /// The name of a part, in whatever form.
        name: &'a str,
    },
    Report {
        tld: Tld,
    },
    /// Why a revision has failed is told.
    Explain {
        tld: Tld,
        day: Day,
        rev: Revision,
    },
    Digests {
        tld: Tld,
    },
    State,
    Audit,
    /// The orders of lines are done, in their turn.
    Batch,
    Serve {
        port: u16,
        /// How many connections are served.
        requests: u32,
        /// Whether it ends where the agent is closed.
        until_closed: bool,
    },
}

impl Deed<'_> {
    /// Whether it only reads: it records nothing, and writes nothing into the vault.
    pub fn only_reads(&self) -> bool
        ensures { result ≡ only_reads self.now }
    {
        match self {
            Deed::Preview(_)
            | Deed::Due
            | Deed::Fetch { .. }
            | Deed::Report { .. }
            | Deed::Explain { .. }
            | Deed::Digests { .. }
            | Deed::State
            | Deed::Audit => true,
            Deed::Init { .. }
            | Deed::Put { .. }
            | Deed::Do(_)
            | Deed::Sweep { .. }
            | Deed::Batch
            | Deed::Serve { .. } => false,
        }
    }
}

impl Deed<'_> {
    /// Whether it is a whole call, and so no order of a batch.
    pub fn is_whole_call(&self) -> bool
        ensures { result ≡ is_whole_call self.now }
    {
        matches!(self, Deed::Batch | Deed::Serve { .. })
    }
}

/// An argument whose text has a form of its own, in the order in which they are tested.
#[derive(Clone, Copy, Debug, PartialEq, Eq, PartialOrd, Ord, Hash)]
pub enum Argument {
    Tld,
    Date,
    First,
    Kind,
    Id,
    Reference,
    Ground,
    Number,
    Now,
}

impl fmt::Display for Argument {
    ghost output = { λ a. Some (argument_text a) };

    fn fmt<W: fmt::Write>(&self, f: &mut fmt::Formatter<W>) -> fmt::Result {
        f.write_str(match self {
            Argument::Tld => "TLD",
            Argument::Date => "DATE",
            Argument::First => "FIRST",
            Argument::Kind => "KIND",
            Argument::Id => "ID",
            Argument::Reference => "REF",
            Argument::Ground => "GROUND",
            Argument::Number => "NUMBER",
            Argument::Now => "NOW",
        })
    }
}

/// Why the words of a call are no order. It is written as it is printed, with its last line feed.
#[derive(Debug, Drop)]
pub enum WordFault {
    /// They are no words of the command, or ask for help or for the version.
    Words(clap::Error),
    /// The first argument that is out of form.
    Bad(Argument),
    /// No memory for reading them.
    NoMemory,
}

impl WordFault {
    /// The exit status: 0 where the words ask for help or for the version, 2 for other words, 3 for want of memory.
    pub fn status(&self) -> u8
        ensures { IsStatusOf self.now result }
    {
        let status = match self {
            WordFault::Words(error) => match error.kind() {
                ErrorKind::DisplayHelp | ErrorKind::DisplayVersion => ExitStatus::Done,
                _ => ExitStatus::Misused,
            },
            WordFault::Bad(_) => ExitStatus::Misused,
            WordFault::NoMemory => Failure::NoMemory.code().status,
        };
        status.number()
    }
}

impl fmt::Display for WordFault {
    ghost output = { word_fault_text };

    fn fmt<W: fmt::Write>(&self, f: &mut fmt::Formatter<W>) -> fmt::Result {
        match self {
            WordFault::Words(error) => write!(f, "{error}"),
            WordFault::Bad(argument) => writeln!(f, "bad value for {argument}"),
            WordFault::NoMemory => writeln!(f, "{}", Failure::NoMemory),
        }
    }
}

impl From<AllocError> for WordFault {
    ghost from_gives = { λ _ e. e ≡ NoMemory };

    fn from(_error: AllocError) -> WordFault {
        WordFault::NoMemory
    }
}
