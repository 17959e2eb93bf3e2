//! Why a deposit fails.
use crate::files_reason::ReadFault;
use crate::header_reason::HeaderReason;
use crate::tables_reason::TablesReason;
use desk::Check;
use envelope::{FrameError, SpellingFault};

/// Why a deposit fails: the first place at which it fails the check of its verdict. It prints as one line.
#[derive(Debug, PartialEq, Eq, Drop)]
pub enum Reason {
    /// Check 1: the bytes are no frame.
    Frame(FrameError),
    /// Check 2: the envelope's text is not in its one spelling.
    Envelope(SpellingFault),
    /// Checks 3 to 8: what the envelope says.
    Header(HeaderReason),
    /// Checks 9, 10 and 13: the files behind the envelope.
    Read(ReadFault),
    /// Checks 11 and 12: the tables of the files.
    Tables(TablesReason),
}

impl Reason {
    ghost use Rattle.std.specs.Prelude.{◌≡◌};
    ghost use Rattle.deposit_verify.specs.Reasons.{reason_check};

    /// The check that the deposit fails.
    pub fn check(&self) -> Check
        ensures { result ≡ reason_check self.now }
    {
        match self {
            Reason::Frame(_) => Check::Frame,
            Reason::Envelope(_) => Check::Envelope,
            Reason::Header(reason) => reason.check(),
            Reason::Read(fault) => fault.check(),
            Reason::Tables(reason) => reason.check(),
        }
    }
}
