//! What a refusal or a failure is told as: one row each.
ghost use Rattle.std.specs.Prelude.{◌≡◌, ◌++◌, codes, decimal};
ghost use Rattle.custody_machine.specs.Codes.{failure_code, http_number, refusal_code, code_row, exit_number};
ghost use Rattle.custody_machine.specs.Machine.{refusal_number};

use crate::{Failure, Refusal};
use std::fmt;

/// How a call of the program ends.
#[derive(Clone, Copy, Debug, PartialEq, Eq, Hash)]
pub enum ExitStatus {
    /// All is done, or help was asked for.
    Done,
    /// What is kept has not changed.
    Refused,
    /// The words are no call of the program.
    Misused,
    /// It is not known whether a change was made, or output could not be written.
    Failed,
}

impl ExitStatus {
    /// The exit status.
    pub fn number(self) -> u8
        ensures { result ≡ exit_number self }
    {
        match self {
            ExitStatus::Done => 0,
            ExitStatus::Refused => 1,
            ExitStatus::Misused => 2,
            ExitStatus::Failed => 3,
        }
    }
}

/// A status of a response, by its name in RFC 9110, section 15.
#[derive(Clone, Copy, Debug, PartialEq, Eq, Hash)]
pub enum HttpStatus {
    BadRequest,
    NotFound,
    Conflict,
    Gone,
    ContentTooLarge,
    InternalServerError,
    ServiceUnavailable,
    /// RFC 4918, section 11.5.
    InsufficientStorage,
}

impl HttpStatus {
    /// The status code.
    pub fn number(self) -> u16
        ensures { result ≡ http_number self }
    {
        match self {
            HttpStatus::BadRequest => 400,
            HttpStatus::NotFound => 404,
            HttpStatus::Conflict => 409,
            HttpStatus::Gone => 410,
            HttpStatus::ContentTooLarge => 413,
            HttpStatus::InternalServerError => 500,
            HttpStatus::ServiceUnavailable => 503,
            HttpStatus::InsufficientStorage => 507,
        }
    }
}

/// What is told of a refusal or a failure. It prints as its number and text.
#[derive(Clone, Copy, Debug, PartialEq, Eq)]
pub struct Code {
    pub number: &'static str,
    pub text: &'static str,
    /// How the program ends.
    pub status: ExitStatus,
    /// The status of a response; nothing is answered so that has none.
    pub http: Option<HttpStatus>,
}

impl Refusal {
    /// Its row.
    pub fn code(&self) -> Code
        ensures row { code_row result ≡ refusal_code self.now }
        ensures numbered { result.number.now ≡ codes "Q" ++ decimal (refusal_number self.now) }
    {
        let (number, text, http) = match self {
            Refusal::NameRefused(_) => ("Q1", "name refused", HttpStatus::BadRequest),
            Refusal::RegistryUnknown => ("Q2", "registry unknown", HttpStatus::NotFound),
            Refusal::DateOutOfRange => ("Q3", "date out of range", HttpStatus::Conflict),
            Refusal::Size => ("Q4", "size", HttpStatus::ContentTooLarge),
            Refusal::OtherBytes => ("Q5", "other bytes under this name", HttpStatus::Conflict),
            Refusal::DroppedAfterKeeping => ("Q6", "dropped after keeping", HttpStatus::Gone),
            Refusal::RevisionNotDue => ("Q7", "revision not due", HttpStatus::Conflict),
            Refusal::AlreadyStated => ("Q8", "already stated", HttpStatus::Conflict),
            Refusal::TypeDiffers => ("Q9", "type differs", HttpStatus::Conflict),
            Refusal::PartOutOfOrder => ("Q10", "part out of order", HttpStatus::Conflict),
            Refusal::VolumeFull => ("Q11", "volume full", HttpStatus::InsufficientStorage),
            Refusal::PartsDiffer => ("Q12", "parts differ", HttpStatus::Conflict),
            Refusal::LaterDayPassed => ("Q13", "later day passed", HttpStatus::Conflict),
            Refusal::NotYetDue => ("Q14", "not yet due", HttpStatus::Conflict),
            Refusal::DayHasVerdict => ("Q15", "day has a verdict", HttpStatus::Conflict),
            Refusal::GroundDoesNotStand => ("Q16", "ground does not stand", HttpStatus::Conflict),
            Refusal::ReferenceUsed => ("Q17", "reference used", HttpStatus::Conflict),
            Refusal::NotInRelease => ("Q18", "not in release", HttpStatus::NotFound),
            Refusal::ReleaseUnknown => ("Q19", "release unknown", HttpStatus::NotFound),
            Refusal::HoldReferenceUsed => ("Q20", "hold reference used", HttpStatus::Conflict),
            Refusal::HoldUnknown => ("Q21", "hold unknown", HttpStatus::NotFound),
            Refusal::NoFailure => ("Q22", "no failure", HttpStatus::NotFound),
        };
        Code {
            number,
            text,
            status: ExitStatus::Refused,
            http: Some(http),
        }
    }
}

impl Failure {
    /// Its row.
    pub fn code(&self) -> Code
        ensures { code_row result ≡ failure_code self.now }
    {
        let (number, text, http) = match self {
            Failure::NoMemory => ("C1", "no memory", HttpStatus::ServiceUnavailable),
            Failure::VolumeFailed => ("C2", "volume failed", HttpStatus::ServiceUnavailable),
            Failure::StoreFailed => ("C3", "store failed", HttpStatus::ServiceUnavailable),
            Failure::Closed => ("C4", "closed", HttpStatus::ServiceUnavailable),
            Failure::Damaged(_) => ("C5", "damaged", HttpStatus::InternalServerError),
        };
        Code {
            number,
            text,
            status: ExitStatus::Failed,
            http: Some(http),
        }
    }
}

impl fmt::Display for Code {
    ghost use Rattle.std.specs.Prelude.{Some};
    ghost use Rattle.custody_machine.specs.Codes.{code_row, code_row_text};

    ghost output = { λ c. Some (code_row_text (code_row c)) };

    fn fmt<W: fmt::Write>(&self, f: &mut fmt::Formatter<W>) -> fmt::Result {
        write!(f, "{} {}", self.number, self.text)
    }
}
