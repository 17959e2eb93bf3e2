//! Why an order is not carried out.
ghost use Rattle.std.specs.Prelude.{◌≡◌, IfSome, OnOk, codes};
ghost use Rattle.std.specs.Io.KnownBytes.{Appends};
ghost use Rattle.std.specs.IoError.{error_kind};
ghost use Rattle.answer_lines.specs.Printing.{WritesBeginning};
ghost use Rattle.agent_program.specs.Errors.{IsErrorPrinted, IsFileError, IsOfFile, IsOfVault, error_line, error_status};

use answer_lines::{WriteFailed, failure_bytes, write_whole};
use custody_machine::{ExitStatus, Failure};
use std::alloc::{AllocError, Global};
use std::fmt;
use std::io::{self, ErrorKind, Write};

/// What is said of a file that is not there.
pub const MISSING: &str = "file missing";

/// What stops the program before an order is carried out.
#[derive(Debug, Drop)]
pub enum ProgramError {
    /// An argument is no text.
    Words,
    /// A file or a folder is not there, is in use, or fails: the line that says which, and why.
    File(String),
    /// The clock fails, or tells a moment out of range.
    Clock,
    /// The vault fails.
    Failure(Failure),
}

impl ProgramError {
    /// The exit status.
    pub fn status(&self) -> u8
        ensures { result ≡ error_status self.now }
    {
        let status = match self {
            ProgramError::Words => ExitStatus::Misused,
            _ => ExitStatus::Failed,
        };
        status.number()
    }

    /// The error of a file or a folder, by its path and what is wrong with it.
    pub fn of_file<D: fmt::Display + Drop>(alloc: Global, path: &str, cause: D) -> ProgramError
        ensures kind { IsOfFile result }
        ensures vault { IsOfVault result }
        ensures line { IfSome (D.output cause) (λ text. IsFileError path.now text result) }
    {
        match format!(in alloc; "file failed: {path}: {cause}\n") {
            Ok(line) => ProgramError::File(line),
            Err(_) => ProgramError::Failure(Failure::NoMemory),
        }
    }

    /// The error that a call on a file gives.
    pub fn by_file(alloc: Global, path: &str, error: io::Error) -> ProgramError
        ensures kind { IsOfFile result }
        ensures vault { IsOfVault result }
        ensures memory { error_kind error ≡ ErrorKind.OutOfMemory → result ≡ ProgramError.Failure Failure.NoMemory }
        ensures missing { error_kind error ≡ ErrorKind.NotFound → IsFileError path.now (codes "file missing") result }
    {
        match error.kind() {
            ErrorKind::OutOfMemory => ProgramError::Failure(Failure::NoMemory),
            ErrorKind::NotFound => ProgramError::of_file(alloc, path, MISSING),
            _ => ProgramError::of_file(alloc, path, error),
        }
    }
}

impl From<AllocError> for ProgramError {
    ghost use Rattle.std.specs.Prelude.{◌≡◌};
    ghost use Rattle.custody_machine.specs.declared.answers.Failure.TheVariants.{NoMemory};
    ghost use Rattle.agent_program.specs.declared.errors.ProgramError.TheVariants as error;

    ghost from_gives = { λ _ e. e ≡ error.Failure NoMemory };

    fn from(_error: AllocError) -> ProgramError {
        ProgramError::Failure(Failure::NoMemory)
    }
}

/// Writes the line of an error.
fn write_error<E: Write>(error: &ProgramError, err: &mut E) -> Result<(), WriteFailed>
    ensures whole { OnOk result (Appends (E.contents err.old) (E.contents err.new) (error_line error.now)) }
    ensures begun { WritesBeginning (record { before = E.contents err.old; after = E.contents err.new }) (error_line error.now) }
{
    match error {
        ProgramError::Words => write_whole(b"error: an argument is no text\n", err),
        ProgramError::File(line) => write_whole(line.as_bytes(), err),
        ProgramError::Clock => write_whole(b"clock failed\n", err),
        ProgramError::Failure(failure) => write_whole(&failure_bytes(failure), err),
    }
}

/// Prints the line of an error, and answers the status.
pub fn tell_error<E: Write>(error: &ProgramError, err: &mut E) -> u8
    ensures { IsErrorPrinted error.now result (record { before = E.contents err.old; after = E.contents err.new }) }
{
    match write_error(error, err) {
        Ok(()) => error.status(),
        Err(WriteFailed) => ExitStatus::Failed.number(),
    }
}
