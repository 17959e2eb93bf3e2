//! Why an order is not carried out.
use std::alloc::{AllocError, AllocFailed, Global};
use std::fmt;
use std::io::{self, ErrorKind};

/// Why an order is not carried out.
#[derive(Drop)]
pub enum ProgramError {
    /// The words are no order, or ask for help.
    Words(clap::Error),
    /// The value of this argument is out of form, or the files do not belong together: the line that says it.
    Misused(String),
    /// The tables cannot be a deposit, or the parts are none that an agent would receive: the line that says why.
    Refused(String),
    /// A file or a folder fails: the line that says which, and why.
    File(String),
    /// Standard output takes no more.
    Output,
    /// Memory ran out.
    Memory,
}

impl ProgramError {
    /// The exit status.
    pub fn status(&self) -> u8 {
        match self {
            ProgramError::Words(error) => error.exit_code() as u8,
            ProgramError::Misused(_) => 2,
            ProgramError::Refused(_) => 1,
            ProgramError::File(_) | ProgramError::Output | ProgramError::Memory => 3,
        }
    }

    /// Words that are in form, but name what they may not.
    pub fn misused<D: fmt::Display + Drop>(alloc: Global, cause: D) -> ProgramError {
        match format!(in alloc; "error: {cause}") {
            Ok(line) => ProgramError::Misused(line),
            Err(_) => ProgramError::Memory,
        }
    }

    pub fn refused<D: fmt::Display + Drop>(alloc: Global, cause: D) -> ProgramError {
        match format!(in alloc; "{cause}") {
            Ok(line) => ProgramError::Refused(line),
            Err(_) => ProgramError::Memory,
        }
    }

    /// The error of a file or a folder, by its path and what is wrong with it.
    pub fn of_file<D: fmt::Display + Drop>(alloc: Global, path: &str, cause: D) -> ProgramError {
        match format!(in alloc; "file failed: {path}: {cause}") {
            Ok(line) => ProgramError::File(line),
            Err(_) => ProgramError::Memory,
        }
    }

    /// The error that a call on a file gives.
    pub fn by_file(alloc: Global, path: &str, error: io::Error) -> ProgramError {
        match error.kind() {
            ErrorKind::OutOfMemory => ProgramError::Memory,
            ErrorKind::NotFound => ProgramError::of_file(alloc, path, "file missing"),
            _ => ProgramError::of_file(alloc, path, error),
        }
    }
}

impl From<AllocError> for ProgramError {
    fn from(_: AllocError) -> ProgramError {
        ProgramError::Memory
    }
}

impl<T: Drop> From<AllocFailed<T>> for ProgramError {
    fn from(_: AllocFailed<T>) -> ProgramError {
        ProgramError::Memory
    }
}
