//! Why a script is not played to its end.
use std::alloc::{AllocError, AllocFailed};
use std::{fmt, io};

#[derive(Debug, Drop)]
pub enum ScriptFault {
    NoMemory,
    Io(io::Error),
    Database(sqlite::Error),
    /// No database opens over its files.
    Unopened,
    /// What a line asks for cannot be done.
    Line,
}

impl fmt::Display for ScriptFault {
    fn fmt<W: fmt::Write>(&self, f: &mut fmt::Formatter<W>) -> fmt::Result {
        match self {
            ScriptFault::NoMemory => f.write_str("no memory"),
            ScriptFault::Io(error) => write!(f, "{error}"),
            ScriptFault::Database(error) => write!(f, "{error}"),
            ScriptFault::Unopened => f.write_str("the database does not open"),
            ScriptFault::Line => f.write_str("the last line cannot be done"),
        }
    }
}

impl From<AllocError> for ScriptFault {
    fn from(_error: AllocError) -> ScriptFault {
        ScriptFault::NoMemory
    }
}

impl From<io::Error> for ScriptFault {
    fn from(error: io::Error) -> ScriptFault {
        ScriptFault::Io(error)
    }
}

impl From<sqlite::Error> for ScriptFault {
    fn from(error: sqlite::Error) -> ScriptFault {
        ScriptFault::Database(error)
    }
}

impl<T: Drop> From<AllocFailed<T>> for ScriptFault {
    fn from(_failed: AllocFailed<T>) -> ScriptFault {
        ScriptFault::NoMemory
    }
}
