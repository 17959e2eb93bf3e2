//! Why there is no volume in a file.
use std::error::Error;
use std::{fmt, io};

/// Why there is no volume in a file.
#[derive(Debug, Drop)]
pub enum FileError {
    Missing,
    Locked,
    /// It ends within a block, or has 2^32 blocks or more.
    WrongLength { bytes: u64 },
    Io(io::Error),
}

impl fmt::Display for FileError {
    ghost use Rattle.vault_volume.specs.File.{file_error_text};

    ghost output = { file_error_text };

    fn fmt<W: fmt::Write>(&self, f: &mut fmt::Formatter<W>) -> fmt::Result {
        match self {
            FileError::Missing => f.write_str("file missing"),
            FileError::Locked => f.write_str("file in use"),
            FileError::WrongLength { bytes } => {
                write!(f, "{bytes} bytes are no whole number of blocks")
            }
            FileError::Io(cause) => write!(f, "{cause}"),
        }
    }
}

impl Error for FileError {}
