//! Why the files of a deposit are not read.
ghost use Rattle.std.specs.Prelude.{◌≡◌};
ghost use Rattle.deposit_verify.specs.FilesReasons.{fault_check};

use deposit_name::TableName;
use desk::Check;
use dnrd_csv::TableError;

/// A list of files of an envelope.
#[derive(Clone, Copy, Debug, PartialEq, Eq)]
pub enum FileList {
    Contents,
    Deletes,
}

/// A file of a deposit: its list, its place in it, from 0, and its table.
#[derive(Clone, Copy, Debug, PartialEq, Eq)]
pub struct FilePlace {
    pub list: FileList,
    pub place: usize,
    pub name: TableName,
}

/// Check 9: why the bytes behind the envelope are not its files.
#[derive(Clone, Copy, Debug, PartialEq, Eq)]
pub enum FilesReason {
    /// The lengths of the entries are so many bytes, and there are so many.
    Lengths {
        said: usize,
        there: usize,
    },
    /// The lengths are right; this file, the first, has another digest.
    Digest {
        place: FilePlace,
        said: [u8; 32],
        found: [u8; 32],
    },
}

/// A file that is no table, the first of its list, and why.
#[derive(Debug, PartialEq, Eq, Drop)]
pub struct NoTable {
    pub file: FilePlace,
    pub fault: TableError,
}

/// Why what stands behind an envelope is not read, by the check that fails.
#[derive(Debug, PartialEq, Eq, Drop)]
pub enum ReadFault {
    /// Check 9.
    Files(FilesReason),
    /// Check 10.
    Table(NoTable),
    /// Check 13.
    Deletes(NoTable),
}

impl ReadFault {
    /// The check that fails.
    pub fn check(&self) -> Check
        ensures { result ≡ fault_check self.now }
    {
        match self {
            ReadFault::Files(_) => Check::Files,
            ReadFault::Table(_) => Check::Table,
            ReadFault::Deletes(_) => Check::Deletes,
        }
    }
}
