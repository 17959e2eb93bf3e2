//! Why a file is refused.
ghost use Rattle.std.specs.Prelude.{◌≡◌};
ghost use Rattle.dnrd_csv.specs.declared.errors.TableError.TheVariants.{OutOfMemory};

use std::alloc::{AllocError, AllocFailed};
use std::error::Error;
use std::fmt;

/// Why a file is no table, over the whole file in this order, and the first place where it is none. Rows and columns
/// count from 0.
#[derive(Debug, PartialEq, Eq, Drop)]
pub enum TableError {
    /// K1. The bytes are not UTF-8: those up to this offset are.
    NotUtf8 {
        offset: usize,
    },
    /// K2. The bytes are not the text of any list of rows: behind so many rows stands no row.
    NotRows {
        row: usize,
    },
    /// K3. A row has another number of fields than the table has columns.
    ColumnCount {
        row: usize,
        fields: usize,
    },
    /// K4. A field is out of form.
    FieldForm {
        row: usize,
        column: usize,
        field: Vec<u8>,
    },
    /// K5. A row has the key of an earlier one.
    DuplicateKey {
        row: usize,
        earlier: usize,
    },
    /// K6. Memory ran out. This may stand in place of any other answer.
    OutOfMemory,
}

impl fmt::Display for TableError {
    ghost use Rattle.std.specs.Prelude.{Some};
    ghost use Rattle.dnrd_csv.specs.ErrorText.{table_error_text};

    ghost output = { λ e. Some (table_error_text e) };

    fn fmt<W: fmt::Write>(&self, f: &mut fmt::Formatter<W>) -> fmt::Result {
        f.write_str(match self {
            TableError::NotUtf8 { .. } => "K1",
            TableError::NotRows { .. } => "K2",
            TableError::ColumnCount { .. } => "K3",
            TableError::FieldForm { .. } => "K4",
            TableError::DuplicateKey { .. } => "K5",
            TableError::OutOfMemory => "K6",
        })
    }
}

impl Error for TableError {}

impl From<AllocError> for TableError {
    ghost from_gives = { λ _ e. e ≡ OutOfMemory };

    fn from(_: AllocError) -> TableError {
        TableError::OutOfMemory
    }
}

impl<T: Drop> From<AllocFailed<T>> for TableError {
    ghost from_gives = { λ _ e. e ≡ OutOfMemory };

    fn from(_: AllocFailed<T>) -> TableError {
        TableError::OutOfMemory
    }
}

impl From<csv::Error> for TableError {
    ghost from_gives = { λ _ e. e ≡ OutOfMemory };

    // Over bytes in memory, a reader of rows of any length fails for memory alone.
    fn from(_: csv::Error) -> TableError {
        TableError::OutOfMemory
    }
}
