//! Why a row does not become a record.
ghost use Rattle.std.specs.Prelude.{◌≡◌};
ghost use Rattle.custody_records.specs.declared.errors.RowError.TheVariants.{NoMemory};

use std::alloc::{AllocError, AllocFailed};
use thiserror::Error;

/// Why a row does not become a record.
#[derive(Clone, Copy, Debug, PartialEq, Eq, Error)]
pub enum RowError {
    /// A field is out of its form, or the row's key is that of a row before.
    #[error("row out of form")]
    OutOfForm,
    #[error("no memory")]
    NoMemory,
}

impl From<AllocError> for RowError {
    ghost from_gives = { λ _ e. e ≡ NoMemory };

    fn from(_e: AllocError) -> RowError {
        RowError::NoMemory
    }
}

impl<T: Drop> From<AllocFailed<T>> for RowError {
    ghost from_gives = { λ _ e. e ≡ NoMemory };

    fn from(_e: AllocFailed<T>) -> RowError {
        RowError::NoMemory
    }
}
