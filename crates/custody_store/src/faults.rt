ghost use Rattle.std.specs.Prelude.{◌≡◌};

use custody_records::{RowDamage, RowError};
use sqlite::Error;

/// Why a call of the store gave no answer.
#[derive(Clone, Copy, Debug, Drop, PartialEq, Eq)]
pub enum StoreFault {
    /// A call of the database failed or was refused, or there was no memory.
    Failed,
    /// The rows are not those of records.
    Damaged(RowDamage),
}

impl From<Error> for StoreFault {
    ghost use Rattle.custody_store.specs.declared.faults.StoreFault.TheVariants.{Failed};

    ghost from_gives = { λ _ fault. fault ≡ Failed };

    fn from(_: Error) -> StoreFault {
        StoreFault::Failed
    }
}

impl From<RowError> for StoreFault {
    ghost use Rattle.custody_store.specs.inside.Loading.{fault_of};

    ghost from_gives = { λ error fault. fault ≡ fault_of error };

    fn from(error: RowError) -> StoreFault {
        match error {
            RowError::OutOfForm => StoreFault::Damaged(RowDamage::Form),
            RowError::NoMemory => StoreFault::Failed,
        }
    }
}
