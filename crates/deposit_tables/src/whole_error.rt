//! Why whole tables are not packed.
ghost use Rattle.std.specs.Prelude.{◌≡◌};
ghost use Rattle.deposit_pack.specs.declared.pack_error.PackError.TheVariants.{Memory};
ghost use Rattle.deposit_tables.specs.declared.whole_error.WholeError.TheVariants.{Pack};

use deposit_pack::PackError;
use deposit_verify::{MissingKeyText, NoKey};
use std::alloc::{AllocError, AllocFailed};
use std::error::Error;
use std::fmt;

/// Why whole tables are not packed behind a chain of deposits. It prints as one line.
#[derive(Debug, PartialEq, Eq, Drop)]
pub enum WholeError {
    /// U1 to U11, of the tables or of the deposit of what has changed in them.
    Pack(PackError),
    /// U6. They are not all eight tables, in the order of a deposit.
    Tables,
    /// U12. A row names an object that is not there.
    Reference(NoKey),
    /// The deposits are no chain.
    Chain,
}

impl fmt::Display for WholeError {
    ghost use Rattle.std.specs.Prelude.{Some};
    ghost use Rattle.deposit_tables.specs.Whole.{whole_error_text};

    ghost output = { λ e. Some (whole_error_text e) };

    fn fmt<W: fmt::Write>(&self, f: &mut fmt::Formatter<W>) -> fmt::Result {
        match self {
            WholeError::Pack(error) => write!(f, "{error}"),
            WholeError::Tables => f.write_str("U6 contents: all eight tables are wanted, in order"),
            WholeError::Reference(missing) => {
                write!(f, "U12 {}.csv{}", missing.table, MissingKeyText(missing))
            }
            WholeError::Chain => f.write_str("the deposits are no chain"),
        }
    }
}

impl Error for WholeError {}

impl From<PackError> for WholeError {
    ghost from_gives = { λ p e. e ≡ Pack p };

    fn from(error: PackError) -> WholeError {
        WholeError::Pack(error)
    }
}

impl From<AllocError> for WholeError {
    ghost from_gives = { λ _ e. e ≡ Pack Memory };

    fn from(_: AllocError) -> WholeError {
        WholeError::Pack(PackError::Memory)
    }
}

impl<T: Drop> From<AllocFailed<T>> for WholeError {
    ghost from_gives = { λ _ e. e ≡ Pack Memory };

    fn from(_: AllocFailed<T>) -> WholeError {
        WholeError::Pack(PackError::Memory)
    }
}
