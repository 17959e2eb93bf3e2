//! Why objects are not packed.
ghost use Rattle.std.specs.Prelude.{◌≡◌};
ghost use Rattle.deposit_pack.specs.declared.pack_error.PackError.TheVariants.{Memory};

use deposit_name::{Kind, TableName};
use deposit_verify::{FilePlace, MenuReason, MissingKeyText, NoKey, NoTable, TableFaultText};
use schedule::Day;
use std::alloc::{AllocError, AllocFailed};
use std::error::Error;
use std::fmt;

/// Why objects are not packed. It prints as one line, which begins with its number.
#[derive(Debug, PartialEq, Eq, Drop)]
pub enum PackError {
    /// U1. The day is a Sunday, and the deposit is not full.
    Sunday(Day),
    /// U2. A full deposit names one before it, or a differential one none.
    PrevId(Kind),
    /// U3. Keys of this table are to be deleted: a full deposit deletes none, and any other only those of four tables.
    Deletes { kind: Kind, table: TableName },
    /// U4. The first row of this file is not the names of its columns.
    Header(FilePlace),
    /// U5. A row of a file cannot stand in its table.
    Table(NoTable),
    /// U6. The tables are not those of the kind, or stand in another order.
    Menu(MenuReason),
    /// U7. A full deposit names a key which is not there.
    Reference(NoKey),
    /// U8. The deposit is not full, and the keys before it are wanted for its counts.
    NoBase,
    /// U9. There are more of these objects than a count holds.
    Count(TableName),
    /// U10. The deposit has more than 8 MiB: eight parts do not hold it.
    Length,
    /// U11. Memory ran out. This may stand in place of any other answer.
    Memory,
}

impl fmt::Display for PackError {
    ghost use Rattle.std.specs.Prelude.{Some};
    ghost use Rattle.deposit_pack.specs.PackErrorText.{pack_error_text};

    ghost output = { λ e. Some (pack_error_text e) };

    fn fmt<W: fmt::Write>(&self, f: &mut fmt::Formatter<W>) -> fmt::Result {
        match self {
            PackError::Sunday(day) => {
                write!(f, "U1 {day} is a Sunday, and the deposit is not full")
            }
            PackError::PrevId(kind) => write!(f, "U2 {}", WantedPrevId(*kind)),
            PackError::Deletes { kind, table } => {
                write!(f, "U3 deletes/{table}.csv: {}", MayDelete(*kind))
            }
            PackError::Header(file) => {
                write!(
                    f,
                    "U4 {file}.csv: the first row is not the names of its columns"
                )
            }
            PackError::Table(fault) => write!(f, "U5 {}.csv{}", fault.file, TableFaultText(fault)),
            PackError::Menu(reason) => write!(f, "U6 {reason}"),
            PackError::Reference(missing) => {
                write!(f, "U7 {}.csv{}", missing.table, MissingKeyText(missing))
            }
            PackError::NoBase => f.write_str("U8 the deposits that it follows are wanted"),
            PackError::Count(table) => write!(f, "U9 {table}.csv: more than a count holds"),
            PackError::Length => f.write_str("U10 more bytes than eight parts of 1048576 hold"),
            PackError::Memory => f.write_str("U11 out of memory"),
        }
    }
}

/// What the prevId of a deposit of this kind has to be.
#[derive(Clone, Copy)]
struct WantedPrevId(Kind);

impl fmt::Display for WantedPrevId {
    ghost use Rattle.std.specs.Prelude.{Some};
    ghost use Rattle.deposit_pack.specs.PackErrorText.{wanted_prev_id_text};

    ghost output = { λ w. Some (wanted_prev_id_text w.0) };

    fn fmt<W: fmt::Write>(&self, f: &mut fmt::Formatter<W>) -> fmt::Result {
        f.write_str(match self.0 {
            Kind::Full => "a full deposit follows none",
            Kind::Diff => "a differential deposit follows the latest that passed",
            Kind::Incr => "an incremental deposit follows the latest full one that passed",
        })
    }
}

/// Which keys a deposit of this kind may delete.
#[derive(Clone, Copy)]
struct MayDelete(Kind);

impl fmt::Display for MayDelete {
    ghost use Rattle.std.specs.Prelude.{Some};
    ghost use Rattle.deposit_pack.specs.PackErrorText.{may_delete_text};

    ghost output = { λ m. Some (may_delete_text m.0) };

    fn fmt<W: fmt::Write>(&self, f: &mut fmt::Formatter<W>) -> fmt::Result {
        f.write_str(match self.0 {
            Kind::Full => "a full deposit deletes nothing",
            Kind::Diff | Kind::Incr => "only domains, hosts, contacts and registrars are deleted",
        })
    }
}

impl Error for PackError {}

impl From<AllocError> for PackError {
    ghost from_gives = { λ _ e. e ≡ Memory };

    fn from(_: AllocError) -> PackError {
        PackError::Memory
    }
}

impl<T: Drop> From<AllocFailed<T>> for PackError {
    ghost from_gives = { λ _ e. e ≡ Memory };

    fn from(_: AllocFailed<T>) -> PackError {
        PackError::Memory
    }
}
