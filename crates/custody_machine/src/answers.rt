//! Why a command is not accepted.
use crate::Damage;
use deposit_name::NameError;
use std::fmt;

/// Why a command is refused: the first of these, in this order, that stands.
#[derive(Clone, Copy, Debug, PartialEq, Eq, Hash)]
pub enum Refusal {
    /// The text is no deposit name.
    NameRefused(NameError),
    /// The top-level domain is not registered.
    RegistryUnknown,
    /// The day is before the registry's first day, or after today.
    DateOutOfRange,
    /// The part has no bytes, or more than 1,048,576.
    Size,
    /// The name is recorded with other bytes.
    OtherBytes,
    /// The name is recorded, and its bytes were dropped after the keeping year.
    DroppedAfterKeeping,
    /// The day has a receipt, or the revision before has no failure.
    RevisionNotDue,
    /// The revision has a notice.
    AlreadyStated,
    /// The revision has a part of another kind.
    TypeDiffers,
    /// The revision has not exactly the parts before this one.
    PartOutOfOrder,
    /// The volume has no room.
    VolumeFull,
    /// The revision has no part, or another number of parts than is stated.
    PartsDiffer,
    /// A later day of the registry has a receipt.
    LaterDayPassed,
    /// The day has not passed.
    NotYetDue,
    /// A revision of the day has a receipt or a failure.
    DayHasVerdict,
    /// The ground of the release does not stand.
    GroundDoesNotStand,
    /// The reference is that of a release of another registry, or on another ground.
    ReferenceUsed,
    /// The release has no part of this name.
    NotInRelease,
    /// No release has this reference.
    ReleaseUnknown,
    /// The reference is that of a hold of another registry or day.
    HoldReferenceUsed,
    /// No hold has this reference.
    HoldUnknown,
    /// The revision has no notice of failure.
    NoFailure,
}

/// Why a command failed.
#[derive(Clone, Copy, Debug, PartialEq, Eq, Hash)]
pub enum Failure {
    /// Memory was refused. Nothing was written.
    NoMemory,
    /// The volume failed. The custody is closed.
    VolumeFailed,
    /// The database failed. The custody is closed, and the command is found whole or not at all when
    /// it is opened again.
    StoreFailed,
    /// The custody is closed.
    Closed,
    /// What is kept is damaged.
    Damaged(Damage),
}

impl fmt::Display for Refusal {
    ghost use Rattle.std.specs.Prelude.{Some};
    ghost use Rattle.custody_machine.specs.Texts.{refusal_text};

    ghost output = { λ r. Some (refusal_text r) };

    fn fmt<W: fmt::Write>(&self, f: &mut fmt::Formatter<W>) -> fmt::Result {
        let code = self.code();
        match self {
            Refusal::NameRefused(fault) => write!(f, "{} {fault} {}", code.number, code.text),
            _ => write!(f, "{code}"),
        }
    }
}

impl fmt::Display for Failure {
    ghost use Rattle.std.specs.Prelude.{Some};
    ghost use Rattle.custody_machine.specs.Texts.{failure_text};

    ghost output = { λ e. Some (failure_text e) };

    fn fmt<W: fmt::Write>(&self, f: &mut fmt::Formatter<W>) -> fmt::Result {
        let code = self.code();
        match self {
            Failure::Damaged(damage) => write!(f, "{code} {damage}"),
            _ => write!(f, "{code}"),
        }
    }
}
