//! Reasons of the checks of what an envelope says.
use crate::files_reason::FileList;
use deposit_name::{DepositId, Kind, TableName, Tld};
use desk::Check;
use envelope::Uri;
use schedule::Day;

/// Why a deposit fails one of the checks of what its envelope says.
#[derive(Clone, Copy, Debug, PartialEq, Eq)]
pub enum HeaderReason {
    /// Check 3: the first of these members that is not what the deposit's name says.
    Name(OtherName),
    /// Check 4: the id is not the stated one.
    Id {
        here: DepositId,
        stated: DepositId,
    },
    /// Check 5: the day is a Sunday, and the deposit is not full.
    Sunday(Day),
    /// Check 6: the deposit before is not the wanted one: none of a full deposit, and none where none to follow has
    /// passed.
    PrevId {
        kind: Kind,
        here: Option<DepositId>,
        wanted: Option<DepositId>,
    },
    /// Check 7: the id has passed before.
    IdTaken(DepositId),
    /// Check 8.
    Menu(MenuReason),
}

/// Check 3: a member of the envelope, in the order of its text, that is not what the deposit's name says.
#[derive(Clone, Copy, Debug, PartialEq, Eq)]
pub enum OtherName {
    Tld { here: Tld, named: Tld },
    Resend { here: u8, named: u8 },
    Kind { here: Kind, named: Kind },
    Watermark { here: Day, named: Day },
}

/// Check 8: the first place, from 0, at which a list of the envelope is not that of its menu.
#[derive(Clone, Copy, Debug, PartialEq, Eq)]
pub enum MenuReason {
    /// `rdeMenu.objURI`: this URI stands here, or the list ends.
    ObjectUri {
        place: usize,
        here: Option<Uri>,
    },
    /// The objects that `header.count` counts.
    Count {
        place: usize,
        here: Option<Uri>,
    },
    /// The tables of a full deposit.
    Contents {
        place: usize,
        here: Option<TableName>,
    },
    /// A table that does not stand behind the one before it: of the contents of a deposit that is not full, or of any
    /// deletes.
    Order {
        list: FileList,
        place: usize,
        before: TableName,
        here: TableName,
    },
}

impl HeaderReason {
    ghost use Rattle.std.specs.Prelude.{◌≡◌};
    ghost use Rattle.deposit_verify.specs.HeaderReasons.{header_check};

    /// The check that the deposit fails.
    pub fn check(&self) -> Check
        ensures { result ≡ header_check self.now }
    {
        match self {
            HeaderReason::Name(_) => Check::Name,
            HeaderReason::Id { .. } => Check::Statement,
            HeaderReason::Sunday(_) => Check::Weekday,
            HeaderReason::PrevId { .. } => Check::PrevId,
            HeaderReason::IdTaken(_) => Check::IdTaken,
            HeaderReason::Menu(_) => Check::Menu,
        }
    }
}
