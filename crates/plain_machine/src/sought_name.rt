//! Names that are looked for.
ghost use Rattle.std.specs.Prelude.{◌≡◌};
ghost use Rattle.custody_machine.specs.Machine.{first_part};

use custody_machine::Statement;
use deposit_name::{DepositName, Kind, Tld};
use schedule::Day;
use std::marker::Model;

/// A name that is looked for. It may be of any day: a statement may tell one that no part can have.
#[derive(Clone, Copy)]
pub(crate) struct SoughtName {
    pub(crate) tld: Tld,
    pub(crate) day: Day,
    pub(crate) kind: Kind,
    pub(crate) part: u8,
    pub(crate) rev: u8,
}

impl Model for SoughtName {
    ghost use Rattle.deposit_name.specs.Name.{Name};

    ghost Value = { Name };

    ghost view = { λ n. record { tld = n.tld; day = n.day; kind = n.kind; part = n.part; rev = n.rev } };

    ghost inverse = { λ n. record { tld = n.tld; day = n.day; kind = n.kind; part = n.part; rev = n.rev } };
}

impl SoughtName {
    /// The name of a part that is sent.
    pub(crate) fn of(name: &DepositName) -> SoughtName
        ensures { result ≡ name.now }
    {
        SoughtName {
            tld: name.tld,
            day: name.day,
            kind: name.kind,
            part: name.part,
            rev: name.rev,
        }
    }

    /// The name of the first part of what is stated.
    pub(crate) fn first_of(stated: &Statement) -> SoughtName
        ensures { result ≡ first_part stated.now }
    {
        SoughtName {
            tld: stated.tld,
            day: stated.day,
            kind: stated.kind,
            part: 1,
            rev: stated.rev.number(),
        }
    }
}
