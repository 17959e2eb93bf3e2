//! By what records are found.
ghost use Rattle.std.specs.Prelude.{◌≡◌};
ghost use Rattle.custody_records.specs.Records.{key_of};

use deposit_name::{DepositName, Tld};
use schedule::Day;
use std::marker::Model;

/// The place of a part: a revision of a registry's deposit of a day, and the place in its series.
#[derive(Clone, Copy, Debug, PartialEq, Eq)]
pub struct PartKey {
    pub tld: Tld,
    pub day: Day,
    pub rev: u8,
    pub part: u8,
}

impl Model for PartKey {
    ghost use Rattle.custody_records.specs.Keys as keys;

    ghost Value = { keys.PartKey };

    ghost view = { λ k. record { tld = k.tld; day = k.day; rev = k.rev; part = k.part } };

    ghost inverse = { λ k. record { tld = k.tld; day = k.day; rev = k.rev; part = k.part } };
}

impl PartKey {
    /// The place of the part of that name, whatever its kind.
    pub fn of(name: &DepositName) -> PartKey
        ensures { result ≡ key_of name.now }
    {
        PartKey {
            tld: name.tld,
            day: name.day,
            rev: name.rev,
            part: name.part,
        }
    }
}

/// The number of a notice among those of its registry.
#[derive(Clone, Copy, Debug, PartialEq, Eq)]
pub struct NoticeKey {
    pub tld: Tld,
    pub number: u64,
}

impl Model for NoticeKey {
    ghost use Rattle.custody_records.specs.Keys as keys;

    ghost Value = { keys.NoticeKey };

    ghost view = { λ k. record { tld = k.tld; number = k.number } };

    ghost inverse = { λ k. record { tld = k.tld; number = k.number } };
}
