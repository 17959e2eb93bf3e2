//! Resend numbers.
ghost use Rattle.std.specs.Prelude.{◌≡◌, ◌≤◌, Some, IfSome};

use deposit_name::DepositName;
use std::marker::Model;

/// How often a deposit was sent again, at most 99 (the attribute `resend` of RFC 8909, section 5.1).
#[derive(Clone, Copy, Debug, PartialEq, Eq, PartialOrd, Ord, Hash)]
pub struct Revision {
    number: u8,
}

impl Model for Revision {
    ghost use Rattle.std.specs.Prelude.{ℕ, ◌≤◌};

    ghost Value = { ℕ };

    ghost view = { λ revision. revision.number };

    ghost invariant = { λ revision. revision.number ≤ 99 };

    ghost inverse = { λ number. record { number = number } };
}

impl Revision {
    /// The revision of this number, if it is at most 99.
    pub fn new(number: u8) -> Option<Revision>
        ensures value { IfSome result (λ revision. (revision ≡ number) × (number ≤ 99)) }
        ensures only { number ≤ 99 → result ≡ Some number }
    {
        if number > 99 {
            return None;
        }
        Some(Revision { number })
    }

    /// The revision that a name tells.
    pub fn of(name: &DepositName) -> Revision
        ensures { result ≡ name.now.rev }
    {
        Revision { number: name.rev }
    }

    /// Its number.
    pub fn number(self) -> u8
        ensures value { result ≡ self }
        ensures most { result ≤ 99 }
    {
        self.number
    }
}
