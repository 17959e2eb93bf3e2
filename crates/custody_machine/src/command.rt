//! What a custody is asked.
ghost use Rattle.std.specs.Prelude.{◌≡◌};
ghost use Rattle.custody_machine.specs.Commands.{command_of};
ghost use Rattle.custody_machine.specs.Rulings.{command_bytes};

use deposit_name::{DepositId, Kind, Reference, Tld};
use desk::{Ground, Revision};
use schedule::Day;

/// What the operator of a registry states of a deposit: that all its parts are sent (Specification 2,
/// Part A, section 7).
#[derive(Clone, Copy, Debug, PartialEq, Eq)]
pub struct Statement {
    pub tld: Tld,
    /// The day of its watermark.
    pub day: Day,
    pub kind: Kind,
    pub rev: Revision,
    /// How many parts it has.
    pub parts: u8,
    /// Its id (the attribute `id` of RFC 8909, section 5.1).
    pub id: DepositId,
}

/// What a registry or an operator asks for.
#[derive(Clone, Copy)]
pub enum Command<'a> {
    /// A registry, and the first day of its deposits.
    Register(Tld, Day),
    /// The file name of a part, and its bytes.
    Receive(&'a [u8], &'a [u8]),
    /// A deposit whose parts are all there, to be verified.
    Statement(Statement),
    /// A registry and a day that has passed: where no deposit of it was verified, its absence is to be
    /// recorded (Specification 2, Part B, section 7).
    Check(Tld, Day),
    /// Under a reference the deposits of a registry are handed over on a ground: the parts that are held
    /// are listed (Specification 2, Part B, section 6).
    Release(Reference, Tld, Ground),
    /// Under a reference no part of a registry's day is to be dropped, until the hold is lifted.
    Hold(Reference, Tld, Day),
    /// The hold of a reference is to be lifted.
    Lift(Reference),
    /// The bytes of each part that was kept for a year are to be dropped; its record stays
    /// (Specification 2, Part B, section 4).
    Purge,
}

impl<'a> Command<'a> {
    /// The bytes that it brings.
    pub fn bytes(&self) -> &'a [u8]
        ensures { result.now ≡ command_bytes (command_of self.now) }
    {
        match self {
            Command::Receive(_, bytes) => bytes,
            Command::Register(..)
            | Command::Statement(_)
            | Command::Check(..)
            | Command::Release(..)
            | Command::Hold(..)
            | Command::Lift(_)
            | Command::Purge => &[],
        }
    }
}
