//! The checks of a deposit.
ghost use Rattle.std.specs.Prelude.{◌≡◌, Some, IfSome};
ghost use Rattle.desk.specs.Checks.{check_number, check_text};

use std::fmt;

/// A check of a deposit, in the order in which they are made: the verdict names the first that fails.
#[derive(Clone, Copy, Debug, PartialEq, Eq, PartialOrd, Ord, Hash)]
pub enum Check {
    /// The frame around the envelope.
    Frame,
    /// The envelope is in its one spelling.
    Envelope,
    /// Type, top-level domain, watermark and resend are those of the name.
    Name,
    /// The id is the stated one.
    Statement,
    /// A Full Deposit on each Sunday.
    Weekday,
    /// The id of the deposit before.
    PrevId,
    /// The id has not been used.
    IdTaken,
    /// The menu of objects.
    Menu,
    /// The lengths and digests of the files.
    Files,
    /// The files of contents.
    Table,
    /// The header's counts.
    Counts,
    /// References between the tables.
    References,
    /// The files of deletes.
    Deletes,
}

impl Check {
    /// Its number, from 1 to 13.
    pub fn number(self) -> u8
        ensures { result ≡ check_number self }
    {
        match self {
            Check::Frame => 1,
            Check::Envelope => 2,
            Check::Name => 3,
            Check::Statement => 4,
            Check::Weekday => 5,
            Check::PrevId => 6,
            Check::IdTaken => 7,
            Check::Menu => 8,
            Check::Files => 9,
            Check::Table => 10,
            Check::Counts => 11,
            Check::References => 12,
            Check::Deletes => 13,
        }
    }

    /// The check of this number.
    pub fn from_number(number: u8) -> Option<Check>
        ensures value { IfSome result (λ check. number ≡ check_number check) }
        ensures only { (check : Check) → number ≡ check_number check → result ≡ Some check }
    {
        match number {
            1 => Some(Check::Frame),
            2 => Some(Check::Envelope),
            3 => Some(Check::Name),
            4 => Some(Check::Statement),
            5 => Some(Check::Weekday),
            6 => Some(Check::PrevId),
            7 => Some(Check::IdTaken),
            8 => Some(Check::Menu),
            9 => Some(Check::Files),
            10 => Some(Check::Table),
            11 => Some(Check::Counts),
            12 => Some(Check::References),
            13 => Some(Check::Deletes),
            _ => None,
        }
    }

    /// Its number in two digits.
    pub fn as_str(self) -> &'static str
        ensures { result.now ≡ check_text self }
    {
        match self {
            Check::Frame => "01",
            Check::Envelope => "02",
            Check::Name => "03",
            Check::Statement => "04",
            Check::Weekday => "05",
            Check::PrevId => "06",
            Check::IdTaken => "07",
            Check::Menu => "08",
            Check::Files => "09",
            Check::Table => "10",
            Check::Counts => "11",
            Check::References => "12",
            Check::Deletes => "13",
        }
    }
}

impl fmt::Display for Check {
    ghost output = { λ check. Some (check_text check) };

    fn fmt<W: fmt::Write>(&self, f: &mut fmt::Formatter<W>) -> fmt::Result {
        f.pad(self.as_str())
    }
}
