//! The numbers of volumes.
ghost use Rattle.std.specs.Prelude.{◌≡◌, ℕ, ◌^◌, ◌<◌, Some, IfSome};
ghost use Rattle.std.specs.Str.{IsAscii};
ghost use Rattle.custody_records.specs.RowsOfRecords.{digits_of};
ghost use Rattle.answer_lines.specs.Number.{ShowsNumber};

use custody_records::{read_number, write_number};
use std::marker::Model;
use std::{fmt, str};

/// The number of a volume, which is written as 16 lower-case hexadecimal digits.
#[derive(Clone, Copy, Debug, PartialEq, Eq, Hash)]
pub struct VolumeNumber {
    number: u64,
}

impl Model for VolumeNumber {
    ghost use Rattle.std.specs.Prelude.{ℕ, ◌^◌, ◌<◌};

    ghost Value = { ℕ };

    ghost view = { λ n. n.number };

    ghost invariant = { λ n. n.number < 2 ^ 64 };

    ghost inverse = { λ n. record { number = n } };
}

impl VolumeNumber {
    /// The number as a volume's.
    pub fn new(number: u64) -> VolumeNumber
        ensures { result ≡ number }
    {
        VolumeNumber { number }
    }

    /// The number itself.
    pub fn get(self) -> u64
        ensures { result ≡ self }
    {
        self.number
    }

    /// The number with that text.
    pub fn parse(t: &[u8]) -> Option<VolumeNumber>
        ensures text { IfSome result (ShowsNumber t.now) }
        ensures only { (n : ℕ) → ShowsNumber t.now n → result ≡ Some n }
    {
        let number = read_number(t)?;
        Some(VolumeNumber::new(number))
    }
}

fn ascii_str(text: &[u8]) -> &str
    requires { IsAscii text.now }
    ensures { result.now ≡ text.now }
{
    str::from_utf8(text).unwrap()
}

impl fmt::Display for VolumeNumber {
    ghost output = { λ n. Some (digits_of n) };

    fn fmt<W: fmt::Write>(&self, f: &mut fmt::Formatter<W>) -> fmt::Result {
        f.pad(ascii_str(&write_number(self.get())))
    }
}
