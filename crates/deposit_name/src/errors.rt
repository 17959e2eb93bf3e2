//! Why a text is no deposit name.
use std::error::Error;
use std::fmt;

/// The fault of a text that is no deposit name: the first that it has, in this order. It prints as its number, `N1` to
/// `N7`.
#[derive(Clone, Copy, Debug, PartialEq, Eq, Hash)]
pub enum NameError {
    /// It does not end with `.ryde`.
    Suffix,
    /// The rest, split at its underscores, is not five pieces.
    Pieces,
    /// The first piece is no top-level domain.
    Tld,
    /// The second piece is no date of the years 2000 to 9998.
    Date,
    /// The third piece is none of `full`, `diff` and `incr`.
    Kind,
    /// The fourth piece is not `S` and a digit from 1 to 8.
    Part,
    /// The fifth piece is not `R` and a number from 0 to 99 without leading zeros.
    Revision,
}

impl fmt::Display for NameError {
    ghost use Rattle.std.specs.Prelude.{Some};
    ghost use Rattle.deposit_name.specs.ErrorText.{name_error_text};

    ghost output = { λ e. Some (name_error_text e) };

    fn fmt<W: fmt::Write>(&self, f: &mut fmt::Formatter<W>) -> fmt::Result {
        f.pad(match self {
            NameError::Suffix => "N1",
            NameError::Tld => "N2",
            NameError::Date => "N3",
            NameError::Kind => "N4",
            NameError::Part => "N5",
            NameError::Revision => "N6",
            NameError::Pieces => "N7",
        })
    }
}

impl Error for NameError {}
