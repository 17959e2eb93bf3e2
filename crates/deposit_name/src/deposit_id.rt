//! The ids of deposits.
ghost use Rattle.std.specs.Prelude.{◌≡◌, ◌↔◌, Some, IfSome, IsTrue};
ghost use Rattle.std.specs.List.{list_all};
ghost use Rattle.std.specs.Char.{is_ascii_alphanumeric};
ghost use Rattle.deposit_name.specs.Identifiers.{IsDepositId, is_deposit_id, passing_text};

use crate::ascii::ascii_str;
use crate::short_text::ShortText;
use std::fmt;
use std::marker::Model;

/// The id of a deposit: 1 to 13 ASCII letters and digits (the attributes `id` and `prevId` of RFC 8909, section 5.1).
///
/// Ids are ordered by their bytes.
#[derive(Clone, Copy, Debug, PartialEq, Eq, PartialOrd, Ord, Hash)]
pub struct DepositId {
    text: ShortText<13>,
}

impl Model for DepositId {
    ghost use Rattle.std.specs.Prelude.{ℕ, List};
    ghost use Rattle.deposit_name.specs.Identifiers.{IsDepositId};

    ghost Value = { List ℕ };

    ghost view = { λ t. t.text };

    ghost invariant = { λ t. IsDepositId t.text };

    ghost inverse = { λ text. record { text = text } };
}

impl DepositId {
    /// The id with that text, or `None` where the text is none.
    pub fn parse(t: &[u8]) -> Option<DepositId>
        ensures text { IfSome result (λ d. (d ≡ t.now) × IsDepositId d) }
        ensures only { IsDepositId t.now → result ≡ Some t.now }
        // The same as a function of the text.
        ensures value { result ≡ passing_text is_deposit_id t.now }
    {
        if is_deposit_id(t) {
            Some(DepositId {
                text: ShortText::copy_of(t),
            })
        } else {
            None
        }
    }

    /// The text, as bytes.
    pub fn as_bytes(&self) -> &[u8]
        ensures text { result.now ≡ self.now }
        ensures in_form { IsDepositId self.now }
    {
        self.text.as_bytes()
    }

    /// The text.
    pub fn as_str(&self) -> &str
        ensures text { result.now ≡ self.now }
        ensures in_form { IsDepositId self.now }
    {
        ascii_str(self.as_bytes())
    }
}

impl fmt::Display for DepositId {
    ghost output = { λ t. Some t };

    fn fmt<W: fmt::Write>(&self, f: &mut fmt::Formatter<W>) -> fmt::Result {
        f.pad(self.as_str())
    }
}

fn is_deposit_id(t: &[u8]) -> bool
    ensures form { IsTrue result ↔ IsDepositId t.now }
    ensures value { result ≡ is_deposit_id t.now }
{
    !t.is_empty() && t.len() <= 13 && has_letters_and_digits(t)
}

fn has_letters_and_digits(t: &[u8]) -> bool
    ensures { result ≡ list_all is_ascii_alphanumeric t.now }
{
    t.iter().all(|b| b.is_ascii_alphanumeric())
}
