//! Top-level domains.
ghost use Rattle.std.specs.Prelude.{◌≡◌, ◌↔◌, Some, IfSome, IsTrue};
ghost use Rattle.std.specs.List.{list_all};
ghost use Rattle.deposit_name.specs.Identifiers.{is_tld_byte, IsTld, is_tld, passing_text};

use crate::ascii::ascii_str;
use crate::short_text::ShortText;
use std::fmt;
use std::marker::Model;

/// A top-level domain, as it stands in the names of deposits: 1 to 63 of `a-z 0-9 -`, with no hyphen at either end.
///
/// Domains are ordered by their bytes.
#[derive(Clone, Copy, Debug, PartialEq, Eq, PartialOrd, Ord, Hash)]
pub struct Tld {
    text: ShortText<63>,
}

impl Model for Tld {
    ghost use Rattle.std.specs.Prelude.{ℕ, List};
    ghost use Rattle.deposit_name.specs.Identifiers.{IsTld};

    ghost Value = { List ℕ };

    ghost view = { λ t. t.text };

    ghost invariant = { λ t. IsTld t.text };

    ghost inverse = { λ text. record { text = text } };
}

impl Tld {
    /// The top-level domain with that text, or `None` where the text is none.
    pub fn parse(t: &[u8]) -> Option<Tld>
        ensures text { IfSome result (λ d. (d ≡ t.now) × IsTld d) }
        ensures only { IsTld t.now → result ≡ Some t.now }
        // The same as a function of the text.
        ensures value { result ≡ passing_text is_tld t.now }
    {
        if is_tld(t) {
            Some(Tld {
                text: ShortText::copy_of(t),
            })
        } else {
            None
        }
    }

    /// The text, as bytes.
    pub fn as_bytes(&self) -> &[u8]
        ensures text { result.now ≡ self.now }
        ensures in_form { IsTld self.now }
    {
        self.text.as_bytes()
    }

    /// The text.
    pub fn as_str(&self) -> &str
        ensures text { result.now ≡ self.now }
        ensures in_form { IsTld self.now }
    {
        ascii_str(self.as_bytes())
    }
}

impl fmt::Display for Tld {
    ghost output = { λ t. Some t };

    fn fmt<W: fmt::Write>(&self, f: &mut fmt::Formatter<W>) -> fmt::Result {
        f.pad(self.as_str())
    }
}

fn is_tld(t: &[u8]) -> bool
    ensures form { IsTrue result ↔ IsTld t.now }
    ensures value { result ≡ is_tld t.now }
{
    !t.is_empty() && t.len() <= 63 && t[0] != b'-' && t[t.len() - 1] != b'-' && has_tld_bytes(t)
}

fn has_tld_bytes(t: &[u8]) -> bool
    ensures { result ≡ list_all is_tld_byte t.now }
{
    t.iter().all(|b| b.is_ascii_lowercase() || b.is_ascii_digit() || *b == b'-')
}
