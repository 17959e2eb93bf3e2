//! The references of releases.
ghost use Rattle.std.specs.Prelude.{◌≡◌, ◌↔◌, Some, IfSome, IsTrue};
ghost use Rattle.std.specs.List.{list_all};
ghost use Rattle.deposit_name.specs.Identifiers.{is_reference_byte, IsReference, is_reference, passing_text};

use crate::ascii::ascii_str;
use crate::short_text::ShortText;
use std::fmt;
use std::marker::Model;

/// The reference of a release: 1 to 32 of `A-Z a-z 0-9 -`.
///
/// References are ordered by their bytes.
#[derive(Clone, Copy, Debug, PartialEq, Eq, PartialOrd, Ord, Hash)]
pub struct Reference {
    text: ShortText<32>,
}

impl Model for Reference {
    ghost use Rattle.std.specs.Prelude.{ℕ, List};
    ghost use Rattle.deposit_name.specs.Identifiers.{IsReference};

    ghost Value = { List ℕ };

    ghost view = { λ t. t.text };

    ghost invariant = { λ t. IsReference t.text };

    ghost inverse = { λ text. record { text = text } };
}

impl Reference {
    /// The reference with that text, or `None` where the text is none.
    pub fn parse(t: &[u8]) -> Option<Reference>
        ensures text { IfSome result (λ r. (r ≡ t.now) × IsReference r) }
        ensures only { IsReference t.now → result ≡ Some t.now }
        // The same as a function of the text.
        ensures value { result ≡ passing_text is_reference t.now }
    {
        if is_reference(t) {
            Some(Reference {
                text: ShortText::copy_of(t),
            })
        } else {
            None
        }
    }

    /// The text, as bytes.
    pub fn as_bytes(&self) -> &[u8]
        ensures text { result.now ≡ self.now }
        ensures in_form { IsReference self.now }
    {
        self.text.as_bytes()
    }

    /// The text.
    pub fn as_str(&self) -> &str
        ensures text { result.now ≡ self.now }
        ensures in_form { IsReference self.now }
    {
        ascii_str(self.as_bytes())
    }
}

impl fmt::Display for Reference {
    ghost output = { λ t. Some t };

    fn fmt<W: fmt::Write>(&self, f: &mut fmt::Formatter<W>) -> fmt::Result {
        f.pad(self.as_str())
    }
}

fn is_reference(t: &[u8]) -> bool
    ensures form { IsTrue result ↔ IsReference t.now }
    ensures value { result ≡ is_reference t.now }
{
    !t.is_empty() && t.len() <= 32 && has_reference_bytes(t)
}

fn has_reference_bytes(t: &[u8]) -> bool
    ensures { result ≡ list_all is_reference_byte t.now }
{
    t.iter().all(|b| b.is_ascii_alphanumeric() || *b == b'-')
}
