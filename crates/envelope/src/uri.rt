//! URIs.
ghost use Rattle.std.specs.Prelude.{◌≡◌, IsTrue, IfSome};
ghost use Rattle.std.specs.List.{list_all};
ghost use Rattle.deposit_name.specs.Identifiers.{passing_text};
ghost use Rattle.envelope.specs.Uri.{is_uri, is_uri_byte};

use deposit_name::ShortText;
use std::marker::Model;

/// A URI of 1 to 64 printable ASCII bytes without a space, a quote or a backslash.
#[derive(Clone, Copy, Debug, PartialEq, Eq, PartialOrd, Ord, Hash)]
pub struct Uri {
    text: ShortText<64>,
}

impl Model for Uri {
    ghost use Rattle.std.specs.Prelude.{ℕ, List, IsTrue};
    ghost use Rattle.envelope.specs.Uri.{is_uri};

    ghost Value = { List ℕ };

    ghost view = { λ u. u.text };

    ghost invariant = { λ u. IsTrue (is_uri u.text) };

    ghost inverse = { λ text. record { text = text } };
}

impl Uri {
    /// The URI with that text.
    pub fn parse(t: &[u8]) -> Option<Uri>
        ensures value { result ≡ passing_text is_uri t.now }
        ensures in_form { IfSome result (λ u. IsTrue (is_uri u)) }
    {
        if is_uri(t) {
            Some(Uri {
                text: ShortText::copy_of(t),
            })
        } else {
            None
        }
    }

    /// The text.
    pub fn as_bytes(&self) -> &[u8]
        ensures text { result.now ≡ self.now }
        ensures in_form { IsTrue (is_uri self.now) }
    {
        self.text.as_bytes()
    }
}

fn is_uri(t: &[u8]) -> bool
    ensures { result ≡ is_uri t.now }
{
    !t.is_empty() && t.len() <= 64 && has_uri_bytes(t)
}

fn has_uri_bytes(t: &[u8]) -> bool
    ensures { result ≡ list_all is_uri_byte t.now }
{
    t.iter().all(|b| is_uri_byte(*b))
}

fn is_uri_byte(b: u8) -> bool
    ensures { result ≡ is_uri_byte b }
{
    b.is_ascii_graphic() && b != b'"' && b != b'\\'
}
