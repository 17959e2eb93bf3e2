// The forms of fields.

ghost use Rattle.std.specs.Prelude.{◌≡◌, ◌≢◌, ◌⊎◌, ◌≤◌, ◌↔◌, IsTrue, codes, length};
ghost use Rattle.dnrd_csv.specs.Form.{HasForm, IsAddressByte, IsDigit, IsGurid, IsHostNameByte, IsIdByte, IsRoidByte, IsStatusByte, IsTextOfBytes};

use schedule::read_moment;
use std::{fmt, str};

/// What the bytes of a field have to be.
#[derive(Clone, Copy, Debug, PartialEq, Eq)]
pub enum Form {
    /// 1 to 253 of `a-z 0-9 - .`.
    HostName,
    /// 1 to 89 of `A-Z a-z 0-9 - _`.
    Roid,
    /// 1 to 16 bytes of 0x21 to 0x7E.
    Id,
    /// Empty, or an id.
    OptionalId,
    /// The text of a moment.
    Moment,
    /// `admin`, `billing` or `tech`.
    ContactType,
    /// 1 to 30 letters of ASCII.
    Status,
    /// 1 to 45 of `0-9 a-f A-F . :`.
    Address,
    /// `v4` or `v6`.
    AddressVersion,
    /// 1 to 255 bytes of UTF-8 without U+0000.
    RegistrarName,
    /// Empty, or 1 to 9 digits of which the first is not 0.
    Gurid,
}

fn is_host_name_byte(byte: u8) -> bool
    ensures { IsTrue result ↔ IsHostNameByte byte }
{
    matches!(byte, b'a'..=b'z' | b'0'..=b'9' | b'-' | b'.')
}

fn is_roid_byte(byte: u8) -> bool
    ensures { IsTrue result ↔ IsRoidByte byte }
{
    matches!(byte, b'A'..=b'Z' | b'a'..=b'z' | b'0'..=b'9' | b'-' | b'_')
}

fn is_id_byte(byte: u8) -> bool
    ensures { IsTrue result ↔ IsIdByte byte }
{
    matches!(byte, 0x21..=0x7E)
}

fn is_status_byte(byte: u8) -> bool
    ensures { IsTrue result ↔ IsStatusByte byte }
{
    matches!(byte, b'A'..=b'Z' | b'a'..=b'z')
}

fn is_address_byte(byte: u8) -> bool
    ensures { IsTrue result ↔ IsAddressByte byte }
{
    matches!(byte, b'0'..=b'9' | b'a'..=b'f' | b'A'..=b'F' | b'.' | b':')
}

// Whether a field has 1 to so many bytes.
fn is_within(field: &[u8], most: usize) -> bool
    ensures { IsTrue result ↔ ((1 ≤ length field.now) × (length field.now ≤ most)) }
{
    !field.is_empty() && field.len() <= most
}

fn is_host_name(field: &[u8]) -> bool
    ensures { IsTrue result ↔ IsTextOfBytes 253 IsHostNameByte field.now }
{
    is_within(field, 253) && field.iter().all(|byte| is_host_name_byte(*byte))
}

fn is_roid(field: &[u8]) -> bool
    ensures { IsTrue result ↔ IsTextOfBytes 89 IsRoidByte field.now }
{
    is_within(field, 89) && field.iter().all(|byte| is_roid_byte(*byte))
}

fn is_id(field: &[u8]) -> bool
    ensures { IsTrue result ↔ IsTextOfBytes 16 IsIdByte field.now }
{
    is_within(field, 16) && field.iter().all(|byte| is_id_byte(*byte))
}

fn is_status(field: &[u8]) -> bool
    ensures { IsTrue result ↔ IsTextOfBytes 30 IsStatusByte field.now }
{
    is_within(field, 30) && field.iter().all(|byte| is_status_byte(*byte))
}

fn is_address(field: &[u8]) -> bool
    ensures { IsTrue result ↔ IsTextOfBytes 45 IsAddressByte field.now }
{
    is_within(field, 45) && field.iter().all(|byte| is_address_byte(*byte))
}

fn is_registrar_name(field: &[u8]) -> bool
    ensures { IsTrue result ↔ IsTextOfBytes 255 (λ byte. byte ≢ 0) field.now }
{
    is_within(field, 255) && field.iter().all(|byte| *byte != 0)
}

fn is_digits(field: &[u8]) -> bool
    ensures { IsTrue result ↔ IsTextOfBytes 9 IsDigit field.now }
{
    is_within(field, 9) && field.iter().all(|byte| byte.is_ascii_digit())
}

fn is_gurid(field: &[u8]) -> bool
    ensures { IsTrue result ↔ IsGurid field.now }
{
    field.is_empty() || (is_digits(field) && field[0] != b'0')
}

fn is_contact_type(field: &[u8]) -> bool
    ensures { IsTrue result ↔ ((field.now ≡ codes "admin") ⊎ (field.now ≡ codes "billing") ⊎ (field.now ≡ codes "tech")) }
{
    field == b"admin".as_slice() || field == b"billing".as_slice() || field == b"tech".as_slice()
}

fn is_address_version(field: &[u8]) -> bool
    ensures { IsTrue result ↔ ((field.now ≡ codes "v4") ⊎ (field.now ≡ codes "v6")) }
{
    field == b"v4".as_slice() || field == b"v6".as_slice()
}

impl Form {
    /// Whether a field is in this form.
    pub fn accepts(self, field: &[u8]) -> bool
        ensures { IsTrue result ↔ HasForm self field.now }
    {
        match self {
            Form::HostName => is_host_name(field),
            Form::Roid => is_roid(field),
            Form::Id => is_id(field),
            Form::OptionalId => field.is_empty() || is_id(field),
            Form::Moment => read_moment(field).is_some(),
            Form::ContactType => is_contact_type(field),
            Form::Status => is_status(field),
            Form::Address => is_address(field),
            Form::AddressVersion => is_address_version(field),
            Form::RegistrarName => str::from_utf8(field).is_ok() && is_registrar_name(field),
            Form::Gurid => is_gurid(field),
        }
    }
}

/// What a field of this form is, so that "not " may stand before it.
impl fmt::Display for Form {
    ghost use Rattle.std.specs.Prelude.{Some};
    ghost use Rattle.dnrd_csv.specs.ErrorText.{form_text};

    ghost output = { λ form. Some (form_text form) };

    fn fmt<W: fmt::Write>(&self, f: &mut fmt::Formatter<W>) -> fmt::Result {
        f.write_str(match self {
            Form::HostName => "a host name",
            Form::Roid => "a repository object identifier",
            Form::Id => "an identifier",
            Form::OptionalId => "an identifier or empty",
            Form::Moment => "a moment",
            Form::ContactType => "admin, billing or tech",
            Form::Status => "a status",
            Form::Address => "an address",
            Form::AddressVersion => "v4 or v6",
            Form::RegistrarName => "a registrar's name",
            Form::Gurid => "an IANA ID or empty",
        })
    }
}
