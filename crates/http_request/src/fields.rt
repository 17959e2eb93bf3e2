//! The fields of a head.
ghost use Rattle.std.specs.Prelude.{◌≡◌, ◌<◌, ◌≤◌, ℕ, length, map, All, IfSome, IfNone, Some, decimal};
ghost use Rattle.httparse.specs.Spans.{IsHeaderWithin, header_bytes};
ghost use Rattle.http_request.specs.RequestMeaning.{values_named};
ghost use Rattle.http_request.specs.inside.Fields.{AreFieldValues, IsNumeral};

use httparse::spans::HeaderSpan;

/// The values of the fields of one name.
#[derive(Clone, Copy, Debug, PartialEq, Eq)]
pub(crate) enum FieldValues<'b> {
    None,
    One(&'b [u8]),
    Several,
}

/// The values of the fields of a name.
pub(crate) fn values_of<'b>(bytes: &'b [u8], headers: &[HeaderSpan], name: &[u8]) -> FieldValues<'b>
    requires { All (IsHeaderWithin (length bytes.now)) headers.now }
    ensures { AreFieldValues (values_named name.now (map (header_bytes bytes.now) headers.now)) result }
{
    let Some((header, rest)) = headers.split_first() else {
        return FieldValues::None;
    };
    let more = values_of(bytes, rest, name);
    if !header.name.of(bytes).eq_ignore_ascii_case(name) {
        return more;
    }
    match more {
        FieldValues::None => FieldValues::One(header.value.of(bytes)),
        FieldValues::One(_) | FieldValues::Several => FieldValues::Several,
    }
}

/// The number that 1 to 10 digits write.
pub(crate) fn number_of(digits: &[u8]) -> Option<u64>
    ensures found { IfSome result (IsNumeral digits.now) }
    ensures none { IfNone result ((n : ℕ) → ¬ IsNumeral digits.now n) }
{
    if digits.is_empty() || digits.len() > 10 {
        return None;
    }
    let mut number: u64 = 0;
    for b in digits {
        if !b.is_ascii_digit() {
            return None;
        }
        number = number * 10 + u64::from(*b - b'0');
    }
    Some(number)
}

/// The number, at most 99, of which this is the one spelling.
#[tactic(auto, using(deposit_name::proofs::NameLemmas::decimal_digits))]
pub(crate) fn short_number_of(text: &[u8]) -> Option<u8>
    ensures found { IfSome result (λ n. (n ≤ 99) × (text.now ≡ decimal n)) }
    ensures only { (n : ℕ) → n ≤ 99 → text.now ≡ decimal n → result ≡ Some n }
{
    match text {
        [ones @ b'0'..=b'9'] => Some(*ones - b'0'),
        [tens @ b'1'..=b'9', ones @ b'0'..=b'9'] => Some((*tens - b'0') * 10 + (*ones - b'0')),
        _ => None,
    }
}
