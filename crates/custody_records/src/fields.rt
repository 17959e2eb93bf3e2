//! Fields of rows.
ghost use Rattle.std.specs.Prelude.{◌≡◌, ◌<◌, ◌^◌, ◌==◌, if◌then◌else◌, length};
ghost use Rattle.custody_records.specs.Form.{natural, is_within};

/// The number, where it is one from `low` to `high`.
pub(crate) fn number_within(number: i64, low: u64, high: u64) -> Option<u64>
    requires { high < 2 ^ 63 }
    ensures { result ≡ (if is_within low high number then Some (natural number) else None) }
{
    if number < 0 || (number as u64) < low || (number as u64) > high {
        return None;
    }
    Some(number as u64)
}

/// The digest, where it has 32 bytes.
pub(crate) fn digest_of(bytes: &[u8]) -> Option<[u8; 32]>
    ensures { result ≡ (if length bytes.now == 32 then Some bytes.now else None) }
{
    if bytes.len() != 32 {
        return None;
    }
    let mut digest = [0; 32];
    digest.copy_from_slice(bytes);
    Some(digest)
}
