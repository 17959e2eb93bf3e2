//! The names of files.
ghost use Rattle.std.specs.Prelude.{◌≡◌, ◌==◌};
ghost use Rattle.std.specs.List.{after_last};

/// The last part of a path: what stands after its last `/`, or all of it where it has none.
pub fn file_name(path: &str) -> &[u8]
    ensures { result.now ≡ after_last (λ b. b == 47) path.now }
{
    let bytes = path.as_bytes();
    let mut start = bytes.len();
    while start > 0 && bytes[start - 1] != b'/' {
        start -= 1;
    }
    &bytes[start..]
}
