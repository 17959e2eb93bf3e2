//! Bytes put behind others, in room of their own: no memory is taken for them.
ghost use Rattle.std.specs.Prelude.{◌≡◌, ◌+◌, ◌≤◌, ◌++◌, length, decimal};
ghost use Rattle.arrayvec.specs.ArrayVec.{array_vec_len};

use arrayvec::ArrayVec;
use itoa::Buffer;

/// At most 256 bytes: a line with its line feed, or a few of such length.
pub type LineBytes = ArrayVec<u8, 256>;

/// Adds bytes, for which there is room.
pub fn append<const N: usize>(line: &mut ArrayVec<u8, N>, bytes: &[u8])
    requires { array_vec_len line.old + length bytes.now ≤ N }
    ensures text { line.new.items ≡ line.old.items ++ bytes.now }
    ensures len { array_vec_len line.new ≡ array_vec_len line.old + length bytes.now }
{
    let Ok(()) = line.try_extend_from_slice(bytes) else {
        unreachable!()
    };
}

/// Adds a number in decimal digits.
pub fn append_number(line: &mut LineBytes, number: u64)
    requires { array_vec_len line.old + 20 ≤ 256 }
    ensures text { line.new.items ≡ line.old.items ++ decimal number }
    ensures len { array_vec_len line.new ≤ array_vec_len line.old + 20 }
{
    let mut buffer = Buffer::new();
    append(line, buffer.format(number).as_bytes());
}
