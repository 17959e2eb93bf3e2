//! The lines of a report.
ghost use Rattle.std.specs.Prelude.{◌≡◌, ◌+◌, ◌≤◌, ◌++◌, length, replicate};
ghost use Rattle.arrayvec.specs.ArrayVec.{array_vec_len};
ghost use Rattle.desk.specs.Lines.{id_text, notice_kind_text, left_aligned_text, line, revision_text, right_aligned_text};

use crate::notices::{Notice, NoticeKind};
use deposit_name::{LineBytes, append};
use itoa::Buffer;
use schedule::{write_day, write_moment};

fn append_spaces(line: &mut LineBytes, count: usize)
    requires room { array_vec_len line.old + count ≤ 256 }
    requires few { count ≤ 13 }
    ensures text { line.new.items ≡ line.old.items ++ replicate count 32 }
    ensures len { array_vec_len line.new ≡ array_vec_len line.old + count }
{
    append(line, &[b' '; 13][..count]);
}

/// Adds a text at the right of so many places.
fn append_right(line: &mut LineBytes, width: usize, text: &[u8])
    requires room { array_vec_len line.old + width + length text.now ≤ 256 }
    requires narrow { width ≤ 13 }
    ensures text { line.new.items ≡ line.old.items ++ right_aligned_text width text.now }
    ensures len { array_vec_len line.new ≡ array_vec_len line.old + length (right_aligned_text width text.now) }
{
    append_spaces(line, width.saturating_sub(text.len()));
    append(line, text);
}

/// Adds a text at the left of so many places.
fn append_left(line: &mut LineBytes, width: usize, text: &[u8])
    requires room { array_vec_len line.old + width + length text.now ≤ 256 }
    requires narrow { width ≤ 13 }
    ensures text { line.new.items ≡ line.old.items ++ left_aligned_text width text.now }
    ensures len { array_vec_len line.new ≡ array_vec_len line.old + length (left_aligned_text width text.now) }
{
    append(line, text);
    append_spaces(line, width.saturating_sub(text.len()));
}

fn append_kind(line: &mut LineBytes, kind: NoticeKind)
    requires { array_vec_len line.old + 20 ≤ 256 }
    ensures text { line.new.items ≡ line.old.items ++ left_aligned_text 10 (notice_kind_text kind) }
    ensures most { array_vec_len line.new ≤ array_vec_len line.old + 10 }
{
    match kind {
        NoticeKind::Receipt { .. } => append_left(line, 10, b"RECEIPT"),
        NoticeKind::Failure { check, .. } => {
            append(line, b"FAILURE-");
            append(line, check.as_str().as_bytes());
        }
        NoticeKind::Absence => append_left(line, 10, b"ABSENCE"),
    }
}

fn append_revision(line: &mut LineBytes, kind: NoticeKind)
    requires { array_vec_len line.old + 3 ≤ 256 }
    ensures text { line.new.items ≡ line.old.items ++ revision_text kind }
    ensures len { array_vec_len line.new ≡ array_vec_len line.old + 3 }
{
    match kind {
        NoticeKind::Receipt { rev, .. } | NoticeKind::Failure { rev, .. } => {
            let number = rev.number();
            append(line, &[b'R', b'0' + number / 10, b'0' + number % 10]);
        }
        NoticeKind::Absence => append(line, b"---"),
    }
}

fn append_id(line: &mut LineBytes, kind: NoticeKind)
    requires { array_vec_len line.old + 26 ≤ 256 }
    ensures text { line.new.items ≡ line.old.items ++ left_aligned_text 13 (id_text kind) }
    ensures most { array_vec_len line.new ≤ array_vec_len line.old + 13 }
{
    match kind {
        NoticeKind::Receipt { id, .. } | NoticeKind::Failure { id, .. } => {
            append_left(line, 13, id.as_bytes());
        }
        NoticeKind::Absence => append_left(line, 13, b"-"),
    }
}

/// The line of a notice, with its line feed: at most 146 bytes.
pub fn write_line(notice: &Notice) -> LineBytes
    ensures text { result.items ≡ line notice.now }
    ensures most { array_vec_len result ≤ 146 }
{
    let mut digits = Buffer::new();
    let mut line = LineBytes::new();
    append_right(&mut line, 8, digits.format(notice.number).as_bytes());
    append(&mut line, b" ");
    append_kind(&mut line, notice.kind);
    append(&mut line, b" ");
    append(&mut line, &write_day(notice.day));
    append(&mut line, b" ");
    append_revision(&mut line, notice.kind);
    append(&mut line, b" ");
    append_id(&mut line, notice.kind);
    append(&mut line, b" ");
    append(&mut line, &write_moment(notice.at));
    append(&mut line, b" ");
    append(&mut line, notice.tld.as_bytes());
    append(&mut line, b"\n");
    line
}
