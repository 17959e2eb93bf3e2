//! The bytes of lines, in room of their own: no memory is taken for them.
ghost use Rattle.std.specs.Prelude.{◌≡◌, ◌+◌, ◌≤◌, ◌++◌, [], ◌∷◌, length, codes, decimal};
ghost use Rattle.arrayvec.specs.ArrayVec.{array_vec_len};
ghost use Rattle.schedule.specs.Text.{day_text, moment_text};
ghost use Rattle.deposit_name.specs.ErrorText as names;
ghost use Rattle.deposit_name.specs.Name.{name_text};
ghost use Rattle.hex.specs.Hex.{encode_lower};
ghost use Rattle.custody_records.specs.RowsOfRecords.{digits_of};
ghost use Rattle.custody.specs.Answers.{init_error_text};
ghost use Rattle.custody_machine.specs.Codes.{code_row, code_row_text};
ghost use Rattle.custody_machine.specs.Texts.{damage_text, failure_text, refusal_text};
ghost use Rattle.answer_lines.specs.Lines.{hold_text, line_text, lifted_hold_text, release_text, too_many_absences_text};

use crate::{Line, VolumeNumber};
use custody::InitError;
use custody_machine::{Code, Damage, Failure, Refusal};
use custody_records::write_number;
use deposit_name::{
    DepositName, LineBytes, NameError, Reference, Tld, append, append_number, write_name,
};
use desk::{Ground, write_line};
use schedule::{Day, Sec, write_day, write_moment};

/// A word with its space, a top-level domain and a day.
fn registry_line(word: &[u8], tld: &Tld, first: Day) -> LineBytes
    requires { length word.now ≤ 20 }
    ensures { result.items ≡ (word.now ++ tld.now ++ codes " " ++ day_text first) ++ 10 ∷ [] }
{
    let mut line = LineBytes::new();
    append(&mut line, word);
    append(&mut line, tld.as_bytes());
    append(&mut line, b" ");
    append(&mut line, &write_day(first));
    append(&mut line, b"\n");
    line
}

/// A word with its space, and a part: its name and length, a word between spaces, a moment.
fn part_line_bytes(word: &[u8], name: &DepositName, len: u32, state: &[u8], at: Sec) -> LineBytes
    requires { (length word.now ≤ 20) × (length state.now ≤ 20) }
    ensures { result.items ≡ (word.now ++ name_text name.now ++ codes " " ++ decimal len ++ state.now ++ moment_text at) ++ 10 ∷ [] }
{
    let mut line = LineBytes::new();
    append(&mut line, word);
    append(&mut line, &write_name(name));
    append(&mut line, b" ");
    append_number(&mut line, u64::from(len));
    append(&mut line, state);
    append(&mut line, &write_moment(at));
    append(&mut line, b"\n");
    line
}

/// How many parts of a revision of a day are held.
fn waiting_line(tld: &Tld, day: Day, revision: u8, count: u64) -> LineBytes
    ensures { result.items ≡ (codes "parts " ++ tld.now ++ codes " " ++ day_text day ++ codes " " ++ decimal revision ++ codes " " ++ decimal count) ++ 10 ∷ [] }
{
    let mut line = LineBytes::new();
    append(&mut line, b"parts ");
    append(&mut line, tld.as_bytes());
    append(&mut line, b" ");
    append(&mut line, &write_day(day));
    append(&mut line, b" ");
    append_number(&mut line, u64::from(revision));
    append(&mut line, b" ");
    append_number(&mut line, count);
    append(&mut line, b"\n");
    line
}

/// A digest and a name, with the two spaces that `sha256sum` reads.
fn digest_line(digest: &[u8; 32], name: &DepositName) -> LineBytes
    ensures { result.items ≡ (encode_lower digest.now ++ codes "  " ++ name_text name.now) ++ 10 ∷ [] }
{
    let mut digits = [0u8; 64];
    let _ = hex::encode_to_slice(*digest, &mut digits);
    let mut line = LineBytes::new();
    append(&mut line, &digits);
    append(&mut line, b"  ");
    append(&mut line, &write_name(name));
    append(&mut line, b"\n");
    line
}

/// A word with its space, and the name of a part.
fn name_line(word: &[u8], name: &DepositName) -> LineBytes
    requires { length word.now ≤ 20 }
    ensures { result.items ≡ (word.now ++ name_text name.now) ++ 10 ∷ [] }
{
    let mut line = LineBytes::new();
    append(&mut line, word);
    append(&mut line, &write_name(name));
    append(&mut line, b"\n");
    line
}

/// A word with its space, and a number.
fn count_line(word: &[u8], count: u64) -> LineBytes
    requires { length word.now ≤ 20 }
    ensures { result.items ≡ (word.now ++ decimal count) ++ 10 ∷ [] }
{
    let mut line = LineBytes::new();
    append(&mut line, word);
    append_number(&mut line, count);
    append(&mut line, b"\n");
    line
}

fn ready_line(blocks: u32, number: VolumeNumber) -> LineBytes
    ensures { result.items ≡ (codes "ready " ++ decimal blocks ++ codes " " ++ digits_of number) ++ 10 ∷ [] }
{
    let mut line = LineBytes::new();
    append(&mut line, b"ready ");
    append_number(&mut line, u64::from(blocks));
    append(&mut line, b" ");
    append(&mut line, &write_number(number.get()));
    append(&mut line, b"\n");
    line
}

fn room_line(free: u32, total: u32) -> LineBytes
    ensures { result.items ≡ (codes "free " ++ decimal free ++ codes " of " ++ decimal total) ++ 10 ∷ [] }
{
    let mut line = LineBytes::new();
    append(&mut line, b"free ");
    append_number(&mut line, u64::from(free));
    append(&mut line, b" of ");
    append_number(&mut line, u64::from(total));
    append(&mut line, b"\n");
    line
}

/// A release of so many names.
fn release_words(reference: &Reference, tld: &Tld, reason: Ground, at: Sec, count: u64) -> LineBytes
    ensures text { result.items ≡ release_text reference.now tld.now reason at count }
    ensures most { array_vec_len result ≤ 200 }
{
    let mut line = LineBytes::new();
    append(&mut line, reference.as_bytes());
    append(&mut line, b" ");
    append(&mut line, tld.as_bytes());
    append(&mut line, b" ");
    append(&mut line, reason.as_str().as_bytes());
    append(&mut line, b" ");
    append(&mut line, &write_moment(at));
    append(&mut line, b" ");
    append_number(&mut line, count);
    line
}

fn hold_words(reference: &Reference, tld: &Tld, day: Day, at: Sec) -> LineBytes
    ensures text { result.items ≡ hold_text reference.now tld.now day at }
    ensures most { array_vec_len result ≤ 150 }
{
    let mut line = LineBytes::new();
    append(&mut line, reference.as_bytes());
    append(&mut line, b" ");
    append(&mut line, tld.as_bytes());
    append(&mut line, b" ");
    append(&mut line, &write_day(day));
    append(&mut line, b" ");
    append(&mut line, &write_moment(at));
    line
}

fn lifted_hold_words(reference: &Reference, tld: &Tld, day: Day, at: Sec, lifted: Sec) -> LineBytes
    ensures text { result.items ≡ lifted_hold_text reference.now tld.now day at lifted }
    ensures most { array_vec_len result ≤ 200 }
{
    let mut line = hold_words(reference, tld, day, at);
    append(&mut line, b" lifted ");
    append(&mut line, &write_moment(lifted));
    line
}

/// A word with its space, and a release or a hold.
fn words_line(word: &[u8], words: &LineBytes) -> LineBytes
    requires { (length word.now ≤ 20) × (array_vec_len words.now ≤ 200) }
    ensures { result.items ≡ (word.now ++ words.now.items) ++ 10 ∷ [] }
{
    let mut line = LineBytes::new();
    append(&mut line, word);
    append(&mut line, words);
    append(&mut line, b"\n");
    line
}

fn lifted_line(reference: &Reference, at: Sec) -> LineBytes
    ensures { result.items ≡ (codes "lifted " ++ reference.now ++ codes " " ++ moment_text at) ++ 10 ∷ [] }
{
    let mut line = LineBytes::new();
    append(&mut line, b"lifted ");
    append(&mut line, reference.as_bytes());
    append(&mut line, b" ");
    append(&mut line, &write_moment(at));
    append(&mut line, b"\n");
    line
}

impl Line {
    ghost use Rattle.std.specs.Prelude.{◌≡◌, ◌++◌, [], ◌∷◌};
    ghost use Rattle.answer_lines.specs.Lines.{line_text};

    /// Its bytes, with the line feed.
    pub fn bytes(&self) -> LineBytes
        ensures { result.items ≡ line_text self.now ++ 10 ∷ [] }
    {
        match self {
            Line::Ready { blocks, number } => ready_line(*blocks, *number),
            Line::Registered { tld, first } => registry_line(b"registered ", tld, *first),
            Line::Received { name, length, at } => {
                part_line_bytes(b"received ", name, *length, b" ", *at)
            }
            Line::Notice(notice) => write_line(notice),
            Line::Released {
                reference,
                tld,
                reason,
                at,
                count,
            } => {
                let release = release_words(reference, tld, *reason, *at, *count as u64);
                words_line(b"released ", &release)
            }
            Line::Held {
                reference,
                tld,
                day,
                at,
            } => words_line(b"held ", &hold_words(reference, tld, *day, *at)),
            Line::Lifted { reference, at } => lifted_line(reference, *at),
            Line::Purged { count } => count_line(b"dropped ", *count as u64),
            Line::Registry { tld, first } => registry_line(b"registry ", tld, *first),
            Line::Part { name, length, at } => part_line_bytes(
                b"part ", name, *length, b" held ", *at,
            ),
            Line::Dropped { name, length, at } => {
                part_line_bytes(b"part ", name, *length, b" dropped ", *at)
            }
            Line::Release {
                reference,
                tld,
                reason,
                at,
                count,
            } => {
                let release = release_words(reference, tld, *reason, *at, *count as u64);
                words_line(b"release ", &release)
            }
            Line::Hold {
                reference,
                tld,
                day,
                at,
            } => words_line(b"hold ", &hold_words(reference, tld, *day, *at)),
            Line::LiftedHold {
                reference,
                tld,
                day,
                at,
                lifted,
            } => words_line(
                b"hold ",
                &lifted_hold_words(reference, tld, *day, *at, *lifted),
            ),
            Line::Due { tld, day } => registry_line(b"due ", tld, *day),
            Line::Waiting {
                tld,
                day,
                revision,
                count,
            } => waiting_line(tld, *day, *revision, *count as u64),
            Line::Digest { digest, name } => digest_line(digest, name),
            Line::Damaged { name } => name_line(b"damaged ", name),
            Line::Sound { count } => count_line(b"sound ", *count as u64),
            Line::Room { free, total } => room_line(*free, *total),
            Line::Listening { port } => count_line(b"listening 127.0.0.1:", u64::from(*port)),
        }
    }
}

fn name_fault(fault: NameError) -> &'static str
    ensures { result.now ≡ names.name_error_text fault }
{
    match fault {
        NameError::Suffix => "N1",
        NameError::Tld => "N2",
        NameError::Date => "N3",
        NameError::Kind => "N4",
        NameError::Part => "N5",
        NameError::Revision => "N6",
        NameError::Pieces => "N7",
    }
}

fn damage_number(damage: Damage) -> &'static str
    ensures { result.now ≡ damage_text damage }
{
    match damage {
        Damage::NoRecord => "H0",
        Damage::Head => "H1",
        Damage::Volume => "H2",
        Damage::Schema => "H3",
        Damage::Form => "H4",
        Damage::Extent => "H5",
        Damage::Overlap => "H6",
        Damage::Link => "H7",
        Damage::Digest => "H8",
    }
}

/// The bytes of the line of a refusal, with its line feed.
pub fn refusal_bytes(refusal: &Refusal) -> LineBytes
    ensures { result.items ≡ refusal_text refusal.now ++ 10 ∷ [] }
{
    let code = refusal.code();
    let mut line = LineBytes::new();
    append(&mut line, code.number.as_bytes());
    append(&mut line, b" ");
    if let Refusal::NameRefused(fault) = refusal {
        append(&mut line, name_fault(*fault).as_bytes());
        append(&mut line, b" ");
    }
    append(&mut line, code.text.as_bytes());
    append(&mut line, b"\n");
    line
}

/// The bytes of the line of a failure, with its line feed.
pub fn failure_bytes(failure: &Failure) -> LineBytes
    ensures { result.items ≡ failure_text failure.now ++ 10 ∷ [] }
{
    let code = failure.code();
    let mut line = LineBytes::new();
    append(&mut line, code.number.as_bytes());
    append(&mut line, b" ");
    append(&mut line, code.text.as_bytes());
    if let Failure::Damaged(damage) = failure {
        append(&mut line, b" ");
        append(&mut line, damage_number(*damage).as_bytes());
    }
    append(&mut line, b"\n");
    line
}

/// A number and its text.
fn code_line(code: &Code) -> LineBytes
    requires { length code.now.number.now + length code.now.text.now ≤ 200 }
    ensures { result.items ≡ code_row_text (code_row code.now) ++ 10 ∷ [] }
{
    let mut line = LineBytes::new();
    append(&mut line, code.number.as_bytes());
    append(&mut line, b" ");
    append(&mut line, code.text.as_bytes());
    append(&mut line, b"\n");
    line
}

/// The bytes of the line that says that a sweep would record too many absences, with its line feed.
pub(crate) fn too_many_absences_bytes(count: u64) -> LineBytes
    ensures { result.items ≡ too_many_absences_text count ++ 10 ∷ [] }
{
    let mut line = LineBytes::new();
    append(&mut line, b"Q23 too many absences: ");
    append_number(&mut line, count);
    append(&mut line, b"\n");
    line
}

/// The bytes of the line that says why there is no new vault, with its line feed.
pub fn init_error_bytes(error: &InitError) -> LineBytes
    ensures { result.items ≡ init_error_text error.now ++ 10 ∷ [] }
{
    match error {
        InitError::Failure(failure) => failure_bytes(failure),
        InitError::AlreadyInitialised | InitError::Size => code_line(&error.code()),
    }
}
