//! Reasons as text, one line each.
ghost use Rattle.std.specs.Prelude.{◌≡◌, ◌+◌, ◌-◌, ◌^◌, Some, min, option_map};
ghost use Rattle.std.specs.Fmt.{DisplaysOnOk, WritesOnOk};
ghost use Rattle.hex.specs.Hex.{encode_lower};
ghost use Rattle.dnrd_csv.specs.ErrorText.{form_text};
ghost use Rattle.deposit_verify.specs.ReasonText.{byte_shown, column_form_text, column_text, envelope_reason_text, field_shown, file_place_text, files_reason_text, frame_reason_text, header_reason_text, list_text, menu_reason_text, missing_key_text, no_key_text, no_table_text, or_nothing, or_nothing_output, other_name_text, read_fault_text, reason_text, row_text_within, table_fault_text, tables_reason_text, wanted_byte_text, wanted_id_text, width_of, wrong_count_text};

use crate::files_reason::{FileList, FilePlace, FilesReason, NoTable, ReadFault};
use crate::header_reason::{HeaderReason, MenuReason, OtherName};
use crate::menu::{wanted_count, wanted_table, wanted_uri};
use crate::reason::Reason;
use crate::tables_reason::{NoKey, TablesReason, WrongCount};
use deposit_name::{DepositId, Kind, TableName};
use dnrd_csv::{Form, TableError, column_names, columns};
use envelope::{FrameError, SpellingFault, Uri};
use std::{fmt, str};

/// So many bytes of a field are shown.
const SHOWN: usize = 40;

/// A text of ASCII.
#[derive(Clone, Copy)]
struct Text<'t>(&'t [u8]);

impl fmt::Display for Text<'_> {
    ghost output = { λ t. Some t.0.now };

    fn fmt<W: fmt::Write>(&self, f: &mut fmt::Formatter<W>) -> fmt::Result {
        f.write_str(str::from_utf8(self.0).map_err(|_| fmt::Error)?)
    }
}

/// A digest in hexadecimal digits.
#[derive(Clone, Copy)]
struct Hexadecimal<'d>(&'d [u8; 32]);

impl fmt::Display for Hexadecimal<'_> {
    ghost output = { λ d. Some (encode_lower d.0.now) };

    fn fmt<W: fmt::Write>(&self, f: &mut fmt::Formatter<W>) -> fmt::Result {
        let mut digits = [0u8; 64];
        hex::encode_to_slice(*self.0, &mut digits).map_err(|_| fmt::Error)?;
        write!(f, "{}", Text(&digits))
    }
}

/// A text of ASCII, or `nothing` where there is none.
#[derive(Clone, Copy)]
struct TextOrNothing<'t>(Option<&'t [u8]>);

impl fmt::Display for TextOrNothing<'_> {
    ghost output = { λ o. Some (or_nothing (λ text. text) (option_map (λ text. text.now) o.0)) };

    fn fmt<W: fmt::Write>(&self, f: &mut fmt::Formatter<W>) -> fmt::Result {
        match self.0 {
            Some(text) => write!(f, "{}", Text(text)),
            None => f.write_str("nothing"),
        }
    }
}

/// A value, or `nothing` where there is none.
#[derive(Clone, Copy)]
struct OrNothing<T>(Option<T>);

impl<T: fmt::Display> fmt::Display for OrNothing<T> {
    ghost output = { λ o. or_nothing_output T.output o.0 };

    fn fmt<W: fmt::Write>(&self, f: &mut fmt::Formatter<W>) -> fmt::Result {
        match &self.0 {
            Some(value) => write!(f, "{value}"),
            None => f.write_str("nothing"),
        }
    }
}

/// A field, as far as it is shown.
#[derive(Clone, Copy)]
struct Shown<'f>(&'f [u8]);

fn show_byte<W: fmt::Write>(byte: u8, f: &mut fmt::Formatter<W>) -> fmt::Result
    ensures { WritesOnOk W.write_str_gives f.old result (byte_shown byte) f.new }
{
    match byte {
        b'\\' => f.write_str("\\\\"),
        b' '..=b'~' => f.write_char(char::from(byte)),
        _ => {
            let mut digits = [0u8; 2];
            let _ = hex::encode_to_slice([byte], &mut digits);
            write!(f, "\\x{}", Text(&digits))
        }
    }
}

impl fmt::Display for Shown<'_> {
    ghost output = { λ s. Some (field_shown s.0.now) };

    fn fmt<W: fmt::Write>(&self, f: &mut fmt::Formatter<W>) -> fmt::Result {
        for byte in &self.0[..self.0.len().min(SHOWN)] {
            show_byte(*byte, f)?;
        }
        Ok(())
    }
}

/// A place counted from 1.
fn from_one(place: usize) -> usize
    ensures { result ≡ min (place + 1) (2 ^ 64 - 1) }
{
    place.saturating_add(1)
}

impl fmt::Display for FileList {
    ghost output = { λ l. Some (list_text l) };

    fn fmt<W: fmt::Write>(&self, f: &mut fmt::Formatter<W>) -> fmt::Result {
        f.write_str(match self {
            FileList::Contents => "contents",
            FileList::Deletes => "deletes",
        })
    }
}

impl fmt::Display for FilePlace {
    ghost output = { λ p. Some (file_place_text p) };

    fn fmt<W: fmt::Write>(&self, f: &mut fmt::Formatter<W>) -> fmt::Result {
        match self.list {
            FileList::Contents => write!(f, "{}", self.name),
            FileList::Deletes => write!(f, "deletes/{}", self.name),
        }
    }
}

/// Why bytes are no frame.
#[derive(Clone, Copy)]
struct FrameReason(FrameError);

impl fmt::Display for FrameReason {
    ghost output = { λ r. Some (frame_reason_text r.0) };

    fn fmt<W: fmt::Write>(&self, f: &mut fmt::Formatter<W>) -> fmt::Result {
        match self.0 {
            FrameError::Head => f.write_str("F1: it does not begin with RDE1 and a space"),
            FrameError::Digits => {
                f.write_str("F2: no length of eight digits and a line feed follows RDE1")
            }
            FrameError::Short { said, there } => write!(
                f,
                "F3: the envelope has {said} bytes, says the frame, and {there} are there"
            ),
        }
    }
}

/// Why a text is not that of an envelope.
#[derive(Clone, Copy)]
struct EnvelopeReason(SpellingFault);

impl fmt::Display for EnvelopeReason {
    ghost output = { λ r. Some (envelope_reason_text r.0) };

    fn fmt<W: fmt::Write>(&self, f: &mut fmt::Formatter<W>) -> fmt::Result {
        match self.0 {
            SpellingFault::Long => f.write_str("the envelope has more than 8192 bytes"),
            SpellingFault::NotUtf8 { offset } => {
                write!(f, "envelope offset {offset}: not UTF-8")
            }
            SpellingFault::NotJson { line, column } => {
                write!(f, "envelope line {line} column {column}: not JSON")
            }
            SpellingFault::Member(member) => write!(f, "{member}: not there, or not in form"),
            SpellingFault::Byte { offset, wanted } => {
                write!(
                    f,
                    "envelope offset {offset}: {} is wanted",
                    WantedByte(wanted)
                )
            }
        }
    }
}

/// The byte that is wanted in an envelope's text.
#[derive(Clone, Copy)]
struct WantedByte(Option<u8>);

impl fmt::Display for WantedByte {
    ghost output = { λ w. Some (wanted_byte_text w.0) };

    fn fmt<W: fmt::Write>(&self, f: &mut fmt::Formatter<W>) -> fmt::Result {
        match self.0 {
            Some(byte) => write!(f, "'{}'", Shown(&[byte])),
            None => f.write_str("its end"),
        }
    }
}

impl fmt::Display for OtherName {
    ghost output = { λ o. Some (other_name_text o) };

    fn fmt<W: fmt::Write>(&self, f: &mut fmt::Formatter<W>) -> fmt::Result {
        match self {
            OtherName::Tld { here, named } => {
                write!(f, "header.tld is {here}, the name says {named}")
            }
            OtherName::Resend { here, named } => {
                write!(f, "resend is {here}, the name says {named}")
            }
            OtherName::Kind { here, named } => {
                write!(f, "type is {here}, the name says {named}")
            }
            OtherName::Watermark { here, named } => {
                write!(f, "watermark is {here}, the name says {named}")
            }
        }
    }
}

/// The id that a deposit has to follow, or why there is none.
#[derive(Clone, Copy)]
struct WantedId {
    kind: Kind,
    id: Option<DepositId>,
}

impl fmt::Display for WantedId {
    ghost output = { λ w. Some (wanted_id_text w.kind w.id) };

    fn fmt<W: fmt::Write>(&self, f: &mut fmt::Formatter<W>) -> fmt::Result {
        match (self.kind, self.id) {
            (_, Some(id)) => write!(f, "{id} is wanted"),
            (Kind::Full, None) => f.write_str("a full deposit has none"),
            (Kind::Diff, None) => f.write_str("no deposit has passed"),
            (Kind::Incr, None) => f.write_str("no full deposit has passed"),
        }
    }
}

/// The text of a URI, where there is one.
fn uri_text(uri: &Option<Uri>) -> TextOrNothing<'_>
    ensures { option_map (λ text. text.now) result.0 ≡ uri.now }
{
    match uri {
        Some(uri) => TextOrNothing(Some(uri.as_bytes())),
        None => TextOrNothing(None),
    }
}

impl fmt::Display for MenuReason {
    ghost output = { λ r. Some (menu_reason_text r) };

    fn fmt<W: fmt::Write>(&self, f: &mut fmt::Formatter<W>) -> fmt::Result {
        match self {
            MenuReason::ObjectUri { place, here } => write!(
                f,
                "rdeMenu.objURI {}: {}, {} is wanted",
                from_one(*place),
                uri_text(here),
                TextOrNothing(wanted_uri(*place)),
            ),
            MenuReason::Count { place, here } => write!(
                f,
                "header.count {}: {}, {} is wanted",
                from_one(*place),
                uri_text(here),
                TextOrNothing(wanted_count(*place)),
            ),
            MenuReason::Contents { place, here } => write!(
                f,
                "contents {}: {}, {} is wanted",
                from_one(*place),
                OrNothing(*here),
                OrNothing(wanted_table(*place)),
            ),
            MenuReason::Order {
                list,
                place,
                before,
                here,
            } => write!(f, "{list} {}: {here} behind {before}", from_one(*place)),
        }
    }
}

impl fmt::Display for HeaderReason {
    ghost output = { λ r. Some (header_reason_text r) };

    fn fmt<W: fmt::Write>(&self, f: &mut fmt::Formatter<W>) -> fmt::Result {
        match self {
            HeaderReason::Name(other) => write!(f, "{other}"),
            HeaderReason::Id { here, stated } => {
                write!(f, "id is {here}, the statement says {stated}")
            }
            HeaderReason::Sunday(day) => write!(
                f,
                "watermark {day} is a Sunday, and the deposit is not full"
            ),
            HeaderReason::PrevId { kind, here, wanted } => write!(
                f,
                "prevId is {}, {}",
                OrNothing(*here),
                WantedId {
                    kind: *kind,
                    id: *wanted
                },
            ),
            HeaderReason::IdTaken(id) => write!(f, "id {id} has passed before"),
            HeaderReason::Menu(reason) => write!(f, "{reason}"),
        }
    }
}

impl fmt::Display for FilesReason {
    ghost output = { λ r. Some (files_reason_text r) };

    fn fmt<W: fmt::Write>(&self, f: &mut fmt::Formatter<W>) -> fmt::Result {
        match self {
            FilesReason::Lengths { said, there } => write!(
                f,
                "the files have {said} bytes, says the envelope, and {there} are there"
            ),
            FilesReason::Digest { place, said, found } => write!(
                f,
                "{} {} {}: sha256 is {}, the envelope says {}",
                place.list,
                from_one(place.place),
                place.name,
                Hexadecimal(found),
                Hexadecimal(said),
            ),
        }
    }
}

/// A row, from 0, within its file.
#[derive(Clone, Copy)]
struct Row(usize);

impl fmt::Display for Row {
    ghost output = { λ r. Some (row_text_within r.0) };

    fn fmt<W: fmt::Write>(&self, f: &mut fmt::Formatter<W>) -> fmt::Result {
        write!(f, " row {}", from_one(self.0))
    }
}

fn column_name(table: TableName, column: usize) -> &'static str
    ensures { result.now ≡ column_text table column }
{
    match column_names(table).get(column) {
        Some(name) => name,
        None => "",
    }
}

fn column_form(table: TableName, column: usize) -> Form
    ensures { form_text result ≡ column_form_text table column }
{
    match columns(table).get(column) {
        Some(form) => *form,
        None => Form::Id,
    }
}

/// How many columns a file has: that of deleted keys has one.
fn width_of(file: &FilePlace) -> usize
    ensures { result ≡ width_of file.now }
{
    match file.list {
        FileList::Contents => columns(file.name).len(),
        FileList::Deletes => 1,
    }
}

/// What is wrong with a file, and where in it: the line of a [`NoTable`] behind the name of its file.
#[derive(Clone, Copy)]
pub struct TableFaultText<'t>(pub &'t NoTable);

impl fmt::Display for TableFaultText<'_> {
    ghost output = { λ t. Some (table_fault_text t.0.now.file t.0.now.fault) };

    fn fmt<W: fmt::Write>(&self, f: &mut fmt::Formatter<W>) -> fmt::Result {
        let file = self.0.file;
        match &self.0.fault {
            TableError::NotUtf8 { offset } => { write!(f, " offset {offset}: not UTF-8") }
            TableError::NotRows { row } => {
                write!(f, "{}: not a row in its one spelling", Row(*row))
            }
            TableError::ColumnCount { row, fields } => write!(
                f,
                "{}: {fields} fields, {} are wanted",
                Row(*row),
                width_of(&file)
            ),
            TableError::FieldForm { row, column, field } => write!(
                f,
                "{} {}: not {}: {}",
                Row(*row),
                column_name(file.name, *column),
                column_form(file.name, *column),
                Shown(field),
            ),
            TableError::DuplicateKey { row, earlier } => {
                write!(f, "{}: the key of row {}", Row(*row), from_one(*earlier))
            }
            TableError::OutOfMemory => f.write_str(": out of memory"),
        }
    }
}

impl fmt::Display for NoTable {
    ghost output = { λ t. Some (no_table_text t) };

    fn fmt<W: fmt::Write>(&self, f: &mut fmt::Formatter<W>) -> fmt::Result {
        write!(f, "{}{}", self.file, TableFaultText(self))
    }
}

impl fmt::Display for ReadFault {
    ghost output = { λ r. Some (read_fault_text r) };

    fn fmt<W: fmt::Write>(&self, f: &mut fmt::Formatter<W>) -> fmt::Result {
        match self {
            ReadFault::Files(reason) => write!(f, "{reason}"),
            ReadFault::Table(reason) | ReadFault::Deletes(reason) => write!(f, "{reason}"),
        }
    }
}

impl fmt::Display for WrongCount {
    ghost output = { λ c. Some (wrong_count_text c) };

    fn fmt<W: fmt::Write>(&self, f: &mut fmt::Formatter<W>) -> fmt::Result {
        write!(
            f,
            "{} counts {}, {} are there",
            TextOrNothing(wanted_count(self.place)),
            self.said,
            self.there
        )
    }
}

/// Which key is not there, and where in its file: the line of a [`NoKey`] behind the name of its table.
#[derive(Clone, Copy)]
pub struct MissingKeyText<'k>(pub &'k NoKey);

impl fmt::Display for MissingKeyText<'_> {
    ghost output = { λ t. Some (missing_key_text t.0.now) };

    fn fmt<W: fmt::Write>(&self, f: &mut fmt::Formatter<W>) -> fmt::Result {
        let missing = self.0;
        write!(
            f,
            "{} {}: no {}: {}",
            Row(missing.row),
            column_name(missing.table, missing.column),
            missing.of,
            Shown(&missing.key),
        )
    }
}

impl fmt::Display for NoKey {
    ghost output = { λ r. Some (no_key_text r) };

    fn fmt<W: fmt::Write>(&self, f: &mut fmt::Formatter<W>) -> fmt::Result {
        write!(f, "{}{}", self.table, MissingKeyText(self))
    }
}

impl fmt::Display for TablesReason {
    ghost output = { λ r. Some (tables_reason_text r) };

    fn fmt<W: fmt::Write>(&self, f: &mut fmt::Formatter<W>) -> fmt::Result {
        match self {
            TablesReason::Count(wrong) => write!(f, "{wrong}"),
            TablesReason::Reference(missing) => write!(f, "{missing}"),
        }
    }
}

impl fmt::Display for Reason {
    ghost output = { λ r. Some (reason_text r) };

    fn fmt<W: fmt::Write>(&self, f: &mut fmt::Formatter<W>) -> fmt::Result {
        match self {
            Reason::Frame(fault) => write!(f, "{}", FrameReason(*fault)),
            Reason::Envelope(fault) => write!(f, "{}", EnvelopeReason(*fault)),
            Reason::Header(reason) => write!(f, "{reason}"),
            Reason::Read(fault) => write!(f, "{fault}"),
            Reason::Tables(reason) => write!(f, "{reason}"),
        }
    }
}
