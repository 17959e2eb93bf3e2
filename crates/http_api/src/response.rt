//! Responses, and their bytes. Writing one takes no memory.
ghost use Rattle.std.specs.Prelude.{◌≡◌, ◌+◌, ◌≤◌, ◌++◌, OnOk, length};
ghost use Rattle.std.specs.Io.KnownBytes.{Appends};
ghost use Rattle.arrayvec.specs.ArrayVec.{array_vec_len};
ghost use Rattle.desk.specs.Lines.{AppendsBeginning, report_text};
ghost use Rattle.answer_lines.specs.Printing.{reply_text};
ghost use Rattle.http_api.specs.Responses.{allow_line, http_response, response_head, message_view, report_view, response_view, response_bytes};
ghost use Rattle.http_api.specs.Statuses.{status_text};

use crate::ResponseStatus;
use crate::report::Report;
use crate::writing::{write_three, write_two};
use answer_lines::{Line, WriteFailed, names_behind, write_whole};
use custody::Record;
use deposit_name::{LineBytes, append, append_number};
use desk::{Notice, report};
use http_request::Method;
use std::io::Write;

/// What kind of bytes a body has (RFC 9110, section 8.3).
#[derive(Clone, Copy, Debug, PartialEq, Eq)]
pub enum Media {
    Text,
    /// Bytes of which nothing more is told.
    Bytes,
}

impl Media {
    ghost use Rattle.std.specs.Prelude.{◌≡◌};
    ghost use Rattle.http_api.specs.Responses.{media_text};

    /// Its name.
    pub fn as_str(self) -> &'static str
        ensures { result.now ≡ media_text self }
    {
        match self {
            Media::Text => "text/plain",
            Media::Bytes => "application/octet-stream",
        }
    }
}

/// The body of a response.
#[derive(Debug, Drop)]
pub(crate) enum Body {
    /// One line.
    Line(LineBytes),
    /// What is printed of a record: its line, and the names that it lists.
    Record(Record),
    /// The bytes of a part.
    Part(Vec<u8>),
    /// Lines.
    Text(Vec<u8>),
}

/// A response. A 405 tells the method that is allowed.
#[derive(Debug, Drop)]
pub(crate) struct Response {
    pub(crate) status: ResponseStatus,
    pub(crate) allow: Option<Method>,
    pub(crate) body: Body,
}

/// A response as it is written.
#[derive(Debug, Drop)]
pub(crate) enum Message<'c> {
    Response(Response),
    /// The report of a registry, with status 200.
    Report(Report<'c>),
}

/// Adds code and phrase of a status.
#[tactic(auto, using(crate::proofs::HeadLemmas::status_short))]
fn append_status(head: &mut LineBytes, status: ResponseStatus)
    requires { array_vec_len head.old + 30 ≤ 256 }
    ensures text { head.new.items ≡ head.old.items ++ status_text status }
    ensures len { array_vec_len head.new ≤ array_vec_len head.old + 30 }
{
    append(head, status.as_str().as_bytes());
}

/// Adds the field of a 405.
fn append_allow(head: &mut LineBytes, allow: Option<Method>)
    requires { array_vec_len head.old + 20 ≤ 256 }
    ensures text { head.new.items ≡ head.old.items ++ allow_line allow }
    ensures len { array_vec_len head.new ≤ array_vec_len head.old + 20 }
{
    if let Some(method) = allow {
        append(head, b"Allow: ");
        append(head, method.as_str().as_bytes());
        append(head, b"\r\n");
    }
}

/// All that stands before a body of so many bytes.
fn head_of(status: ResponseStatus, media: Media, allow: Option<Method>, length: u64) -> LineBytes
    ensures { result.items ≡ response_head status media allow length }
{
    let mut head = LineBytes::new();
    append(&mut head, b"HTTP/1.1 ");
    append_status(&mut head, status);
    append(&mut head, b"\r\nContent-Type: ");
    append(&mut head, media.as_str().as_bytes());
    append(&mut head, b"\r\nContent-Length: ");
    append_number(&mut head, length);
    append(&mut head, b"\r\nConnection: close\r\n");
    append_allow(&mut head, allow);
    append(&mut head, b"\r\n");
    head
}

/// Writes a response.
pub(crate) fn write_message<W: Write>(
    message: &Message<'_>,
    writer: &mut W,
) -> Result<(), WriteFailed>
    ensures whole { OnOk result (Appends (W.contents writer.old) (W.contents writer.new) (response_bytes (message_view message.now))) }
    ensures begun { AppendsBeginning (W.contents writer.old) (W.contents writer.new) (response_bytes (message_view message.now)) }
{
    match message {
        Message::Response(response) => write_response(response, writer),
        Message::Report(report) => write_report(report, writer),
    }
}

fn write_response<W: Write>(response: &Response, writer: &mut W) -> Result<(), WriteFailed>
    ensures whole { OnOk result (Appends (W.contents writer.old) (W.contents writer.new) (response_bytes (response_view response.now))) }
    ensures begun { AppendsBeginning (W.contents writer.old) (W.contents writer.new) (response_bytes (response_view response.now)) }
{
    let Response {
        status,
        allow,
        body,
    } = response;
    match body {
        Body::Line(line) => write_body(*status, Media::Text, *allow, line.as_slice(), writer),
        Body::Record(told) => write_record(*status, *allow, told, writer),
        Body::Part(bytes) => write_body(*status, Media::Bytes, *allow, bytes.as_slice(), writer),
        Body::Text(text) => write_body(*status, Media::Text, *allow, text.as_slice(), writer),
    }
}

/// Writes a response with these bytes as its body.
fn write_body<W: Write>(
    status: ResponseStatus,
    media: Media,
    allow: Option<Method>,
    body: &[u8],
    writer: &mut W,
) -> Result<(), WriteFailed>
    ensures whole { OnOk result (Appends (W.contents writer.old) (W.contents writer.new) (response_bytes (http_response status media allow body.now))) }
    ensures begun { AppendsBeginning (W.contents writer.old) (W.contents writer.new) (response_bytes (http_response status media allow body.now)) }
{
    let head = head_of(status, media, allow, body.len() as u64);
    write_two(head.as_slice(), body, writer)
}

/// Writes a response whose body is what is printed of a record.
fn write_record<W: Write>(
    status: ResponseStatus,
    allow: Option<Method>,
    told: &Record,
    writer: &mut W,
) -> Result<(), WriteFailed>
    ensures whole { OnOk result (Appends (W.contents writer.old) (W.contents writer.new) (response_bytes (http_response status Media.Text allow (reply_text told.now)))) }
    ensures begun { AppendsBeginning (W.contents writer.old) (W.contents writer.new) (response_bytes (http_response status Media.Text allow (reply_text told.now))) }
{
    let line = Line::of_record(told).bytes();
    let names = names_behind(told);
    let length = line.len() as u64 + names.len() as u64;
    let head = head_of(status, Media::Text, allow, length);
    write_three(head.as_slice(), line.as_slice(), names, writer)
}

/// Writes the report, a line at a time.
fn write_report<W: Write>(told: &Report<'_>, writer: &mut W) -> Result<(), WriteFailed>
    ensures whole { OnOk result (Appends (W.contents writer.old) (W.contents writer.new) (response_bytes (report_view told.now))) }
    ensures begun { AppendsBeginning (W.contents writer.old) (W.contents writer.new) (response_bytes (report_view told.now)) }
{
    let head = head_of(ResponseStatus::Done, Media::Text, None, told.len);
    write_lines(head.as_slice(), told.notices, writer)
}

/// Writes bytes, and then the lines of notices.
fn write_lines<W: Write>(
    first: &[u8],
    notices: &[Notice],
    writer: &mut W,
) -> Result<(), WriteFailed>
    ensures whole { OnOk result (Appends (W.contents writer.old) (W.contents writer.new) (first.now ++ report_text notices.now)) }
    ensures begun { AppendsBeginning (W.contents writer.old) (W.contents writer.new) (first.now ++ report_text notices.now) }
{
    write_whole(first, writer)?;
    match report(notices, writer) {
        Ok(()) => Ok(()),
        Err(_) => Err(WriteFailed),
    }
}
