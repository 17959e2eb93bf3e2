//! One request, one response.
ghost use Rattle.std.specs.Prelude.{◌≡◌, ◌≤◌, ◌++◌, ℕ, List, length, take, Err, Some, None, Result, IfOk, IfErr, IfSome, OnOk, OnErr};
ghost use Rattle.std.specs.Io.KnownBytes.{Appends, Keeps};
ghost use Rattle.desk.specs.Lines.{AppendsBeginning};
ghost use Rattle.custody.specs.Explaining.{HasExplained};
ghost use Rattle.custody.specs.Fetching.{HasFetched};
ghost use Rattle.custody.specs.declared.answers.Refused as not_accepted;
ghost use Rattle.custody.specs.declared.explanation.Explanation as explained;
ghost use Rattle.http_request.specs.Errors.{IsRequestError, IsBodyError};
ghost use Rattle.http_request.specs.ActionView.{action_view};
ghost use Rattle.http_api.specs.Responses.{HttpResponse, message_view, response_view, response_bytes};
ghost use Rattle.http_api.specs.Handling.{IsCompletedAs, ErrorLeaves, HasReceivedPart, IsExplanationTold, IsRequestPerformed, IsNoCommand, IsServed, IsActionPerformed, IsRequestServed, fetch_response};

use crate::ResponseStatus;
use crate::answering::{
    explanation_response, failure_response, fault_response, reading_response, refusal_response,
    refused_response, reply_response, response_of,
};
use crate::reading::{digests_text, due_text, state_text};
use crate::report::Report;
use crate::response::{Body, Message, Response, write_message};
use answer_lines::WriteFailed;
use custody::{Custody, ReceiveError};
use custody_machine::{Failure, Refusal};
use deposit_name::{Reference, Tld};
use desk::Revision;
use http_request::{
    RequestAction, RequestError, RequestFault, Route, Routes, meaning_of, read_body, read_head,
    read_plan,
};
use schedule::{Day, Sec};
use sqlite::Alter;
use std::alloc::{AllocError, Global};
use std::fmt;
use std::io::{Read, Write};
use vault_volume::Volume;

/// What a request comes to, before it is written.
#[derive(Debug, Drop)]
pub(crate) enum PendingResponse {
    Response(Response),
    /// The report of a registry is to be written.
    Report(Tld),
}

/// A response was written.
#[derive(Clone, Copy, Debug, PartialEq, Eq)]
pub struct Served;

/// Why none was written whole.
#[derive(Clone, Copy, Debug, PartialEq, Eq)]
pub enum ServeError {
    /// The reader failed. Nothing was written, and nothing is recorded.
    Read,
    /// The writer failed, or took no byte. What it took is the beginning of the response.
    Write,
}

impl fmt::Display for ServeError {
    ghost use Rattle.std.specs.Prelude.{Some, codes};
    ghost use Rattle.http_api.specs.Handling.{serve_error_text};

    ghost output = { λ e. Some (serve_error_text e) };

    fn fmt<W: fmt::Write>(&self, f: &mut fmt::Formatter<W>) -> fmt::Result {
        f.write_str(match self {
            ServeError::Read => "read failed",
            ServeError::Write => "write failed",
        })
    }
}

impl From<WriteFailed> for ServeError {
    ghost use Rattle.std.specs.Prelude.{◌≡◌};
    ghost use Rattle.http_api.specs.declared.handling.ServeError.TheVariants.{Write};

    ghost from_gives = { λ _ e. e ≡ Write };

    fn from(_failed: WriteFailed) -> ServeError {
        ServeError::Write
    }
}

/// Reads a part, under a release that lists its name.
fn fetch<V: Volume, S: Alter>(
    alloc: Global,
    custody: &mut Custody<V, S>,
    reference: &Reference,
    name: &[u8],
) -> Response
    ensures { (r : Result (List ℕ) not_accepted.Refused)
        × HasFetched custody.old reference.now name.now r custody.new × (response_view result ≡ fetch_response r) }
{
    let mut bytes = Vec::new(alloc);
    match custody.fetch(alloc, reference, name, &mut bytes) {
        Ok(()) => Response {
            status: ResponseStatus::Done,
            allow: None,
            body: Body::Part(bytes),
        },
        Err(refused) => refused_response(&refused),
    }
}

/// Explains why a revision has failed.
fn explain<V: Volume, S: Alter>(
    alloc: Global,
    custody: &mut Custody<V, S>,
    tld: &Tld,
    day: Day,
    rev: Revision,
) -> Response
    ensures { (r : Result explained.Explanation not_accepted.Refused)
        × HasExplained custody.old tld.now day rev r custody.new × IsExplanationTold r (response_view result) }
{
    match custody.explain(alloc, tld, day, rev) {
        Ok(told) => explanation_response(alloc, &told),
        Err(refused) => refused_response(&refused),
    }
}

/// Has the custody do what is asked, once.
fn perform<V: Volume, S: Alter>(
    alloc: Global,
    custody: &mut Custody<V, S>,
    action: &RequestAction<'_>,
    now: Sec,
) -> PendingResponse
    ensures { IsActionPerformed (action_view action.now) now custody.old result custody.new }
{
    match action {
        RequestAction::Do(command) => PendingResponse::Response(response_of(custody.apply(
            alloc, command, now,
        ))),
        RequestAction::Report(tld) => PendingResponse::Report(*tld),
        RequestAction::Explain(tld, day, rev) => {
            PendingResponse::Response(explain(alloc, custody, tld, *day, *rev))
        }
        RequestAction::State => {
            PendingResponse::Response(reading_response(state_text(alloc, custody)))
        }
        RequestAction::Due => {
            PendingResponse::Response(reading_response(due_text(alloc, custody, now)))
        }
        RequestAction::Digests(tld) => {
            PendingResponse::Response(reading_response(digests_text(alloc, custody, tld)))
        }
        RequestAction::Fetch(reference, name) => PendingResponse::Response(fetch(
            alloc, custody, reference, name,
        )),
    }
}

/// The bytes of a part that came with the head.
fn first_of(front: &[u8], len: u32) -> &[u8]
    ensures bytes { result.now ≡ take len front.now }
    ensures len { length result.now ≤ len }
{
    &front[..front.len().min(len as usize)]
}

/// Receives a part while its bytes are read: those that came with the head, and what the reader gives.
fn receive<R: Read, V: Volume, S: Alter>(
    alloc: Global,
    reader: &mut R,
    custody: &mut Custody<V, S>,
    name: &[u8],
    len: u32,
    front: &[u8],
    now: Sec,
) -> Result<PendingResponse, RequestError>
    ensures done { IfOk result (λ outcome.
        HasReceivedPart (R.remaining reader.old) front.now name.now len now custody.old outcome custody.new) }
    ensures error { IfErr result (λ error.
        IfSome (R.remaining reader.old) (λ rest. IsBodyError (front.now ++ rest) (Some len) error)) }
    // That a part is sent, the caller knows.
    ensures left { IfErr result (λ error. ErrorLeaves None error custody.old custody.new) }
{
    let first = first_of(front, len);
    match custody.receive_from(alloc, name, len, first, reader, now) {
        Ok(reply) => Ok(PendingResponse::Response(reply_response(reply))),
        Err(ReceiveError::Refused(refused)) => Ok(PendingResponse::Response(refused_response(
            &refused,
        ))),
        Err(ReceiveError::Short) => Err(RequestError::Fault(RequestFault::BodyShort)),
        Err(ReceiveError::ReadFailed) => Err(RequestError::Unread),
    }
}

/// What the request asks is done; or nothing is asked of the custody.
fn pending_response<R: Read, V: Volume, S: Alter>(
    alloc: Global,
    routes: &Routes,
    reader: &mut R,
    custody: &mut Custody<V, S>,
    now: Sec,
) -> Result<PendingResponse, RequestError>
    ensures done { IfOk result (λ outcome. IsRequestPerformed (R.remaining reader.old) now custody.old outcome custody.new) }
    ensures error { IfErr result (λ error. IfSome (R.remaining reader.old) (λ input. IsRequestError input error)) }
    ensures left { IfErr result (λ error. ErrorLeaves (R.remaining reader.old) error custody.old custody.new) }
{
    let head = read_head(alloc, reader)?;
    let plan = read_plan(routes, &head)?;
    if let Route::Deposit = plan.target.route {
        let len = plan.length.unwrap_or(0) as u32;
        let name = plan.target.first;
        return receive(alloc, reader, custody, name, len, head.rest(), now);
    }
    let body = read_body(alloc, reader, head.rest(), plan.length)?;
    match meaning_of(alloc, plan.target, &body) {
        Ok(action) => Ok(perform(alloc, custody, &action, now)),
        Err(error) => Err(error),
    }
}

/// What a request comes to, faults too; or the reader failed.
pub(crate) fn respond<R: Read, V: Volume, S: Alter>(
    alloc: Global,
    routes: &Routes,
    reader: &mut R,
    custody: &mut Custody<V, S>,
    now: Sec,
) -> Result<PendingResponse, ServeError>
    ensures serves { IfOk result (λ outcome. IsRequestServed (R.remaining reader.old) now custody.old outcome custody.new) }
    ensures left { IfErr result (λ error. (error ≡ ServeError.Read)
        × IsNoCommand (R.remaining reader.old) custody.old custody.new) }
{
    match pending_response(alloc, routes, reader, custody, now) {
        Ok(outcome) => Ok(outcome),
        Err(RequestError::Unread) => Err(ServeError::Read),
        Err(RequestError::NoMemory) => Ok(PendingResponse::Response(failure_response(
            &Failure::NoMemory,
        ))),
        Err(RequestError::Fault(fault)) => Ok(PendingResponse::Response(fault_response(fault))),
    }
}

/// The report of a registry that is known.
fn report_message<'c, V: Volume, S: Alter>(custody: &'c Custody<V, S>, tld: &Tld) -> Message<'c>
    ensures { IsCompletedAs custody.now (PendingResponse.Report tld.now) (message_view result) }
{
    let records = match custody.records() {
        Ok(records) => records,
        Err(failure) => return Message::Response(failure_response(&failure)),
    };
    if records.first_day(tld).is_none() {
        return Message::Response(refusal_response(&Refusal::RegistryUnknown));
    }
    match Report::of(records.notices_of(tld)) {
        Some(report) => Message::Report(report),
        None => Message::Response(failure_response(&Failure::NoMemory)),
    }
}

/// What is written of a pending response.
fn message_of<'c, V: Volume, S: Alter>(
    custody: &'c Custody<V, S>,
    outcome: PendingResponse,
) -> Message<'c>
    ensures { IsCompletedAs custody.now outcome (message_view result) }
{
    match outcome {
        PendingResponse::Response(response) => Message::Response(response),
        PendingResponse::Report(tld) => report_message(custody, &tld),
    }
}

/// Writes what a request came to, unless its reader failed.
pub(crate) fn write_outcome<W: Write, V: Volume, S: Alter>(
    custody: &Custody<V, S>,
    outcome: Result<PendingResponse, ServeError>,
    writer: &mut W,
) -> Result<Served, ServeError>
    ensures served { OnOk result (IfOk outcome (λ pending. (answer : HttpResponse) × IsCompletedAs custody.now pending answer
        × Appends (W.contents writer.old) (W.contents writer.new) (response_bytes answer))) }
    ensures write_failed { OnErr result (IfOk outcome (λ pending. (result ≡ Err ServeError.Write)
        × (answer : HttpResponse) × IsCompletedAs custody.now pending answer
        × AppendsBeginning (W.contents writer.old) (W.contents writer.new) (response_bytes answer))) }
    ensures read_failed { IfErr outcome (λ error. (result ≡ Err error) × Keeps (W.contents writer.old) (W.contents writer.new)) }
{
    write_message(&message_of(custody, outcome?), writer)?;
    Ok(Served)
}

/// The HTTP interface: its routes, made once.
#[derive(Drop)]
pub struct Api {
    pub(crate) routes: Routes,
}

impl Api {
    pub fn new(alloc: Global) -> Result<Api, AllocError> {
        match Routes::new(alloc) {
            Ok(routes) => Ok(Api { routes }),
            Err(_) => Err(AllocError),
        }
    }

    /// Reads one request and writes one response. The custody takes the one step that the request asks
    /// for, and no other.
    pub fn serve_one<R: Read, W: Write, V: Volume, S: Alter>(
        &self,
        alloc: Global,
        reader: &mut R,
        writer: &mut W,
        custody: &mut Custody<V, S>,
        now: Sec,
    ) -> Result<Served, ServeError>
        ensures served { OnOk result ((answer : HttpResponse)
            × IsServed (R.remaining reader.old) now custody.old answer custody.new
            × Appends (W.contents writer.old) (W.contents writer.new) (response_bytes answer)) }
        ensures read_failed { result ≡ Err ServeError.Read
            → IsNoCommand (R.remaining reader.old) custody.old custody.new
            × Keeps (W.contents writer.old) (W.contents writer.new) }
        ensures write_failed { result ≡ Err ServeError.Write → (answer : HttpResponse)
            × IsServed (R.remaining reader.old) now custody.old answer custody.new
            × AppendsBeginning (W.contents writer.old) (W.contents writer.new) (response_bytes answer) }
    {
        let outcome = respond(alloc, &self.routes, reader, custody, now);
        write_outcome(custody, outcome, writer)
    }
}
