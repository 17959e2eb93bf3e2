//! What is told of faults, refusals, failures and replies, as responses.
ghost use Rattle.std.specs.Prelude.{◌≡◌, Result, Ok};
ghost use Rattle.http_api.specs.Responses.{response_view};
ghost use Rattle.http_api.specs.Handling.{IsExplanationTold, allowed_method, failure_response, fault_response, fault_row, new_record_status, refusal_response, refused_response, reading_response, response_of, reply_status};

use crate::ResponseStatus;
use crate::response::{Body, Response};
use answer_lines::{failure_bytes, refusal_bytes};
use custody::{Explanation, Record, Refused, Reply};
use custody_machine::{Failure, HttpStatus, Refusal};
use deposit_name::{LineBytes, append};
use http_request::{Method, RequestFault};
use std::alloc::Global;

/// Number and text of a fault as a line, and the status.
fn fault_row(fault: RequestFault) -> (&'static str, ResponseStatus)
    ensures line { result.0.now ≡ (fault_row fault).0 }
    ensures status { result.1 ≡ (fault_row fault).1 }
{
    match fault {
        RequestFault::Head => ("A1 head\n", ResponseStatus::Coded(HttpStatus::BadRequest)),
        RequestFault::Target => ("A2 target\n", ResponseStatus::Coded(HttpStatus::BadRequest)),
        RequestFault::NoRoute => ("A3 no route\n", ResponseStatus::Coded(HttpStatus::NotFound)),
        RequestFault::Method(_) => ("A4 method\n", ResponseStatus::MethodNotAllowed),
        RequestFault::TransferCoding => ("A5 transfer coding\n", ResponseStatus::NotImplemented),
        RequestFault::NoLength => ("A6 no length\n", ResponseStatus::LengthRequired),
        RequestFault::Length => ("A7 length\n", ResponseStatus::Coded(HttpStatus::BadRequest)),
        RequestFault::TooLong => (
            "A8 too long\n",
            ResponseStatus::Coded(HttpStatus::ContentTooLarge),
        ),
        RequestFault::BodyShort => (
            "A9 body short\n",
            ResponseStatus::Coded(HttpStatus::BadRequest),
        ),
        RequestFault::Form => ("A10 form\n", ResponseStatus::Coded(HttpStatus::BadRequest)),
    }
}

/// The method of the route, where the request has another.
fn allowed_method(fault: RequestFault) -> Option<Method>
    ensures { result ≡ allowed_method fault }
{
    match fault {
        RequestFault::Method(allowed) => Some(allowed),
        _ => None,
    }
}

/// What is answered to a request that has a fault.
pub(crate) fn fault_response(fault: RequestFault) -> Response
    ensures { response_view result ≡ fault_response fault }
{
    let (text, status) = fault_row(fault);
    let mut line = LineBytes::new();
    append(&mut line, text.as_bytes());
    Response {
        status,
        allow: allowed_method(fault),
        body: Body::Line(line),
    }
}

/// What is answered to a command that is refused.
pub(crate) fn refusal_response(refusal: &Refusal) -> Response
    ensures { response_view result ≡ refusal_response refusal.now }
{
    let Some(status) = refusal.code().http else {
        unreachable!()
    };
    Response {
        status: ResponseStatus::Coded(status),
        allow: None,
        body: Body::Line(refusal_bytes(refusal)),
    }
}

/// What is answered to a command that failed.
pub(crate) fn failure_response(failure: &Failure) -> Response
    ensures { response_view result ≡ failure_response failure.now }
{
    let Some(status) = failure.code().http else {
        unreachable!()
    };
    Response {
        status: ResponseStatus::Coded(status),
        allow: None,
        body: Body::Line(failure_bytes(failure)),
    }
}

/// The status of a new record. A purge makes none.
fn new_record_status(told: &Record) -> ResponseStatus
    ensures { result ≡ new_record_status told.now }
{
    match told {
        Record::Registry { .. }
        | Record::Part { .. }
        | Record::Notice(_)
        | Record::Release(_)
        | Record::Hold(_)
        | Record::Lifting { .. } => ResponseStatus::Created,
        Record::Purge { .. } => ResponseStatus::Done,
    }
}

fn reply_status(reply: &Reply) -> ResponseStatus
    ensures { result ≡ reply_status reply.now }
{
    if reply.is_repeat {
        ResponseStatus::Done
    } else {
        new_record_status(&reply.record)
    }
}

/// What is answered to a command that is not accepted.
pub(crate) fn refused_response(refused: &Refused) -> Response
    ensures { response_view result ≡ refused_response refused.now }
{
    match refused {
        Refused::Refusal(refusal) => refusal_response(refusal),
        Refused::Failure(failure) => failure_response(failure),
    }
}

/// What is answered by a text, or by what is in the way of it.
pub(crate) fn reading_response(text: Result<Vec<u8>, Refused>) -> Response
    ensures { response_view result ≡ reading_response text }
{
    match text {
        Ok(text) => Response {
            status: ResponseStatus::Done,
            allow: None,
            body: Body::Text(text),
        },
        Err(refused) => refused_response(&refused),
    }
}

/// The line that tells why a revision has failed, or that there is no memory for it.
pub(crate) fn explanation_response(alloc: Global, told: &Explanation) -> Response
    ensures { IsExplanationTold (Ok told.now) (response_view result) }
{
    match format!(in alloc; "{told}\n") {
        Ok(line) => Response {
            status: ResponseStatus::Done,
            allow: None,
            body: Body::Text(line.into_bytes()),
        },
        Err(_) => failure_response(&Failure::NoMemory),
    }
}

/// What is answered to a command that is accepted.
pub(crate) fn reply_response(reply: Reply) -> Response
    ensures { response_view result ≡ response_of (Ok reply) }
{
    Response {
        status: reply_status(&reply),
        allow: None,
        body: Body::Record(reply.record),
    }
}

/// What is answered to a command.
pub(crate) fn response_of(answer: Result<Reply, Refused>) -> Response
    ensures { response_view result ≡ response_of answer }
{
    match answer {
        Ok(reply) => reply_response(reply),
        Err(refused) => refused_response(&refused),
    }
}
