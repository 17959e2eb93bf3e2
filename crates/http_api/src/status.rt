//! The statuses of responses.
ghost use Rattle.std.specs.Prelude.{◌≡◌};
ghost use Rattle.http_api.specs.Statuses.{coded_text};

use custody_machine::HttpStatus;

/// The status of a response (RFC 9110, section 15).
#[derive(Clone, Copy, Debug, PartialEq, Eq)]
pub enum ResponseStatus {
    /// 200: it is done, or was done before.
    Done,
    /// 201: a new record is made.
    Created,
    /// 405: the route has another method.
    MethodNotAllowed,
    /// 411: the length of the body is not told.
    LengthRequired,
    /// 501: the body has a transfer coding.
    NotImplemented,
    /// One that refusals and failures of the agent have too.
    Coded(HttpStatus),
}

impl ResponseStatus {
    ghost use Rattle.std.specs.Prelude.{◌≡◌};
    ghost use Rattle.http_api.specs.Statuses.{status_text};

    /// Its code and its phrase.
    pub fn as_str(self) -> &'static str
        ensures { result.now ≡ status_text self }
    {
        match self {
            ResponseStatus::Done => "200 OK",
            ResponseStatus::Created => "201 Created",
            ResponseStatus::MethodNotAllowed => "405 Method Not Allowed",
            ResponseStatus::LengthRequired => "411 Length Required",
            ResponseStatus::NotImplemented => "501 Not Implemented",
            ResponseStatus::Coded(status) => coded_text(status),
        }
    }
}

fn coded_text(status: HttpStatus) -> &'static str
    ensures { result.now ≡ coded_text status }
{
    match status {
        HttpStatus::BadRequest => "400 Bad Request",
        HttpStatus::NotFound => "404 Not Found",
        HttpStatus::Conflict => "409 Conflict",
        HttpStatus::Gone => "410 Gone",
        HttpStatus::ContentTooLarge => "413 Content Too Large",
        HttpStatus::InternalServerError => "500 Internal Server Error",
        HttpStatus::ServiceUnavailable => "503 Service Unavailable",
        HttpStatus::InsufficientStorage => "507 Insufficient Storage",
    }
}
