//! The head of a request, from a reader.
ghost use Rattle.std.specs.Prelude.{IfOk, IfErr, IfSome};
ghost use Rattle.std.specs.Io.KnownBytes.{Consumes};
ghost use Rattle.http_request.specs.Head.{IsHeadOf};
ghost use Rattle.http_request.specs.Errors.{IsRequestError};

use crate::{RequestError, RequestFault};
use httparse::Status;
use httparse::spans::{EMPTY_HEADER_SPAN, HeaderSpan, RequestSpans, parse_request};
use std::alloc::Global;
use std::io::Read;

/// The most bytes that a head may have.
const MAX_HEAD_LEN: usize = 8192;

/// The bytes of a request as far as they were read, and where the parts of the head at their front are.
#[derive(Drop)]
pub struct Head {
    pub(crate) bytes: Vec<u8>,
    pub(crate) headers: [HeaderSpan; 32],
    pub(crate) spans: RequestSpans,
}

impl Head {
    ghost use Rattle.std.specs.Prelude.{◌≡◌};
    ghost use Rattle.http_request.specs.Head.{IsHeadOf, rest_of};

    /// The bytes that were read behind it.
    pub fn rest(&self) -> &[u8]
        requires { IsHeadOf self.now }
        ensures { result.now ≡ rest_of self.now }
    {
        &self.bytes[self.spans.len..]
    }
}

/// Reads the head of a request: as long as none has come and one can come.
pub fn read_head<R: Read>(alloc: Global, reader: &mut R) -> Result<Head, RequestError>
    ensures found { IfOk result (λ head. Consumes (R.remaining reader.old) (R.remaining reader.new) head.bytes.items × IsHeadOf head) }
    ensures error { IfErr result (λ error. IfSome (R.remaining reader.old) (λ input. IsRequestError input error)) }
{
    let mut headers = [EMPTY_HEADER_SPAN; 32];
    let mut bytes: Vec<u8> = Vec::new(alloc);
    let mut piece = [0u8; 1024];
    while bytes.len() < MAX_HEAD_LEN {
        let room = (MAX_HEAD_LEN - bytes.len()).min(1024);
        let count = reader.read(&mut piece[..room])?;
        if count == 0 {
            return Err(RequestError::Fault(RequestFault::Head));
        }
        bytes.extend_from_slice(&piece[..count])?;
        match parse_request(bytes.as_slice(), &mut headers) {
            Ok(Status::Complete(spans)) => {
                return Ok(Head {
                    bytes,
                    headers,
                    spans,
                });
            }
            Ok(Status::Partial) => {}
            Err(_) => return Err(RequestError::Fault(RequestFault::Head)),
        }
    }
    Err(RequestError::Fault(RequestFault::Head))
}
