//! The body of a request, from a reader.
ghost use Rattle.std.specs.Prelude.{◌++◌, IfOk, IfErr, IfSome};
ghost use Rattle.http_request.specs.Body.{IsDeclaredBody};
ghost use Rattle.http_request.specs.Errors.{IsBodyError};

use crate::{RequestError, RequestFault};
use std::alloc::Global;
use std::io::Read;

/// Reads the body of which so many bytes are declared, behind those that were read with the head.
pub fn read_body<R: Read>(
    alloc: Global,
    reader: &mut R,
    front: &[u8],
    declared: Option<u64>,
) -> Result<Vec<u8>, RequestError>
    ensures found { IfOk result (λ body. IfSome (R.remaining reader.old) (λ rest. IsDeclaredBody (front.now ++ rest) declared body.items)) }
    ensures error { IfErr result (λ error. IfSome (R.remaining reader.old) (λ rest. IsBodyError (front.now ++ rest) declared error)) }
{
    let Some(length) = declared else {
        return Ok(Vec::new(alloc));
    };
    let wanted = length as usize;
    let mut body: Vec<u8> = Vec::new(alloc);
    body.extend_from_slice(&front[..wanted.min(front.len())])?;
    let mut piece = [0u8; 1024];
    while body.len() < wanted {
        let room = (wanted - body.len()).min(1024);
        let count = reader.read(&mut piece[..room])?;
        if count == 0 {
            return Err(RequestError::Fault(RequestFault::BodyShort));
        }
        body.extend_from_slice(&piece[..count])?;
    }
    Ok(body)
}
