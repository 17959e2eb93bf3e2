//! Why a request asks nothing of the agent.
ghost use Rattle.std.specs.Prelude.{◌≡◌};
ghost use Rattle.http_request.specs.declared.errors.RequestError.TheVariants as error;

use crate::RequestFault;
use std::alloc::AllocError;
use std::io;

/// Why a request asks nothing of the agent.
#[derive(Clone, Copy, Debug, PartialEq, Eq)]
pub enum RequestError {
    /// The reader failed.
    Unread,
    /// Memory was refused.
    NoMemory,
    /// The request has this fault.
    Fault(RequestFault),
}

impl From<io::Error> for RequestError {
    ghost from_gives = { λ _ e. e ≡ error.Unread };

    fn from(_error: io::Error) -> RequestError {
        RequestError::Unread
    }
}

impl From<AllocError> for RequestError {
    ghost from_gives = { λ _ e. e ≡ error.NoMemory };

    fn from(_error: AllocError) -> RequestError {
        RequestError::NoMemory
    }
}

impl From<RequestFault> for RequestError {
    ghost from_gives = { λ fault e. e ≡ error.Fault fault };

    fn from(fault: RequestFault) -> RequestError {
        RequestError::Fault(fault)
    }
}
