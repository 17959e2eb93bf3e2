//! The clients of a service.
ghost use Rattle.std.specs.Prelude.{◌≡◌, [], Some, IfOk, IfErr, IfSome, IfNone, OnErr, OnSome};
ghost use Rattle.http_api.specs.Clients.{FirstComes, GainsResponse, IsNobodyLeft, IsOfSocket, LastHasTaken};

use crate::{ServeError, Served, ServiceError};
use std::io::{Read, Write};

/// The clients of a service, one after the other: each sends a request and takes a response. Senders and
/// takers need not be `Drop`: a service of any clients ends each that comes.
pub trait Clients {
    ghost use Rattle.std.specs.Prelude.{ℕ, List, Option};

    /// A client that sends its request.
    type Sender: Read;

    /// The same client, once its request is read.
    type Taker: Write;

    /// The requests of the clients that are still to come, where they are known.
    ghost requests: { Self → Option (List (List ℕ)) };

    /// What each client that came has taken, where it is known.
    ghost responses: { Self → Option (List (List ℕ)) };

    /// The next client, if one is there.
    fn next_client(&mut self) -> Result<Option<Self::Sender>, ServiceError>
        ensures comes { IfOk result (λ client. IfSome client (λ sender. FirstComes (Self.Sender.remaining sender) (requests self.old) (requests self.new))) }
        ensures begins { IfOk result (λ client. OnSome client (GainsResponse [] (responses self.old) (responses self.new))) }
        ensures nobody { IfOk result (λ client. IfNone client (IsNobodyLeft (requests self.old) × (requests self.new ≡ requests self.old) × (responses self.new ≡ responses self.old))) }
        ensures failed { OnErr result ((requests self.new ≡ requests self.old) × (responses self.new ≡ responses self.old)) }
        ensures kind { IfErr result IsOfSocket };

    /// The client as it takes its response.
    fn taker(&self, sender: Self::Sender) -> Self::Taker
        ensures { IfSome (responses self.now) (λ _. Self.Taker.contents result ≡ Some []) };

    /// Ends a client that was served so.
    fn end_client(&mut self, taker: Self::Taker, served: Result<Served, ServeError>)
        ensures taken { LastHasTaken (Self.Taker.contents taker) (responses self.old) (responses self.new) }
        ensures others { requests self.new ≡ requests self.old };
}
