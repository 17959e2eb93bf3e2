//! Connections, one after the other.
ghost use Rattle.std.specs.Prelude.{◌≡◌, ◌⊎◌, ◌≤◌, ℕ, [], length, take, true, Some, None, Err, IfOk, IfErr, IfSome, IfNone, OnOk, OnSome};
ghost use Rattle.custody_machine.specs.declared.answers.Failure.{Failure as failure};
ghost use Rattle.custody.specs.Custody.{failure_of, is_open};
ghost use Rattle.http_api.specs.Clients.{IsOfSocket, LastHasTaken};
ghost use Rattle.http_api.specs.Connections.{AreConnections, ConnectionsEnd, IsConnection, ServiceErrorLeaves, server_state};
ghost use Rattle.http_api.specs.Handling.{IsNoCommand, IsServed};
ghost use Rattle.http_api.specs.Responses.{HttpResponse, response_bytes};

use crate::handling::{respond, write_outcome};
use crate::{Api, Clients, ServeError, Served};
use custody::Custody;
use custody_machine::Failure;
use schedule::Sec;
use sqlite::Alter;
use std::alloc::Global;
use std::fmt;
use std::io::{self, Write};
use std::time::Clock;
use vault_volume::Volume;

/// Why no further connection is served. It prints as its text.
#[derive(Clone, Copy, Debug)]
pub enum ServiceError {
    /// The socket that listens at this port of 127.0.0.1 fails.
    Socket { port: u16, cause: io::Error },
    /// The clock fails, or tells a moment out of range.
    Clock,
    /// The custody is closed by this failure.
    Closed(Failure),
}

impl fmt::Display for ServiceError {
    ghost use Rattle.http_api.specs.Connections.{service_error_text};

    ghost output = { service_error_text };

    fn fmt<W: fmt::Write>(&self, f: &mut fmt::Formatter<W>) -> fmt::Result {
        match self {
            ServiceError::Socket { port, cause } => {
                write!(f, "socket failed: 127.0.0.1:{port}: {cause}")
            }
            ServiceError::Clock => f.write_str("clock failed"),
            ServiceError::Closed(failure) => write!(f, "{failure}"),
        }
    }
}

/// The moment of a connection: the one that is given, or that of the clock.
fn moment_at<C: Clock>(given: &Option<Sec>, clock: &C) -> Result<Sec, ServiceError>
    ensures found { IfOk result (λ now. IfSome given.now (λ moment. now ≡ moment)) }
    ensures failed { IfErr result (λ fault. (fault ≡ ServiceError.Clock) × (given.now ≡ None)) }
{
    match given {
        Some(moment) => Ok(*moment),
        None => Sec::of_clock(clock).ok_or(ServiceError::Clock),
    }
}

/// Serves a client: one request, one response.
fn serve_client<K: Clients, V: Volume, S: Alter>(
    alloc: Global,
    api: &Api,
    clients: &mut K,
    sender: K::Sender,
    custody: &mut Custody<V, S>,
    now: Sec,
) -> Result<Served, ServeError>
    ensures served { OnOk result ((answer : HttpResponse)
        × IsServed (K.Sender.remaining sender) now custody.old answer custody.new
        × LastHasTaken (Some (response_bytes answer)) (K.responses clients.old) (K.responses clients.new)) }
    ensures read_failed { result ≡ Err ServeError.Read
        → IsNoCommand (K.Sender.remaining sender) custody.old custody.new
        × LastHasTaken (Some []) (K.responses clients.old) (K.responses clients.new) }
    ensures write_failed { result ≡ Err ServeError.Write → (answer : HttpResponse)
        × IsServed (K.Sender.remaining sender) now custody.old answer custody.new
        × (taken : ℕ) × (taken ≤ length (response_bytes answer))
        × LastHasTaken (Some (take taken (response_bytes answer))) (K.responses clients.old) (K.responses clients.new) }
    ensures others { K.requests clients.new ≡ K.requests clients.old }
{
    let mut sender = sender;
    let outcome = respond(alloc, &api.routes, &mut sender, custody, now);
    let mut taker = clients.taker(sender);
    let served = write_outcome(custody, outcome, &mut taker);
    clients.end_client(taker, served);
    served
}

/// Lets a client go, if one came.
fn let_go<K: Clients>(clients: &mut K, client: Option<K::Sender>)
    ensures gone { OnSome client (LastHasTaken (Some []) (K.responses clients.old) (K.responses clients.new)) }
    ensures none { IfNone client (clients.new ≡ clients.old) }
    ensures others { K.requests clients.new ≡ K.requests clients.old }
{
    if let Some(sender) = client {
        let taker = clients.taker(sender);
        clients.end_client(taker, Err(ServeError::Read));
    }
}

/// Writes a line where a client was not served.
fn write_failure<E: Write>(served: Result<Served, ServeError>, err: &mut E) {
    if let Err(error) = served {
        let _ = writeln!(err, "{error}");
    }
}

/// Serves the next client, and writes a line where that fails.
fn serve_next<K: Clients, C: Clock, V: Volume, S: Alter, E: Write>(
    alloc: Global,
    clock: &C,
    api: &Api,
    clients: &mut K,
    custody: &mut Custody<V, S>,
    now: &Option<Sec>,
    err: &mut E,
) -> Result<(), ServiceError>
    ensures served { OnOk result (IsConnection now.now (server_state K.Clients clients.old custody.old) (server_state K.Clients clients.new custody.new)) }
    ensures none { IfErr result (λ fault. ServiceErrorLeaves fault (server_state K.Clients clients.old custody.old) (server_state K.Clients clients.new custody.new)) }
    ensures kind { IfErr result (λ fault. IsOfSocket fault ⊎ ((fault ≡ ServiceError.Clock) × (now.now ≡ None))) }
{
    let client = clients.next_client()?;
    let moment = match moment_at(now, clock) {
        Ok(moment) => moment,
        Err(fault) => {
            let_go(clients, client);
            return Err(fault);
        }
    };
    let served = match client {
        Some(sender) => serve_client(alloc, api, clients, sender, custody, moment),
        None => Err(ServeError::Read),
    };
    write_failure(served, err);
    Ok(())
}

/// Serves so many clients, each at its moment: the one that is given, or that of the clock. One that fails
/// is a line among the errors, and counts; so does a turn at which nobody comes. The failure that closes
/// the custody is a line, too; with `until_closed` it is returned instead, and no further client is served.
pub fn serve_connections<K: Clients, C: Clock, V: Volume, S: Alter, E: Write>(
    alloc: Global,
    clock: &C,
    api: &Api,
    clients: &mut K,
    count: u32,
    until_closed: bool,
    custody: &mut Custody<V, S>,
    now: Option<Sec>,
    err: &mut E,
) -> Result<(), ServiceError>
    ensures all { OnOk result (AreConnections now count (server_state K.Clients clients.old custody.old) (server_state K.Clients clients.new custody.new)) }
    // The clock fails only where it is read.
    ensures clock { result ≡ Err ServiceError.Clock → now ≡ None }
    ensures fewer { IfErr result (λ fault. ConnectionsEnd now count fault (server_state K.Clients clients.old custody.old) (server_state K.Clients clients.new custody.new)) }
    // The custody is then closed, by the failure that is returned.
    ensures closed { (why : failure) → result ≡ Err (ServiceError.Closed why) → (until_closed ≡ true) × (failure_of custody.new ≡ Some why) }
    // No error means that none of them has closed it.
    ensures stays_open { until_closed ≡ true → is_open custody.old ≡ true → OnOk result (is_open custody.new ≡ true) }
{
    for _ in 0..count {
        let was_open = custody.failure().is_none();
        serve_next(alloc, clock, api, clients, custody, &now, err)?;
        if let Some(failure) = custody.failure() {
            if until_closed {
                return Err(ServiceError::Closed(failure));
            }
            if was_open {
                let _ = writeln!(err, "{failure}");
            }
        }
    }
    Ok(())
}
