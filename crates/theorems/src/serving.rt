//! What serves requests, in the words of the laws.
ghost use Rattle.std.specs.Prelude.{◌-◌, ◌<◌, ◌^◌, IfOk, IfSome};
ghost use Rattle.http_api.specs.Connections.{server_state};
ghost use Rattle.theorems.specs.Connections.{HasServedOnce};
ghost use Rattle.theorems.specs.Requests.{ServeReturns};

use crate::sessions::new_database;
use custody::{Custody, InitError};
use custody_machine::Failure;
use http_api::{Api, Clients, ServeError, Served, serve_connections};
use schedule::Sec;
use sqlite::{Alter, MemStore};
use std::alloc::Global;
use std::io::{Read, Write};
use std::time::Clock;
use vault_volume::{MemVolume, Volume};

/// Serves one request: what comes out of it is what the laws speak of.
pub fn serve_one<R: Read, W: Write, V: Volume, S: Alter>(
    api: &Api,
    alloc: Global,
    reader: &mut R,
    writer: &mut W,
    custody: &mut Custody<V, S>,
    now: Sec,
) -> Result<Served, ServeError>
    ensures { IfSome (R.remaining reader.old) (λ input. ServeReturns
        (record { input = input; now = now; before = W.contents writer.old; after = W.contents writer.new })
        custody.old result custody.new) }
{
    api.serve_one(alloc, reader, writer, custody, now)
}

/// Begins a custody over a volume and a new database in memory, and serves clients in so many turns: so
/// what `law_connections` supposes can be met. It fails where the custody does not begin.
pub fn begin_and_serve<K: Clients, C: Clock>(
    alloc: Global,
    clock: &C,
    api: &Api,
    clients: &mut K,
    volume: MemVolume,
    number: u64,
    turns: u32,
    now: Option<Sec>,
) -> Result<Custody<MemVolume, MemStore>, InitError>
    requires { ⟦<MemVolume as Volume>⟧.failures volume < 2 ^ 64 - 1 }
    ensures { IfOk result (λ custody. HasServedOnce volume number now turns (server_state K.Clients clients.old) (server_state K.Clients clients.new) custody) }
{
    let Ok(db) = new_database(alloc) else {
        return Err(InitError::Failure(Failure::NoMemory));
    };
    let mut custody = match Custody::init(alloc, volume, db, number) {
        Ok(custody) => custody,
        Err(failed) => return Err(failed.0),
    };
    let errors = &mut Vec::new(alloc);
    let _ = serve_connections(
        alloc,
        clock,
        api,
        clients,
        turns,
        false,
        &mut custody,
        now,
        errors,
    );
    Ok(custody)
}
