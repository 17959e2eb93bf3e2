//! Clients in memory, served one after the other.
use crate::fault::ScriptFault;
use crate::requests::{MOMENT, text_of};
use crate::vault::Vault;
use custody::Custody;
use http_api::{Api, MemClients, serve_connections};
use schedule::read_moment;
use sqlite::Alter;
use std::alloc::Global;
use std::io::{self, Write};
use std::time::{Clock, Duration};
use vault_volume::Volume;

/// A clock that fails: the moment of each client is given.
#[derive(Drop)]
pub struct NoClock;

impl Clock for NoClock {
    fn monotonic(&self) -> io::Result<Duration> {
        Err(io::ErrorKind::Unsupported.into())
    }

    fn since_1970(&self) -> io::Result<Duration> {
        Err(io::ErrorKind::Unsupported.into())
    }
}

/// Serves clients in so many turns, and prints what each has taken. In the words their requests stand
/// behind the number, with ` | ` between them.
pub fn serve_clients<S: Alter + Drop, W: Write>(
    alloc: Global,
    words: &str,
    vault: Vault<S>,
    out: &mut W,
) -> Result<Vault<S>, ScriptFault> {
    let (number, text) = words.split_once(' ').unwrap_or((words, ""));
    let turns: u32 = number.parse().ok().ok_or(ScriptFault::Line)?;
    let text = text_of(alloc, text)?;
    let mut requests = Vec::new(alloc);
    for request in text.as_str().split(" | ") {
        requests.push(request.as_bytes())?;
    }
    match vault.open(alloc)? {
        Ok(mut custody) => {
            print_turns(alloc, turns, requests.as_slice(), &mut custody, out)?;
            Ok(Vault::Open(custody))
        }
        Err((fault, volume, db)) => {
            writeln!(out, "{fault}")?;
            Ok(Vault::Closed(volume, db))
        }
    }
}

fn print_turns<'r, V: Volume, S: Alter, W: Write>(
    alloc: Global,
    turns: u32,
    requests: &'r [&'r [u8]],
    custody: &mut Custody<V, S>,
    out: &mut W,
) -> Result<(), ScriptFault> {
    let api = Api::new(alloc)?;
    let now = read_moment(MOMENT);
    let mut clients = MemClients::new(alloc, requests)?;
    let served = serve_connections(
        alloc,
        &NoClock,
        &api,
        &mut clients,
        turns,
        false,
        custody,
        now,
        out,
    );
    if let Err(fault) = served {
        writeln!(out, "{fault}")?;
    }
    Ok(print_responses(&clients, out)?)
}

/// Prints what each client has taken.
pub fn print_responses<W: Write>(clients: &MemClients<'_>, out: &mut W) -> io::Result<()> {
    for response in clients.responses() {
        writeln!(out, "{}", response.as_slice().escape_ascii())?;
    }
    Ok(())
}
