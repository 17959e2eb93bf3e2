//! Sessions, and openings over what a stop has left of them: the calls that the headline is about.
use crate::clients::{NoClock, print_responses};
use crate::fault::ScriptFault;
use crate::stopping::BLOCK;
use custody::{Custody, Refused, Reply};
use custody_machine::Command;
use deposit_name::Tld;
use desk::NoticeKind;
use http_api::{Api, MemClients};
use schedule::{Day, Sec, read_day, read_moment};
use sqlite::{Alter, Connection};
use std::alloc::Global;
use std::io::{self, Write};
use theorems::begin_and_serve;
use theorems::sessions::{begin_run_and_reopen, live_once, new_database, open_run_and_reopen};
use vault_volume::{MemVolume, Volume};

const BLOCKS: u32 = 8;

const NAME: &[u8] = b"example_2026-08-02_full_S1_R0.ryde";

const REGISTRATION: &[u8] =
    b"PUT /registries/example HTTP/1.1\r\nContent-Length: 22\r\n\r\n{\"first\":\"2026-08-02\"}";

const CUT_OFF: &[u8] = b"PUT /dep";

/// A registry with its first day, and a moment.
fn registry() -> Option<(Tld, Day, Sec)> {
    let tld = Tld::parse(b"example")?;
    let first_day = read_day(b"2026-08-01")?;
    let now = read_moment(b"2026-08-02T10:00:00Z")?;
    Some((tld, first_day, now))
}

/// What is left of a vault that was begun over a database, and whose commands were done.
fn after<S: Alter + Drop>(
    alloc: Global,
    db: Connection<S>,
    commands: &[(Command<'_>, Sec)],
) -> Result<(MemVolume, Connection<S>), ScriptFault> {
    let volume = MemVolume::new(alloc, BLOCKS, 64, 16)?;
    match Custody::init(alloc, volume, db, 1) {
        Ok(mut custody) => {
            let _answers = custody.run(alloc, commands)?;
            Ok(custody.close())
        }
        Err(_) => Err(ScriptFault::Line),
    }
}

fn show<W: Write>(
    answers: &[Result<Reply, Refused>],
    free: Option<u32>,
    out: &mut W,
) -> io::Result<()> {
    let _kind: Option<NoticeKind> = None;
    for answer in answers {
        match answer {
            Ok(_) => write!(out, " done;")?,
            Err(refused) => write!(out, " {refused};")?,
        }
    }
    match free {
        Some(free) => writeln!(out, " open again, {free} free"),
        None => writeln!(out, " closed"),
    }
}

/// A session through a stop at a call of the volume, where the stop leaves a database in which so many
/// of the commands were done. The two databases are new.
fn show_stop<S: Alter + Drop, W: Write>(
    alloc: Global,
    stop: u64,
    found: usize,
    db: Connection<S>,
    left: Connection<S>,
    out: &mut W,
) -> Result<(), ScriptFault> {
    let (tld, first_day, now) = registry().ok_or(ScriptFault::Line)?;
    let commands = [
        (Command::Register(tld, first_day), now),
        (Command::Receive(NAME, b"hello"), now),
    ];
    let (mut volume, db) = after(alloc, db, &[])?;
    let (_, left) = after(alloc, left, commands.get(..found).unwrap_or(&[]))?;
    volume.stop_at(stop);
    if volume.failures() > 9 {
        return Err(ScriptFault::Line);
    }
    let fill = vec![in alloc; 255u8; BLOCK * BLOCKS as usize]?;
    write!(out, "stop at call {stop}:")?;
    let shown = match open_run_and_reopen(alloc, volume, db, &commands, &fill, left) {
        Ok(it) => show(&it.answers, it.custody.room().ok().map(|room| room.0), out),
        Err(fault) => writeln!(out, " {fault}"),
    };
    Ok(shown?)
}

/// A session from the beginning of a vault on.
fn show_whole<W: Write>(alloc: Global, out: &mut W) -> Result<(), ScriptFault> {
    let (tld, first_day, now) = registry().ok_or(ScriptFault::Line)?;
    let commands = [
        (Command::Register(tld, first_day), now),
        (Command::Receive(NAME, b"hello"), now),
    ];
    let volume = MemVolume::new(alloc, BLOCKS, 64, 16)?;
    let fill = vec![in alloc; 255u8; BLOCK * BLOCKS as usize]?;
    write!(out, "from the beginning:")?;
    let shown = match begin_run_and_reopen(alloc, volume, 1, &commands, &fill) {
        Ok(it) => show(&it.answers, it.custody.room().ok().map(|room| room.0), out),
        Err(error) => writeln!(out, " {error}"),
    };
    Ok(shown?)
}

/// A life of one command, a stop and an opening.
fn show_life<W: Write>(alloc: Global, out: &mut W) -> Result<(), ScriptFault> {
    let (tld, first_day, now) = registry().ok_or(ScriptFault::Line)?;
    let volume = MemVolume::new(alloc, BLOCKS, 64, 16)?;
    let fill = vec![in alloc; 255u8; BLOCK * BLOCKS as usize]?;
    write!(out, "a life:")?;
    let command = Command::Register(tld, first_day);
    let shown = match live_once(alloc, volume, 1, &command, now, &fill) {
        Ok(custody) => show(&[], custody.room().ok().map(|room| room.0), out),
        Err(error) => writeln!(out, " {error}"),
    };
    Ok(shown?)
}

/// A service of three turns: a registration, a request whose head is cut off, and nobody.
fn show_service<W: Write>(alloc: Global, out: &mut W) -> Result<(), ScriptFault> {
    let api = Api::new(alloc)?;
    let requests = [REGISTRATION, CUT_OFF];
    let mut clients = MemClients::new(alloc, &requests)?;
    let volume = MemVolume::new(alloc, BLOCKS, 64, 16)?;
    let now = read_moment(b"2026-08-02T09:00:00Z");
    writeln!(out, "a service:")?;
    let served = begin_and_serve(alloc, &NoClock, &api, &mut clients, volume, 1, 3, now);
    if let Err(error) = served {
        writeln!(out, "{error}")?;
    }
    Ok(print_responses(&clients, out)?)
}

/// Prints the sessions. A beginning makes two calls, an opening one and a part two.
pub fn show_sessions<W: Write>(alloc: Global, out: &mut W) -> Result<(), ScriptFault> {
    writeln!(out, "! sessions")?;
    show_stop(alloc, 3, 1, new_database(alloc)?, new_database(alloc)?, out)?;
    show_stop(
        alloc,
        60,
        2,
        new_database(alloc)?,
        new_database(alloc)?,
        out,
    )?;
    show_whole(alloc, out)?;
    show_life(alloc, out)?;
    show_service(alloc, out)?;
    writeln!(out)?;
    Ok(())
}
