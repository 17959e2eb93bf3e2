//! Examples over a database in two files in memory, whose machine stops.
use crate::databases::{ALL, Calls, Database, files_of, left_of, open_files};
use crate::example::play_closed;
use crate::fault::ScriptFault;
use crate::files::Files;
use crate::plain_comparison::Plain;
use std::alloc::Global;
use std::io::Write;
use vault_volume::MemVolume;

/// What a line begins with by which the database comes back.
const LOG: &str = "\n! log ";

/// Plays an example, whose lines `! log` say how the database comes back, and how many calls of its
/// two files are answered from then on.
pub fn play_on_disk<W: Write>(
    alloc: Global,
    example: &str,
    files: &mut Files,
    out: &mut W,
) -> Result<(), ScriptFault> {
    match play_pieces(alloc, example, files, &mut Plain::new(alloc), out) {
        Err(ScriptFault::Unopened) => writeln!(out, "the database does not open\n")?,
        played => {
            played?;
            writeln!(out)?;
        }
    }
    Ok(())
}

/// Plays the pieces of an example, each but the first after a coming back of the database.
fn play_pieces<W: Write>(
    alloc: Global,
    example: &str,
    files: &mut Files,
    plain: &mut Plain,
    out: &mut W,
) -> Result<(), ScriptFault> {
    let (first, rest) = example.split_once(LOG).ok_or(ScriptFault::Line)?;
    let volume = MemVolume::new(alloc, 8, 400, 16)?;
    let db = open_files(alloc, &[], &[], ALL)?;
    let mut left = play_piece(alloc, first, files, volume, db, plain, out)?;
    for piece in rest.split(LOG) {
        let (words, lines) = piece.split_once('\n').unwrap_or((piece, ""));
        let (volume, db) = left;
        let db = back(alloc, words, db, out)?;
        left = play_piece(alloc, lines, files, volume, db, plain, out)?;
    }
    Ok(())
}

fn play_piece<W: Write>(
    alloc: Global,
    lines: &str,
    files: &mut Files,
    volume: MemVolume,
    db: Database,
    plain: &mut Plain,
    out: &mut W,
) -> Result<(MemVolume, Database), ScriptFault> {
    play_closed(alloc, lines, files, volume, db, plain, out)
}

/// The database that comes back.
fn back<W: Write>(
    alloc: Global,
    words: &str,
    db: Database,
    out: &mut W,
) -> Result<Database, ScriptFault> {
    let (how, calls) = words.split_once(' ').unwrap_or((words, ""));
    let files = files_of(db, how)?;
    writeln!(out, "! log {words}")?;
    let (log, db) = left_of(alloc, files, how)?;
    open_files(alloc, &log, &db, calls_in(calls))
}

/// How many calls are answered: all where no number stands.
fn calls_in(words: &str) -> Calls {
    let (log, db) = words.split_once(' ').unwrap_or((words, ""));
    Calls {
        log: log.parse().unwrap_or(u64::MAX),
        db: db.parse().unwrap_or(u64::MAX),
    }
}
