//! A response that is cut after each number of its bytes, each time by a new vault.
use crate::BLOCKS;
use crate::example::play;
use crate::fault::ScriptFault;
use crate::files::Files;
use crate::plain_comparison::Plain;
use crate::requests::{AMPLE, Exchange, Sender, exchange, print_taken, request_in};
use crate::vault::Vault;
use custody::Custody;
use http_api::{Api, ServeError, Served};
use sqlite::{Alter, Connection};
use std::alloc::Global;
use std::io::Write;
use vault_volume::{MemVolume, Volume};

/// A request, and the lines that are played before it.
#[derive(Clone, Copy)]
struct Scene<'a> {
    lines: &'a str,
    bytes: &'a [u8],
    size: usize,
}

/// What came of a request, and of the same request once more.
#[derive(Drop)]
struct Twice {
    first: Exchange,
    second: Exchange,
}

/// Plays such an example. Its first line has the request, and the others are played before it. It prints
/// the responses to the request and to its repeat, and then how often a cut left the beginning of the
/// first and was followed by the second.
pub fn play_cuts<W: Write>(
    alloc: Global,
    example: &str,
    files: &mut Files,
    out: &mut W,
) -> Result<(), ScriptFault> {
    let (line, lines) = example.split_once('\n').ok_or(ScriptFault::Line)?;
    writeln!(out, "{line}")?;
    let words = line.strip_prefix("! cuts_anew ");
    let (size, bytes) = request_in(alloc, words.ok_or(ScriptFault::Line)?, files)?;
    let scene = Scene {
        lines,
        bytes: &bytes,
        size,
    };
    let whole = ask_anew(alloc, &scene, AMPLE, files, out)?;
    print_taken(&whole.first.0, &whole.first.1, out)?;
    print_taken(&whole.second.0, &whole.second.1, out)?;
    cut_everywhere(alloc, &scene, &whole, files, out)
}

/// Cuts the response after each number of its bytes, and prints what came of it.
fn cut_everywhere<W: Write>(
    alloc: Global,
    scene: &Scene<'_>,
    whole: &Twice,
    files: &mut Files,
    out: &mut W,
) -> Result<(), ScriptFault> {
    let response = whole.first.1.as_slice();
    let (mut begun, mut kept) = (0usize, 0usize);
    for room in 0..response.len() {
        let Twice { first, second } = ask_anew(alloc, scene, room, files, &mut Vec::new(alloc))?;
        if first.0 == Err(ServeError::Write) && first.1.as_slice() == &response[..room] {
            begun = begun.saturating_add(1);
        }
        if second.0 == Ok(Served) && second.1 == whole.second.1 {
            kept = kept.saturating_add(1);
        }
    }
    let times = response.len();
    write!(out, "{begun} of {times} times write failed; ")?;
    writeln!(out, "{kept} of {times} times the repeat was answered so")?;
    writeln!(out)?;
    Ok(())
}

/// Plays the lines over a new volume and a new database, and sends the request twice. Of the first
/// response so many bytes are taken.
fn ask_anew<W: Write>(
    alloc: Global,
    scene: &Scene<'_>,
    room: usize,
    files: &mut Files,
    out: &mut W,
) -> Result<Twice, ScriptFault> {
    let db = Connection::open_in_memory(alloc)?;
    ask_over(alloc, scene, room, files, db, out)
}

fn ask_over<S: Alter + Drop, W: Write>(
    alloc: Global,
    scene: &Scene<'_>,
    room: usize,
    files: &mut Files,
    db: Connection<S>,
    out: &mut W,
) -> Result<Twice, ScriptFault> {
    let volume = MemVolume::new(alloc, BLOCKS, 400, 16)?;
    let mut plain = Plain::new(alloc);
    let vault = Vault::Closed(volume, db);
    let vault = play(alloc, scene.lines, files, vault, &mut plain, out)?;
    match vault.open(alloc)? {
        Ok(custody) => {
            let mut custody = custody;
            ask_twice(alloc, scene, room, &mut custody)
        }
        Err(_) => Err(ScriptFault::Line),
    }
}

fn ask_twice<V: Volume, S: Alter>(
    alloc: Global,
    scene: &Scene<'_>,
    room: usize,
    custody: &mut Custody<V, S>,
) -> Result<Twice, ScriptFault> {
    let Ok(api) = Api::new(alloc) else {
        return Err(ScriptFault::NoMemory);
    };
    let Scene { bytes, size, .. } = *scene;
    let first = exchange(alloc, &api, custody, Sender::of(bytes, size), room)?;
    let second = exchange(alloc, &api, custody, Sender::of(bytes, size), AMPLE)?;
    Ok(Twice { first, second })
}
