//! Examples whose steps are broken off at every place, and then at every place once more.
use crate::fault::ScriptFault;
use crate::files::Files;
use crate::places::{Trace, Way};
use crate::runs::{Difference, Seen, run_over};
use crate::steps::{Step, steps_in};
use sqlite::Connection;
use std::alloc::{AllocError, Global};
use std::io::{self, Write};

/// By what the steps are broken off.
#[derive(Clone, Copy, PartialEq, Eq)]
enum Cause {
    Stop,
    Failure,
}

/// Which of the runs that are broken off twice are made: of so many shares the one at this place.
#[derive(Clone, Copy)]
struct Share {
    at: usize,
    of: usize,
}

impl Share {
    fn has(self, run: usize) -> bool {
        run.checked_rem(self.of) == Some(self.at)
    }
}

/// What the runs came to.
#[derive(Drop)]
struct Tally {
    /// How many runs are broken off once, and how many twice.
    once: usize,
    twice: usize,
    /// How many of these were made.
    made: usize,
    differing: usize,
}

/// Plays such an example. Its first line says which share is played, and the others are the steps. It prints
/// what a run does that is not broken off, and how many others end alike.
pub fn play_everywhere<W: Write>(
    alloc: Global,
    example: &str,
    files: &Files,
    out: &mut W,
) -> Result<(), ScriptFault> {
    for line in example.lines() {
        writeln!(out, "{line}")?;
    }
    let (first, lines) = example.split_once('\n').ok_or(ScriptFault::Line)?;
    let (cause, share) = cause_in(first).ok_or(ScriptFault::Line)?;
    let steps = steps_in(alloc, lines, files)?;
    let tally = try_all(alloc, cause, share, &steps, out)?;
    show(&tally, out)?;
    Ok(())
}

fn cause_in(line: &str) -> Option<(Cause, Share)> {
    let (words, of) = line.rsplit_once(' ')?;
    let (words, number) = words.rsplit_once(' ')?;
    let cause = match words {
        "! stops" => Cause::Stop,
        _ => Cause::Failure,
    };
    let of: usize = of.parse().ok()?;
    let number: usize = number.parse().ok()?;
    let at = number.checked_sub(1)?;
    Some((cause, Share { at, of }))
}

/// One run over a new database.
fn run(alloc: Global, steps: &[Step<'_>], ways: &[Way]) -> Result<Seen, ScriptFault> {
    let db = Connection::open_in_memory(alloc)?;
    run_over(alloc, steps, ways, db)
}

/// The ways in which a session is broken off that would have done this.
fn ways_of(alloc: Global, cause: Cause, trace: &Trace) -> Result<Vec<Way>, AllocError> {
    match cause {
        Cause::Stop => trace.stops(alloc),
        Cause::Failure => trace.failures(alloc),
    }
}

/// Makes the runs.
fn try_all<W: Write>(
    alloc: Global,
    cause: Cause,
    share: Share,
    steps: &[Step<'_>],
    out: &mut W,
) -> Result<Tally, ScriptFault> {
    let mut tally = Tally {
        once: 0,
        twice: 0,
        made: 0,
        differing: 0,
    };
    let whole = run(alloc, steps, &[])?;
    tell_whole(&whole, out)?;
    for way in &ways_of(alloc, cause, &whole.trace)? {
        tally.once = tally.once.saturating_add(1);
        let seen = run(alloc, steps, &[*way])?;
        tell(&seen, &whole, &[*way], &mut tally, out)?;
        try_again(
            alloc,
            way,
            cause,
            share,
            steps,
            &seen.trace,
            &whole,
            &mut tally,
            out,
        )?;
    }
    Ok(tally)
}

/// Makes the runs that are broken off in a second way behind the first.
fn try_again<W: Write>(
    alloc: Global,
    first: &Way,
    cause: Cause,
    share: Share,
    steps: &[Step<'_>],
    trace: &Trace,
    whole: &Seen,
    tally: &mut Tally,
    out: &mut W,
) -> Result<(), ScriptFault> {
    for second in &ways_of(alloc, cause, trace)? {
        let ways = [*first, *second];
        if share.has(tally.twice) {
            tally.made = tally.made.saturating_add(1);
            let seen = run(alloc, steps, &ways)?;
            tell(&seen, whole, &ways, tally, out)?;
        }
        tally.twice = tally.twice.saturating_add(1);
    }
    Ok(())
}

/// Prints what a run does that is not broken off.
fn tell_whole<W: Write>(seen: &Seen, out: &mut W) -> io::Result<()> {
    out.write_all(&seen.state)?;
    let (writes, syncs) = seen.trace.writes_and_syncs();
    let (calls, commits) = (seen.trace.calls, seen.trace.commits.len());
    writeln!(
        out,
        "{calls} calls of the volume: {writes} writes, {syncs} syncs; {commits} commits"
    )?;
    match seen.difference {
        Some(difference) => writeln!(out, "unbroken: {difference}"),
        None => Ok(()),
    }
}

/// Counts a run that ends otherwise than the whole one, and prints how.
fn tell<W: Write>(
    seen: &Seen,
    whole: &Seen,
    ways: &[Way],
    tally: &mut Tally,
    out: &mut W,
) -> io::Result<()> {
    let is_alike = seen.state == whole.state;
    if seen.difference.is_none() && is_alike {
        return Ok(());
    }
    tally.differing = tally.differing.saturating_add(1);
    for way in ways {
        write!(out, "after {way}: ")?;
    }
    match seen.difference {
        Some(difference) => writeln!(out, "{difference}"),
        None => writeln!(out, "another state in the end"),
    }
}

fn show<W: Write>(tally: &Tally, out: &mut W) -> io::Result<()> {
    let Tally {
        once,
        twice,
        made,
        differing,
    } = tally;
    writeln!(
        out,
        "broken off once: {once} runs; twice: {made} of {twice} runs; {differing} end otherwise"
    )?;
    writeln!(out)
}
