//! Runs of the same steps, each broken off otherwise: all of them are to end alike.
use crate::fault::ScriptFault;
use crate::output::Printed;
use crate::places::{Place, Trace, Way};
use crate::plain_comparison::Plain;
use crate::steps::Step;
use crate::stopping::{Filling, Script, Stopping};
use agent_cli::{Deed, act};
use answer_lines::tell_answer;
use custody::{Custody, Refused, Reply, Silent};
use custody_machine::{Command, Failure};
use deposit_name::Reference;
use schedule::Sec;
use sqlite::{Alter, Connection};
use std::alloc::Global;
use std::fmt;
use vault_volume::Volume;

/// How many blocks the volume of a run has.
const BLOCKS: u32 = 8;

/// What a run does that it is not to do.
#[derive(Clone, Copy, PartialEq, Eq)]
pub enum Difference {
    /// A vault does not open.
    Opening(Failure),
    /// Other records are found than those of the commands that were committed.
    Records,
    /// A part has other bytes than it was received with.
    Bytes,
    /// A step is answered otherwise than by the plain program.
    Answer,
    /// A step fails, or fails otherwise than by the volume's failure and then by a closed vault.
    Failure(Failure),
    /// Nothing breaks the session off.
    Unbroken,
    /// A call is answered after a failure.
    NotClosed,
}

/// What a run has shown.
#[derive(Drop)]
pub struct Seen {
    pub difference: Option<Difference>,
    /// What its last session has done, which was not broken off.
    pub trace: Trace,
    /// What `state` prints in the end.
    pub state: Vec<u8>,
}

impl Seen {
    fn differs(&mut self, difference: Difference) {
        self.difference = self.difference.or(Some(difference));
    }
}

/// A closed vault.
#[derive(Drop)]
struct Machine<S: Alter + Drop> {
    volume: Stopping,
    db: Connection<S>,
}

/// An opening: the custody, or why there is none.
type Opened<S> = Result<Custody<Stopping, S>, (Failure, Stopping, Connection<S>)>;

impl<S: Alter + Drop> Machine<S> {
    /// A vault that is begun over a new database.
    fn begin(alloc: Global, db: Connection<S>) -> Result<Machine<S>, ScriptFault> {
        match Custody::init(alloc, Stopping::new(alloc, BLOCKS)?, db, 1) {
            Ok(custody) => Ok(Machine::closed(custody)),
            Err(_) => Err(ScriptFault::Line),
        }
    }

    fn closed(custody: Custody<Stopping, S>) -> Machine<S> {
        let (volume, db) = custody.close();
        Machine { volume, db }
    }

    fn open(self, alloc: Global) -> Result<Opened<S>, ScriptFault> {
        if self.volume.failures() > 99 {
            return Err(ScriptFault::Line);
        }
        Ok(Custody::open(alloc, self.volume, self.db))
    }
}

/// How a session may end.
#[derive(Clone, Copy, PartialEq, Eq)]
enum Ending {
    Whole,
    /// A call of its volume fails.
    Broken,
    /// Its purge fails, since it cannot begin a transaction within the one that is open.
    LostPurge,
}

/// Begins a vault over a new database, and does the steps, broken off in each of these ways in turn:
/// after each the vault is opened again, and the steps are done anew from the first on. The last time
/// they are done to their end.
pub fn run_over<S: Alter + Drop>(
    alloc: Global,
    steps: &[Step<'_>],
    ways: &[Way],
    db: Connection<S>,
) -> Result<Seen, ScriptFault> {
    let mut plain = Plain::new(alloc);
    let mut seen = Seen {
        difference: None,
        trace: Trace::new(alloc),
        state: Vec::new(alloc),
    };
    let mut machine = Machine::begin(alloc, db)?;
    for way in ways {
        machine = break_off(alloc, steps, way, machine, &mut plain, &mut seen)?;
        machine = look(alloc, machine, &plain, &mut seen)?;
    }
    finish(alloc, steps, machine, &mut plain, &mut seen)?;
    Ok(seen)
}

/// A session that is broken off, and what a restart leaves of it.
fn break_off<S: Alter + Drop>(
    alloc: Global,
    steps: &[Step<'_>],
    way: &Way,
    machine: Machine<S>,
    plain: &mut Plain,
    seen: &mut Seen,
) -> Result<Machine<S>, ScriptFault> {
    let mut machine = machine;
    machine.volume.follow(Script::Answers);
    let mut machine = match way.place {
        Place::Change { after, is_within } => {
            machine.volume.follow(Script::Stops { after, is_within });
            session(alloc, steps, Ending::Broken, machine, plain, seen)?
        }
        Place::Call { number } => {
            machine.volume.fail(alloc, number)?;
            session(alloc, steps, Ending::Broken, machine, plain, seen)?
        }
        Place::Commit { step, is_kept } => {
            let (before, rest) = steps.split_at_checked(step).ok_or(ScriptFault::Line)?;
            let step = rest.get(..1).ok_or(ScriptFault::Line)?;
            let machine = session(alloc, before, Ending::Whole, machine, plain, seen)?;
            if is_kept {
                session(alloc, step, Ending::Whole, machine, plain, seen)?
            } else {
                lose(alloc, step, machine, seen)?
            }
        }
    };
    machine.volume.restart(alloc, way.filling)?;
    Ok(machine)
}

/// A step whose rows are lost, as they are where the machine stops before they are committed.
fn lose<S: Alter + Drop>(
    alloc: Global,
    step: &[Step<'_>],
    machine: Machine<S>,
    seen: &mut Seen,
) -> Result<Machine<S>, ScriptFault> {
    let mut machine = machine;
    let mut apart = Plain::new(alloc);
    apart.leave();
    let ending = match step {
        [step] if is_purge(alloc, step) => Ending::LostPurge,
        _ => Ending::Whole,
    };
    machine.db.execute_batch("BEGIN")?;
    let mut machine = session(alloc, step, ending, machine, &mut apart, seen)?;
    machine.db.execute_batch("ROLLBACK")?;
    Ok(machine)
}

fn is_purge(alloc: Global, step: &Step<'_>) -> bool {
    matches!(step.command(alloc), Some((Command::Purge, _)))
}

/// A session of some steps.
fn session<S: Alter + Drop>(
    alloc: Global,
    steps: &[Step<'_>],
    ending: Ending,
    machine: Machine<S>,
    plain: &mut Plain,
    seen: &mut Seen,
) -> Result<Machine<S>, ScriptFault> {
    match machine.open(alloc)? {
        Ok(custody) => {
            let mut custody = custody;
            serve(alloc, steps, ending, &mut custody, plain, seen)?;
            Ok(Machine::closed(custody))
        }
        Err((fault, volume, db)) => {
            if ending != Ending::Broken || fault != Failure::VolumeFailed {
                seen.differs(Difference::Opening(fault));
            }
            Ok(Machine { volume, db })
        }
    }
}

/// Does steps, and notes those that are committed.
fn serve<V: Volume, S: Alter>(
    alloc: Global,
    steps: &[Step<'_>],
    ending: Ending,
    custody: &mut Custody<V, S>,
    plain: &mut Plain,
    seen: &mut Seen,
) -> Result<(), ScriptFault> {
    seen.trace.commits.clear();
    let mut wanted = match ending {
        Ending::LostPurge => Failure::StoreFailed,
        Ending::Whole | Ending::Broken => Failure::VolumeFailed,
    };
    for (number, step) in steps.iter().enumerate() {
        let Some((command, now)) = step.command(alloc) else {
            return Err(ScriptFault::Line);
        };
        match answer(alloc, &command, now, custody, plain, seen)? {
            Ok(is_committed) => {
                if is_committed {
                    seen.trace.commits.push(number)?;
                }
            }
            Err(failure) => {
                if ending == Ending::Whole || failure != wanted {
                    seen.differs(Difference::Failure(failure));
                }
                wanted = Failure::Closed;
            }
        }
    }
    if wanted == Failure::Closed {
        if !is_closed(alloc, custody)? {
            seen.differs(Difference::NotClosed);
        }
    } else if ending != Ending::Whole {
        seen.differs(Difference::Unbroken);
    }
    Ok(())
}

/// Does a step, and beside it the plain program. The answer is whether it was committed, or the failure.
fn answer<V: Volume, S: Alter>(
    alloc: Global,
    command: &Command<'_>,
    now: Sec,
    custody: &mut Custody<V, S>,
    plain: &mut Plain,
    seen: &mut Seen,
) -> Result<Result<bool, Failure>, ScriptFault> {
    let answer = custody.apply(alloc, command, now);
    if let Err(Refused::Failure(failure)) = answer {
        return Ok(Err(failure));
    }
    let mut printed = Printed::new(alloc)?;
    printed.status = tell_answer(&answer, &mut printed.out, &mut printed.err);
    let told = printed.err.len();
    plain.follow(alloc, command, now, &mut printed)?;
    if printed.err.len() != told {
        seen.differs(Difference::Answer);
    }
    Ok(Ok(is_committed(&answer)))
}

fn is_committed(answer: &Result<Reply, Refused>) -> bool {
    match answer {
        Ok(reply) => !reply.is_repeat,
        Err(_) => false,
    }
}

/// Whether each call but closing says that it is closed.
fn is_closed<V: Volume, S: Alter>(
    alloc: Global,
    custody: &mut Custody<V, S>,
) -> Result<bool, ScriptFault> {
    let reference = Reference::parse(b"R-1").ok_or(ScriptFault::Line)?;
    let mut bytes = Vec::new(alloc);
    let fetched = custody.fetch(alloc, &reference, b"", &mut bytes);
    let audited = custody.audit(alloc, &mut Silent);
    Ok(
        fetched == Err(Refused::Failure(Failure::Closed))
            && matches!(audited, Err(Failure::Closed))
            && matches!(custody.records(), Err(Failure::Closed))
            && custody.room() == Err(Failure::Closed),
    )
}

/// Opens a vault after a stop, and looks whether it keeps what the plain program keeps, byte for byte.
fn look<S: Alter + Drop>(
    alloc: Global,
    machine: Machine<S>,
    plain: &Plain,
    seen: &mut Seen,
) -> Result<Machine<S>, ScriptFault> {
    match machine.open(alloc)? {
        Ok(custody) => {
            let mut custody = custody;
            compare(alloc, &mut custody, plain, seen);
            Ok(Machine::closed(custody))
        }
        Err((fault, volume, db)) => {
            seen.differs(Difference::Opening(fault));
            Ok(Machine { volume, db })
        }
    }
}

/// Compares the records with those of the plain program, and the bytes of the parts with their digests.
fn compare<V: Volume, S: Alter>(
    alloc: Global,
    custody: &mut Custody<V, S>,
    plain: &Plain,
    seen: &mut Seen,
) {
    match custody.records() {
        Ok(records) if plain.keeps(records) => {}
        _ => seen.differs(Difference::Records),
    }
    match custody.audit(alloc, &mut Silent) {
        Ok(damaged) if damaged.is_empty() => {}
        _ => seen.differs(Difference::Bytes),
    }
}

/// The last session: all steps, and then the state is printed.
fn finish<S: Alter + Drop>(
    alloc: Global,
    steps: &[Step<'_>],
    machine: Machine<S>,
    plain: &mut Plain,
    seen: &mut Seen,
) -> Result<(), ScriptFault> {
    let mut machine = machine;
    machine.volume.follow(Script::Answers);
    let mut machine = session(alloc, steps, Ending::Whole, machine, plain, seen)?;
    seen.trace.calls = machine.volume.calls();
    seen.trace.changes = Vec::from_slice(alloc, machine.volume.changes())?;
    machine.volume.restart(alloc, Filling::Ones)?;
    let machine = look(alloc, machine, plain, seen)?;
    match machine.open(alloc)? {
        Ok(custody) => show_state(alloc, custody, seen),
        Err((fault, _volume, _db)) => seen.differs(Difference::Opening(fault)),
    }
    Ok(())
}

fn show_state<S: Alter + Drop>(alloc: Global, custody: Custody<Stopping, S>, seen: &mut Seen) {
    let mut custody = custody;
    let mut err = Vec::new(alloc);
    if let Some(now) = Sec::new(0) {
        let (out, err) = (&mut seen.state, &mut err);
        let _status = act(
            alloc,
            &mut custody,
            &Deed::State,
            &[],
            now,
            out,
            err,
            &mut Silent,
        );
    }
}

impl fmt::Display for Difference {
    fn fmt<W: fmt::Write>(&self, f: &mut fmt::Formatter<W>) -> fmt::Result {
        match self {
            Difference::Opening(failure) => write!(f, "the vault does not open: {failure}"),
            Difference::Records => f.write_str("other records are found"),
            Difference::Bytes => f.write_str("a part has other bytes"),
            Difference::Answer => f.write_str("a step is answered otherwise"),
            Difference::Failure(failure) => write!(f, "a step answers {failure}"),
            Difference::Unbroken => f.write_str("the session goes on to its end"),
            Difference::NotClosed => f.write_str("a closed vault answers"),
        }
    }
}
