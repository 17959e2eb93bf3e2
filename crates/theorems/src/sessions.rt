//! Sessions of a custody, and one after another: a custody is opened, does commands, is stopped, and
//! is opened again over what the stop has left.
ghost use Rattle.std.specs.Prelude.{◌≡◌, ◌<◌, ◌-◌, ◌*◌, ◌^◌, length, IfOk, IfErr, IsTrue};
ghost use Rattle.vault_volume.specs.Disk.{LeavesOneImage};
ghost use Rattle.sqlite.specs.Steps.{over_memory};
ghost use Rattle.custody_store.specs.StoreState.{store_state};
ghost use Rattle.custody_machine.specs.Commands.{command_of};
ghost use Rattle.custody.specs.Custody.{timed_commands, open_custody_of};
ghost use Rattle.custody.specs.OpenCustody.{current_records, store_state_of, image_of};
ghost use Rattle.custody.specs.Opening.{HasAllTables};
ghost use Rattle.theorems.specs.Sessions.{answers_of, IsSession, IsNotOpened, IsReopened, IsResumed};
ghost use Rattle.theorems.specs.Lives.{HasLivedOnce};

use crate::life_laws::open_custody;
use custody::{Custody, InitError, Refused, Reply};
use custody_machine::{Command, Failure};
use schedule::Sec;
use sqlite::{Alter, Connection, MemStore};
use std::alloc::{AllocError, Global};
use vault_volume::{BLOCK_BYTES, MemVolume, Volume};

/// What commands answered, with the volume and the database as they left them.
#[derive(Drop)]
pub struct Session<V: Volume, S: Alter + Drop> {
    pub answers: Vec<Result<Reply, Refused>>,
    pub volume: V,
    pub db: Connection<S>,
}

/// A custody that is open again after a stop, what commands answered before it, and the database as
/// they left it.
#[derive(Drop)]
pub struct Reopened<S: Alter + Drop> {
    pub custody: Custody<MemVolume, S>,
    pub answers: Vec<Result<Reply, Refused>>,
    pub stopped: Connection<S>,
}

/// A custody that was begun and is open again after a stop, and what commands answered before it.
#[derive(Drop)]
pub struct Resumed {
    pub custody: Custody<MemVolume, MemStore>,
    pub answers: Vec<Result<Reply, Refused>>,
}

/// Opens what volume and database hold, does commands, and hands both back. Where it fails, no command
/// is done.
pub fn serve_session<V: Volume, S: Alter + Drop>(
    alloc: Global,
    volume: V,
    db: Connection<S>,
    commands: &[(Command<'_>, Sec)],
) -> Result<Session<V, S>, (Failure, V, Connection<S>)>
    requires { V.failures volume < 2 ^ 64 - 1 }
    ensures served { V.tells → LeavesOneImage (V.image volume) (V.left_at volume (V.moment volume)) → HasAllTables (store_state S.Store db)
        → IfOk result (λ s. (store_state S.Store s.db).IsHonest → IsSession (store_state S.Store db).rows (V.image volume) (timed_commands commands.now) (answers_of (timed_commands commands.now) s.answers.items)
        (store_state S.Store s.db).may_leave (V.left_at s.volume (V.moment s.volume))) }
    ensures failed { V.tells → LeavesOneImage (V.image volume) (V.left_at volume (V.moment volume)) → HasAllTables (store_state S.Store db)
        → IfErr result (λ e. (store_state S.Store e.2).IsHonest → IsNotOpened (store_state S.Store db).rows (V.image volume) e.0 (store_state S.Store e.2).may_leave (V.left_at e.1 (V.moment e.1))) }
{
    let mut custody = Custody::open(alloc, volume, db)?;
    let answers = custody.run(alloc, commands);
    let (volume, db) = custody.close();
    match answers {
        Ok(answers) => Ok(Session {
            answers,
            volume,
            db,
        }),
        Err(_) => Err((Failure::NoMemory, volume, db)),
    }
}

/// Opens what a volume in memory and a database hold, and does commands, wherever the volume's script
/// stops it. Then the volume is restarted over a filling, and opened again with `left`: the database as
/// the stop has left it. A filling of another length than the volume is refused.
pub fn open_run_and_reopen<S: Alter + Drop>(
    alloc: Global,
    volume: MemVolume,
    db: Connection<S>,
    commands: &[(Command<'_>, Sec)],
    fill: &[u8],
    left: Connection<S>,
) -> Result<Reopened<S>, Failure>
    requires { ⟦<MemVolume as Volume>⟧.failures volume < 2 ^ 64 - 1 }
    ensures { LeavesOneImage (⟦<MemVolume as Volume>⟧.image volume) (⟦<MemVolume as Volume>⟧.left_at volume (⟦<MemVolume as Volume>⟧.moment volume))
        → HasAllTables (store_state S.Store db) → HasAllTables (store_state S.Store left)
        → IfOk result (λ r. (store_state S.Store r.stopped).IsHonest → (store_state_of S.Store (open_custody_of r.custody)).IsHonest
        → (store_state S.Store r.stopped).may_leave (store_state S.Store left).rows
        → IsReopened (store_state S.Store db).rows (⟦<MemVolume as Volume>⟧.image volume) (timed_commands commands.now) (answers_of (timed_commands commands.now) r.answers.items)
        (store_state S.Store left).rows (current_records (open_custody_of r.custody)) (image_of (open_custody_of r.custody))) }
{
    let session = match serve_session(alloc, volume, db, commands) {
        Ok(session) => session,
        Err(failed) => return Err(failed.0),
    };
    let mut volume = session.volume;
    if !may_restart(&volume, fill) {
        return Err(Failure::VolumeFailed);
    }
    volume.restart(fill);
    match Custody::open(alloc, volume, left) {
        Ok(custody) => Ok(Reopened {
            custody,
            answers: session.answers,
            stopped: session.db,
        }),
        Err(failed) => Err(failed.0),
    }
}

/// A new database in memory: it has no table, and it returns what was written, whatever is done to it.
pub fn new_database(alloc: Global) -> Result<Connection<MemStore>, AllocError>
    ensures bare { IfOk result (λ db. (store_state over_memory db).IsBare) }
    ensures honest { IfOk result (λ db. (store_state over_memory db).IsHonest) }
{
    Connection::open_in_memory(alloc)
}

/// Begins a custody over a volume and a new database in memory, does commands, and closes it. Then the
/// volume is restarted over a filling, and the custody is opened again with the database. Nothing is
/// supposed of what they hold. It fails where the custody does not begin, was closed by a failure, or
/// does not open, and where the filling has another length than the volume.
pub fn begin_run_and_reopen(
    alloc: Global,
    volume: MemVolume,
    number: u64,
    commands: &[(Command<'_>, Sec)],
    fill: &[u8],
) -> Result<Resumed, InitError>
    requires { ⟦<MemVolume as Volume>⟧.failures volume < 2 ^ 64 - 1 }
    ensures { IfOk result (λ r. IsResumed over_memory (timed_commands commands.now) (answers_of (timed_commands commands.now) r.answers.items) r.custody) }
{
    let Ok(db) = new_database(alloc) else {
        return Err(InitError::Failure(Failure::NoMemory));
    };
    let mut custody = match Custody::init(alloc, volume, db, number) {
        Ok(custody) => custody,
        Err(failed) => return Err(failed.0),
    };
    let Ok(answers) = custody.run(alloc, commands) else {
        return Err(InitError::Failure(Failure::NoMemory));
    };
    custody.records()?;
    let (mut stopped, db) = custody.close();
    if !may_restart(&stopped, fill) {
        return Err(InitError::Failure(Failure::VolumeFailed));
    }
    stopped.restart(fill);
    match Custody::open(alloc, stopped, db) {
        Ok(custody) => Ok(Resumed { custody, answers }),
        Err(failed) => Err(InitError::Failure(failed.0)),
    }
}

/// Begins a custody over a volume and a new database in memory, gives it a command, closes it, and opens
/// it again as `begin_run_and_reopen` does: so what `law_lives` supposes can be met.
pub fn live_once(
    alloc: Global,
    volume: MemVolume,
    number: u64,
    command: &Command<'_>,
    now: Sec,
    fill: &[u8],
) -> Result<Custody<MemVolume, MemStore>, InitError>
    requires { ⟦<MemVolume as Volume>⟧.failures volume < 2 ^ 64 - 1 }
    ensures { IfOk result (λ later. HasLivedOnce over_memory volume number (command_of command.now) now later) }
{
    let Ok(db) = new_database(alloc) else {
        return Err(InitError::Failure(Failure::NoMemory));
    };
    let mut custody = match Custody::init(alloc, volume, db, number) {
        Ok(custody) => custody,
        Err(failed) => return Err(failed.0),
    };
    let _ = custody.apply(alloc, command, now);
    custody.records()?;
    let (mut stopped, db) = custody.close();
    if !may_restart(&stopped, fill) {
        return Err(InitError::Failure(Failure::VolumeFailed));
    }
    stopped.restart(fill);
    match open_custody(alloc, stopped, db) {
        Ok(custody) => Ok(custody),
        Err(failed) => Err(InitError::Failure(failed.0)),
    }
}

/// Whether a filling is as long as the volume.
fn may_restart(volume: &MemVolume, fill: &[u8]) -> bool
    ensures { IsTrue result → length fill.now ≡ 4096 * ⟦<MemVolume as Volume>⟧.size volume.now }
{
    fill.len() as u64 == BLOCK_BYTES * u64::from(volume.size())
}
