//! Every call of a custody as a move, and the life of an agent from its beginning on as a history.
ghost use Rattle.std.specs.Prelude.{ℕ, ◌-◌, ◌<◌, ◌^◌};
ghost use Rattle.custody_machine.specs.State.{empty};
ghost use Rattle.theorems.specs.Sessions.{place_of};
ghost use Rattle.theorems.specs.CustodyCalls.{CallsMove, CallsMayStop};
ghost use Rattle.theorems.specs.Lives.{HasOpened, OpenResult, OpeningsMove, OpeningsMayStop, IsBeginningOf, BeginsEmpty, AgentsLiveOn, LivesOn, Up};

use custody::Custody;
use custody_machine::Failure;
use sqlite::{Alter, Connection};
use std::alloc::Global;
use vault_volume::Volume;

/// Each call of a custody is a move, whatever it answered, and wherever the custody was, open or closed:
/// a command, a part that is received, whole or not, a fetch, a preview, an explanation, an audit. And a
/// stop at any moment within it is one, too.
pub fn law_calls<V: Volume, S: Alter>(old: &Custody<V, S>, new: &Custody<V, S>)
    ensures moves { V.tells → CallsMove S.Store old.now new.now }
    ensures stops { V.tells → CallsMayStop S.Store old.now new.now }
{}

/// Opens what volume and database hold: what comes out of it is what the laws speak of.
pub fn open_custody<V: Volume, S: Alter>(
    alloc: Global,
    volume: V,
    db: Connection<S>,
) -> Result<Custody<V, S>, (Failure, V, Connection<S>)>
    requires { V.failures volume < 2 ^ 64 - 1 }
    ensures { HasOpened V.Volume S.Store volume db result }
{
    Custody::open(alloc, volume, db)
}

/// An opening is a move, from what a restart shows: where it gives a custody, to where that is, and where
/// it fails, to what a stop may leave then. And a stop at any moment within it is one, too.
pub fn law_opened<V: Volume, S: Alter>(volume: &V, db: &Connection<S>)
    ensures moves { V.tells → (opening : OpenResult V.Volume S.Store) → OpeningsMove V.Volume S.Store volume.now db.now opening }
    ensures stops { V.tells → (opening : OpenResult V.Volume S.Store) → OpeningsMayStop V.Volume S.Store volume.now db.now opening }
{}

/// A custody that an initialisation gives is in the empty state, and is where lives begin.
pub fn law_begun<V: Volume, S: Alter>(volume: &V, db: &Connection<S>, custody: &Custody<V, S>)
    ensures { V.tells → (number : ℕ) → IsBeginningOf S.Store volume.now db.now number custody.now → BeginsEmpty S.Store custody.now }
{}

/// Begin an agent, make whatever calls of it, stop it at any moments, within calls and openings or
/// between them, and open it again over what each stop has left: what happens is a history from the
/// empty state, one event a step, and the agent is always in the state after the commands found, with
/// each held part's digest. So every law of histories holds of it. And it is so of an agent that begins
/// in any other state, as one whose files were there.
pub fn law_lives<V: Volume, S: Alter>(volume: &V, db: &Connection<S>, begun: &Custody<V, S>)
    ensures begun { V.tells → (number : ℕ) → IsBeginningOf S.Store volume.now db.now number begun.now → LivesOn S.Store empty (place_of S.Store begun.now) (Up begun.now) }
    ensures any { V.tells → AgentsLiveOn V.Volume S.Store }
{}
