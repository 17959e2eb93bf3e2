//! What holds of an open custody, whatever commands and stops come.
ghost use Rattle.custody_store.specs.StoreState.{store_state};
ghost use Rattle.custody_machine.specs.StoredState.{StandsFor};
ghost use Rattle.custody_machine.specs.Moves.{MayLeave};
ghost use Rattle.custody.specs.Opening.{HasAllTables};
ghost use Rattle.theorems.specs.Sessions.{IsServing, place_of, state_of_custody, StopLeaves, SparesFreeBlocks, RunsMove, StopsMove, MayStopAtRest, SessionsGoOn, OpeningsMayFail};
ghost use Rattle.theorems.specs.OtherCallMoves.{OtherCallsMove, OtherCallsStop};
ghost use Rattle.theorems.specs.Evidence.{DigestLinesAreKept, OneDigestOfName, RecordsRemain};

use custody::Custody;
use sqlite::{Alter, Connection};
use vault_volume::Volume;

/// At rest, whichever rows and image a stop leaves of an open custody: they stand for its state, with
/// each part that it holds, and no part that they name lies in a block that is free.
pub fn law_at_rest<V: Volume, S: Alter>(custody: &Custody<V, S>)
    ensures leaves { IsServing S.Store custody.now → StopLeaves S.Store custody.now (MayLeave (place_of S.Store custody.now)) }
    ensures stands { IsServing S.Store custody.now → StopLeaves S.Store custody.now (λ rows image. StandsFor rows image (state_of_custody S.Store custody.now)) }
    ensures spares { IsServing S.Store custody.now → StopLeaves S.Store custody.now (λ rows image. SparesFreeBlocks S.Store custody.now rows) }
{}

/// Commands in order are moves of the machine, from where the custody was to where it is; and a stop
/// then leaves what it may leave there. So what holds of histories holds of them.
pub fn law_run<V: Volume, S: Alter>(old: &Custody<V, S>, new: &Custody<V, S>)
    ensures { V.tells → RunsMove S.Store old.now new.now }
{}

/// A stop at any moment within a command, after others, is a move too.
pub fn law_stop<V: Volume, S: Alter>(old: &Custody<V, S>, mid: &Custody<V, S>, new: &Custody<V, S>)
    ensures { V.tells → StopsMove S.Store old.now mid.now new.now }
{}

/// A call that is no command is a move too, after which the custody serves on or is closed; and a stop
/// at any moment within it is a stop at rest.
pub fn law_rest<V: Volume, S: Alter>(old: &Custody<V, S>, new: &Custody<V, S>)
    ensures moves { V.tells → OtherCallsMove S.Store old.now new.now }
    ensures stops { V.tells → OtherCallsStop S.Store old.now new.now }
{}

/// A whole life is moves, whatever was before: a stop at rest leaves what may be left there; a session
/// over what a stop has left goes on from it, and an opening that failed can be tried again, whatever
/// volume and database they hand back.
pub fn law_sessions<V: Volume, S: Alter>(volume: &V, db: &Connection<S>)
    ensures stops { MayStopAtRest }
    ensures sessions { SessionsGoOn (store_state S.Store db.now).may_leave (V.left_at volume.now (V.moment volume.now)) }
    ensures not_opened { OpeningsMayFail (store_state S.Store db.now).may_leave (V.left_at volume.now (V.moment volume.now)) }
{}

/// What a database shows at rest is what a stop may leave of it.
pub fn law_shown<S: Alter>(db: &Connection<S>)
    ensures { HasAllTables (store_state S.Store db.now) → (store_state S.Store db.now).may_leave (store_state S.Store db.now).rows }
{}

/// Whatever commands, other calls, openings and stops came between, each line of `digests` is among the
/// later ones; and a name has one digest.
pub fn law_digests()
    ensures kept { DigestLinesAreKept }
    ensures one { OneDigestOfName }
    ensures remain { RecordsRemain }
{}
