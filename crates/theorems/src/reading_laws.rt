//! What is read of an open custody, whatever commands, other calls, openings and stops came before.
ghost use Rattle.theorems.specs.Reading.{AuditsListNone, ExplainsState, FetchesAsReceived};

use custody::Custody;
use sqlite::Alter;
use vault_volume::Volume;

/// What an open custody reads, whatever stops there were since its beginning. A fetch answers the bytes
/// that were received under the name, the refusal that the state decides, or that memory or the volume
/// fails; an explanation tells why a revision of the state has failed, or is refused or fails so; and an
/// audit lists no part, or fails so. None finds damage.
pub fn law_reading<V: Volume, S: Alter>(old: &Custody<V, S>, new: &Custody<V, S>)
    ensures fetches { V.tells → FetchesAsReceived S.Store old.now new.now }
    ensures explains { V.tells → ExplainsState S.Store old.now new.now }
    ensures audits { V.tells → AuditsListNone S.Store old.now new.now }
{}
