//! What a deed of the command line does, as calls of a custody.
ghost use Rattle.theorems.specs.Deeds.{DeedsAreCalls, SweepsAreChecks};
ghost use Rattle.theorems.specs.ExampleDeeds.{DeedsHappen};

use custody::Custody;
use sqlite::Alter;
use vault_volume::Volume;

/// What `agent_cli::act` does is calls of the custody, in order, as the deed says: so a life may consist
/// of deeds, and `law_lives` holds of them. A `put` and a command are one command at the moment of the
/// deed; a sweep is checks of the first so many of the days due; a deed that reads by a call is that
/// call; any other is none.
pub fn law_acts<V: Volume, S: Alter>(old: &Custody<V, S>, new: &Custody<V, S>)
    ensures calls { DeedsAreCalls S.Store old.now new.now }
    ensures sweeps { SweepsAreChecks S.Store old.now new.now }
    ensures happen { DeedsHappen }
{}
