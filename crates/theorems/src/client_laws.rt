//! What holds for the clients of a service over HTTP, and that what `http_api` does to a custody is
//! what this speaks of.
ghost use Rattle.custody_machine.specs.State.{State};
ghost use Rattle.theorems.specs.Sessions.{IsServing, place_of};
ghost use Rattle.theorems.specs.Connections.{ConnectionsMayStop, ConnectionsMove};
ghost use Rattle.theorems.specs.Clients.{AcceptedIsFoundOnce, BodiesAreTheSame, ClientsEndAsOnce, NoInternalError, PartsAreFetched, PartsAreFetchedAsSent, RevisionsAreExplained, ServiceAnswersRepeats};
ghost use Rattle.theorems.specs.ExampleConnections.{ConnectionsHappen};
ghost use Rattle.theorems.specs.ExampleService.{ServicesLive};
ghost use Rattle.theorems.specs.Requests.{IsCustodyAt, RequestsMove, RequestsMayStop, MayStopAfterwards};
ghost use Rattle.theorems.specs.WholeResponses.{ClientsCanTell, NoResponseBeginsAnother};

use custody::Custody;
use custody_machine::law_accepted;
use http_request::law_asked;
use sqlite::Alter;
use vault_volume::Volume;

/// Whenever a service is stopped, and however often its clients send their requests again: what was
/// told as accepted is found, with the record that was told, and the state is that of the commands
/// found, each once; where it is asked for again, it is answered with the same body, or that its bytes
/// were dropped, or by a failure; and a client that is alone and sends each of its requests until it is
/// answered, and by no failure, ends in the state of those requests sent once, in that order, without a
/// stop. A purge has no record, and is done anew each time. No request is answered by 500; and a part
/// that a release lists and that is not dropped is answered by the bytes that were sent, or by a
/// failure of memory or volume, or that the custody is closed (503). Why a revision has failed is
/// answered as the state has it, or by such a failure.
/// Three such histories are written out, by the bytes that a client sends, with the answers that it
/// reads.
pub fn law_clients()
    ensures accepted { (first : State) → AcceptedIsFoundOnce first }
    ensures again { (first : State) → ServiceAnswersRepeats first }
    ensures same_body { (first : State) → BodiesAreTheSame first }
    ensures no_internal_error { (first : State) → NoInternalError first }
    ensures fetched { (first : State) → PartsAreFetched first }
    ensures as_sent { (first : State) → PartsAreFetchedAsSent first }
    ensures explained { (first : State) → RevisionsAreExplained first }
    ensures ends { (first : State) → ClientsEndAsOnce first }
    ensures happen { ServicesLive }
{
    law_asked();
    law_accepted();
}

/// A client can tell from the bytes that it has read whether they are a whole response, and which: no
/// response is the beginning of another.
pub fn law_responses()
    ensures one { NoResponseBeginsAnother }
    ensures read { ClientsCanTell }
{}

/// One request that `http_api::Api::serve_one` has served, whichever way out it took, is an event of a
/// service, from the place where the custody was to the one where it is; and so is a stop at any moment
/// of it. An open custody is where the first begins.
pub fn law_requests<V: Volume, S: Alter>(old: &Custody<V, S>, new: &Custody<V, S>)
    ensures begins { IsServing S.Store old.now → IsCustodyAt S.Store old.now (place_of S.Store old.now) }
    ensures moves { V.tells → RequestsMove S.Store old.now new.now }
    ensures stops { V.tells → RequestsMayStop S.Store old.now new.now }
    ensures at_rest { MayStopAfterwards S.Store new.now }
{}

/// What `http_api::serve_connections` has done, whichever way out it took, is events of a service, from
/// the place where the custody was to the one where it is, if the requests of its clients are known: those
/// that came are the requests of the events, in order, and what the clients have taken is what is written.
/// So is a stop at any moment within a connection. Where a service begins, these events are a history of
/// it, so that all of `law_clients` holds of what the server does.
pub fn law_connections<V: Volume, S: Alter>()
    ensures moves { V.tells → ConnectionsMove V.Volume S.Store }
    ensures stops { V.tells → ConnectionsMayStop V.Volume S.Store }
    ensures happen { ConnectionsHappen V.Volume S.Store }
{
    law_accepted();
}
