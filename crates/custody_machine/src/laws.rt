//! What holds of a custody, over all that may happen to it. The contracts of the calls cite the same
//! definitions.
ghost use Rattle.custody_machine.specs.NameReading.{IsReading};
ghost use Rattle.custody_machine.specs.Damage.{IsRefinement};
ghost use Rattle.custody_machine.specs.State.{State};
ghost use Rattle.custody_machine.specs.FetchResult.{FetchesOne, FetchesHeld};
ghost use Rattle.custody_machine.specs.Machine.{TestsAreInOrder};
ghost use Rattle.custody_machine.specs.History.{OpeningsAreRight, NothingIsTakenBack, AcceptedIsFound, NothingElseIsFound, HeldAsReceived};
ghost use Rattle.custody_machine.specs.Examples.{HistoriesHappen};
ghost use Rattle.custody_machine.specs.ExampleLife.{CustodyLives};
ghost use Rattle.custody_machine.specs.Moves.{MovesAreHistories, PlacesAreRight, NoDamageIsReported, ReadsBackAsReceived, FindsOne, AnswersAreMoves};
ghost use Rattle.custody_machine.specs.Retries.{KeysAreCompared, ActsOnce, RepeatsAreAnswered, NothingIsRemoved, RepliesAreRecords, AcknowledgedIsKept};

use deposit_verify::law_verdict;

/// The name that the machine reads in a text is the one whose text it is; and a text that is none is
/// refused by its first fault.
pub fn law_read_name()
    ensures { IsReading }
{}

/// A command is refused with the least number that stands: its tests, of which the first that stands
/// decides, are in the order of their numbers.
pub fn law_refusals()
    ensures { TestsAreInOrder }
{}

/// A fetch of a release is answered that the release is unknown, that it has not the name, that the
/// bytes are dropped, or with the bytes that are held; and two of these are never so at once.
pub fn law_fetched()
    ensures one { FetchesOne }
    ensures held { FetchesHeld }
{}

/// A database and a volume that are damaged stand for no state, and any others for exactly one. No two
/// damages are the first of them.
pub fn law_damage()
    ensures { IsRefinement }
{}

/// Wherever the custody is stopped, however often, opening it again gives what is kept after the
/// commands that were acknowledged, in order, and of those that were running at a stop each one whole
/// or not at all; and each part that it holds reads back as it was received.
pub fn law_histories()
    // Of database and volume, whatever moves there were.
    ensures histories { (first : State) → MovesAreHistories first }
    ensures places { (first : State) → PlacesAreRight first }
    ensures reads_back { (first : State) → ReadsBackAsReceived first }
    ensures no_damage { (first : State) → NoDamageIsReported first }
    ensures finds { FindsOne }
    ensures runs { AnswersAreMoves }
    // Of the states.
    ensures opens { (first : State) → OpeningsAreRight first }
    ensures again { (first : State) → NothingIsTakenBack first }
    ensures acknowledged { (first : State) → AcceptedIsFound first }
    ensures nothing_else { (first : State) → NothingElseIsFound first }
    ensures received { (first : State) → HeldAsReceived first }
    ensures kept { (first : State) → AcknowledgedIsKept first }
    // Of each command that is accepted there are such histories.
    ensures happen { HistoriesHappen }
{}

/// A command that comes again, through whatever stops, acts once: it is answered by the record of its
/// first acceptance, and changes nothing.
pub fn law_retries()
    ensures keys { KeysAreCompared }
    ensures once { (first : State) → ActsOnce first }
    ensures answered { (first : State) → RepeatsAreAnswered first }
    ensures kept { NothingIsRemoved }
    ensures replies { RepliesAreRecords }
{}

/// A command of each kind is accepted, so that there are histories of each kind; and what is released is
/// fetched until it is dropped.
pub fn law_accepted()
    ensures { CustodyLives }
{
    law_verdict();
}
