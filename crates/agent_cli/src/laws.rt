//! Laws of orders, of sweeps and of deeds that only read.
ghost use Rattle.agent_cli.specs.DueSwept.{DueIsChecked, SweepRecordsDue};
ghost use Rattle.agent_cli.specs.Examples.{WordsGiveOrders};
ghost use Rattle.agent_cli.specs.Order.{IsOneReading};
ghost use Rattle.agent_cli.specs.Reads.{ReadingLeavesAlone};

use custody::Custody;
use sqlite::Alter;
use vault_volume::Volume;

/// Words ask for one order at most, or have one fault at most; and each subcommand is what its words
/// say, as examples written out.
pub fn law_orders()
    ensures one { IsOneReading }
    ensures examples { WordsGiveOrders }
{}

/// The days that are due are those whose check would record an absence; and a sweep of them that ends
/// with status 0 has recorded an absence of each, in their order, and nothing else.
pub fn law_due<V: Volume, S: Alter>(old: &Custody<V, S>, new: &Custody<V, S>)
    ensures checked { DueIsChecked }
    ensures swept { SweepRecordsDue old.now new.now }
{}

/// A deed that only reads leaves the agent its records and its database, and does not write its volume.
pub fn law_reads<V: Volume, S: Alter>(old: &Custody<V, S>, new: &Custody<V, S>)
    ensures { ReadingLeavesAlone old.now new.now }
{}
