//! What holds of the tables after a chain.
ghost use Rattle.deposit_tables.specs.Changes.{AreChangesRestored};
ghost use Rattle.deposit_tables.specs.Days.{AreDaysRestored};
ghost use Rattle.deposit_tables.specs.Restored.{AreChainRows, AreRestored};
ghost use Rattle.deposit_tables.specs.RowsAfter.{AreTablesAfter};
ghost use Rattle.deposit_tables.specs.Deposits.{AreDepositsRestored, ArePassedRestored};

use deposit_verify::law_pass;
use dnrd_csv::law_table_reader;
use envelope::{law_one_reading, law_readers};

/// The rows of a chain of deposits: those of a chain of one, how each deposit changes them, and their keys.
pub fn law_chain_rows()
    ensures { AreChainRows }
{}

/// The tables after a chain of deposits: there is one list of rows for each, which is a table in form, with as many
/// objects as the chain has keys.
pub fn law_restored()
    ensures { AreRestored }
{
    law_one_reading();
    law_table_reader();
}

/// A deposit of what has changed since some tables brings each chain that has these to the new ones.
pub fn law_changes()
    ensures { AreChangesRestored }
{
    law_one_reading();
    law_table_reader();
}

/// A full deposit of a registry's tables, and then at each time one of what has changed, restore the tables of the last
/// time.
pub fn law_deposits()
    ensures { AreDepositsRestored }
{
    law_one_reading();
    law_table_reader();
}

/// A full deposit, and then those that were packed from the tables of a registry day after day, restore the tables of the
/// last day.
pub fn law_days()
    ensures { AreDaysRestored }
{
    law_one_reading();
    law_table_reader();
    law_pass();
}

/// Deposits that pass are chains, and the tables after one have as many rows as its last header counts.
pub fn law_passed()
    ensures { ArePassedRestored }
{
    law_one_reading();
    law_table_reader();
    law_pass();
}

/// The tables after a chain as functions of what is read of each deposit: they have the rows of the chain.
pub fn law_tables()
    ensures { AreTablesAfter }
{
    law_one_reading();
    law_readers();
    law_table_reader();
}
