//! Tables of schema 1 made those of schema 2, in one transaction.
ghost use Rattle.std.specs.Prelude.{◌≡◌, IfErr};
ghost use Rattle.custody_store.specs.Calls.{RunsTogether};
ghost use Rattle.custody_store.specs.Statements.{migrate_statements};
ghost use Rattle.custody_store.specs.StoreState.{store_state, Migrates};

use crate::creating::CREATE_HOLD;
use crate::faults::StoreFault;
use crate::together::together;
use sqlite::{Alter, Connection};

/// Makes tables of schema 1 those of schema 2 in one transaction.
pub fn migrate_tables<S: Alter>(db: &mut Connection<S>) -> Result<(), StoreFault>
    ensures migrates { Migrates (store_state S.Store db.old) (store_state S.Store db.new) result }
    ensures runs { RunsTogether S.Store migrate_statements db.old db.new result }
    ensures kind { IfErr result (λ e. e ≡ StoreFault.Failed) }
{
    together(db, &[CREATE_HOLD], "UPDATE meta SET schema_no = 2", &[])
}
