//! The rows of registries.
ghost use Rattle.std.specs.Prelude.{ℕ, List, IfErr};
ghost use Rattle.custody_records.specs.Form.{registry_in};
ghost use Rattle.custody_records.specs.Keys.{text_cmp};
ghost use Rattle.custody_records.specs.Rows.{RegistryRow};
ghost use Rattle.custody_records.specs.TypedRecords.{registry_key, registry_value};
ghost use Rattle.custody_store.specs.Reading.{answered_registry};
ghost use Rattle.custody_store.specs.StoreState.{store_state, ChangesNothing};
ghost use Rattle.custody_store.specs.inside.Loading.{ReadsTable, IsFormFault};

use crate::columns::{bytes_at, integer_at};
use crate::faults::StoreFault;
use crate::stored_rows::{Stored, load_rows};
use custody_records::{Registry, RowError, read_registry};
use sqlite::{Alter, Connection, Row};
use std::alloc::Global;

impl Stored for Registry {
    ghost Columns = { RegistryRow };

    ghost Key = { List ℕ };

    ghost Value = { ℕ };

    ghost answered = { answered_registry };

    ghost read = { registry_in };

    ghost key_of = { registry_key };

    ghost value_of = { registry_value };

    fn of_row(_alloc: Global, row: &Row) -> Result<Registry, RowError> {
        read_registry(bytes_at(row, 0), integer_at(row, 1)).ok_or(RowError::OutOfForm)
    }
}

/// The records of registries, in the order in which they were recorded.
pub fn load_registries<S: Alter>(
    db: &mut Connection<S>,
    alloc: Global,
) -> Result<Vec<Registry>, StoreFault>
    ensures found { (store_state S.Store db.new).IsHonest → (store_state S.Store db.old).HasSchemaTablesFirst → ReadsTable text_cmp registry_in registry_key registry_value (store_state S.Store db.old).rows.registries result }
    ensures reads { ChangesNothing (store_state S.Store db.old) (store_state S.Store db.new) result }
    ensures kind { IfErr result IsFormFault }
{
    load_rows::<Registry, S>(
        db,
        "SELECT tld, first_day FROM registry ORDER BY rowid",
        alloc,
    )
}
