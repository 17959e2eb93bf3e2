//! Which tables a database has.
ghost use Rattle.std.specs.Prelude.{◌≡◌, ◌||◌, ◌&&◌};
ghost use Rattle.custody_store.specs.Reading.{has_table};
ghost use Rattle.custody_store.specs.StoreState.{store_state, has_any_table, has_all_tables, has_earlier_tables};

use sqlite::{Alter, Connection};
use sqlite_schema::names::same_name;
use sqlite_schema::schema::Schema;

/// Whether the schema has a table with this name.
pub fn has_table(schema: &Schema, name: &str) -> bool
    ensures { result ≡ has_table name.now schema.now }
{
    schema
        .tables
        .as_slice()
        .iter()
        .any(|table| same_name(table.name.as_slice(), name.as_bytes()))
}

/// Whether one of the six tables is there.
pub fn has_any_table<S: Alter>(db: &Connection<S>) -> bool
    ensures { result ≡ has_any_table (store_state S.Store db.now) }
{
    let schema = db.schema();
    has_table(schema, "meta")
        || has_table(schema, "registry")
        || has_table(schema, "part")
        || has_table(schema, "notice")
        || has_table(schema, "handover")
        || has_table(schema, "hold")
}

/// Whether all five tables are there that both schemas have.
pub fn has_all_tables<S: Alter>(db: &Connection<S>) -> bool
    ensures { result ≡ has_all_tables (store_state S.Store db.now) }
{
    let schema = db.schema();
    has_table(schema, "meta")
        && has_table(schema, "registry")
        && has_table(schema, "part")
        && has_table(schema, "notice")
        && has_table(schema, "handover")
}

/// Whether all tables of schema 1 are there, and that of holds is not.
pub fn has_earlier_tables<S: Alter>(db: &Connection<S>) -> bool
    ensures { result ≡ has_earlier_tables (store_state S.Store db.now) }
{
    has_all_tables(db) && !has_table(db.schema(), "hold")
}
