//! The tables and the row of meta, made in one transaction.
ghost use Rattle.std.specs.Prelude.{◌≡◌, pos, IfErr};
ghost use Rattle.custody_store.specs.Calls.{RunsTogether};
ghost use Rattle.custody_store.specs.Statements.{create_statements};
ghost use Rattle.custody_records.specs.Rows.{initial_rows};
ghost use Rattle.custody_store.specs.StoreState.{store_state, CreatesTables};

use crate::faults::StoreFault;
use crate::together::together;
use crate::values::{number, text};
use sqlite::{Alter, Connection};

pub const CREATE_HOLD: &str =
    "CREATE TABLE hold (reference TEXT PRIMARY KEY NOT NULL, tld TEXT NOT NULL REFERENCES registry (tld), day INTEGER NOT NULL, at INTEGER NOT NULL, lifted INTEGER) STRICT";

/// Makes the tables and the row of meta in one transaction.
pub fn create_all<S: Alter>(
    db: &mut Connection<S>,
    digits: &[u8],
    blocks: u32,
) -> Result<(), StoreFault>
    ensures founds { CreatesTables (store_state S.Store db.old) (store_state S.Store db.new) (initial_rows digits.now (pos blocks)) result }
    ensures runs { RunsTogether S.Store (create_statements digits.now blocks) db.old db.new result }
    ensures kind { IfErr result (λ e. e ≡ StoreFault.Failed) }
{
    together(
        db,
        &[
            "CREATE TABLE meta (one INTEGER PRIMARY KEY NOT NULL, schema_no INTEGER NOT NULL, number TEXT NOT NULL, blocks INTEGER NOT NULL) STRICT",
            "CREATE TABLE registry (tld TEXT PRIMARY KEY NOT NULL, first_day INTEGER NOT NULL) STRICT",
            "CREATE TABLE part (tld TEXT NOT NULL REFERENCES registry (tld), day INTEGER NOT NULL, rev INTEGER NOT NULL, part INTEGER NOT NULL, kind TEXT NOT NULL, received INTEGER NOT NULL, keep_day INTEGER NOT NULL, len INTEGER NOT NULL, sha BLOB NOT NULL, extents BLOB, PRIMARY KEY (tld, day, rev, part)) STRICT",
            "CREATE TABLE notice (tld TEXT NOT NULL REFERENCES registry (tld), number INTEGER NOT NULL, kind INTEGER NOT NULL, day INTEGER NOT NULL, rev INTEGER NOT NULL, id TEXT NOT NULL, at INTEGER NOT NULL, PRIMARY KEY (tld, number)) STRICT",
            "CREATE TABLE handover (reference TEXT PRIMARY KEY NOT NULL, tld TEXT NOT NULL REFERENCES registry (tld), ground TEXT NOT NULL, at INTEGER NOT NULL, names TEXT NOT NULL) STRICT",
            CREATE_HOLD,
        ],
        "INSERT INTO meta (one, schema_no, number, blocks) VALUES (1, 2, ?1, ?2)",
        &[text(digits), number(blocks)],
    )
}
