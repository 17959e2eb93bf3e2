//! The tables of a registry after a chain of deposits.
ghost use Rattle.std.specs.Prelude.{◌≡◌, ◌++◌, ◌∷◌, [], ℕ, List, IfOk, IfSome, MatchOption, map};
ghost use Rattle.deposit_name.specs.declared.table.TableName.{TableName};
ghost use Rattle.deposit_verify.specs.Chain.{IsChain, IsFirstOfChain, IsLaterOfChain};
ghost use Rattle.deposit_verify.specs.Tables.{AreAllTables, table_of};
ghost use Rattle.deposit_verify.specs.Verdict.{is_full};
ghost use Rattle.deposit_tables.specs.Restored.{AreTablesOf, HasRowsOf};
ghost use Rattle.deposit_tables.specs.inside.Places.{AreSorted};

use crate::order::sorted_rows;
use crate::owners::table_name_at;
use crate::tables::tables_after;
use deposit_name::Kind;
use deposit_verify::{WholeDeposit, read_whole};
use dnrd_csv::{Rows, columns, law_table_reader};
use envelope::{Envelope, law_one_reading, law_readers};
use std::alloc::{AllocError, Global};

fn is_full(envelope: &Envelope) -> bool
    ensures { result ≡ is_full envelope.now.kind }
{
    match envelope.kind {
        Kind::Full => true,
        Kind::Diff | Kind::Incr => false,
    }
}

// The tables that the first deposit of a chain has: none where it is not read, or not full.
fn first_tables(alloc: Global, joined: &[u8]) -> Result<Option<Vec<Rows>>, AllocError>
    ensures first { IfOk result (λ found. MatchOption found (¬ IsFirstOfChain joined.now) (λ _. IsFirstOfChain joined.now)) }
    ensures tables { IfOk result (λ found. IfSome found (λ tables. AreAllTables tables.items)) }
    ensures rows { IfOk result (λ found. IfSome found (λ tables. HasRowsOf (joined.now ∷ []) (table_of tables.items))) }
{
    law_one_reading();
    law_readers();
    law_table_reader();
    let Some(WholeDeposit { envelope, files }) = read_whole(alloc, joined)? else {
        return Ok(None);
    };
    if !is_full(&envelope) {
        return Ok(None);
    }
    Ok(Some(files.tables))
}

// All tables after a later deposit of a chain: none where it is not read, or full.
fn tables_then(
    alloc: Global,
    before: Vec<Rows>,
    joined: &[u8],
) -> Result<Option<Vec<Rows>>, AllocError>
    requires { AreAllTables before.items }
    ensures later { IfOk result (λ found. MatchOption found (¬ IsLaterOfChain joined.now) (λ _. IsLaterOfChain joined.now)) }
    ensures tables { IfOk result (λ found. IfSome found (λ tables. AreAllTables tables.items)) }
    // They have the rows of the chain that ends with it.
    ensures rows { IfOk result (λ found. IfSome found (λ tables. (chain : List (List ℕ)) → HasRowsOf chain (table_of before.items)
        → HasRowsOf (chain ++ joined.now ∷ []) (table_of tables.items))) }
{
    law_one_reading();
    law_readers();
    law_table_reader();
    let Some(whole) = read_whole(alloc, joined)? else {
        return Ok(None);
    };
    if is_full(&whole.envelope) {
        return Ok(None);
    }
    Ok(Some(tables_after(alloc, before, &whole)?))
}

// The tables with their rows in ascending order.
fn sorted_tables(alloc: Global, tables: Vec<Rows>) -> Result<Vec<Rows>, AllocError>
    requires { AreAllTables tables.items }
    ensures all { IfOk result (λ sorted. AreAllTables sorted.items) }
    ensures sorted { IfOk result (λ sorted. (name : TableName) → AreSorted (table_of tables.items name) (table_of sorted.items name)) }
{
    let mut sorted = tables;
    for place in 0..8 {
        let name = table_name_at(place);
        let width = columns(name).len();
        sorted[place] = sorted_rows(alloc, &sorted[place], width)?;
    }
    Ok(sorted)
}

// All tables after a chain of deposits, in no order of their rows: none where they are no chain. The first, which is the
// longest as a rule, is freed as soon as its tables are read.
fn tables_of_chain(
    alloc: Global,
    first: Vec<u8>,
    later: &[Vec<u8>],
) -> Result<Option<Vec<Rows>>, AllocError>
    ensures chained { IfOk result (λ found. MatchOption found (¬ IsChain (first.items ∷ map (λ d. d.items) later.now)) (λ _. IsChain (first.items ∷ map (λ d. d.items) later.now))) }
    ensures tables { IfOk result (λ found. IfSome found (λ tables. AreAllTables tables.items)) }
    ensures rows { IfOk result (λ found. IfSome found (λ tables. HasRowsOf (first.items ∷ map (λ d. d.items) later.now) (table_of tables.items))) }
{
    let found = first_tables(alloc, &first)?;
    drop(first);
    let Some(mut tables) = found else {
        return Ok(None);
    };
    for joined in later {
        match tables_then(alloc, tables, joined)? {
            Some(then) => tables = then,
            None => return Ok(None),
        }
    }
    Ok(Some(tables))
}

/// The tables of a registry after a full deposit alone, its parts joined in order: as `restore` returns them.
pub(crate) fn restore_full(alloc: Global, joined: &[u8]) -> Result<Option<Vec<Rows>>, AllocError>
    ensures all { IfOk result (λ found. IfSome found (λ tables. AreAllTables tables.items)) }
    ensures restored { IfOk result (λ found. MatchOption found (¬ IsChain (joined.now ∷ [])) (λ tables. AreTablesOf (joined.now ∷ []) (table_of tables.items))) }
{
    match first_tables(alloc, joined)? {
        Some(tables) => Ok(Some(sorted_tables(alloc, tables)?)),
        None => Ok(None),
    }
}

/// The tables of a registry after a chain of deposits, each its parts joined in order: all eight, in the order of a deposit,
/// their rows ascending by the bytes of their fields. `None` where the deposits are no chain: a full one, and later ones
/// that are not, each of which is read.
///
/// # Errors
///
/// Want of memory, and nothing else.
pub fn restore(alloc: Global, chain: Vec<Vec<u8>>) -> Result<Option<Vec<Rows>>, AllocError>
    ensures all { IfOk result (λ found. IfSome found (λ tables. AreAllTables tables.items)) }
    ensures restored { IfOk result (λ found. MatchOption found (¬ IsChain (map (λ d. d.items) chain.items))
        (λ tables. AreTablesOf (map (λ d. d.items) chain.items) (table_of tables.items))) }
{
    if chain.is_empty() {
        return Ok(None);
    }
    let mut later = chain;
    let first = later.remove(0);
    match tables_of_chain(alloc, first, &later)? {
        Some(tables) => Ok(Some(sorted_tables(alloc, tables)?)),
        None => Ok(None),
    }
}
