//! The checks of counts and of references.
ghost use Rattle.std.specs.Prelude.{◌≡◌, ◌||◌, Some, IfOk, IfSome, MatchOption, is_none, length, map, option_map};
ghost use Rattle.std.specs.Option.{IsSomeAnd};
ghost use Rattle.envelope.specs.Envelope.{env_of};
ghost use Rattle.deposit_name.specs.declared.kinds.Kind.TheVariants.{Full};
ghost use Rattle.dnrd_csv.specs.Text.{key_rows};
ghost use Rattle.deposit_verify.specs.Checks.{AreRowCounts};
ghost use Rattle.deposit_verify.specs.Tables.{AreAllTables, AreCountable, FullSays, TablesSay, table_of};
ghost use Rattle.deposit_verify.specs.TablesReasons.{IsFirstNoKey, IsFirstWrong, row_numbers, said_counts, tables_check};
ghost use Rattle.deposit_verify.specs.References.{AreReferencesKept};
ghost use Rattle.deposit_verify.specs.Verdict.{chain_counts, is_full, key_numbers};
ghost use Rattle.deposit_verify.specs.inside.Reasons.{IsTablesReason};

use crate::base::Base;
use crate::breaches::first_no_key;
use crate::files_read::FilesRead;
use crate::references::are_references_kept;
use crate::tables_reason::{NoKey, TablesReason, WrongCount};
use deposit_name::Kind;
use dnrd_csv::Rows;
use envelope::{Count, Envelope};
use std::alloc::{AllocError, Global};

/// How many rows each counted table has, in the order of the counts: contacts, domains, hosts, registrars. The tables are
/// all eight, in the order of a deposit.
pub fn row_counts(tables: &[Rows]) -> [usize; 4]
    requires { length tables.now ≡ 8 }
    ensures { result ≡ row_numbers (table_of tables.now) }
{
    [
        tables[6].len(),
        tables[0].len(),
        tables[4].len(),
        tables[7].len(),
    ]
}

// The first count that is not the number of the rows of its table.
fn wrong_row_count(counts: &[Count], tables: &[Rows]) -> Option<WrongCount>
    requires counts { length counts.now ≡ 4 }
    requires tables { length tables.now ≡ 8 }
    ensures { MatchOption result (AreRowCounts counts.now (table_of tables.now))
        (IsFirstWrong (row_numbers (table_of tables.now)) (said_counts counts.now)) }
{
    WrongCount::first(counts, row_counts(tables))
}

/// The first field of all eight tables, in their order, then by row and column, that names a key which is not there.
///
/// # Errors
///
/// Want of memory, and nothing else.
pub fn missing_key(alloc: Global, tables: &[Rows]) -> Result<Option<NoKey>, AllocError>
    requires { AreAllTables tables.now }
    ensures { IfOk result (λ found. MatchOption found (AreReferencesKept (table_of tables.now))
        (λ missing. IsFirstNoKey (table_of tables.now) missing × ¬ AreReferencesKept (table_of tables.now))) }
{
    if are_references_kept(alloc, tables)? {
        return Ok(None);
    }
    first_no_key(alloc, tables)
}

// Why a full deposit with these counts and tables fails the first of the checks of counts and references that it fails.
fn full_fault(
    alloc: Global,
    counts: &[Count],
    tables: &[Rows],
) -> Result<Option<TablesReason>, AllocError>
    requires counts { length counts.now ≡ 4 }
    requires tables { AreAllTables tables.now }
    ensures check { IfOk result (λ fault. FullSays counts.now tables.now (option_map tables_check fault)) }
    ensures place { IfOk result (λ fault. IfSome fault (IsTablesReason counts.now (table_of tables.now))) }
{
    if let Some(wrong) = wrong_row_count(counts, tables) {
        return Ok(Some(TablesReason::Count(wrong)));
    }
    match missing_key(alloc, tables)? {
        Some(missing) => Ok(Some(TablesReason::Reference(missing))),
        None => Ok(None),
    }
}

/// The same of a deposit of any kind; one that is not full passes both.
pub fn tables_fault(
    alloc: Global,
    envelope: &Envelope,
    tables: &[Rows],
) -> Result<Option<TablesReason>, AllocError>
    requires counts { length (env_of envelope.now).count ≡ 4 }
    requires tables { envelope.now.kind ≡ Full → AreAllTables tables.now }
    ensures check { IfOk result (λ fault. TablesSay (env_of envelope.now) tables.now (option_map tables_check fault)) }
    ensures place { IfOk result (λ fault. IfSome fault (IsTablesReason (env_of envelope.now).count (table_of tables.now))) }
{
    match envelope.kind {
        Kind::Diff | Kind::Incr => Ok(None),
        Kind::Full => full_fault(alloc, &envelope.header.count, tables),
    }
}

/// Of the counts of a deposit that is not full, the first that is not the number of the keys after it, where those
/// before it are known.
pub fn wrong_chain_count(
    alloc: Global,
    envelope: &Envelope,
    files: &FilesRead,
    base: &Option<Base>,
) -> Result<Option<WrongCount>, AllocError>
    requires counts { length (env_of envelope.now).count ≡ 4 }
    requires files { AreCountable (env_of envelope.now) files.now.tables.items files.now.deleted.items }
    ensures right { IfOk result (λ wrong. is_none wrong ≡ (is_full envelope.now.kind
        || chain_counts (env_of envelope.now) base.now files.now.tables.items (Some (map key_rows files.now.deleted.items)))) }
    ensures first { IfOk result (λ wrong. IfSome wrong (λ w. IsSomeAnd base.now (λ b. IsFirstWrong
        (key_numbers (env_of envelope.now) b files.now.tables.items (map key_rows files.now.deleted.items))
        (said_counts (env_of envelope.now).count) w))) }
{
    match (envelope.kind, base) {
        (Kind::Full, _) | (_, None) => Ok(None),
        (_, Some(base)) => base.wrong_count(alloc, envelope, files),
    }
}
