//! The first field that names a key which is not there.
ghost use Rattle.std.specs.Prelude.{◌<◌, ◌↔◌, ℕ, List, [], ◌∷◌, ◌++◌, All, IfOk, IsTrue, MatchOption, length};
ghost use Rattle.dnrd_csv.specs.Table.{columns_of};
ghost use Rattle.deposit_verify.specs.inside.Reasons.{IsFirstFound, IsFirstRow};
ghost use Rattle.deposit_verify.specs.inside.SortedKeys.{AreSortedKeys};
ghost use Rattle.deposit_verify.specs.Tables.{AreAllTables, table_of};
ghost use Rattle.deposit_verify.specs.TablesReasons.{IsBefore, IsFirstNoKey, IsKept, IsNoKeyAt, reference_rules};

use crate::key_set::owned_copy;
use crate::places::{table, table_place};
use crate::references::{is_key_in, keys_of};
use crate::tables_reason::NoKey;
use deposit_name::TableName;
use dnrd_csv::Rows;
use std::alloc::{AllocError, Global};

/// A rule: each field of a column names a key of a table, or is empty where it may be.
#[derive(Clone, Copy)]
pub(crate) struct Rule {
    pub table: TableName,
    pub column: usize,
    pub of: TableName,
    pub may_be_empty: bool,
}

/// A row that breaks a rule.
#[derive(Clone, Copy)]
pub(crate) struct Breach {
    pub rule: Rule,
    pub row: usize,
}

const RULES: [Rule; 10] = [
    Rule {
        table: TableName::Domain,
        column: 2,
        of: TableName::Contact,
        may_be_empty: true,
    },
    Rule {
        table: TableName::Domain,
        column: 3,
        of: TableName::Registrar,
        may_be_empty: false,
    },
    Rule {
        table: TableName::DomainContacts,
        column: 0,
        of: TableName::Domain,
        may_be_empty: false,
    },
    Rule {
        table: TableName::DomainContacts,
        column: 2,
        of: TableName::Contact,
        may_be_empty: false,
    },
    Rule {
        table: TableName::DomainStatuses,
        column: 0,
        of: TableName::Domain,
        may_be_empty: false,
    },
    Rule {
        table: TableName::DomainNameServers,
        column: 0,
        of: TableName::Domain,
        may_be_empty: false,
    },
    Rule {
        table: TableName::DomainNameServers,
        column: 1,
        of: TableName::Host,
        may_be_empty: false,
    },
    Rule {
        table: TableName::Host,
        column: 2,
        of: TableName::Registrar,
        may_be_empty: false,
    },
    Rule {
        table: TableName::HostAddresses,
        column: 0,
        of: TableName::Host,
        may_be_empty: false,
    },
    Rule {
        table: TableName::Contact,
        column: 2,
        of: TableName::Registrar,
        may_be_empty: false,
    },
];

// The first row that breaks a rule, where the keys that it is about are given in ascending order.
fn first_row(tables: &[Rows], rule: Rule, keys: &[&[u8]]) -> Option<usize>
    requires tables { AreAllTables tables.now }
    requires keys { AreSortedKeys keys.now (table_of tables.now rule.of) }
    requires column { rule.column < length (columns_of rule.table) }
    ensures { MatchOption result (IsKept (table_of tables.now) rule) (IsFirstRow (table_of tables.now) rule) }
{
    let rows = table(tables, rule.table);
    for i in 0..rows.len() {
        if !is_key_in(keys, rows.field(i, rule.column), rule.may_be_empty) {
            return Some(i);
        }
    }
    None
}

// The first row that breaks a rule.
fn breach_of(alloc: Global, tables: &[Rows], rule: Rule) -> Result<Option<Breach>, AllocError>
    requires tables { AreAllTables tables.now }
    requires column { rule.column < length (columns_of rule.table) }
    ensures { IfOk result (IsFirstFound (table_of tables.now) (rule ∷ [])) }
{
    let keys = keys_of(alloc, tables, rule.of)?;
    match first_row(tables, rule, &keys) {
        Some(row) => Ok(Some(Breach { rule, row })),
        None => Ok(None),
    }
}

fn is_before(one: Breach, other: Breach) -> bool
    ensures { IsTrue result ↔ IsBefore one other }
{
    let place = table_place(one.rule.table);
    let other_place = table_place(other.rule.table);
    place < other_place
        || (one.rule.table == other.rule.table
            && (one.row < other.row
                || (one.row == other.row && one.rule.column < other.rule.column)))
}

// Of two places the earlier one: if these are the first that break some rules and others, it is the first of all.
fn earlier(one: Option<Breach>, other: Option<Breach>) -> Option<Breach>
    ensures { (tables : TableName → List (List (List ℕ))) (some more : List Rule) → IsFirstFound tables some one
        → IsFirstFound tables more other → IsFirstFound tables (some ++ more) result }
{
    match (one, other) {
        (Some(one), Some(other)) => Some(if is_before(other, one) { other } else { one }),
        (Some(one), None) => Some(one),
        (None, other) => other,
    }
}

fn first_breach(alloc: Global, tables: &[Rows]) -> Result<Option<Breach>, AllocError>
    requires { AreAllTables tables.now }
    ensures { IfOk result (IsFirstFound (table_of tables.now) reference_rules) }
{
    let mut first = None;
    for rule in RULES {
        first = earlier(first, breach_of(alloc, tables, rule)?);
    }
    Ok(first)
}

// The field at a place.
fn no_key_at(alloc: Global, tables: &[Rows], breach: Breach) -> Result<NoKey, AllocError>
    requires tables { AreAllTables tables.now }
    requires row { breach.row < length (table_of tables.now breach.rule.table) }
    requires column { breach.rule.column < length (columns_of breach.rule.table) }
    ensures { IfOk result (IsNoKeyAt (table_of tables.now) breach) }
{
    let Rule {
        table: name,
        column,
        of,
        ..
    } = breach.rule;
    let key = owned_copy(alloc, table(tables, name).field(breach.row, column))?;
    Ok(NoKey {
        table: name,
        row: breach.row,
        column,
        of,
        key,
    })
}

/// The first field of a full deposit that names a key which is not there.
pub(crate) fn first_no_key(alloc: Global, tables: &[Rows]) -> Result<Option<NoKey>, AllocError>
    requires { AreAllTables tables.now }
    ensures { IfOk result (λ found. MatchOption found (All (IsKept (table_of tables.now)) reference_rules)
        (IsFirstNoKey (table_of tables.now))) }
{
    match first_breach(alloc, tables)? {
        Some(breach) => Ok(Some(no_key_at(alloc, tables, breach)?)),
        None => Ok(None),
    }
}
