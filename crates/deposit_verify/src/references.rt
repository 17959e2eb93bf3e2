//! Whether whatever an object names is there.
ghost use Rattle.std.specs.List.Sorted.{IsSorted};
ghost use Rattle.std.specs.Prelude.{◌<◌, ◌↔◌, All, IfOk, IsTrue, length};
ghost use Rattle.dnrd_csv.specs.inside.RowKeys.{borrowed_texts};
ghost use Rattle.dnrd_csv.specs.Table.{columns_of};
ghost use Rattle.deposit_verify.specs.inside.SortedKeys.{AreSortedKeys, borrowed_text_cmp};
ghost use Rattle.deposit_verify.specs.References.{AreReferencesKept, ContactsAreThere, DomainsAreThere, HostsAreThere, IsKeyIn, RegistrarsAreThere, column as texts_in};
ghost use Rattle.deposit_verify.specs.Tables.{AreAllTables, table_of};

use crate::keys::{has_key, sorted_keys};
use crate::places::table;
use deposit_name::TableName;
use dnrd_csv::Rows;
use std::alloc::{AllocError, Global};

/// The keys of a table, in ascending order.
pub(crate) fn keys_of<'t>(
    alloc: Global,
    tables: &'t [Rows],
    name: TableName,
) -> Result<Vec<&'t [u8]>, AllocError>
    requires { AreAllTables tables.now }
    ensures { IfOk result (λ keys. AreSortedKeys keys.items (table_of tables.now name)) }
{
    sorted_keys(alloc, table(tables, name))
}

/// Whether a text is one of the keys, which ascend, or empty where it may be.
pub(crate) fn is_key_in(keys: &[&[u8]], text: &[u8], may_be_empty: bool) -> bool
    requires { IsSorted borrowed_text_cmp keys.now }
    ensures { IsTrue result ↔ IsKeyIn may_be_empty (borrowed_texts keys.now) text.now }
{
    if may_be_empty && text.is_empty() {
        return true;
    }
    has_key(keys, text)
}

// Whether each text of a column is a key of a table, whose keys are given in ascending order, or empty where it may be.
fn are_keys(
    tables: &[Rows],
    of: TableName,
    keys: &[&[u8]],
    name: TableName,
    column: usize,
    may_be_empty: bool,
) -> bool
    requires tables { AreAllTables tables.now }
    requires keys { AreSortedKeys keys.now (table_of tables.now of) }
    requires column { column < length (columns_of name) }
    ensures { IsTrue result ↔ All (IsKeyIn may_be_empty (texts_in 0 (table_of tables.now of))) (texts_in column (table_of tables.now name)) }
{
    let rows = table(tables, name);
    for i in 0..rows.len() {
        if !is_key_in(keys, rows.field(i, column), may_be_empty) {
            return false;
        }
    }
    true
}

fn registrars_are_there(alloc: Global, tables: &[Rows]) -> Result<bool, AllocError>
    requires { AreAllTables tables.now }
    ensures { IfOk result (λ there. IsTrue there ↔ RegistrarsAreThere (table_of tables.now)) }
{
    let of = TableName::Registrar;
    let keys = keys_of(alloc, tables, of)?;
    Ok(
        are_keys(tables, of, &keys, TableName::Domain, 3, false)
            && are_keys(tables, of, &keys, TableName::Host, 2, false)
            && are_keys(tables, of, &keys, TableName::Contact, 2, false),
    )
}

fn contacts_are_there(alloc: Global, tables: &[Rows]) -> Result<bool, AllocError>
    requires { AreAllTables tables.now }
    ensures { IfOk result (λ there. IsTrue there ↔ ContactsAreThere (table_of tables.now)) }
{
    let of = TableName::Contact;
    let keys = keys_of(alloc, tables, of)?;
    Ok(
        are_keys(tables, of, &keys, TableName::Domain, 2, true)
            && are_keys(tables, of, &keys, TableName::DomainContacts, 2, false),
    )
}

fn domains_are_there(alloc: Global, tables: &[Rows]) -> Result<bool, AllocError>
    requires { AreAllTables tables.now }
    ensures { IfOk result (λ there. IsTrue there ↔ DomainsAreThere (table_of tables.now)) }
{
    let of = TableName::Domain;
    let keys = keys_of(alloc, tables, of)?;
    Ok(
        are_keys(tables, of, &keys, TableName::DomainContacts, 0, false)
            && are_keys(tables, of, &keys, TableName::DomainStatuses, 0, false)
            && are_keys(tables, of, &keys, TableName::DomainNameServers, 0, false),
    )
}

fn hosts_are_there(alloc: Global, tables: &[Rows]) -> Result<bool, AllocError>
    requires { AreAllTables tables.now }
    ensures { IfOk result (λ there. IsTrue there ↔ HostsAreThere (table_of tables.now)) }
{
    let of = TableName::Host;
    let keys = keys_of(alloc, tables, of)?;
    Ok(
        are_keys(tables, of, &keys, TableName::DomainNameServers, 1, false)
            && are_keys(tables, of, &keys, TableName::HostAddresses, 0, false),
    )
}

/// Whether whatever an object of a full deposit names is there.
pub fn are_references_kept(alloc: Global, tables: &[Rows]) -> Result<bool, AllocError>
    requires { AreAllTables tables.now }
    ensures { IfOk result (λ kept. IsTrue kept ↔ AreReferencesKept (table_of tables.now)) }
{
    Ok(
        registrars_are_there(alloc, tables)?
            && contacts_are_there(alloc, tables)?
            && domains_are_there(alloc, tables)?
            && hosts_are_there(alloc, tables)?,
    )
}
