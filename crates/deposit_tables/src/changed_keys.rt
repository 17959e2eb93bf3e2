//! The objects of a registry that are not the same as before.
ghost use Rattle.std.specs.Prelude.{◌≡◌, ◌≤◌, ◌<◌, ◌↔◌, [], ℕ, All, Contains, IfOk, IsTrue, List, OnOk, get_or, length, map};
ghost use Rattle.std.specs.List.Sorted.{IsSortedBy};
ghost use Rattle.dnrd_csv.specs.Table.{HaveWidth};
ghost use Rattle.dnrd_csv.specs.inside.RowKeys.{borrowed_texts};
ghost use Rattle.deposit_verify.specs.Tables.{AreAllTables, table_of};
ghost use Rattle.deposit_tables.specs.Unchanged.{HasSameRows, IsSame, IsUnchanged};
ghost use Rattle.deposit_tables.specs.inside.Changing.{AreAdded, AreChangedKeys, HasOwnRow, KeysAscend, changed_keys_of};
ghost use Rattle.deposit_tables.specs.inside.Places.{ArePlaces, is_below};

use crate::order::{compare_to, fields_at, sorted_places};
use crate::owners::{owner_table, table_name_at};
use deposit_name::TableName;
use dnrd_csv::{Rows, columns};
use std::alloc::{AllocError, Global};

// Whether a table, of whose rows these are the places in ascending order, has a row of another one.
fn has_row(rows: &Rows, places: &[usize], width: usize, other: &Rows, row: usize) -> bool
    requires most { width ≤ 6 }
    requires width { HaveWidth width rows.now }
    requires other { HaveWidth width other.now }
    requires inside { row < length other.now }
    requires places { ArePlaces (length rows.now) places.now }
    requires sorted { IsSortedBy (is_below rows.now) places.now }
    ensures { IsTrue result ↔ Contains rows.now (get_or other.now row []) }
{
    let sought = fields_at(other, width, row);
    places
        .binary_search_by(|place| compare_to(rows, width, *place, &sought))
        .is_ok()
}

// Adds the keys of the objects that have a row in one table and not in the other.
fn push_own<'t>(
    alloc: Global,
    one: &'t Rows,
    other: &Rows,
    width: usize,
    keys: &mut Vec<&'t [u8]>,
) -> Result<(), AllocError>
    requires some { 2 ≤ width }
    requires most { width ≤ 6 }
    requires one { HaveWidth width one.now }
    requires other { HaveWidth width other.now }
    ensures { OnOk result (AreAdded (borrowed_texts keys.old.items) (borrowed_texts keys.new.items) (HasOwnRow one.now other.now)) }
{
    let places = sorted_places(alloc, other, width)?;
    for row in 0..one.len() {
        if !has_row(other, &places, width, one, row) {
            keys.push(one.field(row, 0))?;
        }
    }
    Ok(())
}

// Adds the keys of the objects that do not have the same rows in two tables.
fn push_different<'t>(
    alloc: Global,
    old: &'t Rows,
    new: &'t Rows,
    width: usize,
    keys: &mut Vec<&'t [u8]>,
) -> Result<(), AllocError>
    requires some { 2 ≤ width }
    requires most { width ≤ 6 }
    requires old { HaveWidth width old.now }
    requires new { HaveWidth width new.now }
    ensures { OnOk result (AreAdded (borrowed_texts keys.old.items) (borrowed_texts keys.new.items) (λ key. ¬ HasSameRows old.now new.now key)) }
{
    push_own(alloc, old, new, width, keys)?;
    push_own(alloc, new, old, width, keys)
}

// Adds the keys of the objects of a table that are not the same as before.
fn push_changed<'t>(
    alloc: Global,
    old: &'t [Rows],
    new: &'t [Rows],
    owner: TableName,
    keys: &mut Vec<&'t [u8]>,
) -> Result<(), AllocError>
    requires old { AreAllTables old.now }
    requires new { AreAllTables new.now }
    ensures { OnOk result (AreAdded (borrowed_texts keys.old.items) (borrowed_texts keys.new.items) (λ key. ¬ IsSame (table_of old.now) (table_of new.now) owner key)) }
{
    for place in 0..8 {
        let name = table_name_at(place);
        if owner_table(name) == owner {
            let width = columns(name).len();
            push_different(alloc, &old[place], &new[place], width, keys)?;
        }
    }
    Ok(())
}

// The keys of the objects of a table that are not the same as in each of some earlier tables, ascending.
fn keys_of_owner<'t>(
    alloc: Global,
    olds: &[&'t [Rows]],
    new: &'t [Rows],
    owner: TableName,
) -> Result<Vec<&'t [u8]>, AllocError>
    requires olds { All (λ old. AreAllTables old.now) olds.now }
    requires new { AreAllTables new.now }
    ensures ascend { IfOk result (λ keys. KeysAscend (borrowed_texts keys.items)) }
    ensures same { IfOk result (λ keys. (key : List ℕ) → Contains (borrowed_texts keys.items) key
        ↔ ¬ IsUnchanged (map (λ old. table_of old.now) olds.now) (table_of new.now) owner key) }
{
    let mut keys = Vec::new(alloc);
    for old in olds {
        push_changed(alloc, old, new, owner, &mut keys)?;
    }
    keys.sort_unstable();
    keys.dedup();
    Ok(keys)
}

/// The keys of the objects that are new, changed or gone, ascending.
#[derive(Drop)]
pub struct ChangedKeys<'t> {
    domains: Vec<&'t [u8]>,
    hosts: Vec<&'t [u8]>,
    contacts: Vec<&'t [u8]>,
    registrars: Vec<&'t [u8]>,
}

impl<'t> ChangedKeys<'t> {
    /// Those of objects that are not the same in all eight tables as in each of some earlier ones.
    pub fn of(
        alloc: Global,
        olds: &[&'t [Rows]],
        new: &'t [Rows],
    ) -> Result<ChangedKeys<'t>, AllocError>
        requires olds { All (λ old. AreAllTables old.now) olds.now }
        requires new { AreAllTables new.now }
        ensures { IfOk result (AreChangedKeys (map (λ old. table_of old.now) olds.now) (table_of new.now)) }
    {
        Ok(ChangedKeys {
            domains: keys_of_owner(alloc, olds, new, TableName::Domain)?,
            hosts: keys_of_owner(alloc, olds, new, TableName::Host)?,
            contacts: keys_of_owner(alloc, olds, new, TableName::Contact)?,
            registrars: keys_of_owner(alloc, olds, new, TableName::Registrar)?,
        })
    }

    /// Those of the objects whose rows a table has.
    pub fn owners_in(&self, name: TableName) -> &[&'t [u8]]
        ensures { borrowed_texts result.now ≡ changed_keys_of self.now name }
    {
        match owner_table(name) {
            TableName::Host => &self.hosts,
            TableName::Contact => &self.contacts,
            TableName::Registrar => &self.registrars,
            _ => &self.domains,
        }
    }
}
