//! A table in memory by registry: the rows of each registry stand in a table of their own, so that one row more moves none
//! of another registry.
ghost use Rattle.std.specs.Prelude.{◌≡◌, ℕ, List, length, true, None, IsSome, IfOk, OnOk, OnErr, IfSome, option_map, option_copied};
ghost use Rattle.std.specs.Iterator.{YieldsFirstRef, item_count};
ghost use Rattle.std.specs.FinMap.{empty, entries, get, insert};
ghost use Rattle.std.specs.List.{filter};
ghost use Rattle.std.specs.List.Sorted.{IsSearchInRange, IsBinarySearchResult};
ghost use Rattle.std.specs.Ordering.{is_eq};
ghost use Rattle.custody_records.specs.Form.{keyed_map};
ghost use Rattle.custody_records.specs.Keys.{text_cmp};
ghost use Rattle.custody_records.specs.Tables.{row_entries, is_rising, table_map};

use crate::tables::{Group, OfRegistry, SortedRows};
use deposit_name::Tld;
use std::alloc::{AllocError, Global};

/// The rows of one registry.
#[derive(Debug, Drop)]
pub struct RegistryRows<T: OfRegistry> {
    tld: Tld,
    rows: SortedRows<T>,
    ghost own: { (key : T.Key) → IsSome (get (table_map T.order T.key_of T.value_of rows.rows.items) key) → T.registry_of key ≡ tld },
}

/// Rows in the order of their keys, each key once, by registry.
#[derive(Debug, Drop)]
pub struct RowsByRegistry<T: OfRegistry> {
    registries: Vec<RegistryRows<T>>,
    ghost rising: { is_rising text_cmp (λ r. r.tld) registries.items ≡ true },
}

impl<T: OfRegistry> RowsByRegistry<T> {
    ghost use Rattle.custody_records.specs.RegistryRows.{HasRoomOf, all_rows, rows_left};

    /// A table with no row.
    pub(crate) fn new(alloc: Global) -> RowsByRegistry<T>
        ensures { table_map T.order T.key_of T.value_of (all_rows result) ≡ empty }
    {
        RowsByRegistry {
            registries: Vec::new(alloc),
        }
    }

    /// The table of these rows, which stand in any order; none where two have one key.
    pub(crate) fn of_list(
        alloc: Global,
        rows: Vec<T>,
    ) -> Result<Option<RowsByRegistry<T>>, AllocError>
        ensures { IfOk result (λ found. option_map (λ table. table_map T.order T.key_of T.value_of (all_rows table)) found ≡ keyed_map T.order T.key_of T.value_of rows.items) }
    {
        let Some(sorted) = SortedRows::of_list(rows) else {
            return Ok(None);
        };
        Ok(Some(RowsByRegistry::of_sorted(alloc, sorted)?))
    }

    fn of_sorted(alloc: Global, sorted: SortedRows<T>) -> Result<RowsByRegistry<T>, AllocError>
        ensures { IfOk result (λ table. table_map T.order T.key_of T.value_of (all_rows table) ≡ table_map T.order T.key_of T.value_of sorted.rows.items) }
    {
        let mut table = RowsByRegistry::new(alloc);
        for row in sorted.rows {
            table.try_reserve(alloc, &T::registry(&row.key()))?;
            table.add(row);
        }
        Ok(table)
    }

    /// The rows, by their keys.
    pub(crate) fn all(&self) -> AllRows<'_, T>
        ensures all { rows_left result ≡ all_rows self.now }
        ensures rising { is_rising T.order T.key_of (rows_left result) ≡ true }
    {
        AllRows {
            rows: &[],
            others: &self.registries,
        }
    }

    /// Where the rows of a registry are, or where they would go.
    fn place_of(&self, tld: &Tld) -> Result<usize, usize>
        ensures range { IsSearchInRange result (length self.now.registries.items) }
        ensures place { IsBinarySearchResult (λ r. text_cmp r.tld tld.now) self.now.registries.items result }
    {
        self.registries
            .binary_search_by(|rows| rows.tld.as_bytes().cmp(tld.as_bytes()))
    }

    /// The rows of a registry.
    fn rows_of(&self, tld: &Tld) -> Option<&SortedRows<T>>
        ensures { option_map (λ rows. table_map T.order T.key_of T.value_of rows.now.rows.items) result
            ≡ get (table_map text_cmp (λ r. r.tld) (λ r. table_map T.order T.key_of T.value_of r.rows.rows.items) self.now.registries.items) tld.now }
    {
        match self.place_of(tld) {
            Ok(place) => Some(&self.registries[place].rows),
            Err(_) => None,
        }
    }

    /// The row of that key.
    pub(crate) fn find(&self, sought: &T::Key) -> Option<&T>
        ensures found { option_map T.value_of (option_copied result) ≡ get (table_map T.order T.key_of T.value_of (all_rows self.now)) sought.now }
        ensures key { IfSome result (λ row. T.key_of row.now ≡ sought.now) }
    {
        self.rows_of(&T::registry(sought))?.find(sought)
    }

    /// The rows of a group, which stand together.
    pub(crate) fn group<G: Group<T>>(&self, group: &G) -> &[T]
        ensures { row_entries T.key_of T.value_of result.now ≡ filter (λ e. is_eq (G.place group.now e.0)) (entries (table_map T.order T.key_of T.value_of (all_rows self.now))) }
    {
        match self.rows_of(&group.registry()) {
            Some(rows) => rows.group(group),
            None => &[],
        }
    }

    /// Makes room for one more row of a registry.
    pub(crate) fn try_reserve(&mut self, alloc: Global, tld: &Tld) -> Result<(), AllocError>
        ensures same { table_map T.order T.key_of T.value_of (all_rows self.new) ≡ table_map T.order T.key_of T.value_of (all_rows self.old) }
        ensures room { OnOk result (HasRoomOf tld.now self.new) }
        ensures no_memory { OnErr result (¬ HasRoomOf tld.now self.old) }
    {
        match self.place_of(tld) {
            Ok(place) => self.registries[place].rows.try_reserve(),
            Err(place) => {
                let tld = *tld;
                let mut rows = SortedRows::new(alloc);
                rows.try_reserve()?;
                self.registries.insert(place, RegistryRows { tld, rows })?;
                Ok(())
            }
        }
    }

    /// Adds a row of a new key, without taking memory.
    pub(crate) fn add(&mut self, row: T)
        requires room { HasRoomOf (T.registry_of (T.key_of row)) self.old }
        requires new { get (table_map T.order T.key_of T.value_of (all_rows self.old)) (T.key_of row) ≡ None }
        ensures { table_map T.order T.key_of T.value_of (all_rows self.new) ≡ insert (table_map T.order T.key_of T.value_of (all_rows self.old)) (T.key_of row) (T.value_of row) }
    {
        match self.place_of(&T::registry(&row.key())) {
            Ok(place) => self.registries[place].rows.add(row),
            Err(_) => unreachable!(),
        }
    }

    /// Puts a row in the place of the one that has its key.
    pub(crate) fn replace(&mut self, row: T)
        requires there { IsSome (get (table_map T.order T.key_of T.value_of (all_rows self.old)) (T.key_of row)) }
        ensures { table_map T.order T.key_of T.value_of (all_rows self.new) ≡ insert (table_map T.order T.key_of T.value_of (all_rows self.old)) (T.key_of row) (T.value_of row) }
    {
        match self.place_of(&T::registry(&row.key())) {
            Ok(place) => self.registries[place].rows.replace(row),
            Err(_) => unreachable!(),
        }
    }
}

/// The rows of all registries, in the order of their keys.
#[derive(Debug, Drop)]
pub struct AllRows<'a, T: OfRegistry> {
    rows: &'a [T],
    others: &'a [RegistryRows<T>],
}

impl<'a, T: OfRegistry> Iterator for AllRows<'a, T> {
    ghost use Rattle.custody_records.specs.RegistryRows.{rows_left};

    type Item = &'a T;

    ghost next_gives = { YieldsFirstRef rows_left };

    ghost remaining = { item_count rows_left };

    fn next(&mut self) -> Option<&'a T> {
        while self.rows.is_empty() {
            let (first, others) = self.others.split_first()?;
            self.rows = first.rows.rows();
            self.others = others;
        }
        let (first, rows) = self.rows.split_first()?;
        self.rows = rows;
        Some(first)
    }
}
