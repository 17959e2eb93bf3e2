//! A table in memory: rows in the order of their keys, each key once.
ghost use Rattle.std.specs.Prelude.{◌≡◌, ◌≤◌, ℕ, List, length, true, None, IsSome, IfSome, OnOk, OnErr, option_map, option_copied};
ghost use Rattle.std.specs.Cmp.{IsTotalOrder};
ghost use Rattle.std.specs.FinMap.{IsAntisymmetric, empty, entries, get, insert};
ghost use Rattle.std.specs.List.{filter};
ghost use Rattle.std.specs.List.Sorted.{IsSearchInRange, IsBinarySearchResult};
ghost use Rattle.std.specs.Ordering.{is_eq, ordering_index};
ghost use Rattle.std.specs.declared.cmp.Ordering.{Ordering};
ghost use Rattle.std.specs.declared.cmp.Ordering.TheVariants.{Equal, Less};
ghost use Rattle.custody_records.specs.Form.{keyed_map};
ghost use Rattle.custody_records.specs.Keys.{text_cmp};
ghost use Rattle.custody_records.specs.Tables.{HasRoom, row_entries, is_rising, table_map};

use deposit_name::Tld;
use std::alloc::{AllocError, Global};
use std::cmp::Ordering;

/// A row that is found by its key.
pub trait Keyed: Drop {
    type Key: Drop;

    ghost key_of: { Self → Self.Key };

    ghost order: { Self.Key → Self.Key → Ordering };

    // What the row records of its key.
    ghost Value: { Type 0 };

    ghost value_of: { Self → Value };

    /// The row's key.
    fn key(&self) -> Self::Key
        ensures { result ≡ key_of self.now };

    /// How the row's key compares with another.
    fn compare(&self, sought: &Self::Key) -> Ordering
        ensures { result ≡ order (key_of self.now) sought.now };

    ghost total: { IsTotalOrder order };

    ghost exact: { IsAntisymmetric order };
}

/// A row of a registry. The order of the rows is first that of their registries.
pub trait OfRegistry: Keyed {
    ghost registry_of: { Self.Key → List ℕ };

    /// The registry of the rows of that key.
    fn registry(key: &Self::Key) -> Tld
        ensures { result ≡ registry_of key.now };

    ghost by_registry: { (a b : Self.Key) → text_cmp (registry_of a) (registry_of b) ≡ Less → Self.order a b ≡ Less };
}

/// A group of rows that stand together in their table: those of a registry whose keys begin with the same fields.
pub trait Group<T: OfRegistry> {
    ghost place: { Self → T.Key → Ordering };

    ghost group_registry: { Self → List ℕ };

    /// Whether the row stands before the group, in it or behind it.
    fn compare(&self, row: &T) -> Ordering
        ensures { result ≡ place self.now (T.key_of row.now) };

    /// The registry of the rows.
    fn registry(&self) -> Tld
        ensures { result ≡ group_registry self.now };

    // A row stands no further behind the group than the rows behind it.
    ghost ascends: { (group : Self) (a b : T.Key) → T.order a b ≡ Less → ordering_index (place group a) ≤ ordering_index (place group b) };

    ghost of_one: { (group : Self) (key : T.Key) → place group key ≡ Equal → T.registry_of key ≡ group_registry group };
}

/// Rows in the order of their keys, each key once.
#[derive(Debug, Drop)]
pub struct SortedRows<T: Keyed> {
    pub(crate) rows: Vec<T>,
    ghost rising: { is_rising T.order T.key_of rows.items ≡ true },
}

impl<T: Keyed> SortedRows<T> {
    /// A table with no row.
    pub(crate) fn new(alloc: Global) -> SortedRows<T>
        ensures { table_map T.order T.key_of T.value_of result.rows.items ≡ empty }
    {
        SortedRows {
            rows: Vec::new(alloc),
        }
    }

    /// The table of these rows, which stand in any order; none where two have one key.
    pub(crate) fn of_list(rows: Vec<T>) -> Option<SortedRows<T>>
        ensures { option_map (λ table. table_map T.order T.key_of T.value_of table.rows.items) result ≡ keyed_map T.order T.key_of T.value_of rows.items }
    {
        let mut rows = rows;
        rows.sort_unstable_by(|one, other| one.compare(&other.key()));
        if rows.is_sorted_by(|one, other| one.compare(&other.key()).is_lt()) {
            Some(SortedRows { rows })
        } else {
            None
        }
    }

    /// The rows, by their keys.
    pub(crate) fn rows(&self) -> &[T]
        ensures all { result.now ≡ self.now.rows.items }
        ensures rising { is_rising T.order T.key_of result.now ≡ true }
    {
        &self.rows
    }

    /// Where the row of that key is, or where it would go.
    fn place_of(&self, sought: &T::Key) -> Result<usize, usize>
        ensures range { IsSearchInRange result (length self.now.rows.items) }
        ensures place { IsBinarySearchResult (λ row. T.order (T.key_of row) sought.now) self.now.rows.items result }
    {
        self.rows.binary_search_by(|row| row.compare(sought))
    }

    /// The row of that key.
    pub(crate) fn find(&self, sought: &T::Key) -> Option<&T>
        ensures found { option_map T.value_of (option_copied result) ≡ get (table_map T.order T.key_of T.value_of self.now.rows.items) sought.now }
        ensures key { IfSome result (λ row. T.key_of row.now ≡ sought.now) }
    {
        match self.place_of(sought) {
            Ok(place) => Some(&self.rows[place]),
            Err(_) => None,
        }
    }

    /// Makes room for one more row.
    pub(crate) fn try_reserve(&mut self) -> Result<(), AllocError>
        ensures same { self.new.rows.items ≡ self.old.rows.items }
        ensures room { OnOk result (HasRoom self.new.rows) }
        ensures no_memory { OnErr result (¬ HasRoom self.old.rows) }
    {
        self.rows.try_reserve(1)
    }

    /// Adds a row of a new key, without taking memory.
    pub(crate) fn add(&mut self, row: T)
        requires room { HasRoom self.old.rows }
        requires new { get (table_map T.order T.key_of T.value_of self.old.rows.items) (T.key_of row) ≡ None }
        ensures { table_map T.order T.key_of T.value_of self.new.rows.items ≡ insert (table_map T.order T.key_of T.value_of self.old.rows.items) (T.key_of row) (T.value_of row) }
    {
        match self.place_of(&row.key()) {
            Err(place) => {
                let _ = self.rows.insert(place, row);
            }
            Ok(_) => unreachable!(),
        }
    }

    /// Puts a row in the place of the one that has its key.
    pub(crate) fn replace(&mut self, row: T)
        requires there { IsSome (get (table_map T.order T.key_of T.value_of self.old.rows.items) (T.key_of row)) }
        ensures { table_map T.order T.key_of T.value_of self.new.rows.items ≡ insert (table_map T.order T.key_of T.value_of self.old.rows.items) (T.key_of row) (T.value_of row) }
    {
        match self.place_of(&row.key()) {
            Ok(place) => self.rows[place] = row,
            Err(_) => unreachable!(),
        }
    }
}

impl<T: OfRegistry> SortedRows<T> {
    /// The rows of a group, which stand together.
    pub(crate) fn group<G: Group<T>>(&self, group: &G) -> &[T]
        ensures { row_entries T.key_of T.value_of result.now ≡ filter (λ e. is_eq (G.place group.now e.0)) (entries (table_map T.order T.key_of T.value_of self.now.rows.items)) }
    {
        let start = self.rows.partition_point(|row| group.compare(row).is_lt());
        let rest = &self.rows[start..];
        let count = rest.partition_point(|row| group.compare(row).is_le());
        &rest[..count]
    }
}
