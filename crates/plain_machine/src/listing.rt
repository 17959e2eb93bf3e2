//! Parts in the order of their places.
ghost use Rattle.std.specs.Prelude.{◌≡◌, ◌&&◌, true, None, length, map, IfOk, OnOk, bytes_eq};
ghost use Rattle.std.specs.FinMap.{from_entries, get, insert};
ghost use Rattle.std.specs.List.{filter_map};
ghost use Rattle.std.specs.List.Sorted.{IsSearchInRange, IsBinarySearchResult};
ghost use Rattle.custody_records.specs.Keys.{part_cmp};
ghost use Rattle.custody_records.specs.Records.{key_of};
ghost use Rattle.custody_records.specs.Tables.{is_rising};
ghost use Rattle.plain_machine.specs.inside.Listing.{listed_entry, listed_key, listed_name, listed_value, listing_view};
ghost use Rattle.plain_machine.specs.DistinctPlaces.{have_distinct_places};

use crate::state::PlainPart;
use custody_records::{Names, PartKey};
use deposit_name::{DepositName, Tld};
use std::alloc::{AllocError, Global};
use std::cmp::Ordering;

/// A part, and whether its bytes are held.
#[derive(Clone, Copy)]
pub(crate) struct ListedPart {
    pub(crate) name: DepositName,
    pub(crate) is_held: bool,
}

/// Parts in the order of their places, each place once.
#[derive(Drop)]
pub(crate) struct Listing {
    rows: Vec<ListedPart>,
    ghost rising: { is_rising part_cmp listed_key rows.items ≡ true },
}

impl Listing {
    /// Those of a list.
    pub(crate) fn of(alloc: Global, parts: &[PlainPart]) -> Result<Listing, AllocError>
        requires { have_distinct_places parts.now ≡ true }
        ensures { IfOk result (λ listing. listing_view listing.rows.items ≡ from_entries (map listed_entry parts.now)) }
    {
        match parts {
            [] => Ok(Listing {
                rows: Vec::new(alloc),
            }),
            [first, rest @ ..] => {
                let mut listing = Listing::of(alloc, rest)?;
                listing.add(row_of(first))?;
                Ok(listing)
            }
        }
    }

    // Where the part of that place is, or where it would go.
    fn place_of(&self, sought: &PartKey) -> Result<usize, usize>
        ensures range { IsSearchInRange result (length self.now.rows.items) }
        ensures place { IsBinarySearchResult (λ row. part_cmp (listed_key row) sought.now) self.now.rows.items result }
    {
        self.rows.binary_search_by(|row| compare(row, sought))
    }

    /// Adds a part of a new place.
    fn add(&mut self, row: ListedPart) -> Result<(), AllocError>
        requires new { get (listing_view self.old.rows.items) (key_of row.name) ≡ None }
        ensures { OnOk result (listing_view self.new.rows.items ≡ insert (listing_view self.old.rows.items) (listed_key row) (listed_value row)) }
    {
        match self.place_of(&PartKey::of(&row.name)) {
            Err(place) => Ok(self.rows.insert(place, row)?),
            Ok(_) => unreachable!(),
        }
    }

    /// The parts.
    pub(crate) fn parts(&self) -> &[ListedPart]
        ensures { result.now ≡ self.now.rows.items }
    {
        &self.rows
    }

    /// The names of the parts of a registry whose bytes are held.
    pub(crate) fn held_names(&self, alloc: Global, tld: &Tld) -> Result<Names, AllocError>
        ensures { IfOk result (λ names. names ≡ filter_map (listed_name tld.now) self.now.rows.items) }
    {
        names_in(alloc, &self.rows, tld)
    }
}

fn row_of(part: &PlainPart) -> ListedPart
    ensures { (listed_key result, listed_value result) ≡ listed_entry part.now }
{
    ListedPart {
        name: part.name,
        is_held: !part.content.is_dropped(),
    }
}

fn compare(row: &ListedPart, sought: &PartKey) -> Ordering
    ensures { result ≡ part_cmp (listed_key row.now) sought.now }
{
    let name = &row.name;
    let registries = name.tld.as_bytes().cmp(sought.tld.as_bytes());
    let days = name.day.cmp(&sought.day);
    let revisions = name.rev.cmp(&sought.rev);
    let places = name.part.cmp(&sought.part);
    registries.then(days.then(revisions.then(places)))
}

fn names_in(alloc: Global, rows: &[ListedPart], tld: &Tld) -> Result<Names, AllocError>
    ensures { IfOk result (λ names. names ≡ filter_map (listed_name tld.now) rows.now) }
{
    let mut names = Names::new(alloc);
    for row in rows {
        if row.is_held_of(tld) {
            names.push(&row.name)?;
        }
    }
    Ok(names)
}

impl ListedPart {
    fn is_held_of(&self, tld: &Tld) -> bool
        ensures { result ≡ (bytes_eq self.now.name.tld tld.now && self.now.is_held) }
    {
        self.name.tld.as_bytes() == tld.as_bytes() && self.is_held
    }
}
