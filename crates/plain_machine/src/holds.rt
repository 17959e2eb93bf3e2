//! Holds in the order of their references.
ghost use Rattle.std.specs.Prelude.{◌≡◌, true, None, length, IfSome, IsSome, OnOk, OnErr, option_map};
ghost use Rattle.std.specs.List.Sorted.{IsSearchInRange, IsBinarySearchResult};
ghost use Rattle.std.specs.FinMap.{empty, get, insert};
ghost use Rattle.custody_records.specs.Keys.{text_cmp};
ghost use Rattle.custody_records.specs.Purge.{is_hold_of_part, is_on_hold};
ghost use Rattle.custody_records.specs.Records as records;
ghost use Rattle.custody_records.specs.Records.{key_of, lifted_at};
ghost use Rattle.custody_records.specs.Tables.{is_rising, table_map};
ghost use Rattle.custody_records.specs.TypedRecords.{hold_entry, hold_key, hold_value};

use crate::state::PlainPart;
use custody_records::Hold;
use deposit_name::Reference;
use schedule::Sec;
use std::alloc::{AllocError, Global};
use std::cmp::Ordering;

/// Holds in the order of their references, each reference once.
#[derive(Drop)]
pub struct PlainHolds {
    rows: Vec<Hold>,
    ghost rising: { is_rising text_cmp hold_key rows.items ≡ true },
}

impl PlainHolds {
    ghost use Rattle.plain_machine.specs.Plain.{holds_view};

    /// There are none yet.
    pub(crate) fn new(alloc: Global) -> PlainHolds
        ensures { holds_view result ≡ empty }
    {
        PlainHolds {
            rows: Vec::new(alloc),
        }
    }

    /// The holds.
    pub fn rows(&self) -> &[Hold]
        ensures all { holds_view self.now ≡ table_map text_cmp hold_key hold_value result.now }
        ensures rising { is_rising text_cmp hold_key result.now ≡ true }
    {
        &self.rows
    }

    // Where the hold of that reference is, or where it would go.
    fn place_of(&self, sought: &Reference) -> Result<usize, usize>
        ensures range { IsSearchInRange result (length self.now.rows.items) }
        ensures place { IsBinarySearchResult (λ row. text_cmp (hold_key row) sought.now) self.now.rows.items result }
    {
        self.rows.binary_search_by(|row| compare(row, sought))
    }

    /// The hold of that reference.
    pub(crate) fn find(&self, sought: &Reference) -> Option<&Hold>
        ensures found { option_map (λ h. hold_value h.now) result ≡ get (holds_view self.now) sought.now }
        ensures key { IfSome result (λ h. hold_key h.now ≡ sought.now) }
    {
        match self.place_of(sought) {
            Ok(place) => Some(&self.rows[place]),
            Err(_) => None,
        }
    }

    /// Adds a hold of a new reference.
    pub(crate) fn add(&mut self, hold: &Hold) -> Result<(), AllocError>
        requires new { get (holds_view self.old) (hold_key hold.now) ≡ None }
        ensures added { OnOk result (holds_view self.new ≡ insert (holds_view self.old) (hold_key hold.now) (hold_value hold.now)) }
        ensures same { OnErr result (self.new.rows.items ≡ self.old.rows.items) }
    {
        let lifted: Option<Sec> = hold.lifted;
        match self.place_of(&hold.reference) {
            Err(place) => Ok(self.rows.insert(place, Hold { lifted, ..*hold })?),
            Ok(_) => unreachable!(),
        }
    }

    /// Lifts the hold of a reference.
    pub(crate) fn lift(&mut self, reference: &Reference, at: Sec)
        requires there { IsSome (get (holds_view self.old) reference.now) }
        ensures { (hold : records.Hold) → get (holds_view self.old) reference.now ≡ Some hold → holds_view self.new ≡ insert (holds_view self.old) reference.now (lifted_at at hold) }
    {
        match self.place_of(reference) {
            Ok(place) => self.rows[place].lifted = Some(at),
            Err(_) => unreachable!(),
        }
    }

    /// Whether the part's day is on hold.
    pub(crate) fn hold(&self, part: &PlainPart) -> bool
        ensures { result ≡ is_on_hold (holds_view self.now) (key_of part.now.name) }
    {
        self.rows.iter().any(|row| is_hold_of_part(row, part))
    }
}

fn compare(row: &Hold, sought: &Reference) -> Ordering
    ensures { result ≡ text_cmp (hold_key row.now) sought.now }
{
    row.reference.as_bytes().cmp(sought.as_bytes())
}

// Whether the hold is of the part's registry and day, and not lifted.
fn is_hold_of_part(hold: &Hold, part: &PlainPart) -> bool
    ensures { result ≡ is_hold_of_part (key_of part.now.name) (hold_entry hold.now) }
{
    hold.lifted.is_none() && hold.tld == part.name.tld && hold.day == part.name.day
}
