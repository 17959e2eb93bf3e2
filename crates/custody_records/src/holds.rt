//! Holds of a registry's days.
ghost use Rattle.std.specs.Prelude.{◌≡◌, option_map};
ghost use Rattle.custody_records.specs.Form.{hold_in};
ghost use Rattle.custody_records.specs.Keys.{text_cmp};
ghost use Rattle.custody_records.specs.inside.Orders.{text_exact, text_total};
ghost use Rattle.custody_records.specs.Records as records;
ghost use Rattle.custody_records.specs.TypedRecords.{hold_entry, hold_key, hold_row, hold_value};

use crate::tables::Keyed;
use deposit_name::{Reference, Tld};
use schedule::{Day, Sec};
use std::cmp::Ordering;

/// A registry's day of which no part is dropped until the hold is lifted.
#[derive(Clone, Copy, Debug, PartialEq, Eq)]
pub struct Hold {
    pub reference: Reference,
    pub tld: Tld,
    pub day: Day,
    pub at: Sec,
    /// When it was lifted.
    pub lifted: Option<Sec>,
}

/// The columns of a row of the table of holds.
#[derive(Clone, Copy, Debug)]
pub struct HoldColumns<'a> {
    pub reference: &'a [u8],
    pub tld: &'a [u8],
    pub day: i64,
    pub at: i64,
    pub lifted: Option<i64>,
}

impl HoldColumns<'_> {
    /// The hold of the row, where its fields are in form.
    pub fn read(&self) -> Option<Hold>
        ensures { option_map hold_entry result ≡ hold_in (hold_row self.now) }
    {
        let reference = Reference::parse(self.reference)?;
        let tld = Tld::parse(self.tld)?;
        let day = Day::new(self.day)?;
        let at = Sec::new(self.at)?;
        let lifted = match self.lifted {
            Some(moment) => Some(Sec::new(moment)?),
            None => None,
        };
        Some(Hold {
            reference,
            tld,
            day,
            at,
            lifted,
        })
    }
}

impl Keyed for Hold {
    type Key = Reference;

    ghost key_of = { hold_key };

    ghost order = { text_cmp };

    ghost Value = { records.Hold };

    ghost value_of = { hold_value };

    ghost total = { text_total };

    ghost exact = { text_exact };

    fn key(&self) -> Reference {
        self.reference
    }

    fn compare(&self, sought: &Reference) -> Ordering {
        self.reference.as_bytes().cmp(sought.as_bytes())
    }
}
