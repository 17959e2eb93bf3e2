//! Registries.
ghost use Rattle.std.specs.Prelude.{◌≡◌, ℕ, option_map};
ghost use Rattle.custody_records.specs.Form.{registry_in};
ghost use Rattle.custody_records.specs.Keys.{text_cmp};
ghost use Rattle.custody_records.specs.inside.Orders.{text_exact, text_total};
ghost use Rattle.custody_records.specs.TypedRecords.{registry_entry, registry_key, registry_value};

use crate::tables::Keyed;
use deposit_name::Tld;
use schedule::Day;
use std::cmp::Ordering;

/// A registry, and the first day of its deposits.
#[derive(Clone, Copy, Debug, PartialEq, Eq)]
pub struct Registry {
    pub tld: Tld,
    pub first_day: Day,
}

/// The registry of a row, where its fields are in form.
pub fn read_registry(tld: &[u8], first_day: i64) -> Option<Registry>
    ensures { option_map registry_entry result ≡ registry_in (record { tld = tld.now; first_day = first_day }) }
{
    let tld = Tld::parse(tld)?;
    let first_day = Day::new(first_day)?;
    Some(Registry { tld, first_day })
}

impl Keyed for Registry {
    type Key = Tld;

    ghost key_of = { registry_key };

    ghost order = { text_cmp };

    ghost Value = { ℕ };

    ghost value_of = { registry_value };

    ghost total = { text_total };

    ghost exact = { text_exact };

    fn key(&self) -> Tld {
        self.tld
    }

    fn compare(&self, sought: &Tld) -> Ordering {
        self.tld.as_bytes().cmp(sought.as_bytes())
    }
}
