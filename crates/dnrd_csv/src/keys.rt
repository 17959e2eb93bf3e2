//! Files of keys.
ghost use Rattle.std.specs.Prelude.{◌≡◌, ◌<◌, ◌==◌, ◌++◌, [], OnOk, get_or, length};
ghost use Rattle.csv.specs.Records.{fields_of};
ghost use Rattle.dnrd_csv.specs.Text.{key_rows, table_text};

use crate::spelling::{field_at, write_row};
use csv::ByteRecord;
use std::alloc::AllocError;
use std::marker::Model;

/// The keys of a file, in its order.
#[derive(Drop)]
pub struct Keys {
    keys: ByteRecord,
}

impl Model for Keys {
    ghost use Rattle.std.specs.Prelude.{List, ℕ};
    ghost use Rattle.csv.specs.Records.{fields_of};

    ghost Value = { List (List ℕ) };

    ghost view = { λ a. fields_of a.keys };
}

impl Keys {
    /// The keys that these fields are. It takes no memory.
    pub fn from_fields(fields: ByteRecord) -> Keys
        ensures { result ≡ fields_of fields }
    {
        Keys { keys: fields }
    }

    /// The keys, each as a field. It takes no memory.
    pub fn into_fields(self) -> ByteRecord
        ensures { fields_of result ≡ self }
    {
        self.keys
    }

    /// How many keys there are.
    pub fn len(&self) -> usize
        ensures { result ≡ length self.now }
    {
        self.keys.len()
    }

    /// Whether there is no key.
    pub fn is_empty(&self) -> bool
        ensures { result ≡ (length self.now == 0) }
    {
        self.keys.is_empty()
    }

    /// The key at a place, from 0.
    pub fn key(&self, i: usize) -> &[u8]
        requires { i < length self.now }
        ensures { result.now ≡ get_or self.now i [] }
    {
        field_at(&self.keys, i)
    }

    /// Writes the keys in their one spelling, each a row.
    pub fn write(&self, out: &mut Vec<u8>) -> Result<(), AllocError>
        ensures { OnOk result (out.new.items ≡ out.old.items ++ table_text (key_rows self.now)) }
    {
        for i in 0..self.len() {
            write_row(&self.keys, i, i + 1, out)?;
        }
        Ok(())
    }
}
