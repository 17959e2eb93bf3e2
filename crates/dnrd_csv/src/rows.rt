//! The rows of a file.
ghost use Rattle.std.specs.Prelude.{◌≡◌, ◌≢◌, ◌<◌, ◌++◌, ◌==◌, ◌↔◌, [], ℕ, List, All, IfNone, IfSome, IsTrue, OnOk, flat_map, get_or, length};
ghost use Rattle.csv.specs.Records.{fields_of};
ghost use Rattle.dnrd_csv.specs.inside.Fields.{AreRowsOf};
ghost use Rattle.dnrd_csv.specs.Table.{HaveWidth};
ghost use Rattle.dnrd_csv.specs.Text.{key_rows, table_text};

use crate::spelling::{field_at, write_row};
use csv::ByteRecord;
use std::alloc::AllocError;
use std::marker::Model;

/// Rows of one width, in the order of their file.
#[derive(Drop)]
pub struct Rows {
    pub(crate) fields: ByteRecord,
    pub(crate) width: usize,
    pub(crate) count: usize,
}

impl Model for Rows {
    ghost use Rattle.std.specs.Prelude.{List, ℕ};

    ghost Value = { List (List (List ℕ)) };

    ghost use Rattle.dnrd_csv.specs.inside.Rows.{HasInsideRows, inside_rows};

    ghost view = { inside_rows };

    ghost invariant = { HasInsideRows };
}

impl Rows {
    /// The rows that these fields are, one row after another, with so many fields each. `None` where the width is 0,
    /// where the last row is short, or where a row is one empty field. It takes no memory.
    pub fn from_fields(fields: ByteRecord, width: usize) -> Option<Rows>
        ensures some { IfSome result (AreRowsOf width (fields_of fields)) }
        ensures none { IfNone result ((rows : List (List (List ℕ))) → ¬ AreRowsOf width (fields_of fields) rows) }
    {
        let len = fields.len();
        if width == 0 || len % width != 0 {
            return None;
        }
        if width == 1 && !none_is_empty(&fields) {
            return None;
        }
        Some(Rows {
            fields,
            width,
            count: len / width,
        })
    }

    /// How many rows there are.
    pub fn len(&self) -> usize
        ensures { result ≡ length self.now }
    {
        self.count
    }

    /// Whether there is no row.
    pub fn is_empty(&self) -> bool
        ensures { result ≡ (length self.now == 0) }
    {
        self.len() == 0
    }

    /// The field of a row in a column, both from 0.
    pub fn field(&self, row: usize, column: usize) -> &[u8]
        requires row { row < length self.now }
        requires column { column < length (get_or self.now row []) }
        ensures { result.now ≡ get_or (get_or self.now row []) column [] }
    {
        field_at(&self.fields, row * self.width + column)
    }

    /// The fields of the rows, one row after another. It takes no memory.
    pub fn into_fields(self) -> ByteRecord
        ensures fields { fields_of result ≡ flat_map (λ row. row) self }
        ensures keys { HaveWidth 1 self → key_rows (fields_of result) ≡ self }
    {
        self.fields
    }

    /// Writes the rows in their one spelling.
    pub fn write(&self, out: &mut Vec<u8>) -> Result<(), AllocError>
        ensures { OnOk result (out.new.items ≡ out.old.items ++ table_text self.now) }
    {
        for i in 0..self.count {
            write_row(&self.fields, i * self.width, (i + 1) * self.width, out)?;
        }
        Ok(())
    }
}

// Whether each of the fields has a byte.
fn none_is_empty(fields: &ByteRecord) -> bool
    ensures { IsTrue result ↔ All (λ field. field ≢ []) (fields_of fields.now) }
{
    for i in 0..fields.len() {
        if field_at(fields, i).is_empty() {
            return false;
        }
    }
    true
}
