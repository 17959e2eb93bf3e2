//! The row of the volume that the records belong to.
ghost use Rattle.std.specs.Prelude.{◌≡◌, if◌then◌else◌};
ghost use Rattle.std.specs.Str.{bytes_eq};
ghost use Rattle.custody_records.specs.Form.{has_holds, is_schema, number_in};
ghost use Rattle.custody_records.specs.RowsOfRecords.{digits_of};
ghost use Rattle.custody_records.specs.TypedRecords.{meta_of, meta_volume};

use crate::fields::number_within;
use extent_map::{FEWEST_BLOCKS, MOST_BLOCKS};

/// The row of the volume as it stands.
#[derive(Clone, Copy, Debug, PartialEq, Eq)]
pub struct Meta {
    pub one: i64,
    pub schema_no: i64,
    /// The number of the volume; none where it is not 16 lower-case hexadecimal digits.
    pub number: Option<u64>,
    pub blocks: i64,
}

impl Meta {
    /// The row of these columns.
    pub fn from_columns(one: i64, schema_no: i64, number: &[u8], blocks: i64) -> Meta
        ensures { result ≡ meta_of (record { one = one; schema_no = schema_no; number = number.now; blocks = blocks }) }
    {
        Meta {
            one,
            schema_no,
            number: read_number(number),
            blocks,
        }
    }

    /// Whether the schema is known.
    pub fn is_known(&self) -> bool
        ensures { result ≡ is_schema self.now.schema_no }
    {
        self.schema_no == 1 || self.schema_no == 2
    }

    /// Whether the schema has a table of holds.
    pub fn has_holds(&self) -> bool
        ensures { result ≡ has_holds self.now.schema_no }
    {
        self.schema_no == 2
    }

    /// The number and the blocks of the volume, where the row is in form.
    pub fn volume(&self) -> Option<(u64, u32)>
        ensures { result ≡ meta_volume self.now }
    {
        if self.one != 1 {
            return None;
        }
        let blocks = number_within(
            self.blocks,
            u64::from(FEWEST_BLOCKS),
            u64::from(MOST_BLOCKS),
        )?;
        let number = self.number?;
        Some((number, blocks as u32))
    }
}

/// The number as 16 lower-case hexadecimal digits.
pub fn write_number(number: u64) -> [u8; 16]
    ensures { result ≡ digits_of number }
{
    let mut digits = [0u8; 16];
    let _ = hex::encode_to_slice(number.to_be_bytes(), &mut digits);
    digits
}

/// The number of 16 lower-case hexadecimal digits.
pub fn read_number(text: &[u8]) -> Option<u64>
    ensures { result ≡ (if bytes_eq text.now (digits_of (number_in text.now)) then Some (number_in text.now) else None) }
{
    let mut bytes = [0u8; 8];
    hex::decode_to_slice(text, &mut bytes).ok()?;
    let number = u64::from_be_bytes(bytes);
    if text == write_number(number).as_slice() {
        Some(number)
    } else {
        None
    }
}
