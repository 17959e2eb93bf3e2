//! The columns of the rows that a query answers. A value of another type is read as 0 or as no bytes.
ghost use Rattle.std.specs.Prelude.{◌≡◌, option_map};
ghost use Rattle.sqlite.specs.Order.{column, bytes};
ghost use Rattle.sqlite.specs.Edit.{id_in};
ghost use Rattle.custody_store.specs.Reading.{bytes_unless_null, integer_unless_null};

use sqlite::Row;
use sqlite::types::ValueRef;

/// The number in a column.
pub fn integer_at(row: &Row, at: usize) -> i64
    ensures { result ≡ id_in (column row.now at) }
{
    match row.get_ref(at) {
        Ok(ValueRef::Int(number)) => number,
        _ => 0,
    }
}

/// The bytes of the text or the blob in a column.
pub fn bytes_at(row: &Row, at: usize) -> &[u8]
    ensures { result.now ≡ bytes (column row.now at) }
{
    match row.get_ref(at) {
        Ok(ValueRef::Text(text)) => text,
        Ok(ValueRef::Blob(blob)) => blob,
        _ => &[],
    }
}

/// The same, and none for NULL.
pub fn bytes_or_null_at(row: &Row, at: usize) -> Option<&[u8]>
    ensures { option_map (λ b. b.now) result ≡ bytes_unless_null (column row.now at) }
{
    match row.get_ref(at) {
        Ok(ValueRef::Null) | Err(_) => None,
        _ => Some(bytes_at(row, at)),
    }
}

/// The number in a column, and none for NULL.
pub fn integer_or_null_at(row: &Row, at: usize) -> Option<i64>
    ensures { result ≡ integer_unless_null (column row.now at) }
{
    match row.get_ref(at) {
        Ok(ValueRef::Null) | Err(_) => None,
        _ => Some(integer_at(row, at)),
    }
}
