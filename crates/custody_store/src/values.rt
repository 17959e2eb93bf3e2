//! The parameters of statements.
ghost use Rattle.std.specs.Prelude.{◌≡◌, ◌^◌, ◌<◌, ◌≤◌, pos, option_map, IfSome, IfNone};
ghost use Rattle.schedule.specs.Schedule.{IsDay, IsMoment, year_after};
ghost use Rattle.sqlite.specs.declared.types.Value.TheVariants.{Int, Text, Blob};
ghost use Rattle.sqlite_value.specs.Value.{owned};
ghost use Rattle.custody_records.specs.RowsOfRecords.{IsLifting};
ghost use Rattle.custody_store.specs.Reading.{integer_or_null};

use schedule::{Day, Sec, keep_until};
use sqlite::types::ValueRef;

pub fn text(bytes: &[u8]) -> ValueRef<'_>
    ensures { owned result ≡ Text bytes.now }
{
    ValueRef::Text(bytes)
}

pub fn blob(bytes: &[u8]) -> ValueRef<'_>
    ensures { owned result ≡ Blob bytes.now }
{
    ValueRef::Blob(bytes)
}

pub fn number<'v>(n: u32) -> ValueRef<'v>
    ensures { owned result ≡ Int (pos n) }
{
    ValueRef::Int(i64::from(n))
}

pub fn small<'v>(n: u8) -> ValueRef<'v>
    ensures { owned result ≡ Int (pos n) }
{
    ValueRef::Int(i64::from(n))
}

/// None where the number has no place in a column.
pub fn large<'v>(n: u64) -> Option<ValueRef<'v>>
    ensures some { IfSome result (λ v. owned v ≡ Int (pos n)) }
    ensures fits { IfSome result (λ _. n < 2 ^ 63) }
    ensures none { IfNone result (2 ^ 63 ≤ n) }
{
    match i64::try_from(n) {
        Ok(n) => Some(ValueRef::Int(n)),
        Err(_) => None,
    }
}

pub fn day<'v>(d: Day) -> ValueRef<'v>
    ensures value { owned result ≡ Int (pos d) }
    ensures in_range { IsDay d }
{
    ValueRef::Int(d.number())
}

pub fn moment<'v>(s: Sec) -> ValueRef<'v>
    ensures value { owned result ≡ Int (pos s) }
    ensures in_range { IsMoment s }
{
    ValueRef::Int(s.seconds())
}

/// A moment, and NULL for none.
pub fn moment_or_null<'v>(s: Option<Sec>) -> ValueRef<'v>
    ensures value { owned result ≡ integer_or_null (option_map pos s) }
    ensures in_range { IsLifting s }
{
    match s {
        Some(s) => moment(s),
        None => ValueRef::Null,
    }
}

/// The day until which a part is kept that was received on this day.
pub fn keep_day_value<'v>(received: Day) -> ValueRef<'v>
    ensures { owned result ≡ Int (pos (year_after received)) }
{
    ValueRef::Int(keep_until(received))
}
