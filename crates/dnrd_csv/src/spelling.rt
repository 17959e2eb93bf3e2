//! Writing fields and rows in their one spelling.
ghost use Rattle.std.specs.Prelude.{◌≡◌, ◌-◌, ◌<◌, ◌≤◌, ◌==◌, ◌++◌, ◌∷◌, [], OnOk, drop, get_or, if◌then◌else◌, length, take};
ghost use Rattle.std.specs.List.{list_any};
ghost use Rattle.csv.specs.Records.{fields_of};
ghost use Rattle.dnrd_csv.specs.Text.{calls_for_quotes, escaped_field, field_text, row_text};

use csv::ByteRecord;
use std::alloc::AllocError;

/// The field at a place.
#[tactic(auto, using(crate::proofs::RowLemmas::field_there))]
pub fn field_at(fields: &ByteRecord, i: usize) -> &[u8]
    requires { i < length (fields_of fields.now) }
    ensures { result.now ≡ get_or (fields_of fields.now) i [] }
{
    match fields.get(i) {
        Some(field) => field,
        None => b"",
    }
}

fn calls_for_quotes(byte: u8) -> bool
    ensures { result ≡ calls_for_quotes byte }
{
    byte == b',' || byte == b'"' || byte == b'\r' || byte == b'\n'
}

fn is_quoted(field: &[u8]) -> bool
    ensures { result ≡ list_any calls_for_quotes field.now }
{
    field.iter().any(|byte| calls_for_quotes(*byte))
}

// Writes a byte of a quoted field.
#[tactic(auto, unfolding(crate::specs::Text::escaped_field))]
fn write_escaped(byte: u8, out: &mut Vec<u8>) -> Result<(), AllocError>
    ensures { OnOk result (out.new.items ≡ out.old.items ++ escaped_field (byte ∷ [])) }
{
    if byte == b'"' {
        return out.extend_from_slice(b"\"\"");
    }
    out.push(byte)?;
    Ok(())
}

/// Writes a field, in quotes exactly if it calls for them.
pub fn write_field(field: &[u8], out: &mut Vec<u8>) -> Result<(), AllocError>
    ensures { OnOk result (out.new.items ≡ out.old.items ++ field_text field.now) }
{
    if !is_quoted(field) {
        return out.extend_from_slice(field);
    }
    out.push(b'"')?;
    for byte in field {
        write_escaped(*byte, out)?;
    }
    out.push(b'"')?;
    Ok(())
}

// Writes the comma before each field but the first.
fn write_comma(i: usize, out: &mut Vec<u8>) -> Result<(), AllocError>
    ensures { OnOk result (out.new.items ≡ out.old.items ++ (if i == 0 then [] else 44 ∷ [])) }
{
    if i > 0 {
        out.push(b',')?;
    }
    Ok(())
}

/// Writes the row of the fields from a place to another.
pub fn write_row(
    fields: &ByteRecord,
    from: usize,
    end: usize,
    out: &mut Vec<u8>,
) -> Result<(), AllocError>
    requires rises { from ≤ end }
    requires within { end ≤ length (fields_of fields.now) }
    ensures { OnOk result (out.new.items ≡ out.old.items ++ row_text (take (end - from) (drop from (fields_of fields.now)))) }
{
    for i in from..end {
        write_comma(i - from, out)?;
        write_field(field_at(fields, i), out)?;
    }
    out.push(b'\n')?;
    Ok(())
}
