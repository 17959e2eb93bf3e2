//! The digests of parts, as they are printed. What a writer took before it failed is a beginning of the
//! lines.
ghost use Rattle.std.specs.Prelude.{◌≡◌, OnOk, map};
ghost use Rattle.std.specs.Io.KnownBytes.{Appends};
ghost use Rattle.desk.specs.Lines.{AppendsBeginning};
ghost use Rattle.custody_records.specs.MemoryRecords.{records_of};
ghost use Rattle.custody_records.specs.Tables.{row_entries};
ghost use Rattle.custody_records.specs.TypedRecords.{key_of_part, part_entry, part_value};
ghost use Rattle.answer_lines.specs.Digests.{digest_line, digests_text};
ghost use Rattle.answer_lines.specs.State.{lines_text};

use crate::writing::{flush, write_line};
use crate::{Line, WriteFailed};
use custody_records::{Part, Records};
use deposit_name::Tld;
use std::io::Write;

/// Writes the digest and the name of each part of a registry, held or dropped.
pub fn write_digests<W: Write>(records: &Records, tld: &Tld, out: &mut W) -> Result<(), WriteFailed>
    ensures whole { OnOk result (Appends (W.contents out.old) (W.contents out.new) (digests_text (records_of records.now) tld.now)) }
    ensures begun { AppendsBeginning (W.contents out.old) (W.contents out.new) (digests_text (records_of records.now) tld.now) }
{
    write_digests_of(records.parts_of(tld), out)?;
    flush(out)
}

fn write_digests_of<W: Write>(parts: &[Part], out: &mut W) -> Result<(), WriteFailed>
    ensures whole { OnOk result (Appends (W.contents out.old) (W.contents out.new) (lines_text (map digest_line (row_entries key_of_part part_value parts.now)))) }
    ensures begun { AppendsBeginning (W.contents out.old) (W.contents out.new) (lines_text (map digest_line (row_entries key_of_part part_value parts.now))) }
{
    for part in parts {
        write_line(&digest_line(part), out)?;
    }
    Ok(())
}

fn digest_line(part: &Part) -> Line
    ensures { result ≡ digest_line (part_entry part.now) }
{
    Line::Digest {
        digest: part.digest,
        name: part.name,
    }
}
