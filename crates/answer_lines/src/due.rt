//! The days that are due, as they are printed. What a writer took before it failed is a beginning of the
//! lines.
ghost use Rattle.std.specs.Prelude.{◌≡◌, ◌==◌, ◌&&◌, OnOk, count_by, is_some, map};
ghost use Rattle.std.specs.Io.KnownBytes.{Appends};
ghost use Rattle.desk.specs.Lines.{AppendsBeginning};
ghost use Rattle.custody_records.specs.MemoryRecords.{records_of};
ghost use Rattle.custody_records.specs.Tables.{row_entries};
ghost use Rattle.custody_records.specs.TypedRecords.{key_of_part, part_value};
ghost use Rattle.custody_records.specs.declared.parts.Part.{Part};
ghost use Rattle.custody_rules.specs.DueDays.{due_day_pair};
ghost use Rattle.answer_lines.specs.Due.{days_text, due_day_lines, waiting_lines, waiting_lines_of};
ghost use Rattle.answer_lines.specs.State.{lines_text};

use crate::writing::{flush, write_line};
use crate::{Line, WriteFailed};
use custody_records::{Part, Records};
use custody_rules::DueDay;
use std::io::Write;

/// So many revisions a day may have.
const REVISIONS: u8 = 100;

/// Writes each day, and how many parts of it are held.
pub fn write_due<W: Write>(
    records: &Records,
    days: &[DueDay],
    out: &mut W,
) -> Result<(), WriteFailed>
    ensures whole { OnOk result (Appends (W.contents out.old) (W.contents out.new) (days_text (records_of records.now) (map due_day_pair days.now))) }
    ensures begun { AppendsBeginning (W.contents out.old) (W.contents out.new) (days_text (records_of records.now) (map due_day_pair days.now)) }
{
    write_days(records, days, out)?;
    flush(out)
}

fn write_days<W: Write>(records: &Records, days: &[DueDay], out: &mut W) -> Result<(), WriteFailed>
    ensures whole { OnOk result (Appends (W.contents out.old) (W.contents out.new) (days_text (records_of records.now) (map due_day_pair days.now))) }
    ensures begun { AppendsBeginning (W.contents out.old) (W.contents out.new) (days_text (records_of records.now) (map due_day_pair days.now)) }
{
    for due in days {
        write_day(records, due, out)?;
    }
    Ok(())
}

fn write_day<W: Write>(records: &Records, due: &DueDay, out: &mut W) -> Result<(), WriteFailed>
    ensures whole { OnOk result (Appends (W.contents out.old) (W.contents out.new) (lines_text (due_day_lines (records_of records.now) (due_day_pair due.now)))) }
    ensures begun { AppendsBeginning (W.contents out.old) (W.contents out.new) (lines_text (due_day_lines (records_of records.now) (due_day_pair due.now))) }
{
    let line = Line::Due {
        tld: due.tld,
        day: due.day,
    };
    write_line(&line, out)?;
    write_waiting(records.parts_of_day(&due.tld, due.day), due, out)
}

/// Writes how many of a day's parts are held, of each revision.
fn write_waiting<W: Write>(parts: &[Part], due: &DueDay, out: &mut W) -> Result<(), WriteFailed>
    ensures whole { OnOk result (Appends (W.contents out.old) (W.contents out.new) (lines_text (waiting_lines (row_entries key_of_part part_value parts.now) (due_day_pair due.now)))) }
    ensures begun { AppendsBeginning (W.contents out.old) (W.contents out.new) (lines_text (waiting_lines (row_entries key_of_part part_value parts.now) (due_day_pair due.now))) }
{
    for revision in 0..REVISIONS {
        write_waiting_of(parts, due, revision, out)?;
    }
    Ok(())
}

fn write_waiting_of<W: Write>(
    parts: &[Part],
    due: &DueDay,
    revision: u8,
    out: &mut W,
) -> Result<(), WriteFailed>
    ensures whole { OnOk result (Appends (W.contents out.old) (W.contents out.new) (lines_text (waiting_lines_of (row_entries key_of_part part_value parts.now) (due_day_pair due.now) revision))) }
    ensures begun { AppendsBeginning (W.contents out.old) (W.contents out.new) (lines_text (waiting_lines_of (row_entries key_of_part part_value parts.now) (due_day_pair due.now) revision)) }
{
    let count = count_waiting(parts, revision);
    if count == 0 {
        return Ok(());
    }
    let line = Line::Waiting {
        tld: due.tld,
        day: due.day,
        revision,
        count,
    };
    write_line(&line, out)
}

/// How many of these parts are held ones of a revision.
fn count_waiting(parts: &[Part], revision: u8) -> usize
    ensures { result ≡ count_by (λ (part : Part). part.name.rev == revision && is_some part.extents) parts.now }
{
    parts
        .iter()
        .filter(|part| part.name.rev == revision && part.extents.is_some())
        .count()
}
