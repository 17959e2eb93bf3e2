//! The records, as they are printed. What a writer took before it failed is a beginning of the lines.
ghost use Rattle.std.specs.Prelude.{◌≡◌, OnOk, map};
ghost use Rattle.std.specs.FinMap.{entries};
ghost use Rattle.std.specs.Io.KnownBytes.{Appends};
ghost use Rattle.desk.specs.Lines.{AppendsBeginning};
ghost use Rattle.custody_records.specs.MemoryRecords.{records_of};
ghost use Rattle.custody_records.specs.Tables.{row_entries};
ghost use Rattle.custody_records.specs.TypedRecords.{hold_entry, notice_key, notice_value, part_entry, key_of_part, part_value, registry_key, registry_value, release_entry};
ghost use Rattle.answer_lines.specs.Printing.{PrintsLine, as_line};
ghost use Rattle.answer_lines.specs.State.{hold_line, lines_text, notice_line, part_line, registries_text, registry_lines, release_line, state_text};

use crate::writing::{flush, write_line};
use crate::{Line, WriteFailed};
use custody_records::{Hold, Part, Records, Registry, Release};
use desk::Notice;
use std::io::Write;

/// Writes each registry with its parts and its notices, the releases, the holds, and the free blocks.
pub fn write_state<W: Write>(
    records: &Records,
    free: u32,
    total: u32,
    out: &mut W,
) -> Result<(), WriteFailed>
    ensures whole { OnOk result (PrintsLine (W.contents out.old) (W.contents out.new) (state_text (records_of records.now) free total)) }
    ensures begun { AppendsBeginning (W.contents out.old) (W.contents out.new) (as_line (state_text (records_of records.now) free total)) }
{
    write_registries(records, out)?;
    write_releases(records, out)?;
    write_holds(records, out)?;
    write_line(&Line::Room { free, total }, out)?;
    flush(out)
}

fn write_registries<W: Write>(records: &Records, out: &mut W) -> Result<(), WriteFailed>
    ensures whole { OnOk result (Appends (W.contents out.old) (W.contents out.new) (registries_text (records_of records.now))) }
    ensures begun { AppendsBeginning (W.contents out.old) (W.contents out.new) (registries_text (records_of records.now)) }
{
    for registry in records.registries() {
        write_registry(registry, records, out)?;
    }
    Ok(())
}

/// Writes a registry with its parts and its notices.
fn write_registry<W: Write>(
    registry: &Registry,
    records: &Records,
    out: &mut W,
) -> Result<(), WriteFailed>
    ensures whole { OnOk result (Appends (W.contents out.old) (W.contents out.new) (lines_text (registry_lines (records_of records.now) (registry_key registry.now, registry_value registry.now)))) }
    ensures begun { AppendsBeginning (W.contents out.old) (W.contents out.new) (lines_text (registry_lines (records_of records.now) (registry_key registry.now, registry_value registry.now))) }
{
    let line = Line::Registry {
        tld: registry.tld,
        first: registry.first_day,
    };
    write_line(&line, out)?;
    write_parts(records.parts_of(&registry.tld), out)?;
    write_notices(records.notices_of(&registry.tld), out)
}

fn write_parts<W: Write>(parts: &[Part], out: &mut W) -> Result<(), WriteFailed>
    ensures whole { OnOk result (Appends (W.contents out.old) (W.contents out.new) (lines_text (map part_line (row_entries key_of_part part_value parts.now)))) }
    ensures begun { AppendsBeginning (W.contents out.old) (W.contents out.new) (lines_text (map part_line (row_entries key_of_part part_value parts.now))) }
{
    for part in parts {
        write_line(&part_line(part), out)?;
    }
    Ok(())
}

fn write_notices<W: Write>(notices: &[Notice], out: &mut W) -> Result<(), WriteFailed>
    ensures whole { OnOk result (Appends (W.contents out.old) (W.contents out.new) (lines_text (map notice_line (row_entries notice_key notice_value notices.now)))) }
    ensures begun { AppendsBeginning (W.contents out.old) (W.contents out.new) (lines_text (map notice_line (row_entries notice_key notice_value notices.now))) }
{
    for notice in notices {
        let line = Line::Notice(*notice);
        write_line(&line, out)?;
    }
    Ok(())
}

fn write_releases<W: Write>(records: &Records, out: &mut W) -> Result<(), WriteFailed>
    ensures whole { OnOk result (Appends (W.contents out.old) (W.contents out.new) (lines_text (map release_line (entries (records_of records.now).releases)))) }
    ensures begun { AppendsBeginning (W.contents out.old) (W.contents out.new) (lines_text (map release_line (entries (records_of records.now).releases))) }
{
    for release in records.releases() {
        write_line(&release_line(release), out)?;
    }
    Ok(())
}

fn write_holds<W: Write>(records: &Records, out: &mut W) -> Result<(), WriteFailed>
    ensures whole { OnOk result (Appends (W.contents out.old) (W.contents out.new) (lines_text (map hold_line (entries (records_of records.now).holds)))) }
    ensures begun { AppendsBeginning (W.contents out.old) (W.contents out.new) (lines_text (map hold_line (entries (records_of records.now).holds))) }
{
    for hold in records.holds() {
        write_line(&hold_line(hold), out)?;
    }
    Ok(())
}

/// Writes the line of each notice.
pub(crate) fn write_report<W: Write>(notices: &[Notice], out: &mut W) -> Result<(), WriteFailed>
    ensures whole { OnOk result (Appends (W.contents out.old) (W.contents out.new) (lines_text (map notice_line (row_entries notice_key notice_value notices.now)))) }
    ensures begun { AppendsBeginning (W.contents out.old) (W.contents out.new) (lines_text (map notice_line (row_entries notice_key notice_value notices.now))) }
{
    write_notices(notices, out)?;
    flush(out)
}

fn part_line(part: &Part) -> Line
    ensures { result ≡ part_line (part_entry part.now) }
{
    let (name, length, at) = (part.name, part.len, part.received);
    if part.extents.is_some() {
        Line::Part { name, length, at }
    } else {
        Line::Dropped { name, length, at }
    }
}

fn release_line(release: &Release) -> Line
    ensures { result ≡ release_line (release_entry release.now) }
{
    Line::Release {
        reference: release.reference,
        tld: release.tld,
        reason: release.reason,
        at: release.at,
        count: release.names.count(),
    }
}

fn hold_line(hold: &Hold) -> Line
    ensures { result ≡ hold_line (hold_entry hold.now) }
{
    let (reference, tld, day, at) = (hold.reference, hold.tld, hold.day, hold.at);
    match hold.lifted {
        None => Line::Hold {
            reference,
            tld,
            day,
            at,
        },
        Some(lifted) => Line::LiftedHold {
            reference,
            tld,
            day,
            at,
            lifted,
        },
    }
}
