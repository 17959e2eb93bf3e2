//! What an audit has found, as it is printed. What a writer took before it failed is a beginning of it.
ghost use Rattle.std.specs.Prelude.{◌≡◌, IfSome, OnOk, map};
ghost use Rattle.std.specs.Io.KnownBytes.{Appends};
ghost use Rattle.desk.specs.Lines.{AppendsBeginning};
ghost use Rattle.custody_records.specs.MemoryRecords.{records_of};
ghost use Rattle.custody_machine.specs.Codes.{exit_number};
ghost use Rattle.answer_lines.specs.Auditing.{audit_status, audit_text, count_held_parts};
ghost use Rattle.answer_lines.specs.State.{lines_text};
ghost use Rattle.answer_lines.specs.declared.lines.Line.TheVariants.{Damaged};

use crate::writing::{flush, write_line};
use crate::{Line, WriteFailed};
use custody_machine::ExitStatus;
use custody_records::Records;
use deposit_name::DepositName;
use std::io::Write;

/// Writes the line of each part that is damaged, or where none is, how many are held, and has the writer
/// pass it on.
pub(crate) fn write_audit<W: Write>(
    damaged: &[DepositName],
    records: &Records,
    out: &mut W,
) -> Result<(), WriteFailed>
    ensures whole { OnOk result (Appends (W.contents out.old) (W.contents out.new) (audit_text damaged.now (records_of records.now))) }
    ensures begun { AppendsBeginning (W.contents out.old) (W.contents out.new) (audit_text damaged.now (records_of records.now)) }
{
    write_audit_lines(damaged, records, out)?;
    flush(out)
}

fn write_audit_lines<W: Write>(
    damaged: &[DepositName],
    records: &Records,
    out: &mut W,
) -> Result<(), WriteFailed>
    ensures whole { OnOk result (Appends (W.contents out.old) (W.contents out.new) (audit_text damaged.now (records_of records.now))) }
    ensures begun { AppendsBeginning (W.contents out.old) (W.contents out.new) (audit_text damaged.now (records_of records.now)) }
{
    if damaged.is_empty() {
        let count = count_held_parts(records).ok_or(WriteFailed)?;
        return write_line(&Line::Sound { count }, out);
    }
    write_damaged(damaged, out)
}

/// Where a part is damaged, the status is that of a refusal.
pub(crate) fn audit_status(damaged: &[DepositName]) -> ExitStatus
    ensures { exit_number result ≡ audit_status damaged.now }
{
    if damaged.is_empty() {
        ExitStatus::Done
    } else {
        ExitStatus::Refused
    }
}

fn write_damaged<W: Write>(damaged: &[DepositName], out: &mut W) -> Result<(), WriteFailed>
    ensures whole { OnOk result (Appends (W.contents out.old) (W.contents out.new) (lines_text (map Damaged damaged.now))) }
    ensures begun { AppendsBeginning (W.contents out.old) (W.contents out.new) (lines_text (map Damaged damaged.now)) }
{
    for name in damaged {
        let line = Line::Damaged { name: *name };
        write_line(&line, out)?;
    }
    Ok(())
}

/// How many parts are held; none where that is no `usize`.
fn count_held_parts(records: &Records) -> Option<usize>
    ensures { IfSome result (λ count. count ≡ count_held_parts (records_of records.now)) }
{
    let mut count: usize = 0;
    for part in records.parts() {
        if part.extents.is_some() {
            count = count.checked_add(1)?;
        }
    }
    Some(count)
}
