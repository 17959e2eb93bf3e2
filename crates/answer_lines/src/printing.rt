//! Answers, each told on the writer where it belongs, with its exit status. Whatever the status, what is
//! printed is a beginning of what is told.
ghost use Rattle.std.specs.Io.KnownBytes.{Appends};
ghost use Rattle.std.specs.Prelude.{◌≡◌, OnOk, IsErr, map};
ghost use Rattle.desk.specs.Lines.{AppendsBeginning};
ghost use Rattle.custody_machine.specs.Codes.{exit_number};
ghost use Rattle.custody_machine.specs.Texts.{failure_text, refusal_text};
ghost use Rattle.custody_records.specs.MemoryRecords.{records_of};
ghost use Rattle.custody_records.specs.Tables.{row_entries};
ghost use Rattle.custody_records.specs.TypedRecords.{notice_key, notice_value};
ghost use Rattle.custody_rules.specs.DueDays.{due_day_pair};
ghost use Rattle.custody.specs.Answers.{init_error_text};
ghost use Rattle.answer_lines.specs.Auditing.{audit_status, audit_text};
ghost use Rattle.answer_lines.specs.Digests.{digests_text};
ghost use Rattle.answer_lines.specs.Due.{days_text};
ghost use Rattle.answer_lines.specs.Lines.{line_text, too_many_absences_text};
ghost use Rattle.answer_lines.specs.Printing.{IsAnswerPrinted, PrintsLine, as_line, reply_text};
ghost use Rattle.answer_lines.specs.State.{lines_text, notice_line, state_text};
ghost use Rattle.answer_lines.specs.Statuses.{IsStatusAfter, answer_status, init_status};

use crate::auditing::{audit_status, write_audit};
use crate::bytes::too_many_absences_bytes;
use crate::digests::write_digests;
use crate::due::write_due;
use crate::lines::names_behind;
use crate::state::{write_report, write_state};
use crate::writing::{flush, print, write_line};
use crate::{Line, WriteFailed, failure_bytes, init_error_bytes, refusal_bytes, write_whole};
use custody::{InitError, Record, Refused, Reply};
use custody_machine::{ExitStatus, Failure, Refusal};
use custody_records::Records;
use custody_rules::DueDay;
use deposit_name::{DepositName, Tld};
use desk::Notice;
use std::io::Write;

/// Prints the line of an answer, of a reply on the output and of a refusal or a failure among the
/// errors, and answers the exit status.
pub fn tell_answer<W: Write, E: Write>(
    answer: &Result<Reply, Refused>,
    out: &mut W,
    err: &mut E,
) -> u8
    ensures status { IsStatusAfter (answer_status answer.now) result }
    ensures told { IsAnswerPrinted answer.now result (record { before = W.contents out.old; after = W.contents out.new }) (record { before = E.contents err.old; after = E.contents err.new }) }
{
    match answer {
        Ok(reply) => print_reply(&reply.record, out),
        Err(Refused::Refusal(refusal)) => tell_refusal(refusal, err),
        Err(Refused::Failure(failure)) => tell(failure, err),
    }
}

/// Prints the line of a record and the names that it lists, and answers the status.
fn print_reply<W: Write>(told: &Record, out: &mut W) -> u8
    ensures status { IsStatusAfter 0 result }
    ensures printed { result ≡ 0 → Appends (W.contents out.old) (W.contents out.new) (reply_text told.now) }
    ensures begun { AppendsBeginning (W.contents out.old) (W.contents out.new) (reply_text told.now) }
{
    status_after(write_reply(told, out), ExitStatus::Done)
}

fn write_reply<W: Write>(told: &Record, out: &mut W) -> Result<(), WriteFailed>
    ensures whole { OnOk result (Appends (W.contents out.old) (W.contents out.new) (reply_text told.now)) }
    ensures begun { AppendsBeginning (W.contents out.old) (W.contents out.new) (reply_text told.now) }
{
    write_line(&Line::of_record(told), out)?;
    write_whole(names_behind(told), out)?;
    flush(out)
}

/// Prints the line of a refusal, and answers its status.
pub fn tell_refusal<E: Write>(refusal: &Refusal, err: &mut E) -> u8
    ensures status { IsStatusAfter 1 result }
    ensures printed { result ≡ 1 → PrintsLine (E.contents err.old) (E.contents err.new) (refusal_text refusal.now) }
    ensures begun { AppendsBeginning (E.contents err.old) (E.contents err.new) (as_line (refusal_text refusal.now)) }
{
    status_after(print(&refusal_bytes(refusal), err), refusal.code().status)
}

/// Prints the line of a failure, as of opening, and answers its status.
pub fn tell<E: Write>(failure: &Failure, err: &mut E) -> u8
    ensures status { result ≡ 3 }
    ensures begun { AppendsBeginning (E.contents err.old) (E.contents err.new) (as_line (failure_text failure.now)) }
{
    status_after(print(&failure_bytes(failure), err), failure.code().status)
}

/// Prints why there is no new vault, and answers the status.
pub fn tell_init<E: Write>(error: &InitError, err: &mut E) -> u8
    ensures status { IsStatusAfter (init_status error.now) result }
    ensures printed { result ≡ 1 → PrintsLine (E.contents err.old) (E.contents err.new) (init_error_text error.now) }
    ensures begun { AppendsBeginning (E.contents err.old) (E.contents err.new) (as_line (init_error_text error.now)) }
{
    status_after(print(&init_error_bytes(error), err), error.code().status)
}

/// Prints that a sweep would record so many absences, which are too many, and answers the status.
pub fn tell_too_many_absences<E: Write>(count: usize, err: &mut E) -> u8
    ensures status { IsStatusAfter 1 result }
    ensures printed { result ≡ 1 → PrintsLine (E.contents err.old) (E.contents err.new) (too_many_absences_text count) }
    ensures begun { AppendsBeginning (E.contents err.old) (E.contents err.new) (as_line (too_many_absences_text count)) }
{
    let line = too_many_absences_bytes(count as u64);
    status_after(print(&line, err), ExitStatus::Refused)
}

/// Prints the line of a reply, and answers the status.
pub fn print_line<W: Write>(line: &Line, out: &mut W) -> u8
    ensures status { IsStatusAfter 0 result }
    ensures printed { result ≡ 0 → PrintsLine (W.contents out.old) (W.contents out.new) (line_text line.now) }
    ensures begun { AppendsBeginning (W.contents out.old) (W.contents out.new) (as_line (line_text line.now)) }
{
    status_after(print(&line.bytes(), out), ExitStatus::Done)
}

/// Prints each registry with its parts and its notices, the releases, the holds and the free blocks,
/// and answers the status.
pub fn print_state<W: Write>(records: &Records, free: u32, total: u32, out: &mut W) -> u8
    ensures status { IsStatusAfter 0 result }
    ensures printed { result ≡ 0 → PrintsLine (W.contents out.old) (W.contents out.new) (state_text (records_of records.now) free total) }
    ensures begun { AppendsBeginning (W.contents out.old) (W.contents out.new) (as_line (state_text (records_of records.now) free total)) }
{
    status_after(write_state(records, free, total, out), ExitStatus::Done)
}

/// Prints each day that is due and how many parts of it are held, and answers the status.
pub fn print_due<W: Write>(records: &Records, days: &[DueDay], out: &mut W) -> u8
    ensures status { IsStatusAfter 0 result }
    ensures printed { result ≡ 0 → Appends (W.contents out.old) (W.contents out.new) (days_text (records_of records.now) (map due_day_pair days.now)) }
    ensures begun { AppendsBeginning (W.contents out.old) (W.contents out.new) (days_text (records_of records.now) (map due_day_pair days.now)) }
{
    status_after(write_due(records, days, out), ExitStatus::Done)
}

/// Prints the digest and the name of each part of a registry, and answers the status.
pub fn print_digests<W: Write>(records: &Records, tld: &Tld, out: &mut W) -> u8
    ensures status { IsStatusAfter 0 result }
    ensures printed { result ≡ 0 → Appends (W.contents out.old) (W.contents out.new) (digests_text (records_of records.now) tld.now) }
    ensures begun { AppendsBeginning (W.contents out.old) (W.contents out.new) (digests_text (records_of records.now) tld.now) }
{
    status_after(write_digests(records, tld, out), ExitStatus::Done)
}

/// Writes bytes as they are, and answers the status.
pub fn print_bytes<W: Write>(bytes: &[u8], out: &mut W) -> u8
    ensures status { IsStatusAfter 0 result }
    ensures written { result ≡ 0 → Appends (W.contents out.old) (W.contents out.new) bytes.now }
    ensures begun { AppendsBeginning (W.contents out.old) (W.contents out.new) bytes.now }
{
    status_after(print(bytes, out), ExitStatus::Done)
}

/// Prints the report of a registry: the line of each of its notices, and answers the status.
pub fn print_report<W: Write>(notices: &[Notice], out: &mut W) -> u8
    ensures status { IsStatusAfter 0 result }
    ensures printed { result ≡ 0 → Appends (W.contents out.old) (W.contents out.new) (lines_text (map notice_line (row_entries notice_key notice_value notices.now))) }
    ensures begun { AppendsBeginning (W.contents out.old) (W.contents out.new) (lines_text (map notice_line (row_entries notice_key notice_value notices.now))) }
{
    status_after(write_report(notices, out), ExitStatus::Done)
}

/// Prints the line of each part that is damaged, or where none is, how many are held, and answers the
/// status.
pub fn print_audit<W: Write>(damaged: &[DepositName], records: &Records, out: &mut W) -> u8
    ensures status { IsStatusAfter (audit_status damaged.now) result }
    ensures printed { result ≡ audit_status damaged.now → Appends (W.contents out.old) (W.contents out.new) (audit_text damaged.now (records_of records.now)) }
    ensures begun { AppendsBeginning (W.contents out.old) (W.contents out.new) (audit_text damaged.now (records_of records.now)) }
{
    status_after(write_audit(damaged, records, out), audit_status(damaged))
}

/// The exit status of what was printed, or that of output that was not written.
fn status_after(printed: Result<(), WriteFailed>, status: ExitStatus) -> u8
    ensures status { IsStatusAfter (exit_number status) result }
    ensures done { IsErr printed → result ≡ 3 }
{
    let status = match printed {
        Ok(()) => status,
        Err(WriteFailed) => ExitStatus::Failed,
    };
    status.number()
}
