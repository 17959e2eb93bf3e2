//! A batch: the orders of lines, each done in its turn on the agent that is open.
ghost use Rattle.std.specs.Prelude.{◌≡◌, IfErr, IfOk, MatchResult};
ghost use Rattle.agent_cli.specs.BatchLines.{IsNoOrder, line_fault_status};
ghost use Rattle.answer_lines.specs.Printing.{IsUnused, WritesBeginning};
ghost use Rattle.answer_lines.specs.Statuses.{IsStatusAfter};
ghost use Rattle.agent_program.specs.Batch.{AreLinesDone, HasDoneOrder, LineAsksFor};
ghost use Rattle.agent_program.specs.Errors.{IsOfFile, IsProgramFailure, error_line};
ghost use Rattle.agent_program.specs.Host.{IsOrderMoment};
ghost use Rattle.agent_program.specs.Parts.{IsOrderRead};

use crate::clock::moment_of;
use crate::errors::{ProgramError, tell_error};
use crate::host::Host;
use crate::parts::part_of;
use crate::terminal::Terminal;
use agent_cli::{LineFault, Order, act, line_words, next_line, order_in_batch, tell};
use custody::Custody;
use custody_machine::{ExitStatus, Failure};
use schedule::Sec;
use sqlite::Alter;
use std::alloc::Global;
use std::io::{self, BufReader, ErrorKind, Read, Write};
use vault_volume::Volume;

/// What is said of the lines where they cannot be read.
const INPUT: &str = "standard input";

/// Does the orders of the lines that a reader gives, each before the next is read, and answers the status:
/// that of the line that ends them, which is no order or closes the agent, or else the highest.
pub fn do_lines<H: Host, V: Volume, S: Alter, R: Read + Drop, W: Write, E: Write>(
    host: &H,
    custody: &mut Custody<V, S>,
    folder: &str,
    lines: R,
    out: &mut W,
    err: &mut E,
) -> u8
    ensures { AreLinesDone (H.BlockFiles.holds host.now) (H.shown host.now) folder.now (R.remaining lines) custody.old custody.new result (record { before = W.contents out.old; after = W.contents out.new }) (record { before = E.contents err.old; after = E.contents err.new }) }
{
    match BufReader::new(host.alloc(), lines) {
        Ok(mut lines) => do_each_line(host, custody, folder, &mut lines, out, err),
        Err(_) => tell(&Failure::NoMemory, err),
    }
}

/// Does the orders of lines, in their turn.
fn do_each_line<H: Host, V: Volume, S: Alter, R: Read, W: Write, E: Write>(
    host: &H,
    custody: &mut Custody<V, S>,
    folder: &str,
    lines: &mut R,
    out: &mut W,
    err: &mut E,
) -> u8
    ensures { AreLinesDone (H.BlockFiles.holds host.now) (H.shown host.now) folder.now (R.remaining lines.old) custody.old custody.new result (record { before = W.contents out.old; after = W.contents out.new }) (record { before = E.contents err.old; after = E.contents err.new }) }
{
    let mut highest = 0;
    for number in 1..u64::MAX {
        let line = match next_line(host.alloc(), lines) {
            Ok(Some(line)) => line,
            Ok(None) => return highest,
            Err(cause) => return tell_lost(host.alloc(), cause, err),
        };
        let status = match do_line(host, custody, folder, &line, out, err) {
            Ok(status) => status,
            Err(fault) => return tell_end(number, &fault, err),
        };
        if custody.failure().is_some() {
            return status;
        }
        highest = highest.max(status);
    }
    tell_lost(host.alloc(), io::Error::from(ErrorKind::TimedOut), err)
}

/// Does the order of a line, and answers its status, or why it is none.
fn do_line<H: Host, V: Volume, S: Alter, W: Write, E: Write>(
    host: &H,
    custody: &mut Custody<V, S>,
    folder: &str,
    line: &[u8],
    out: &mut W,
    err: &mut E,
) -> Result<u8, LineFault>
    ensures done { MatchResult result
        (λ status. (order : Order) × LineAsksFor folder.now line.now order × HasDoneOrder (H.BlockFiles.holds host.now) (H.shown host.now) order custody.old custody.new status (record { before = W.contents out.old; after = W.contents out.new }) (record { before = E.contents err.old; after = E.contents err.new }))
        (λ fault. IsNoOrder folder.now line.now fault × (custody.new ≡ custody.old) × IsUnused (record { before = W.contents out.old; after = W.contents out.new }) × IsUnused (record { before = E.contents err.old; after = E.contents err.new })) }
{
    let words = line_words(host.alloc(), folder, line)?;
    let order = order_in_batch(host.alloc(), &words)?;
    Ok(do_order(host, custody, &order, out, err))
}

/// Does an order at its moment, with the part that it puts, and answers the status. An error of the part is
/// a line.
fn do_order<H: Host, V: Volume, S: Alter, W: Write, E: Write>(
    host: &H,
    custody: &mut Custody<V, S>,
    order: &Order<'_>,
    out: &mut W,
    err: &mut E,
) -> u8
    ensures { HasDoneOrder (H.BlockFiles.holds host.now) (H.shown host.now) order.entry.now custody.old custody.new result (record { before = W.contents out.old; after = W.contents out.new }) (record { before = E.contents err.old; after = E.contents err.new }) }
{
    match read_order(host, order) {
        Ok((file, now)) => {
            let mut progress = Terminal::of(host, &order.deed);
            act(
                host.alloc(),
                custody,
                &order.deed,
                &file,
                now,
                out,
                err,
                &mut progress,
            )
        }
        Err(error) => tell_error(&error, err),
    }
}

/// The bytes of the part that an order puts, and its moment.
fn read_order<H: Host>(host: &H, order: &Order<'_>) -> Result<(Vec<u8>, Sec), ProgramError>
    ensures bytes { IfOk result (λ read. IsOrderRead (H.BlockFiles.holds host.now) order.entry.now.deed read.0.items) }
    ensures moment { IfOk result (λ read. IsOrderMoment (H.shown host.now) order.entry.now.now read.1) }
    ensures error { IfErr result IsProgramFailure }
{
    let file = part_of(host, order)?;
    Ok((file, moment_of(host, order)?))
}

/// Prints that the lines cannot be read, and why, and answers the status.
fn tell_lost<E: Write>(alloc: Global, cause: io::Error, err: &mut E) -> u8
    ensures { (error : ProgramError) × IsOfFile error × (result ≡ 3) × WritesBeginning (record { before = E.contents err.old; after = E.contents err.new }) (error_line error) }
{
    tell_error(&ProgramError::by_file(alloc, INPUT, cause), err)
}

/// Prints why a line is no order, and which it is, and answers the status.
fn tell_end<E: Write>(number: u64, fault: &LineFault, err: &mut E) -> u8
    ensures { IsStatusAfter (line_fault_status fault.now) result }
{
    match write!(err, "{fault}batch ended at line {number}\n") {
        Ok(()) => fault.status(),
        Err(_) => ExitStatus::Failed.number(),
    }
}
