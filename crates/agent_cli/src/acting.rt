//! What a deed does to the agent of a folder.
ghost use Rattle.answer_lines.specs.Statuses.{IsExitStatus};
ghost use Rattle.agent_cli.specs.Acts.{Acts, Audits, Explains, Fetches, Previews};

use crate::reading::{list_digests, list_due, report, show};
use crate::sweeping::sweep;
use crate::{Deed, file_name};
use answer_lines::{
    Line, print_audit, print_bytes, print_line, tell, tell_answer, tell_init, tell_refusal,
};
use custody::{Custody, InitError, Progress, Refused};
use custody_machine::{Command, ExitStatus, Failure, Statement};
use deposit_name::{Reference, Tld};
use desk::Revision;
use schedule::{Day, Sec};
use sqlite::Alter;
use std::alloc::Global;
use std::io::Write;
use vault_volume::Volume;

/// Does a deed, prints its lines and answers the exit status. `file` holds the bytes of the file that
/// a `put` names, and `now` is the moment. An `init` is refused, since the vault is there. A `batch` and
/// a `serve` do nothing here, where neither lines nor a socket are. A sweep says to `progress` how many days it has
/// checked, and an audit how many blocks it has read.
pub fn act<V: Volume, S: Alter, W: Write, E: Write, P: Progress>(
    alloc: Global,
    custody: &mut Custody<V, S>,
    deed: &Deed<'_>,
    file: &[u8],
    now: Sec,
    out: &mut W,
    err: &mut E,
    progress: &mut P,
) -> u8
    ensures acts { Acts deed.now file.now now custody.old custody.new result (record { before = W.contents out.old; after = W.contents out.new }) (record { before = E.contents err.old; after = E.contents err.new }) }
    ensures status { IsExitStatus result }
{
    match deed {
        Deed::Init { .. } => tell_init(&InitError::AlreadyInitialised, err),
        Deed::Put { file: path } => {
            let answer = custody.apply(alloc, &Command::Receive(file_name(path), file), now);
            tell_answer(&answer, out, err)
        }
        Deed::Preview(statement) => preview(alloc, custody, statement, now, out, err),
        Deed::Do(command) => {
            let answer = custody.apply(alloc, command, now);
            tell_answer(&answer, out, err)
        }
        Deed::Due => list_due(alloc, custody, now, out, err),
        Deed::Sweep { at_most } => sweep(alloc, custody, *at_most, now, out, err, progress),
        Deed::Fetch { reference, name } => fetch(alloc, custody, reference, name, out, err),
        Deed::Report { tld } => report(custody, tld, out, err),
        Deed::Explain { tld, day, rev } => explain(alloc, custody, tld, *day, *rev, out, err),
        Deed::Digests { tld } => list_digests(custody, tld, out, err),
        Deed::State => show(custody, out, err),
        Deed::Audit => audit(alloc, custody, out, err, progress),
        Deed::Batch | Deed::Serve { .. } => ExitStatus::Done.number(),
    }
}

fn preview<V: Volume, S: Alter, W: Write, E: Write>(
    alloc: Global,
    custody: &mut Custody<V, S>,
    statement: &Statement,
    now: Sec,
    out: &mut W,
    err: &mut E,
) -> u8
    ensures status { IsExitStatus result }
    ensures previews { Previews custody.old statement.now now custody.new result (record { before = W.contents out.old; after = W.contents out.new }) (record { before = E.contents err.old; after = E.contents err.new }) }
{
    match custody.preview(alloc, statement, now) {
        Ok(notice) => print_line(&Line::Notice(notice), out),
        Err(Refused::Refusal(refusal)) => tell_refusal(&refusal, err),
        Err(Refused::Failure(failure)) => tell(&failure, err),
    }
}

fn fetch<V: Volume, S: Alter, W: Write, E: Write>(
    alloc: Global,
    custody: &mut Custody<V, S>,
    reference: &Reference,
    name: &str,
    out: &mut W,
    err: &mut E,
) -> u8
    ensures status { IsExitStatus result }
    ensures fetches { Fetches custody.old reference.now name.now custody.new result (record { before = W.contents out.old; after = W.contents out.new }) (record { before = E.contents err.old; after = E.contents err.new }) }
{
    let mut bytes = Vec::new(alloc);
    match custody.fetch(alloc, reference, name.as_bytes(), &mut bytes) {
        Ok(()) => print_bytes(&bytes, out),
        Err(Refused::Refusal(refusal)) => tell_refusal(&refusal, err),
        Err(Refused::Failure(failure)) => tell(&failure, err),
    }
}

fn explain<V: Volume, S: Alter, W: Write, E: Write>(
    alloc: Global,
    custody: &mut Custody<V, S>,
    tld: &Tld,
    day: Day,
    rev: Revision,
    out: &mut W,
    err: &mut E,
) -> u8
    ensures status { IsExitStatus result }
    ensures explains { Explains custody.old tld.now day rev custody.new result (record { before = W.contents out.old; after = W.contents out.new }) (record { before = E.contents err.old; after = E.contents err.new }) }
{
    match custody.explain(alloc, tld, day, rev) {
        Ok(explanation) => match format!(in alloc; "{explanation}\n") {
            Ok(line) => print_bytes(line.as_bytes(), out),
            Err(_) => tell(&Failure::NoMemory, err),
        },
        Err(Refused::Refusal(refusal)) => tell_refusal(&refusal, err),
        Err(Refused::Failure(failure)) => tell(&failure, err),
    }
}

fn audit<V: Volume, S: Alter, W: Write, E: Write, P: Progress>(
    alloc: Global,
    custody: &mut Custody<V, S>,
    out: &mut W,
    err: &mut E,
    progress: &mut P,
) -> u8
    ensures status { IsExitStatus result }
    ensures audits { Audits custody.old custody.new result (record { before = W.contents out.old; after = W.contents out.new }) (record { before = E.contents err.old; after = E.contents err.new }) }
{
    let damaged = match custody.audit(alloc, progress) {
        Ok(damaged) => damaged,
        Err(fault) => return tell(&fault, err),
    };
    match custody.records() {
        Ok(records) => print_audit(&damaged, records, out),
        Err(fault) => tell(&fault, err),
    }
}
