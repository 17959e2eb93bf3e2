//! A sweep: each day that has passed without a notice is checked.
ghost use Rattle.std.specs.Prelude.{◌≡◌, map};
ghost use Rattle.custody_machine.specs.Machine.{Check};
ghost use Rattle.custody_rules.specs.DueDays.{due_day_pair};
ghost use Rattle.answer_lines.specs.Statuses.{IsExitStatus};
ghost use Rattle.agent_cli.specs.Acts.{Applies, IsSwept, Sweeps, is_over};

use answer_lines::{tell, tell_answer, tell_too_many_absences};
use custody::{Custody, Progress};
use custody_machine::{Command, Failure};
use custody_rules::{DueDay, due_days};
use schedule::Sec;
use sqlite::Alter;
use std::alloc::Global;
use std::io::Write;
use vault_volume::Volume;

/// Checks each day that has passed without a notice, prints the new notices, and answers the status:
/// that of the first check that is not done, or else 0. Where more days than `at_most` are due, it checks
/// none of them.
pub(crate) fn sweep<V: Volume, S: Alter, W: Write, E: Write, P: Progress>(
    alloc: Global,
    custody: &mut Custody<V, S>,
    at_most: Option<u32>,
    now: Sec,
    out: &mut W,
    err: &mut E,
    progress: &mut P,
) -> u8
    ensures status { IsExitStatus result }
    ensures sweeps { Sweeps at_most custody.old now custody.new result (record { before = W.contents out.old; after = W.contents out.new }) (record { before = E.contents err.old; after = E.contents err.new }) }
{
    let due = match custody.records() {
        Ok(records) => due_days(alloc, records, now),
        Err(fault) => return tell(&fault, err),
    };
    let Ok(days) = due else {
        return tell(&Failure::NoMemory, err);
    };
    if is_over(at_most, days.len()) {
        return tell_too_many_absences(days.len(), err);
    }
    progress.begin(days.len());
    check_days(alloc, custody, &days, now, out, err, progress)
}

fn is_over(at_most: Option<u32>, count: usize) -> bool
    ensures { result ≡ is_over at_most count }
{
    match at_most {
        Some(most) => count > most as usize,
        None => false,
    }
}

/// Checks the days in their order, up to the first that is not done.
fn check_days<V: Volume, S: Alter, W: Write, E: Write, P: Progress>(
    alloc: Global,
    custody: &mut Custody<V, S>,
    days: &[DueDay],
    now: Sec,
    out: &mut W,
    err: &mut E,
    progress: &mut P,
) -> u8
    ensures status { IsExitStatus result }
    ensures swept { IsSwept (map due_day_pair days.now) custody.old now custody.new result (record { before = W.contents out.old; after = W.contents out.new }) (record { before = E.contents err.old; after = E.contents err.new }) }
{
    for day in days {
        let status = check_day(alloc, custody, day, now, out, err);
        if status != 0 {
            return status;
        }
        progress.advance(1);
    }
    0
}

fn check_day<V: Volume, S: Alter, W: Write, E: Write>(
    alloc: Global,
    custody: &mut Custody<V, S>,
    due: &DueDay,
    now: Sec,
    out: &mut W,
    err: &mut E,
) -> u8
    ensures status { IsExitStatus result }
    ensures applied { Applies custody.old (Check due.now.tld due.now.day) now custody.new result (record { before = W.contents out.old; after = W.contents out.new }) (record { before = E.contents err.old; after = E.contents err.new }) }
{
    let answer = custody.apply(alloc, &Command::Check(due.tld, due.day), now);
    tell_answer(&answer, out, err)
}
