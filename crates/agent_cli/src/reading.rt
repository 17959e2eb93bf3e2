//! Deeds that read the records, and leave the agent as it is.
ghost use Rattle.std.specs.Prelude.{◌≡◌, ◌⊎◌, IfErr, IfOk, None, false, is_some, true};
ghost use Rattle.std.specs.FinMap.{get};
ghost use Rattle.custody_records.specs.MemoryRecords.{records_of};
ghost use Rattle.custody.specs.Custody.{is_open, open_custody_of};
ghost use Rattle.custody.specs.OpenCustody.{current_records};
ghost use Rattle.answer_lines.specs.Digests.{digests_text};
ghost use Rattle.answer_lines.specs.State.{registry_report_text};
ghost use Rattle.answer_lines.specs.Statuses.{IsExitStatus};
ghost use Rattle.agent_cli.specs.Acts.{PrintsDue, PrintsOfRegistry, PrintsState};

use answer_lines::{print_digests, print_due, print_report, print_state, tell, tell_answer};
use custody::{Custody, Refused};
use custody_machine::{Failure, Refusal};
use custody_records::Records;
use custody_rules::due_days;
use deposit_name::Tld;
use schedule::Sec;
use sqlite::Alter;
use std::alloc::Global;
use std::io::Write;
use vault_volume::Volume;

/// Prints the days that are due.
pub(crate) fn list_due<V: Volume, S: Alter, W: Write, E: Write>(
    alloc: Global,
    custody: &Custody<V, S>,
    now: Sec,
    out: &mut W,
    err: &mut E,
) -> u8
    ensures status { IsExitStatus result }
    ensures due { PrintsDue custody.now now result (record { before = W.contents out.old; after = W.contents out.new }) (record { before = E.contents err.old; after = E.contents err.new }) }
{
    let records = match custody.records() {
        Ok(records) => records,
        Err(fault) => return tell(&fault, err),
    };
    match due_days(alloc, records, now) {
        Ok(days) => print_due(records, &days, out),
        Err(_) => tell(&Failure::NoMemory, err),
    }
}

/// Prints the notices of a registry.
pub(crate) fn report<V: Volume, S: Alter, W: Write, E: Write>(
    custody: &Custody<V, S>,
    tld: &Tld,
    out: &mut W,
    err: &mut E,
) -> u8
    ensures status { IsExitStatus result }
    ensures reports { PrintsOfRegistry registry_report_text custody.now tld.now result (record { before = W.contents out.old; after = W.contents out.new }) (record { before = E.contents err.old; after = E.contents err.new }) }
{
    match records_knowing(custody, tld) {
        Ok(records) => print_report(records.notices_of(tld), out),
        Err(why) => tell_answer(&Err(why), out, err),
    }
}

/// Prints the digests of the parts of a registry.
pub(crate) fn list_digests<V: Volume, S: Alter, W: Write, E: Write>(
    custody: &Custody<V, S>,
    tld: &Tld,
    out: &mut W,
    err: &mut E,
) -> u8
    ensures status { IsExitStatus result }
    ensures digests { PrintsOfRegistry digests_text custody.now tld.now result (record { before = W.contents out.old; after = W.contents out.new }) (record { before = E.contents err.old; after = E.contents err.new }) }
{
    match records_knowing(custody, tld) {
        Ok(records) => print_digests(records, tld, out),
        Err(why) => tell_answer(&Err(why), out, err),
    }
}

/// The records, where they have the registry.
fn records_knowing<'a, V: Volume, S: Alter>(
    custody: &'a Custody<V, S>,
    tld: &Tld,
) -> Result<&'a Records, Refused>
    ensures known { IfOk result (λ records. (is_open custody.now ≡ true) × (records_of records.now ≡ current_records (open_custody_of custody.now)) × (is_some (get (current_records (open_custody_of custody.now)).registries tld.now) ≡ true)) }
    ensures refused { IfErr result (λ why. ((is_open custody.now ≡ false) × (why ≡ Refused.Failure Failure.Closed))
        ⊎ ((is_open custody.now ≡ true) × (get (current_records (open_custody_of custody.now)).registries tld.now ≡ None) × (why ≡ Refused.Refusal Refusal.RegistryUnknown))) }
{
    let records = custody.records()?;
    if records.first_day(tld).is_none() {
        return Err(Refused::Refusal(Refusal::RegistryUnknown));
    }
    Ok(records)
}

/// Prints the records and the free blocks.
pub(crate) fn show<V: Volume, S: Alter, W: Write, E: Write>(
    custody: &Custody<V, S>,
    out: &mut W,
    err: &mut E,
) -> u8
    ensures status { IsExitStatus result }
    ensures shown { PrintsState custody.now result (record { before = W.contents out.old; after = W.contents out.new }) (record { before = E.contents err.old; after = E.contents err.new }) }
{
    let records = match custody.records() {
        Ok(records) => records,
        Err(fault) => return tell(&fault, err),
    };
    match custody.room() {
        Ok((free, total)) => print_state(records, free, total, out),
        Err(fault) => tell(&fault, err),
    }
}
