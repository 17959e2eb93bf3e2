//! What a custody tells of its records, as the program prints it.
ghost use Rattle.http_api.specs.Handling.{IsTextTold, digests_response, due_response, state_response};

use answer_lines::{write_digests, write_due, write_state};
use custody::{Custody, Refused};
use custody_machine::{Failure, Refusal};
use custody_rules::due_days;
use deposit_name::Tld;
use schedule::Sec;
use sqlite::Alter;
use std::alloc::Global;
use vault_volume::Volume;

/// The records, and the free blocks.
pub(crate) fn state_text<V: Volume, S: Alter>(
    alloc: Global,
    custody: &Custody<V, S>,
) -> Result<Vec<u8>, Refused>
    ensures { IsTextTold (state_response custody.now) result }
{
    let records = custody.records()?;
    let (free, total) = custody.room()?;
    let mut text = Vec::new(alloc);
    write_state(records, free, total, &mut text).map_err(|_| Failure::NoMemory)?;
    Ok(text)
}

/// The days that a sweep would record as missed.
pub(crate) fn due_text<V: Volume, S: Alter>(
    alloc: Global,
    custody: &Custody<V, S>,
    now: Sec,
) -> Result<Vec<u8>, Refused>
    ensures { IsTextTold (due_response custody.now now) result }
{
    let records = custody.records()?;
    let days = due_days(alloc, records, now)?;
    let mut text = Vec::new(alloc);
    write_due(records, &days, &mut text).map_err(|_| Failure::NoMemory)?;
    Ok(text)
}

/// The digests of the parts of a registry that is known.
pub(crate) fn digests_text<V: Volume, S: Alter>(
    alloc: Global,
    custody: &Custody<V, S>,
    tld: &Tld,
) -> Result<Vec<u8>, Refused>
    ensures { IsTextTold (digests_response custody.now tld.now) result }
{
    let records = custody.records()?;
    if records.first_day(tld).is_none() {
        return Err(Refused::from(Refusal::RegistryUnknown));
    }
    let mut text = Vec::new(alloc);
    write_digests(records, tld, &mut text).map_err(|_| Failure::NoMemory)?;
    Ok(text)
}
