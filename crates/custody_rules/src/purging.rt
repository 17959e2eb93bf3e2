//! The parts whose bytes were kept for a year.
ghost use Rattle.std.specs.Prelude.{◌≡◌, ℕ, All, IfOk};
ghost use Rattle.std.specs.FinMap.{FinMap};
ghost use Rattle.vault_volume.specs.Extents.{IsExtentOf, IsInAny, AreApart};
ghost use Rattle.custody_records.specs.Keys.{text_cmp};
ghost use Rattle.custody_records.specs.MemoryRecords.{records_of};
ghost use Rattle.custody_records.specs.Purge.{is_due};
ghost use Rattle.custody_records.specs.Records as recorded;
ghost use Rattle.custody_records.specs.TypedRecords.{key_of_part, part_value};
ghost use Rattle.custody_machine.specs.Purge.{IsDueBlock, due_keys};
ghost use Rattle.custody_machine.specs.StoredState.{HaveExtentsInRange, HaveBlocksOnce};
ghost use Rattle.custody_rules.specs.inside.DaysOnHold.{AreDaysOnHold};

use crate::extents::part_extents;
use crate::unique_keys::RegistryDay;
use custody_records::{Part, PartKey, Records};
use schedule::{Day, keep_until};
use std::alloc::{AllocError, Global};
use std::collections::BTreeSet;
use vault_volume::Extent;

/// The parts whose bytes a purge drops.
#[derive(Debug, Drop)]
pub struct DueParts {
    /// Their places, in order.
    pub keys: Vec<PartKey>,
    /// Their extents, one after the other.
    pub extents: Vec<Extent>,
}

/// The parts that are due: their bytes are held, the last day of their keeping is before today, and
/// their day is not on hold.
pub fn due_parts(alloc: Global, records: &Records, today: Day) -> Result<DueParts, AllocError>
    requires range { HaveExtentsInRange (records_of records.now) }
    requires once { HaveBlocksOnce (records_of records.now) }
    ensures keys { IfOk result (λ due. due.keys.items ≡ due_keys today (records_of records.now)) }
    ensures exact { IfOk result (λ due. (b : ℕ) → (IsInAny due.extents.items b → IsDueBlock today (records_of records.now) b) × (IsDueBlock today (records_of records.now) b → IsInAny due.extents.items b)) }
    ensures in_range { IfOk result (λ due. All (IsExtentOf (records_of records.now).blocks) due.extents.items) }
    ensures apart { IfOk result (λ due. AreApart due.extents.items) }
{
    let on_hold = days_on_hold(alloc, records)?;
    let mut keys = Vec::new(alloc);
    let mut extents = Vec::new(alloc);
    for part in records.parts() {
        if is_due(part, &on_hold, today) {
            keys.push(PartKey::of(&part.name))?;
            extents.extend_from_slice(part_extents(part))?;
        }
    }
    Ok(DueParts { keys, extents })
}

/// The days on hold, each once, whatever else was held and lifted.
fn days_on_hold(alloc: Global, records: &Records) -> Result<BTreeSet<RegistryDay>, AllocError>
    ensures { IfOk result (AreDaysOnHold (records_of records.now).holds) }
{
    let mut days = BTreeSet::new(alloc);
    for hold in records.holds() {
        if hold.lifted.is_none() {
            days.insert(RegistryDay {
                tld: hold.tld,
                day: hold.day,
            })?;
        }
    }
    Ok(days)
}

/// Whether the part is due, where these are the days on hold.
fn is_due(part: &Part, on_hold: &BTreeSet<RegistryDay>, today: Day) -> bool
    ensures { (holds : FinMap text_cmp recorded.Hold) → AreDaysOnHold holds on_hold.now → result ≡ is_due holds today (key_of_part part.now) (part_value part.now) }
{
    let day = RegistryDay {
        tld: part.name.tld,
        day: part.name.day,
    };
    part.extents.is_some()
        && keep_until(part.received.day()) < today.number()
        && !on_hold.contains(&day)
}
