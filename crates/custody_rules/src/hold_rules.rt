//! How a hold and its lifting are judged by the records.
ghost use Rattle.std.specs.Prelude.{◌≡◌, ℕ};
ghost use Rattle.custody_records.specs.MemoryRecords.{records_of};
ghost use Rattle.custody_records.specs.TypedRecords.{hold_value};
ghost use Rattle.custody_machine.specs.Machine.{Hold as Held, Lift, is_held_day};
ghost use Rattle.custody_machine.specs.Rulings.{Decides};
ghost use Rattle.custody_rules.specs.inside.Holds.{new_hold_ruling, used_refusal};
ghost use Rattle.custody_rules.specs.Rulings.{ruling_of};

use crate::days::is_day_outside;
use crate::{Change, KeptRecord, Ruling};
use custody_machine::Refusal;
use custody_records::{Hold, Records};
use deposit_name::{Reference, Tld};
use schedule::{Day, Sec};

/// Judges a hold: it is refused; the hold that was made on the same request answers it, lifted or not;
/// or one is to be made.
pub(crate) fn judge_hold(
    records: &Records,
    reference: Reference,
    tld: Tld,
    day: Day,
    now: Sec,
) -> Ruling<'_>
    ensures { Decides (ruling_of result) (records_of records.now) (Held reference tld day) now }
{
    let Some(first_day) = records.first_day(&tld) else {
        return Ruling::Refuse(Refusal::RegistryUnknown);
    };
    let is_out = is_day_outside(first_day, day, now);
    match records.hold(&reference) {
        Some(hold) if is_of_day(hold, &tld, day) => Ruling::Kept(KeptRecord::Hold(hold)),
        Some(_) => Ruling::Refuse(refusal_of_used(is_out)),
        None => judge_new(reference, tld, day, is_out),
    }
}

/// Judges a hold of a new reference, of a registry that is known.
fn judge_new<'a>(reference: Reference, tld: Tld, day: Day, is_out: bool) -> Ruling<'a>
    ensures { ruling_of result ≡ new_hold_ruling reference tld day is_out }
{
    if is_out {
        Ruling::Refuse(Refusal::DateOutOfRange)
    } else {
        Ruling::Go(Change::Hold(reference, tld, day))
    }
}

/// Why a hold is refused whose reference is that of another one.
fn refusal_of_used(is_out: bool) -> Refusal
    ensures { result ≡ used_refusal is_out }
{
    if is_out {
        Refusal::DateOutOfRange
    } else {
        Refusal::HoldReferenceUsed
    }
}

/// Whether the hold is of this registry and day.
fn is_of_day(hold: &Hold, tld: &Tld, day: Day) -> bool
    ensures { result ≡ is_held_day tld.now day (hold_value hold.now) }
{
    hold.tld == *tld && hold.day == day
}

/// Judges a lifting: there is no such hold; its first lifting answers it; or it is to be lifted.
pub(crate) fn judge_lift(records: &Records, reference: Reference) -> Ruling<'_>
    ensures { (now : ℕ) → Decides (ruling_of result) (records_of records.now) (Lift reference) now }
{
    match records.hold(&reference) {
        Some(hold) => match hold.lifted {
            Some(at) => Ruling::Kept(KeptRecord::Lifting(reference, at)),
            None => Ruling::Go(Change::Lift(reference)),
        },
        None => Ruling::Refuse(Refusal::HoldUnknown),
    }
}
