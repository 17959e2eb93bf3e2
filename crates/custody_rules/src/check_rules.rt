//! How a check is judged by the records.
ghost use Rattle.std.specs.Prelude.{◌≡◌, ◌≢◌, ◌==◌, List, None, Some, IfSome, ℕ, find};
ghost use Rattle.std.specs.FinMap.{entries, get};
ghost use Rattle.custody_records.specs.MemoryRecords.{records_of};
ghost use Rattle.custody_machine.specs.Machine.{Check, check_tests, first_refusal, is_absence};
ghost use Rattle.custody_machine.specs.Rulings.{Decides};
ghost use Rattle.custody_machine.specs.State.{is_notice_of};
ghost use Rattle.custody_machine.specs.StoredState.{state_in};
ghost use Rattle.custody_machine.specs.declared.answers.Refusal.TheVariants.{OtherBytes, VolumeFull};
ghost use Rattle.custody_rules.specs.Rulings.{ruling_of};

use crate::days::{Sought, has_notice, is_day_outside, notice_of};
use crate::{Change, KeptRecord, Ruling};
use custody_machine::Refusal;
use custody_records::Records;
use deposit_name::Tld;
use schedule::{Day, Sec};

/// Judges a check: it is refused; the absence that is recorded answers it; or it is to be recorded.
pub(crate) fn judge_check(records: &Records, tld: Tld, day: Day, now: Sec) -> Ruling<'_>
    ensures { Decides (ruling_of result) (records_of records.now) (Check tld day) now }
{
    let Some(first_day) = records.first_day(&tld) else {
        return Ruling::Refuse(Refusal::RegistryUnknown);
    };
    match notice_of(records, &tld, day, Sought::Absence) {
        Some(notice) => Ruling::Kept(KeptRecord::Notice(*notice)),
        None => match refusal_of_check(records, &tld, day, first_day, now) {
            Some(refusal) => Ruling::Refuse(refusal),
            None => Ruling::Go(Change::Absence(tld, day)),
        },
    }
}

/// Why a day without an absence is not recorded as missed, by the first refusal that stands.
fn refusal_of_check(
    records: &Records,
    tld: &Tld,
    day: Day,
    first_day: Day,
    now: Sec,
) -> Option<Refusal>
    ensures first { (image : List ℕ) → get (records_of records.now).registries tld.now ≡ Some first_day → find (is_notice_of tld.now day is_absence) (entries (records_of records.now).notices) ≡ None
        → result ≡ first_refusal (check_tests (state_in (records_of records.now) image) tld.now day now) }
    ensures early { IfSome result (λ refusal. (refusal ≢ OtherBytes) × (refusal ≢ VolumeFull)) }
{
    if is_day_outside(first_day, day, now) {
        return Some(Refusal::DateOutOfRange);
    }
    if day == now.day() {
        return Some(Refusal::NotYetDue);
    }
    if has_notice(records, tld, day, Sought::Verdict) {
        return Some(Refusal::DayHasVerdict);
    }
    None
}
