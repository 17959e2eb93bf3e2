//! Why a revision has failed, found again by what was known when it was stated.
ghost use Rattle.std.specs.Prelude.{◌≡◌, ◌≢◌, ℕ, List, ◌+◌, ◌-◌, ◌<◌, ◌^◌, true, false, IfNone, IfSome, Some};
ghost use Rattle.std.specs.Option.{option_and_then};
ghost use Rattle.vault_volume.specs.Vault.{volume_of};
ghost use Rattle.deposit_verify.specs.declared.verdict.Verdict.TheVariants.{Fail};
ghost use Rattle.deposit_verify.specs.Reasons.{reason_check, verdict_for};
ghost use Rattle.custody_records.specs.MemoryRecords.{records_of};
ghost use Rattle.custody_records.specs.Records.{Records as AllRecords};
ghost use Rattle.custody_machine.specs.StoredState.{AreWhole};
ghost use Rattle.custody_rules.specs.Explaining.{AreNoticesOf};
ghost use Rattle.custody.specs.Answers.{stays_open};
ghost use Rattle.custody.specs.Explaining.{IsExplainDecided, IsExplained, taken_day};
ghost use Rattle.custody.specs.Reading.{ReadsVault};

use crate::verifying::explain_stated;
use crate::{Explanation, Refused};
use custody_records::Records;
use custody_rules::{find_failure, notices_before, passed_day};
use deposit_name::Tld;
use deposit_verify::{HeaderReason, Reason};
use desk::{Check, Notice, Revision};
use schedule::Day;
use std::alloc::Global;
use vault_volume::{Vault, Volume};

/// Explains the failure of a revision whose parts are all held.
pub(crate) fn explain_failure<V: Volume>(
    alloc: Global,
    vault: &mut Vault<V>,
    records: &Records,
    tld: &Tld,
    day: Day,
    rev: Revision,
) -> Result<Explanation, Refused>
    requires whole { AreWhole (records_of records.now) }
    requires blocks { V.size (volume_of vault.old) ≡ (records_of records.now).blocks }
    requires count { V.failures (volume_of vault.old) < 2 ^ 64 - 1 }
    ensures decided { IsExplainDecided (records_of records.now) tld.now day rev result }
    ensures explained { V.tells → IsExplained (records_of records.now) (V.image (volume_of vault.old)) tld.now day rev result }
    ensures read { ReadsVault vault.old vault.new }
    ensures failed { stays_open result ≡ false → V.failures (volume_of vault.new) ≡ V.failures (volume_of vault.old) + 1 }
    ensures not_failed { stays_open result ≡ true → V.failures (volume_of vault.new) ≡ V.failures (volume_of vault.old) }
{
    let failure = find_failure(records, tld, day, rev)?;
    let notices = notices_before(alloc, records, tld, failure.number)?;
    let found = explain_stated(alloc, vault, records, &notices, &failure.statement)?;
    let reason = reason_of(failure.check, found);
    Ok(Explanation {
        check: failure.check,
        passed_on: taken_day(&notices, &reason),
        reason,
    })
}

/// The reason that was found, where it is one of failing this check.
fn reason_of(check: Check, found: Option<Reason>) -> Option<Reason>
    ensures some { IfSome result (λ reason. (found ≡ Some reason) × (reason_check reason ≡ check)) }
    ensures none { IfNone result (verdict_for found ≢ Fail check) }
{
    let reason = found?;
    if reason.check() == check {
        Some(reason)
    } else {
        None
    }
}

/// Of an id that had been used, the day of the deposit that had passed with it.
fn taken_day(notices: &[Notice], reason: &Option<Reason>) -> Option<Day>
    ensures { (records : AllRecords) (tld : List ℕ) → AreNoticesOf records tld notices.now → result ≡ option_and_then (taken_day records.notices tld) reason.now }
{
    match reason {
        Some(Reason::Header(HeaderReason::IdTaken(id))) => passed_day(notices, id),
        _ => None,
    }
}
