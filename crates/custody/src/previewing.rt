//! The notice that a statement would be answered with: a deposit is verified, and nothing is recorded.
ghost use Rattle.std.specs.Prelude.{◌≡◌, ◌+◌, ◌-◌, ◌<◌, ◌^◌, true, false};
ghost use Rattle.vault_volume.specs.Vault.{volume_of};
ghost use Rattle.custody_records.specs.MemoryRecords.{records_of};
ghost use Rattle.custody_records.specs.Keys.{NoticeKey};
ghost use Rattle.custody_records.specs.Records as recorded;
ghost use Rattle.custody_machine.specs.Machine.{OfNotice};
ghost use Rattle.custody_machine.specs.StoredState.{AreWhole};
ghost use Rattle.custody_rules.specs.Rulings.{record_of};
ghost use Rattle.custody.specs.Answers.{stays_open};
ghost use Rattle.custody.specs.Previewing.{IsPreviewDecided, IsPreviewed, unnumbered};
ghost use Rattle.custody.specs.Reading.{ReadsVault};

use crate::Refused;
use crate::open_custody::notice_of;
use crate::verifying::verify_stated;
use custody_machine::{Command, Statement};
use custody_records::Records;
use custody_rules::{KeptRecord, Ruling, judge};
use desk::Notice;
use schedule::Sec;
use std::alloc::Global;
use vault_volume::{Vault, Volume};

/// The notice that a statement would be answered with at a moment, with number 0: the one that is kept,
/// or that of the verdict.
pub(crate) fn preview_notice<V: Volume>(
    alloc: Global,
    vault: &mut Vault<V>,
    records: &Records,
    statement: &Statement,
    now: Sec,
) -> Result<Notice, Refused>
    requires whole { AreWhole (records_of records.now) }
    requires blocks { V.size (volume_of vault.old) ≡ (records_of records.now).blocks }
    requires count { V.failures (volume_of vault.old) < 2 ^ 64 - 1 }
    ensures decided { IsPreviewDecided (records_of records.now) statement.now now result }
    ensures previewed { V.tells → IsPreviewed (records_of records.now) (V.image (volume_of vault.old)) statement.now now result }
    ensures read { ReadsVault vault.old vault.new }
    ensures failed { stays_open result ≡ false → V.failures (volume_of vault.new) ≡ V.failures (volume_of vault.old) + 1 }
    ensures not_failed { stays_open result ≡ true → V.failures (volume_of vault.new) ≡ V.failures (volume_of vault.old) }
{
    match judge(alloc, records, &Command::Statement(*statement), now) {
        Ruling::Refuse(refusal) => Err(Refused::Refusal(refusal)),
        Ruling::Kept(kept) => Ok(kept_notice(&kept)),
        Ruling::Compare(..) => unreachable!(),
        Ruling::Go(_) => {
            let verdict = verify_stated(alloc, vault, records, statement)?;
            Ok(notice_of(statement, verdict, 0, now))
        }
    }
}

/// The notice that answers a repeat, with number 0.
fn kept_notice(kept: &KeptRecord<'_>) -> Notice
    requires { (key : NoticeKey) × (notice : recorded.Notice) × (record_of kept.now ≡ OfNotice key notice) }
    ensures { (key : NoticeKey) (notice : recorded.Notice) → record_of kept.now ≡ OfNotice key notice → result ≡ unnumbered key notice }
{
    match kept {
        KeptRecord::Notice(notice) => Notice {
            number: 0,
            ..*notice
        },
        _ => unreachable!(),
    }
}
