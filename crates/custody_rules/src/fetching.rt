//! What a release hands over under a name.
ghost use Rattle.std.specs.Prelude.{◌≡◌, ℕ, List, Err, IfOk, IfErr};
ghost use Rattle.std.specs.List.{list_any};
ghost use Rattle.std.specs.Str.{bytes_eq};
ghost use Rattle.custody_records.specs.MemoryRecords.{records_of};
ghost use Rattle.custody_records.specs.Records.{PartRecord};
ghost use Rattle.custody_records.specs.TypedRecords.{part_value};
ghost use Rattle.custody_machine.specs.FetchResult.{fetch_result};
ghost use Rattle.custody_machine.specs.StoredState.{AreLinked, state_in};
ghost use Rattle.custody_rules.specs.Fetching.{HandsOver, IsRecordedAs};

use crate::judging::part_under;
use custody_machine::Refusal;
use custody_records::{Names, Part, Records};
use deposit_name::{DepositName, Reference};
use vault_volume::Extent;

/// The part that a release hands over under a name, and where its bytes lie; or why there is none. Each
/// name of the release is looked at once.
pub fn find_released<'a>(
    records: &'a Records,
    reference: &Reference,
    name: &[u8],
) -> Result<(&'a Part, &'a [Extent]), Refusal>
    requires { AreLinked (records_of records.now) }
    ensures found { IfOk result (λ found. HandsOver (records_of records.now) reference.now name.now (part_value found.0.now) found.1.now) }
    ensures refused { IfErr result (λ refusal. (image : List ℕ) → fetch_result (state_in (records_of records.now) image) reference.now name.now ≡ Err refusal) }
{
    let Some(release) = records.release(reference) else {
        return Err(Refusal::ReleaseUnknown);
    };
    if !has_name(&release.names, name) {
        return Err(Refusal::NotInRelease);
    }
    let part = part_named(records, name);
    match &part.extents {
        Some(extents) => Ok((part, extents)),
        None => Err(Refusal::DroppedAfterKeeping),
    }
}

/// Whether this is one of the names.
fn has_name(names: &Names, name: &[u8]) -> bool
    ensures { result ≡ list_any (λ listed. bytes_eq listed name.now) names.now }
{
    names.lines().any(|listed| listed == name)
}

/// The part that is recorded under a name.
fn part_named<'a>(records: &'a Records, text: &[u8]) -> &'a Part
    requires { (part : PartRecord) × IsRecordedAs (records_of records.now) text.now part }
    ensures { IsRecordedAs (records_of records.now) text.now (part_value result.now) }
{
    match DepositName::parse(text) {
        Ok(name) => match part_under(records, &name) {
            Some(part) => part,
            None => unreachable!(),
        },
        Err(_) => unreachable!(),
    }
}
