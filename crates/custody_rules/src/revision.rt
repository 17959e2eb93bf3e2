//! The parts of a revision. It is named by the place of one of its parts.
ghost use Rattle.std.specs.Prelude.{◌≡◌, ◌≤◌, IfSome, is_some, option_copied, option_map};
ghost use Rattle.std.specs.FinMap.{get};
ghost use Rattle.deposit_name.specs.Name.{is_same_kind};
ghost use Rattle.custody_records.specs.MemoryRecords.{records_of};
ghost use Rattle.custody_records.specs.TypedRecords.{key_of_part, part_value};
ghost use Rattle.custody_machine.specs.State.{key_with_part};
ghost use Rattle.custody_machine.specs.StoredState.{is_part_of};
ghost use Rattle.custody_rules.specs.Judging.{count_parts_in, has_dropped_part_in, has_other_kind_in, is_of_other_kind, is_without_bytes};

use custody_records::{Part, PartKey, Records};
use deposit_name::Kind;

/// The places in the series of a revision's parts.
const PLACES: [u8; 8] = [1, 2, 3, 4, 5, 6, 7, 8];

/// The part at a place of the revision.
pub(crate) fn revision_part<'a>(records: &'a Records, key: &PartKey, place: u8) -> Option<&'a Part>
    ensures found { option_map part_value (option_copied result) ≡ get (records_of records.now).parts (key_with_part key.now place) }
    ensures key { IfSome result (λ part. key_of_part part.now ≡ key_with_part key.now place) }
{
    records.part(&PartKey {
        part: place,
        ..*key
    })
}

pub(crate) fn is_of_kind(part: &Part, kind: Kind) -> bool
    ensures { result ≡ is_same_kind part.now.name.kind kind }
{
    part.name.kind == kind
}

/// Whether a part of that kind is recorded at that place.
pub(crate) fn has_part_of(records: &Records, place: &PartKey, kind: Kind) -> bool
    ensures { result ≡ is_part_of kind (get (records_of records.now).parts place.now) }
{
    match records.part(place) {
        Some(part) => is_of_kind(part, kind),
        None => false,
    }
}

/// How many parts the revision has.
pub(crate) fn count_parts(records: &Records, key: &PartKey) -> usize
    ensures number { result ≡ count_parts_in (records_of records.now) key.now }
    ensures small { result ≤ 8 }
{
    PLACES
        .iter()
        .filter(|place| has_part(records, key, **place))
        .count()
}

/// Whether a part of the revision is of another kind.
pub(crate) fn has_other_kind(records: &Records, key: &PartKey, kind: Kind) -> bool
    ensures { result ≡ has_other_kind_in (records_of records.now) key.now kind }
{
    PLACES
        .iter()
        .any(|place| is_other_kind(records, key, kind, *place))
}

/// Whether the bytes of a part of the revision are dropped.
pub(crate) fn has_dropped_part(records: &Records, key: &PartKey) -> bool
    ensures { result ≡ has_dropped_part_in (records_of records.now) key.now }
{
    PLACES.iter().any(|place| is_dropped(records, key, *place))
}

fn has_part(records: &Records, key: &PartKey, place: u8) -> bool
    ensures { result ≡ is_some (get (records_of records.now).parts (key_with_part key.now place)) }
{
    revision_part(records, key, place).is_some()
}

fn is_other_kind(records: &Records, key: &PartKey, kind: Kind, place: u8) -> bool
    ensures { result ≡ is_of_other_kind kind (get (records_of records.now).parts (key_with_part key.now place)) }
{
    match revision_part(records, key, place) {
        Some(part) => !is_of_kind(part, kind),
        None => false,
    }
}

fn is_dropped(records: &Records, key: &PartKey, place: u8) -> bool
    ensures { result ≡ is_without_bytes (get (records_of records.now).parts (key_with_part key.now place)) }
{
    match revision_part(records, key, place) {
        Some(part) => part.extents.is_none(),
        None => false,
    }
}
