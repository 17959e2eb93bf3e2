//! The records of a custody in memory.
ghost use Rattle.std.specs.Prelude.{◌≡◌, true, None, IsSome, IfSome, IfOk, OnOk, OnErr, option_map, option_copied};
ghost use Rattle.std.specs.FinMap.{get};
ghost use Rattle.custody_records.specs.Keys as by;
ghost use Rattle.custody_records.specs.Purge.{dropped_if_among};
ghost use Rattle.custody_records.specs.Keys.{text_cmp, part_cmp, notice_cmp};
ghost use Rattle.custody_records.specs.Tables.{row_entries, is_rising, table_map};
ghost use Rattle.custody_records.specs.TypedRecords.{registry_key, registry_value, key_of_part, part_value, notice_key, notice_value, release_key, release_value, hold_key, hold_value};

use crate::registry_rows::{AllRows, RowsByRegistry};
use crate::tables::SortedRows;
use crate::{Hold, NoticeKey, Part, PartKey, Registry, Release};
use deposit_name::{DepositName, Reference, Tld};
use desk::{Notice, NoticeKind};
use schedule::{Day, Sec};
use std::alloc::{AllocError, Global};

/// Records in any order.
#[derive(Debug, Drop)]
pub struct RecordLists {
    pub registries: Vec<Registry>,
    pub parts: Vec<Part>,
    pub notices: Vec<Notice>,
    pub releases: Vec<Release>,
    pub holds: Vec<Hold>,
}

/// The records of a custody, and the number and the blocks of the volume that they belong to.
#[derive(Debug, Drop)]
pub struct Records {
    number: u64,
    blocks: u32,
    registries: SortedRows<Registry>,
    parts: RowsByRegistry<Part>,
    notices: RowsByRegistry<Notice>,
    releases: SortedRows<Release>,
    holds: SortedRows<Hold>,
}

impl Records {
    ghost use Rattle.custody_records.specs.RegistryRows.{rows_left};
    ghost use Rattle.custody_records.specs.Records.{
      new_records,
      notices_of,
      parts_of,
      parts_of_day,
      parts_of_revision,
      with_registry,
      with_part,
      with_notice,
      with_release,
      with_hold,
      lifted_at,
    };
    ghost use Rattle.custody_records.specs.MemoryRecords.{
      records_of,
      records_of_lists,
      HasRegistryRoom,
      HasPartRoom,
      HasNoticeRoom,
      HasReleaseRoom,
      HasHoldRoom,
    };

    /// No records yet, for a volume of this number and so many blocks.
    pub fn new(alloc: Global, number: u64, blocks: u32) -> Records
        ensures { records_of result ≡ new_records number blocks }
    {
        Records {
            number,
            blocks,
            registries: SortedRows::new(alloc),
            parts: RowsByRegistry::new(alloc),
            notices: RowsByRegistry::new(alloc),
            releases: SortedRows::new(alloc),
            holds: SortedRows::new(alloc),
        }
    }

    /// The records of these lists, for a volume of this number and so many blocks; none where two records of a list have
    /// one key.
    pub fn of_lists(
        alloc: Global,
        number: u64,
        blocks: u32,
        lists: RecordLists,
    ) -> Result<Option<Records>, AllocError>
        ensures { IfOk result (λ found. option_map (λ records. records_of records) found ≡ records_of_lists number blocks lists) }
    {
        let (Some(registries), Some(parts), Some(notices), Some(releases), Some(holds)) = (
            SortedRows::of_list(lists.registries),
            RowsByRegistry::of_list(alloc, lists.parts)?,
            RowsByRegistry::of_list(alloc, lists.notices)?,
            SortedRows::of_list(lists.releases),
            SortedRows::of_list(lists.holds),
        ) else {
            return Ok(None);
        };
        Ok(Some(Records {
            number,
            blocks,
            registries,
            parts,
            notices,
            releases,
            holds,
        }))
    }

    /// The number of the volume.
    pub fn number(&self) -> u64
        ensures { result ≡ (records_of self.now).number }
    {
        self.number
    }

    /// How many blocks the volume has.
    pub fn blocks(&self) -> u32
        ensures { result ≡ (records_of self.now).blocks }
    {
        self.blocks
    }

    /// The first day of a registry.
    pub fn first_day(&self, tld: &Tld) -> Option<Day>
        ensures { result ≡ get (records_of self.now).registries tld.now }
    {
        let registry = self.registries.find(tld)?;
        Some(registry.first_day)
    }

    /// The part of that place.
    pub fn part(&self, place: &PartKey) -> Option<&Part>
        ensures found { option_map part_value (option_copied result) ≡ get (records_of self.now).parts place.now }
        ensures key { IfSome result (λ part. key_of_part part.now ≡ place.now) }
    {
        self.parts.find(place)
    }

    /// The notice of that number.
    pub fn notice(&self, key: &NoticeKey) -> Option<&Notice>
        ensures found { option_map notice_value (option_copied result) ≡ get (records_of self.now).notices key.now }
        ensures key { IfSome result (λ notice. notice_key notice.now ≡ key.now) }
    {
        self.notices.find(key)
    }

    /// The release of that reference.
    pub fn release(&self, reference: &Reference) -> Option<&Release>
        ensures found { option_map release_value (option_copied result) ≡ get (records_of self.now).releases reference.now }
        ensures key { IfSome result (λ release. release_key release.now ≡ reference.now) }
    {
        self.releases.find(reference)
    }

    /// The hold of that reference.
    pub fn hold(&self, reference: &Reference) -> Option<&Hold>
        ensures found { option_map hold_value (option_copied result) ≡ get (records_of self.now).holds reference.now }
        ensures key { IfSome result (λ hold. hold_key hold.now ≡ reference.now) }
    {
        self.holds.find(reference)
    }

    /// The registries, by their names.
    pub fn registries(&self) -> &[Registry]
        ensures all { (records_of self.now).registries ≡ table_map text_cmp registry_key registry_value result.now }
        ensures rising { is_rising text_cmp registry_key result.now ≡ true }
    {
        self.registries.rows()
    }

    /// Makes room for one more registry.
    pub fn reserve_registry(&mut self) -> Result<(), AllocError>
        ensures same { records_of self.new ≡ records_of self.old }
        ensures room { OnOk result (HasRegistryRoom self.new) }
        ensures no_memory { OnErr result (¬ HasRegistryRoom self.old) }
    {
        self.registries.try_reserve()
    }

    /// Adds a registry that is not there, without taking memory.
    pub fn add_registry(&mut self, registry: Registry)
        requires room { HasRegistryRoom self.old }
        requires new { get (records_of self.old).registries (registry_key registry) ≡ None }
        ensures { records_of self.new ≡ with_registry (records_of self.old) (registry_key registry) (registry_value registry) }
    {
        self.registries.add(registry);
    }

    /// The parts, by registry, day, revision and place.
    pub fn parts(&self) -> AllRows<'_, Part>
        ensures all { (records_of self.now).parts ≡ table_map part_cmp key_of_part part_value (rows_left result) }
        ensures rising { is_rising part_cmp key_of_part (rows_left result) ≡ true }
    {
        self.parts.all()
    }

    /// The parts of a registry, by day, revision and place.
    pub fn parts_of(&self, tld: &Tld) -> &[Part]
        ensures { row_entries key_of_part part_value result.now ≡ parts_of (records_of self.now) tld.now }
    {
        self.parts.group(tld)
    }

    /// The parts of a registry's day, by revision and place.
    pub fn parts_of_day(&self, tld: &Tld, day: Day) -> &[Part]
        ensures { row_entries key_of_part part_value result.now ≡ parts_of_day (records_of self.now) tld.now day }
    {
        self.parts.group(&(*tld, day))
    }

    /// The parts of the revision of a name, by place.
    pub fn parts_of_revision(&self, name: &DepositName) -> &[Part]
        ensures { row_entries key_of_part part_value result.now ≡ parts_of_revision (records_of self.now) name.now }
    {
        self.parts.group(name)
    }

    /// Makes room for one more part of a registry.
    pub fn reserve_part(&mut self, alloc: Global, tld: &Tld) -> Result<(), AllocError>
        ensures same { records_of self.new ≡ records_of self.old }
        ensures room { OnOk result (HasPartRoom tld.now self.new) }
        ensures no_memory { OnErr result (¬ HasPartRoom tld.now self.old) }
    {
        self.parts.try_reserve(alloc, tld)
    }

    /// Adds a part that is not there, without taking memory.
    pub fn add_part(&mut self, part: Part)
        requires room { HasPartRoom (key_of_part part).tld self.old }
        requires new { get (records_of self.old).parts (key_of_part part) ≡ None }
        ensures { records_of self.new ≡ with_part (records_of self.old) (key_of_part part) (part_value part) }
    {
        self.parts.add(part);
    }

    /// Drops the bytes of the parts with these keys, without taking memory. Their records stay.
    pub fn drop_bytes(&mut self, keys: &[PartKey])
        ensures parts { (key : by.PartKey) → get (records_of self.new).parts key ≡ option_map (dropped_if_among keys.now key) (get (records_of self.old).parts key) }
        ensures others { records_of self.new ≡ record (records_of self.old) { parts = (records_of self.new).parts } }
    {
        self.parts.drop_bytes(keys);
    }

    /// The notices, by registry and number.
    pub fn notices(&self) -> AllRows<'_, Notice>
        ensures all { (records_of self.now).notices ≡ table_map notice_cmp notice_key notice_value (rows_left result) }
        ensures rising { is_rising notice_cmp notice_key (rows_left result) ≡ true }
    {
        self.notices.all()
    }

    /// The notices of a registry, by number.
    pub fn notices_of(&self, tld: &Tld) -> &[Notice]
        ensures { row_entries notice_key notice_value result.now ≡ notices_of (records_of self.now) tld.now }
    {
        self.notices.group(tld)
    }

    /// Makes room for one more notice of a registry.
    pub fn reserve_notice(&mut self, alloc: Global, tld: &Tld) -> Result<(), AllocError>
        ensures same { records_of self.new ≡ records_of self.old }
        ensures room { OnOk result (HasNoticeRoom tld.now self.new) }
        ensures no_memory { OnErr result (¬ HasNoticeRoom tld.now self.old) }
    {
        self.notices.try_reserve(alloc, tld)
    }

    /// Adds a notice that is not there, without taking memory.
    pub fn add_notice(&mut self, notice: &Notice)
        requires room { HasNoticeRoom (notice_key notice.now).tld self.old }
        requires new { get (records_of self.old).notices (notice_key notice.now) ≡ None }
        ensures { records_of self.new ≡ with_notice (records_of self.old) (notice_key notice.now) (notice_value notice.now) }
    {
        let kind: NoticeKind = notice.kind;
        self.notices.add(Notice { kind, ..*notice });
    }

    /// The releases, by their references.
    pub fn releases(&self) -> &[Release]
        ensures all { (records_of self.now).releases ≡ table_map text_cmp release_key release_value result.now }
        ensures rising { is_rising text_cmp release_key result.now ≡ true }
    {
        self.releases.rows()
    }

    /// Makes room for one more release.
    pub fn reserve_release(&mut self) -> Result<(), AllocError>
        ensures same { records_of self.new ≡ records_of self.old }
        ensures room { OnOk result (HasReleaseRoom self.new) }
        ensures no_memory { OnErr result (¬ HasReleaseRoom self.old) }
    {
        self.releases.try_reserve()
    }

    /// Adds a release that is not there, without taking memory.
    pub fn add_release(&mut self, release: Release)
        requires room { HasReleaseRoom self.old }
        requires new { get (records_of self.old).releases (release_key release) ≡ None }
        ensures { records_of self.new ≡ with_release (records_of self.old) (release_key release) (release_value release) }
    {
        self.releases.add(release);
    }

    /// The holds, by their references.
    pub fn holds(&self) -> &[Hold]
        ensures all { (records_of self.now).holds ≡ table_map text_cmp hold_key hold_value result.now }
        ensures rising { is_rising text_cmp hold_key result.now ≡ true }
    {
        self.holds.rows()
    }

    /// Makes room for one more hold.
    pub fn reserve_hold(&mut self) -> Result<(), AllocError>
        ensures same { records_of self.new ≡ records_of self.old }
        ensures room { OnOk result (HasHoldRoom self.new) }
        ensures no_memory { OnErr result (¬ HasHoldRoom self.old) }
    {
        self.holds.try_reserve()
    }

    /// Adds a hold that is not there, without taking memory.
    pub fn add_hold(&mut self, hold: &Hold)
        requires room { HasHoldRoom self.old }
        requires new { get (records_of self.old).holds (hold_key hold.now) ≡ None }
        ensures { records_of self.new ≡ with_hold (records_of self.old) (hold_key hold.now) (hold_value hold.now) }
    {
        let lifted: Option<Sec> = hold.lifted;
        self.holds.add(Hold { lifted, ..*hold });
    }

    /// Lifts a hold that is there, without taking memory.
    pub fn lift_hold(&mut self, hold: &Hold, at: Sec)
        requires there { IsSome (get (records_of self.old).holds (hold_key hold.now)) }
        ensures { records_of self.new ≡ with_hold (records_of self.old) (hold_key hold.now) (lifted_at at (hold_value hold.now)) }
    {
        self.holds.replace(Hold {
            lifted: Some(at),
            ..*hold
        });
    }
}
