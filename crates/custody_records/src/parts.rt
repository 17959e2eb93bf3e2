//! Parts of deposits.
ghost use Rattle.std.specs.Prelude.{◌≡◌, MatchResult};
ghost use Rattle.custody_records.specs.Form.{part_in};
ghost use Rattle.custody_records.specs.Keys.{day_cmp, part_cmp, revision_cmp, text_cmp};
ghost use Rattle.custody_records.specs.inside.Orders.{part_by_registry, part_days_ascend, part_exact, part_of_day, part_of_registry, part_of_revision, part_registries_ascend, part_revisions_ascend, part_total};
ghost use Rattle.custody_records.specs.Records.{PartRecord, key_of};
ghost use Rattle.custody_records.specs.TypedRecords.{part_entry, key_of_part, part_row, part_value, name_in, received_in};
ghost use Rattle.custody_records.specs.declared.errors.RowError.TheVariants.{OutOfForm};

use crate::extents::read_extents;
use crate::fields::{digest_of, number_within};
use crate::tables::{Group, Keyed, OfRegistry};
use crate::{PartKey, RowError};
use deposit_name::{DepositName, Kind, Tld};
use extent_map::{Extent, MAX_PART_LEN};
use schedule::{Day, Sec, keep_until};
use std::alloc::Global;
use std::cmp::Ordering;

/// A part of a deposit.
#[derive(Debug, Drop)]
pub struct Part {
    pub name: DepositName,
    /// When it was received.
    pub received: Sec,
    /// How many bytes it has.
    pub len: u32,
    /// Its SHA-256.
    pub digest: [u8; 32],
    /// Where its bytes lie, in their order; none where they are dropped (Specification 2, Part B section 4).
    pub extents: Option<Vec<Extent>>,
}

/// The columns of a row of the table of parts.
#[derive(Clone, Copy, Debug)]
pub struct PartColumns<'a> {
    pub tld: &'a [u8],
    pub day: i64,
    pub rev: i64,
    pub part: i64,
    pub kind: &'a [u8],
    pub received: i64,
    pub keep_day: i64,
    pub len: i64,
    pub sha: &'a [u8],
    pub extents: Option<&'a [u8]>,
}

impl PartColumns<'_> {
    /// The part of the row, where its fields are in form.
    pub fn read(&self, alloc: Global) -> Result<Part, RowError>
        ensures { MatchResult result (λ part. part_in (part_row self.now) ≡ Some (part_entry part))
            (λ e. e ≡ OutOfForm → part_in (part_row self.now) ≡ None) }
    {
        let name = self.read_name().ok_or(RowError::OutOfForm)?;
        let received = self.read_received().ok_or(RowError::OutOfForm)?;
        let len = number_within(self.len, 1, MAX_PART_LEN as u64).ok_or(
            RowError::OutOfForm,
        )? as u32;
        let digest = digest_of(self.sha).ok_or(RowError::OutOfForm)?;
        let extents = read_extents(alloc, self.extents)?;
        Ok(Part {
            name,
            received,
            len,
            digest,
            extents,
        })
    }

    fn read_name(&self) -> Option<DepositName>
        ensures { result ≡ name_in (part_row self.now) }
    {
        let tld = Tld::parse(self.tld)?;
        let day = Day::new(self.day)?;
        let rev = number_within(self.rev, 0, 99)? as u8;
        let part = number_within(self.part, 1, 8)? as u8;
        let kind = Kind::parse(self.kind)?;
        DepositName::new(tld, day, kind, part, rev)
    }

    fn read_received(&self) -> Option<Sec>
        ensures { result ≡ received_in (part_row self.now) }
    {
        let received = Sec::new(self.received)?;
        if self.keep_day == keep_until(received.day()) {
            Some(received)
        } else {
            None
        }
    }
}

impl Keyed for Part {
    type Key = PartKey;

    ghost key_of = { key_of_part };

    ghost order = { part_cmp };

    ghost Value = { PartRecord };

    ghost value_of = { part_value };

    ghost total = { part_total };

    ghost exact = { part_exact };

    fn key(&self) -> PartKey {
        PartKey::of(&self.name)
    }

    fn compare(&self, sought: &PartKey) -> Ordering {
        let name = &self.name;
        let registries = name.tld.as_bytes().cmp(sought.tld.as_bytes());
        let days = name.day.cmp(&sought.day);
        let revisions = name.rev.cmp(&sought.rev);
        let places = name.part.cmp(&sought.part);
        registries.then(days.then(revisions.then(places)))
    }
}

impl OfRegistry for Part {
    ghost registry_of = { λ key. key.tld };

    ghost by_registry = { part_by_registry };

    fn registry(key: &PartKey) -> Tld {
        key.tld
    }
}

/// The parts of a registry.
impl Group<Part> for Tld {
    ghost place = { λ tld key. text_cmp key.tld tld };

    ghost group_registry = { λ tld. tld };

    ghost ascends = { part_registries_ascend };

    ghost of_one = { part_of_registry };

    fn compare(&self, part: &Part) -> Ordering {
        part.name.tld.as_bytes().cmp(self.as_bytes())
    }

    fn registry(&self) -> Tld {
        *self
    }
}

/// The parts of a registry's day.
impl Group<Part> for (Tld, Day) {
    ghost place = { λ day key. day_cmp (key.tld, key.day) day };

    ghost group_registry = { λ day. day.0 };

    ghost ascends = { part_days_ascend };

    ghost of_one = { part_of_day };

    fn compare(&self, part: &Part) -> Ordering {
        let registries = part.name.tld.as_bytes().cmp(self.0.as_bytes());
        registries.then(part.name.day.cmp(&self.1))
    }

    fn registry(&self) -> Tld {
        self.0
    }
}

/// The parts of the revision of a name.
impl Group<Part> for DepositName {
    ghost place = { λ name key. revision_cmp key (key_of name) };

    ghost group_registry = { λ name. name.tld };

    ghost ascends = { λ name. part_revisions_ascend (key_of name) };

    ghost of_one = { λ name. part_of_revision (key_of name) };

    fn compare(&self, part: &Part) -> Ordering {
        let name = &part.name;
        let registries = name.tld.as_bytes().cmp(self.tld.as_bytes());
        let days = name.day.cmp(&self.day);
        let revisions = name.rev.cmp(&self.rev);
        registries.then(days.then(revisions))
    }

    fn registry(&self) -> Tld {
        self.tld
    }
}
