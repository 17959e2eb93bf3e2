//! Notices as rows.
ghost use Rattle.std.specs.Prelude.{◌≡◌, None, Some, if◌then◌else◌, option_map};
ghost use Rattle.custody_records.specs.Form.{check_in, is_within, natural, notice_in, notice_kind_in};
ghost use Rattle.custody_records.specs.Keys.{notice_cmp, text_cmp};
ghost use Rattle.custody_records.specs.inside.Orders.{notice_by_registry, notice_exact, notice_of_registry, notice_registries_ascend, notice_total};
ghost use Rattle.custody_records.specs.Records as records;
ghost use Rattle.custody_records.specs.TypedRecords.{notice_entry, notice_key, notice_row, notice_value};

use crate::NoticeKey;
use crate::fields::number_within;
use crate::tables::{Group, Keyed, OfRegistry};
use deposit_name::{DepositId, Tld};
use desk::{Check, Notice, NoticeKind, Revision};
use schedule::{Day, Sec};
use std::cmp::Ordering;

/// The columns of a row of the table of notices.
#[derive(Clone, Copy, Debug)]
pub struct NoticeColumns<'a> {
    pub tld: &'a [u8],
    pub number: i64,
    pub kind: i64,
    pub day: i64,
    pub rev: i64,
    pub id: &'a [u8],
    pub at: i64,
}

const RECEIPT: i64 = 0;

const ABSENCE: i64 = 20;

impl NoticeColumns<'_> {
    /// The notice of the row, where its fields are in form.
    pub fn read(&self) -> Option<Notice>
        ensures { option_map notice_entry result ≡ notice_in (notice_row self.now) }
    {
        let tld = Tld::parse(self.tld)?;
        let number = number_within(self.number, 1, i64::MAX as u64)?;
        let day = Day::new(self.day)?;
        let at = Sec::new(self.at)?;
        let kind = self.read_kind()?;
        Some(Notice {
            number,
            tld,
            day,
            at,
            kind,
        })
    }

    fn read_kind(&self) -> Option<NoticeKind>
        ensures { result ≡ notice_kind_in (notice_row self.now) }
    {
        if self.kind == ABSENCE {
            let is_bare = self.rev == 0 && self.id.is_empty();
            return if is_bare {
                Some(NoticeKind::Absence)
            } else {
                None
            };
        }
        let rev = read_revision(self.rev)?;
        let id = DepositId::parse(self.id)?;
        if self.kind == RECEIPT {
            return Some(NoticeKind::Receipt { rev, id });
        }
        let check = read_check(self.kind)?;
        Some(NoticeKind::Failure { rev, id, check })
    }
}

/// The revision of that number.
fn read_revision(number: i64) -> Option<Revision>
    ensures { result ≡ (if is_within 0 99 number then Some (natural number) else None) }
{
    Revision::new(number_within(number, 0, 99)? as u8)
}

/// The check of that number.
fn read_check(number: i64) -> Option<Check>
    ensures { result ≡ check_in (natural number) }
{
    Check::from_number(number_within(number, 1, 13)? as u8)
}

impl Keyed for Notice {
    type Key = NoticeKey;

    ghost key_of = { notice_key };

    ghost order = { notice_cmp };

    ghost Value = { records.Notice };

    ghost value_of = { notice_value };

    ghost total = { notice_total };

    ghost exact = { notice_exact };

    fn key(&self) -> NoticeKey {
        NoticeKey {
            tld: self.tld,
            number: self.number,
        }
    }

    fn compare(&self, sought: &NoticeKey) -> Ordering {
        let registries = self.tld.as_bytes().cmp(sought.tld.as_bytes());
        registries.then(self.number.cmp(&sought.number))
    }
}

impl OfRegistry for Notice {
    ghost registry_of = { λ key. key.tld };

    ghost by_registry = { notice_by_registry };

    fn registry(key: &NoticeKey) -> Tld {
        key.tld
    }
}

/// The notices of a registry.
impl Group<Notice> for Tld {
    ghost place = { λ tld key. text_cmp key.tld tld };

    ghost group_registry = { λ tld. tld };

    ghost ascends = { notice_registries_ascend };

    ghost of_one = { notice_of_registry };

    fn compare(&self, notice: &Notice) -> Ordering {
        notice.tld.as_bytes().cmp(self.as_bytes())
    }

    fn registry(&self) -> Tld {
        *self
    }
}
