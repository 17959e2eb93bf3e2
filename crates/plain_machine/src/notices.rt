//! Notices in the order of their registries and numbers.
ghost use Rattle.std.specs.Prelude.{◌≡◌, true, None, length, IfOk, IfSome, OnOk, OnErr, find, option_map};
ghost use Rattle.std.specs.List.{filter, list_any};
ghost use Rattle.std.specs.List.Sorted.{IsSearchInRange, IsBinarySearchResult};
ghost use Rattle.std.specs.FinMap.{empty, entries, get, insert};
ghost use Rattle.desk.specs.Standing.{is_receipt};
ghost use Rattle.custody_records.specs.Keys.{notice_cmp};
ghost use Rattle.custody_records.specs.Tables.{is_rising, table_map};
ghost use Rattle.custody_records.specs.TypedRecords.{notice_entry, notice_key, notice_value};

use crate::notice_kinds::{
    compare, greatest_number_of, is_absence_of, is_failure_on, is_receipt_after, is_receipt_of,
    is_receipt_on, is_to, is_verdict_of, is_verdict_on, key_of, read_all_passed,
};
use custody_records::NoticeKey;
use deposit_name::{DepositId, Tld};
use desk::{Notice, NoticeKind};
use schedule::Day;
use std::alloc::{AllocError, Global};

/// Notices in the order of their registries and numbers, each number of a registry once.
#[derive(Drop)]
pub struct PlainNotices {
    rows: Vec<Notice>,
    ghost rising: { is_rising notice_cmp notice_key rows.items ≡ true },
}

impl PlainNotices {
    ghost use Rattle.custody_machine.specs.State.{has_notice, is_notice_of};
    ghost use Rattle.custody_machine.specs.Machine.{
      is_absence,
      is_failure_of,
      is_receipt_of,
      is_verdict,
      is_verdict_of,
      next_number,
      passed_deposits,
    };
    ghost use Rattle.plain_machine.specs.Plain.{notices_view, is_receipt_after, is_to};

    /// There are none yet.
    pub(crate) fn new(alloc: Global) -> PlainNotices
        ensures { notices_view result ≡ empty }
    {
        PlainNotices {
            rows: Vec::new(alloc),
        }
    }

    /// The notices.
    pub fn rows(&self) -> &[Notice]
        ensures all { notices_view self.now ≡ table_map notice_cmp notice_key notice_value result.now }
        ensures rising { is_rising notice_cmp notice_key result.now ≡ true }
    {
        &self.rows
    }

    // Where the notice of that number is, or where it would go.
    fn place_of(&self, sought: &NoticeKey) -> Result<usize, usize>
        ensures range { IsSearchInRange result (length self.now.rows.items) }
        ensures place { IsBinarySearchResult (λ row. notice_cmp (notice_key row) sought.now) self.now.rows.items result }
    {
        self.rows.binary_search_by(|row| compare(row, sought))
    }

    /// Adds a notice of a new number.
    pub(crate) fn add(&mut self, notice: &Notice) -> Result<(), AllocError>
        requires new { get (notices_view self.old) (notice_key notice.now) ≡ None }
        ensures added { OnOk result (notices_view self.new ≡ insert (notices_view self.old) (notice_key notice.now) (notice_value notice.now)) }
        ensures same { OnErr result (self.new.rows.items ≡ self.old.rows.items) }
    {
        let kind: NoticeKind = notice.kind;
        match self.place_of(&key_of(notice)) {
            Err(place) => Ok(self.rows.insert(place, Notice { kind, ..*notice })?),
            Ok(_) => unreachable!(),
        }
    }

    /// Those of a registry.
    pub(crate) fn of(&self, alloc: Global, tld: &Tld) -> Result<Vec<Notice>, AllocError>
        ensures { IfOk result (λ notices. notices.items ≡ filter (is_to tld.now) self.now.rows.items) }
    {
        self.rows
            .iter()
            .filter(|n| is_to(n, tld))
            .copied()
            .collect(alloc)
    }

    /// Whether the day has a receipt.
    pub(crate) fn has_receipt(&self, tld: &Tld, day: Day) -> bool
        ensures { result ≡ has_notice (notices_view self.now) tld.now day is_receipt }
    {
        self.rows.iter().any(|n| is_receipt_of(n, tld, day))
    }

    /// Whether the revision of the day has a receipt.
    pub(crate) fn has_receipt_on(&self, tld: &Tld, day: Day, rev: u8) -> bool
        ensures { result ≡ has_notice (notices_view self.now) tld.now day (is_receipt_of rev) }
    {
        self.rows.iter().any(|n| is_receipt_on(n, tld, day, rev))
    }

    /// Whether the revision of the day has a failure.
    pub(crate) fn has_failure(&self, tld: &Tld, day: Day, rev: u8) -> bool
        ensures { result ≡ has_notice (notices_view self.now) tld.now day (is_failure_of rev) }
    {
        self.rows.iter().any(|n| is_failure_on(n, tld, day, rev))
    }

    /// Whether the revision of the day has a verdict.
    pub(crate) fn has_verdict(&self, tld: &Tld, day: Day, rev: u8) -> bool
        ensures { result ≡ has_notice (notices_view self.now) tld.now day (is_verdict_of rev) }
    {
        self.rows.iter().any(|n| is_verdict_on(n, tld, day, rev))
    }

    /// Whether the day has a receipt or a failure.
    pub(crate) fn has_any_verdict(&self, tld: &Tld, day: Day) -> bool
        ensures { result ≡ has_notice (notices_view self.now) tld.now day is_verdict }
    {
        self.rows.iter().any(|n| is_verdict_of(n, tld, day))
    }

    /// Whether a later day of the registry has a receipt.
    pub(crate) fn has_later_receipt(&self, tld: &Tld, day: Day) -> bool
        ensures { result ≡ list_any (is_receipt_after tld.now day) (entries (notices_view self.now)) }
    {
        self.rows.iter().any(|n| is_receipt_after(n, tld, day))
    }

    fn find_verdict(&self, tld: &Tld, day: Day, rev: u8) -> Option<&Notice>
        ensures { option_map (λ n. n.now) result ≡ find (λ n. is_notice_of tld.now day (is_verdict_of rev) (notice_entry n)) self.now.rows.items }
    {
        self.rows.iter().find(|n| is_verdict_on(n, tld, day, rev))
    }

    /// The verdict on the revision of the day.
    pub(crate) fn verdict(&self, tld: &Tld, day: Day, rev: u8) -> Option<Notice>
        ensures { option_map notice_entry result ≡ find (is_notice_of tld.now day (is_verdict_of rev)) (entries (notices_view self.now)) }
    {
        self.find_verdict(tld, day, rev).copied()
    }

    fn find_absence(&self, tld: &Tld, day: Day) -> Option<&Notice>
        ensures { option_map (λ n. n.now) result ≡ find (λ n. is_notice_of tld.now day is_absence (notice_entry n)) self.now.rows.items }
    {
        self.rows.iter().find(|n| is_absence_of(n, tld, day))
    }

    /// The absence of the day.
    pub(crate) fn absence(&self, tld: &Tld, day: Day) -> Option<Notice>
        ensures { option_map notice_entry result ≡ find (is_notice_of tld.now day is_absence) (entries (notices_view self.now)) }
    {
        self.find_absence(tld, day).copied()
    }

    /// The days and ids of the deposits of a registry that passed.
    pub(crate) fn passed_deposits(
        &self,
        alloc: Global,
        tld: &Tld,
    ) -> Result<Vec<(Day, DepositId)>, AllocError>
        ensures { IfOk result (λ passed. passed.items ≡ passed_deposits (notices_view self.now) tld.now) }
    {
        read_all_passed(alloc, &self.rows, tld)
    }

    /// The next number of a notice of a registry, if there is one.
    pub(crate) fn next_number(&self, tld: &Tld) -> Option<u64>
        ensures { IfSome result (λ n. n ≡ next_number (notices_view self.now) tld.now) }
    {
        let greatest = greatest_number_of(&self.rows, tld);
        if greatest == u64::MAX {
            return None;
        }
        Some(greatest + 1)
    }
}
