//! What is done of a statement.
ghost use Rattle.std.specs.Prelude.{◌≡◌, ◌++◌, ◌&&◌, find, IfOk, IfSome, IfNone, OnOk, OnErr, is_none, not, option_and_then, option_map};
ghost use Rattle.std.specs.List.{filter};
ghost use Rattle.custody_records.specs.TypedRecords.{notice_entry, notice_key, notice_value};
ghost use Rattle.custody_machine.specs.Machine.{are_parts_as_stated, bytes_held, bytes_in, count_parts, has_other_count, first_part, first_refusal, passed_full_deposits, has_dropped_part, has_later_receipt, has_verdict, if_of_id, is_dropped, is_full_revision, is_outside, joined_bytes, kept_verdict, known_of, next_key, notice_kind, revision_part, statement_tests, step, is_receipt_entry_of_full, verdict_notice, verdict_on, recorded_verdict};
ghost use Rattle.custody_machine.specs.Machine as machine;
ghost use Rattle.deposit_verify.specs.Known.{known_in};
ghost use Rattle.plain_machine.specs.Plain.{IsPlainStep, content_view, is_in, state_view};

use crate::notice_kinds::{find_latest, ids_of, read_all_passed, tells_id};
use crate::sought_name::SoughtName;
use crate::state::{PlainAnswer, PlainContent, PlainPart, PlainState};
use custody_machine::{Refusal, Statement};
use deposit_name::{DepositId, DepositName, Kind, Tld};
use deposit_verify::{About, Verdict, verify};
use desk::{Notice, NoticeKind};
use schedule::{Day, Sec};
use std::alloc::{AllocError, Global};

impl PlainState {
    fn is_dropped_at(&self, name: &SoughtName, place: u8) -> bool
        ensures { result ≡ is_dropped (revision_part (state_view self.now) name.now place) }
    {
        match self.part_at(name, place) {
            Some(part) => part.content.is_dropped(),
            None => false,
        }
    }

    pub(crate) fn has_dropped_part(&self, name: &SoughtName) -> bool
        ensures { result ≡ has_dropped_part (state_view self.now) name.now }
    {
        self.is_dropped_at(name, 1)
            || self.is_dropped_at(name, 2)
            || self.is_dropped_at(name, 3)
            || self.is_dropped_at(name, 4)
            || self.is_dropped_at(name, 5)
            || self.is_dropped_at(name, 6)
            || self.is_dropped_at(name, 7)
            || self.is_dropped_at(name, 8)
    }

    fn has_other_count(&self, stated: &Statement) -> bool
        ensures { result ≡ has_other_count (state_view self.now) stated.now }
    {
        let count = self.count_parts(&SoughtName::first_of(stated));
        count == 0 || count != stated.parts
    }

    fn are_parts_as_stated(&self, stated: &Statement) -> bool
        ensures { result ≡ are_parts_as_stated (state_view self.now) stated.now }
    {
        !self.has_any_other_kind(&SoughtName::first_of(stated)) && !self.has_other_count(stated)
    }

    fn recorded_verdict(&self, stated: &Statement) -> Option<Notice>
        ensures { option_map notice_entry result ≡ recorded_verdict (state_view self.now) stated.now }
    {
        self.notices
            .verdict(&stated.tld, stated.day, stated.rev.number())
    }

    fn verdict_of_id(&self, stated: &Statement) -> Option<Notice>
        ensures { option_map notice_entry result ≡ option_and_then (if_of_id stated.now.id) (recorded_verdict (state_view self.now) stated.now) }
    {
        match self.recorded_verdict(stated) {
            Some(notice) if tells_id(&notice, &stated.id) => Some(notice),
            _ => None,
        }
    }

    fn kept_verdict(&self, stated: &Statement) -> Option<Notice>
        ensures { option_map notice_entry result ≡ kept_verdict (state_view self.now) stated.now }
    {
        if self.are_parts_as_stated(stated) {
            self.verdict_of_id(stated)
        } else {
            None
        }
    }

    fn has_no_kept_verdict(&self, stated: &Statement) -> bool
        ensures { result ≡ is_none (kept_verdict (state_view self.now) stated.now) }
    {
        self.kept_verdict(stated).is_none()
    }

    fn has_verdict(&self, stated: &Statement) -> bool
        ensures { result ≡ has_verdict (state_view self.now) stated.now }
    {
        self.notices
            .has_verdict(&stated.tld, stated.day, stated.rev.number())
    }

    fn is_stated_outside(&self, stated: &Statement, now: Sec) -> bool
        ensures { result ≡ (is_none (kept_verdict (state_view self.now) stated.now) && is_outside (state_view self.now) (first_part stated.now) now) }
    {
        self.has_no_kept_verdict(stated) && self.is_outside(&SoughtName::first_of(stated), now)
    }

    fn lacks_bytes(&self, stated: &Statement) -> bool
        ensures { result ≡ (not (has_verdict (state_view self.now) stated.now) && has_dropped_part (state_view self.now) (first_part stated.now)) }
    {
        !self.has_verdict(stated) && self.has_dropped_part(&SoughtName::first_of(stated))
    }

    fn has_other_verdict(&self, stated: &Statement) -> bool
        ensures { result ≡ (is_none (kept_verdict (state_view self.now) stated.now) && has_verdict (state_view self.now) stated.now) }
    {
        self.has_no_kept_verdict(stated) && self.has_verdict(stated)
    }

    fn comes_too_late(&self, stated: &Statement) -> bool
        ensures { result ≡ (is_none (kept_verdict (state_view self.now) stated.now) && has_later_receipt (state_view self.now) stated.now) }
    {
        self.has_no_kept_verdict(stated) && self.notices.has_later_receipt(&stated.tld, stated.day)
    }

    // The refusals of a statement, in their order.
    fn refusal_of_statement(&self, stated: &Statement, now: Sec) -> Option<Refusal>
        ensures { result ≡ first_refusal (statement_tests (state_view self.now) stated.now now) }
    {
        let first = SoughtName::first_of(stated);
        if self.is_unregistered(&first) {
            return Some(Refusal::RegistryUnknown);
        }
        if self.is_stated_outside(stated, now) {
            return Some(Refusal::DateOutOfRange);
        }
        if self.lacks_bytes(stated) {
            return Some(Refusal::DroppedAfterKeeping);
        }
        if self.has_other_verdict(stated) {
            return Some(Refusal::AlreadyStated);
        }
        if self.has_any_other_kind(&first) {
            return Some(Refusal::TypeDiffers);
        }
        if self.has_other_count(stated) {
            return Some(Refusal::PartsDiffer);
        }
        if self.comes_too_late(stated) {
            return Some(Refusal::LaterDayPassed);
        }
        None
    }

    // Adds the bytes of the part at a place.
    fn append_part(
        &self,
        name: &SoughtName,
        place: u8,
        joined: &mut Vec<u8>,
    ) -> Result<(), AllocError>
        ensures { OnOk result (joined.new.items ≡ joined.old.items ++ bytes_held (revision_part (state_view self.now) name.now place)) }
    {
        match self.part_at(name, place) {
            Some(part) => part.content.append_to(joined),
            None => Ok(()),
        }
    }

    /// The bytes of the revision's parts, in the order of the series.
    pub(crate) fn join(&self, alloc: Global, name: &SoughtName) -> Result<Vec<u8>, AllocError>
        ensures { IfOk result (λ bytes. bytes.items ≡ joined_bytes (state_view self.now) name.now) }
    {
        let mut bytes = Vec::new(alloc);
        self.append_part(name, 1, &mut bytes)?;
        self.append_part(name, 2, &mut bytes)?;
        self.append_part(name, 3, &mut bytes)?;
        self.append_part(name, 4, &mut bytes)?;
        self.append_part(name, 5, &mut bytes)?;
        self.append_part(name, 6, &mut bytes)?;
        self.append_part(name, 7, &mut bytes)?;
        self.append_part(name, 8, &mut bytes)?;
        Ok(bytes)
    }

    fn find_in(&self, stated: &Statement) -> Option<&PlainPart>
        ensures { option_map (λ p. p.now) result ≡ find (is_in (first_part stated.now)) self.now.parts.items }
    {
        self.parts.iter().find(|p| p.is_in(stated))
    }

    // The name of the first part of what is stated, where any part of the revision is there.
    fn first_name(&self, stated: &Statement) -> Option<DepositName>
        ensures name { IfSome result (λ name. name ≡ first_part stated.now) }
        ensures none { IfNone result (count_parts (state_view self.now) (first_part stated.now) ≡ 0) }
    {
        match self.find_in(stated) {
            Some(part) => Some(DepositName {
                kind: stated.kind,
                part: 1,
                ..part.name
            }),
            None => None,
        }
    }

    // Whether the first part of the revision is one of a full deposit.
    fn is_full_revision(&self, tld: &Tld, day: Day, rev: u8) -> bool
        ensures { result ≡ is_full_revision (state_view self.now) tld.now day rev }
    {
        let first = SoughtName {
            tld: *tld,
            day,
            kind: Kind::Full,
            part: 1,
            rev,
        };
        self.part_under_name(&first).is_some()
    }

    // Whether a notice tells that a full deposit passed.
    fn tells_full(&self, notice: &Notice) -> bool
        ensures { result ≡ is_receipt_entry_of_full (state_view self.now) (notice_entry notice.now) }
    {
        match notice.kind {
            NoticeKind::Receipt { rev, .. } => {
                self.is_full_revision(&notice.tld, notice.day, rev.number())
            }
            NoticeKind::Failure { .. } | NoticeKind::Absence => false,
        }
    }

    // Of some notices those that tell that a full deposit passed.
    fn full_receipts(&self, alloc: Global, notices: &[Notice]) -> Result<Vec<Notice>, AllocError>
        ensures { IfOk result (λ full. full.items ≡ filter (λ n. is_receipt_entry_of_full (state_view self.now) (notice_entry n)) notices.now) }
    {
        notices
            .iter()
            .filter(|n| self.tells_full(n))
            .copied()
            .collect(alloc)
    }

    // The days and ids of the full deposits of a registry that passed.
    fn passed_full_deposits(
        &self,
        alloc: Global,
        tld: &Tld,
    ) -> Result<Vec<(Day, DepositId)>, AllocError>
        ensures { IfOk result (λ full. full.items ≡ passed_full_deposits (state_view self.now) tld.now) }
    {
        let full = self.full_receipts(alloc, self.notices.rows())?;
        read_all_passed(alloc, &full, tld)
    }

    // What is known of a stated deposit, whose first part has this name.
    fn known_of(
        &self,
        alloc: Global,
        name: DepositName,
        stated: &Statement,
    ) -> Result<About, AllocError>
        requires named { name ≡ first_part stated.now }
        ensures { IfOk result (λ about. known_in about ≡ known_of (state_view self.now) stated.now) }
    {
        let passed = self.notices.passed_deposits(alloc, &stated.tld)?;
        let full = self.passed_full_deposits(alloc, &stated.tld)?;
        let ids = ids_of(alloc, &passed)?;
        let Ok(base) = self.base_of(alloc, stated) else {
            return Err(AllocError);
        };
        Ok(About {
            name,
            id: stated.id,
            latest: find_latest(&passed),
            full: find_latest(&full),
            passed: ids,
            base,
        })
    }

    // The notice of the verdict on the deposit whose first part has this name.
    fn judge(
        &self,
        alloc: Global,
        name: DepositName,
        stated: &Statement,
        now: Sec,
    ) -> Result<Notice, AllocError>
        requires named { name ≡ first_part stated.now }
        ensures key { IfOk result (λ n. notice_key n ≡ next_key (state_view self.now).notices stated.now.tld) }
        ensures value { IfOk result (λ n. notice_value n ≡ verdict_notice stated.now (verdict_on (state_view self.now) stated.now) now) }
    {
        let number = self.notices.next_number(&stated.tld).ok_or(AllocError)?;
        let bytes = self.join(alloc, &SoughtName::of(&name))?;
        let about = self.known_of(alloc, name, stated)?;
        let Ok(verdict) = verify(alloc, &bytes, &about) else {
            return Err(AllocError);
        };
        Ok(Notice {
            number,
            tld: stated.tld,
            day: stated.day,
            at: now,
            kind: kind_of(stated, verdict),
        })
    }

    /// Refuses the statement, or answers it by the notice of its verdict.
    pub(crate) fn receive_statement(
        &mut self,
        alloc: Global,
        stated: &Statement,
        now: Sec,
    ) -> Result<PlainAnswer, AllocError>
        ensures step { IfOk result (λ answer. IsPlainStep answer (state_view self.old) (state_view self.new) (step (state_view self.old) (machine.Statement stated.now) now)) }
        ensures err { OnErr result (state_view self.new ≡ state_view self.old) }
    {
        if let Some(refusal) = self.refusal_of_statement(stated, now) {
            return Ok(PlainAnswer::Refused(refusal));
        }
        if let Some(notice) = self.kept_verdict(stated) {
            return Ok(notice_answer(&notice, true));
        }
        let Some(name) = self.first_name(stated) else {
            unreachable!()
        };
        let notice = self.judge(alloc, name, stated, now)?;
        self.notices.add(&notice)?;
        Ok(notice_answer(&notice, false))
    }
}

impl PlainPart {
    fn is_in(&self, stated: &Statement) -> bool
        ensures { result ≡ is_in (first_part stated.now) self.now }
    {
        self.name.tld.as_bytes() == stated.tld.as_bytes()
            && self.name.day == stated.day
            && self.name.rev == stated.rev.number()
    }
}

impl PlainContent {
    fn append_to(&self, joined: &mut Vec<u8>) -> Result<(), AllocError>
        ensures { OnOk result (joined.new.items ≡ joined.old.items ++ bytes_in (content_view self.now)) }
    {
        match self {
            PlainContent::Held(bytes) => joined.extend_from_slice(bytes),
            PlainContent::Dropped(_) => Ok(()),
        }
    }
}

// What a notice tells of a verdict.
fn kind_of(stated: &Statement, verdict: Verdict) -> NoticeKind
    ensures { result ≡ notice_kind stated.now verdict }
{
    let rev = stated.rev;
    let id = stated.id;
    match verdict {
        Verdict::Pass => NoticeKind::Receipt { rev, id },
        Verdict::Fail(check) => NoticeKind::Failure { rev, id, check },
    }
}

pub(crate) fn notice_answer(notice: &Notice, is_repeat: bool) -> PlainAnswer
    ensures { result ≡ PlainAnswer.Notice notice.now is_repeat }
{
    PlainAnswer::Notice {
        notice: *notice,
        is_repeat,
    }
}
