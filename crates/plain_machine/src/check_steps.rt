//! What is done of a check.
ghost use Rattle.std.specs.Prelude.{◌≡◌, ◌==◌, ◌&&◌, IfOk, OnErr, is_none, option_map};
ghost use Rattle.schedule.specs.Schedule.{day_of};
ghost use Rattle.custody_records.specs.TypedRecords.{notice_entry, notice_key, notice_value};
ghost use Rattle.custody_machine.specs.Machine.{absence_notice, absence_of, check_tests, first_refusal, is_day_outside, is_verdict, next_key, step};
ghost use Rattle.custody_machine.specs.Machine as machine;
ghost use Rattle.custody_machine.specs.State.{has_notice};
ghost use Rattle.plain_machine.specs.Plain.{IsPlainStep, state_view};

use crate::state::{PlainAnswer, PlainState};
use crate::statement_steps::notice_answer;
use custody_machine::Refusal;
use deposit_name::Tld;
use desk::{Notice, NoticeKind};
use schedule::{Day, Sec};
use std::alloc::AllocError;

impl PlainState {
    fn absence_of(&self, tld: &Tld, day: Day) -> Option<Notice>
        ensures { option_map notice_entry result ≡ absence_of (state_view self.now) tld.now day }
    {
        self.notices.absence(tld, day)
    }

    fn has_no_absence(&self, tld: &Tld, day: Day) -> bool
        ensures { result ≡ is_none (absence_of (state_view self.now) tld.now day) }
    {
        self.absence_of(tld, day).is_none()
    }

    fn is_checked_outside(&self, tld: &Tld, day: Day, now: Sec) -> bool
        ensures { result ≡ (is_none (absence_of (state_view self.now) tld.now day) && is_day_outside (state_view self.now) tld.now day now) }
    {
        self.has_no_absence(tld, day) && self.is_day_outside(tld, day, now)
    }

    fn is_not_over(&self, tld: &Tld, day: Day, now: Sec) -> bool
        ensures { result ≡ (is_none (absence_of (state_view self.now) tld.now day) && day == day_of now) }
    {
        self.has_no_absence(tld, day) && day == now.day()
    }

    fn is_judged(&self, tld: &Tld, day: Day) -> bool
        ensures { result ≡ (is_none (absence_of (state_view self.now) tld.now day) && has_notice (state_view self.now).notices tld.now day is_verdict) }
    {
        self.has_no_absence(tld, day) && self.notices.has_any_verdict(tld, day)
    }

    // The refusals of a check, in their order.
    fn refusal_of_check(&self, tld: &Tld, day: Day, now: Sec) -> Option<Refusal>
        ensures { result ≡ first_refusal (check_tests (state_view self.now) tld.now day now) }
    {
        if self.is_tld_unregistered(tld) {
            return Some(Refusal::RegistryUnknown);
        }
        if self.is_checked_outside(tld, day, now) {
            return Some(Refusal::DateOutOfRange);
        }
        if self.is_not_over(tld, day, now) {
            return Some(Refusal::NotYetDue);
        }
        if self.is_judged(tld, day) {
            return Some(Refusal::DayHasVerdict);
        }
        None
    }

    // The notice that the day was missed.
    fn new_absence(&self, tld: &Tld, day: Day, now: Sec) -> Result<Notice, AllocError>
        ensures key { IfOk result (λ n. notice_key n ≡ next_key (state_view self.now).notices tld.now) }
        ensures value { IfOk result (λ n. notice_value n ≡ absence_notice day now) }
    {
        let number = self.notices.next_number(tld).ok_or(AllocError)?;
        Ok(Notice {
            number,
            tld: *tld,
            day,
            at: now,
            kind: NoticeKind::Absence,
        })
    }

    /// Refuses the check, or answers it by the absence of its day.
    pub(crate) fn receive_check(
        &mut self,
        tld: &Tld,
        day: Day,
        now: Sec,
    ) -> Result<PlainAnswer, AllocError>
        ensures step { IfOk result (λ answer. IsPlainStep answer (state_view self.old) (state_view self.new) (step (state_view self.old) (machine.Check tld.now day) now)) }
        ensures err { OnErr result (state_view self.new ≡ state_view self.old) }
    {
        if let Some(refusal) = self.refusal_of_check(tld, day, now) {
            return Ok(PlainAnswer::Refused(refusal));
        }
        if let Some(notice) = self.absence_of(tld, day) {
            return Ok(notice_answer(&notice, true));
        }
        let notice = self.new_absence(tld, day, now)?;
        self.notices.add(&notice)?;
        Ok(notice_answer(&notice, false))
    }
}
