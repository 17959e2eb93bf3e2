//! What is done of a hold and of its lifting.
ghost use Rattle.std.specs.Prelude.{◌≡◌, ◌&&◌, IfOk, IfSome, OnErr, is_none, is_some, option_map};
ghost use Rattle.custody_records.specs.TypedRecords.{hold_key, hold_value};
ghost use Rattle.custody_machine.specs.Machine as machine;
ghost use Rattle.custody_machine.specs.Machine.{Lift, first_refusal, hold_of, hold_tests, is_day_outside, is_held_day, kept_hold, step};
ghost use Rattle.plain_machine.specs.Plain.{IsPlainStep, state_view};

use crate::state::{PlainAnswer, PlainState};
use custody_machine::Refusal;
use custody_records::Hold;
use deposit_name::{Reference, Tld};
use schedule::{Day, Sec};
use std::alloc::AllocError;

impl PlainState {
    fn hold_of(&self, reference: &Reference) -> Option<&Hold>
        ensures found { option_map (λ h. hold_value h.now) result ≡ hold_of (state_view self.now) reference.now }
        ensures key { IfSome result (λ h. hold_key h.now ≡ reference.now) }
    {
        self.holds.find(reference)
    }

    // The hold that was made on the same request, lifted or not.
    fn kept_hold(&self, reference: &Reference, tld: &Tld, day: Day) -> Option<&Hold>
        ensures found { option_map (λ h. hold_value h.now) result ≡ kept_hold (state_view self.now) reference.now tld.now day }
        ensures key { IfSome result (λ h. hold_key h.now ≡ reference.now) }
    {
        match self.hold_of(reference) {
            Some(hold) if is_of_day(hold, tld, day) => Some(hold),
            _ => None,
        }
    }

    fn has_no_kept_hold(&self, reference: &Reference, tld: &Tld, day: Day) -> bool
        ensures { result ≡ is_none (kept_hold (state_view self.now) reference.now tld.now day) }
    {
        self.kept_hold(reference, tld, day).is_none()
    }

    fn is_hold_outside(&self, reference: &Reference, tld: &Tld, day: Day, now: Sec) -> bool
        ensures { result ≡ (is_none (kept_hold (state_view self.now) reference.now tld.now day) && is_day_outside (state_view self.now) tld.now day now) }
    {
        self.has_no_kept_hold(reference, tld, day) && self.is_day_outside(tld, day, now)
    }

    // The reference is that of a hold of another registry or day.
    fn is_used(&self, reference: &Reference, tld: &Tld, day: Day) -> bool
        ensures { result ≡ (is_some (hold_of (state_view self.now) reference.now) && is_none (kept_hold (state_view self.now) reference.now tld.now day)) }
    {
        self.hold_of(reference).is_some() && self.has_no_kept_hold(reference, tld, day)
    }

    // The refusals of a hold, in their order.
    fn refusal_of_hold(
        &self,
        reference: &Reference,
        tld: &Tld,
        day: Day,
        now: Sec,
    ) -> Option<Refusal>
        ensures { result ≡ first_refusal (hold_tests (state_view self.now) reference.now tld.now day now) }
    {
        if self.is_tld_unregistered(tld) {
            return Some(Refusal::RegistryUnknown);
        }
        if self.is_hold_outside(reference, tld, day, now) {
            return Some(Refusal::DateOutOfRange);
        }
        if self.is_used(reference, tld, day) {
            return Some(Refusal::HoldReferenceUsed);
        }
        None
    }

    /// Refuses the hold, answers it by the one that is kept, or keeps it.
    pub(crate) fn hold(
        &mut self,
        reference: Reference,
        tld: Tld,
        day: Day,
        now: Sec,
    ) -> Result<PlainAnswer, AllocError>
        ensures step { IfOk result (λ answer. IsPlainStep answer (state_view self.old) (state_view self.new) (step (state_view self.old) (machine.Hold reference tld day) now)) }
        ensures err { OnErr result (state_view self.new ≡ state_view self.old) }
    {
        if let Some(refusal) = self.refusal_of_hold(&reference, &tld, day, now) {
            return Ok(PlainAnswer::Refused(refusal));
        }
        if let Some(hold) = self.kept_hold(&reference, &tld, day) {
            return Ok(hold_answer(hold, true));
        }
        let hold = Hold {
            reference,
            tld,
            day,
            at: now,
            lifted: None,
        };
        self.holds.add(&hold)?;
        Ok(hold_answer(&hold, false))
    }

    /// Refuses the lifting, answers it by the first one, or lifts the hold.
    pub(crate) fn lift(&mut self, reference: Reference, now: Sec) -> PlainAnswer
        ensures { IsPlainStep result (state_view self.old) (state_view self.new) (step (state_view self.old) (Lift reference) now) }
    {
        let Some(hold) = self.hold_of(&reference) else {
            return PlainAnswer::Refused(Refusal::HoldUnknown);
        };
        if let Some(at) = hold.lifted {
            return lifting_answer(reference, at, true);
        }
        self.holds.lift(&reference, now);
        lifting_answer(reference, now, false)
    }
}

fn is_of_day(hold: &Hold, tld: &Tld, day: Day) -> bool
    ensures { result ≡ is_held_day tld.now day (hold_value hold.now) }
{
    hold.tld == *tld && hold.day == day
}

fn hold_answer(hold: &Hold, is_repeat: bool) -> PlainAnswer
    ensures { result ≡ PlainAnswer.Hold hold.now.reference hold.now.tld hold.now.day hold.now.at hold.now.lifted is_repeat }
{
    PlainAnswer::Hold {
        reference: hold.reference,
        tld: hold.tld,
        day: hold.day,
        at: hold.at,
        lifted: hold.lifted,
        is_repeat,
    }
}

fn lifting_answer(reference: Reference, at: Sec, is_repeat: bool) -> PlainAnswer
    ensures { result ≡ PlainAnswer.Lifting reference at is_repeat }
{
    PlainAnswer::Lifting {
        reference,
        at,
        is_repeat,
    }
}
