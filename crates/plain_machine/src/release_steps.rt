//! What is done of a release.
ghost use Rattle.std.specs.Prelude.{◌≡◌, length, IfOk, IfSome, OnErr, find, option_map};
ghost use Rattle.desk.specs.declared.grounds.Ground.{Ground};
ghost use Rattle.custody_records.specs.TypedRecords.{release_value};
ghost use Rattle.custody_machine.specs.Machine as machine;
ghost use Rattle.custody_machine.specs.Machine.{first_refusal, has_ground, held_names, is_on_ground, release_of, release_tests, step};
ghost use Rattle.plain_machine.specs.Plain.{IsPlainStep, is_under, state_view};

use crate::listing::Listing;
use crate::state::{PlainAnswer, PlainState};
use custody_machine::Refusal;
use custody_records::{Names, Release};
use deposit_name::{Reference, Tld};
use desk::{Ground, ground_stands};
use schedule::Sec;
use std::alloc::{AllocError, Global};

impl PlainState {
    fn find_release(&self, reference: &Reference) -> Option<&Release>
        ensures { option_map (λ r. r.now) result ≡ find (is_under reference.now) self.now.releases.items }
    {
        self.releases.iter().find(|r| is_under(r, reference))
    }

    fn release_of(&self, reference: &Reference) -> Option<&Release>
        ensures found { option_map (λ r. release_value r.now) result ≡ release_of (state_view self.now) reference.now }
        ensures key { IfSome result (λ r. r.now.reference ≡ reference.now) }
    {
        self.find_release(reference)
    }

    fn has_ground(
        &self,
        alloc: Global,
        tld: &Tld,
        reason: Ground,
        now: Sec,
    ) -> Result<bool, AllocError>
        ensures { IfOk result (λ stands. stands ≡ has_ground (state_view self.now) tld.now reason now) }
    {
        let notices = self.notices.of(alloc, tld)?;
        Ok(ground_stands(alloc, reason, &notices, now))
    }

    // The refusals of a release: of a reference that is used, or of a new one.
    fn refusal_of_release(
        &self,
        alloc: Global,
        reference: &Reference,
        tld: &Tld,
        reason: Ground,
        now: Sec,
    ) -> Result<Option<Refusal>, AllocError>
        ensures { IfOk result (λ refusal. refusal ≡ first_refusal (release_tests (state_view self.now) reference.now tld.now reason now)) }
    {
        if self.is_tld_unregistered(tld) {
            return Ok(Some(Refusal::RegistryUnknown));
        }
        let Some(release) = self.release_of(reference) else {
            if self.has_ground(alloc, tld, reason, now)? {
                return Ok(None);
            }
            return Ok(Some(Refusal::GroundDoesNotStand));
        };
        if is_on_ground(release, tld, reason) {
            Ok(None)
        } else {
            Ok(Some(Refusal::ReferenceUsed))
        }
    }

    fn held_names(&self, alloc: Global, tld: &Tld) -> Result<Names, AllocError>
        ensures { IfOk result (λ names. names ≡ held_names (state_view self.now) tld.now) }
    {
        let listing = Listing::of(alloc, &self.parts)?;
        listing.held_names(alloc, tld)
    }

    /// Refuses the release, answers it by the one that is kept, or keeps it.
    pub(crate) fn release(
        &mut self,
        alloc: Global,
        reference: Reference,
        tld: Tld,
        reason: Ground,
        now: Sec,
    ) -> Result<PlainAnswer, AllocError>
        ensures step { IfOk result (λ answer. IsPlainStep answer (state_view self.old) (state_view self.new) (step (state_view self.old) (machine.Release reference tld reason) now)) }
        ensures err { OnErr result (state_view self.new ≡ state_view self.old) }
    {
        if let Some(refusal) = self.refusal_of_release(alloc, &reference, &tld, reason, now)? {
            return Ok(PlainAnswer::Refused(refusal));
        }
        if let Some(release) = self.release_of(&reference) {
            return Ok(release_answer(release, true));
        }
        let release = Release {
            reference,
            tld,
            reason,
            at: now,
            names: self.held_names(alloc, &tld)?,
        };
        let answer = release_answer(&release, false);
        self.releases.push(release)?;
        Ok(answer)
    }
}

fn is_under(release: &Release, reference: &Reference) -> bool
    ensures { result ≡ is_under reference.now release.now }
{
    release.reference.as_bytes() == reference.as_bytes()
}

fn is_on_ground(release: &Release, tld: &Tld, reason: Ground) -> bool
    ensures { result ≡ is_on_ground tld.now reason (release_value release.now) }
{
    release.tld == *tld && release.reason == reason
}

fn release_answer(release: &Release, is_repeat: bool) -> PlainAnswer
    ensures { result ≡ PlainAnswer.Release release.now.reference release.now.tld release.now.reason release.now.at (length release.now.names) is_repeat }
{
    PlainAnswer::Release {
        reference: release.reference,
        tld: release.tld,
        reason: release.reason,
        at: release.at,
        count: release.names.count(),
        is_repeat,
    }
}
