//! What an envelope says, against what is known of its deposit.
ghost use Rattle.std.specs.Prelude.{◌≡◌, ◌↔◌, IsTrue, Contains, IfSome, MatchOption, ℕ, List, Some};
ghost use Rattle.envelope.specs.Envelope.{env_of};
ghost use Rattle.schedule.specs.Schedule.{is_sunday};
ghost use Rattle.deposit_name.specs.declared.kinds.Kind.TheVariants.{Full};
ghost use Rattle.deposit_verify.specs.Checks.{AgreesWithName, PassesBelow, FollowsFull, FollowsPassed, IsLeastFailing, CheckSays};
ghost use Rattle.deposit_verify.specs.HeaderReasons.{IsHeaderReason, IsOtherName, header_check, wanted_id};
ghost use Rattle.deposit_verify.specs.Known.{known_in};

use crate::about::About;
use crate::header_reason::{HeaderReason, OtherName};
use crate::menu::menu_reason;
use deposit_name::{DepositId, DepositName, Kind};
use envelope::Envelope;
use schedule::is_sunday;

// The first member, in the order of the envelope's text, that is not what the name says.
fn other_name(envelope: &Envelope, name: &DepositName) -> Option<OtherName>
    ensures { MatchOption result (AgreesWithName (env_of envelope.now) name.now)
        (IsOtherName (env_of envelope.now) name.now) }
{
    if envelope.header.tld != name.tld {
        return Some(OtherName::Tld {
            here: envelope.header.tld,
            named: name.tld,
        });
    }
    if envelope.resend != name.rev {
        return Some(OtherName::Resend {
            here: envelope.resend,
            named: name.rev,
        });
    }
    if envelope.kind != name.kind {
        return Some(OtherName::Kind {
            here: envelope.kind,
            named: name.kind,
        });
    }
    if envelope.watermark != name.day {
        return Some(OtherName::Watermark {
            here: envelope.watermark,
            named: name.day,
        });
    }
    None
}

// Whether a deposit of a Sunday is a full one (Specification 2, Part A section 2).
fn is_full_on_sunday(envelope: &Envelope) -> bool
    ensures { IsTrue result ↔ (IsTrue (is_sunday envelope.now.watermark) → envelope.now.kind ≡ Full) }
{
    !is_sunday(envelope.watermark) || envelope.kind == Kind::Full
}

fn is_same_id(one: Option<DepositId>, other: Option<DepositId>) -> bool
    ensures { IsTrue result ↔ ((id : List ℕ) × (one ≡ Some id) × (other ≡ Some id)) }
{
    match (one, other) {
        (Some(one), Some(other)) => one == other,
        _ => false,
    }
}

// Whether there is a full deposit, and no other is named.
fn follows_full(prev_id: Option<DepositId>, full: Option<DepositId>) -> bool
    ensures { IsTrue result ↔ FollowsFull prev_id full }
{
    match (prev_id, full) {
        (_, None) => false,
        (None, Some(_)) => true,
        (Some(prev_id), Some(full)) => prev_id == full,
    }
}

fn follows_passed(envelope: &Envelope, about: &About) -> bool
    ensures { IsTrue result ↔ FollowsPassed envelope.now.kind envelope.now.prev_id (known_in about.now) }
{
    match envelope.kind {
        Kind::Full => envelope.prev_id.is_none(),
        Kind::Diff => is_same_id(envelope.prev_id, about.latest),
        Kind::Incr => follows_full(envelope.prev_id, about.full),
    }
}

// The id of the deposit that one of this kind follows.
fn wanted_id(kind: Kind, about: &About) -> Option<DepositId>
    ensures { result ≡ wanted_id kind (known_in about.now) }
{
    match kind {
        Kind::Full => None,
        Kind::Diff => about.latest,
        Kind::Incr => about.full,
    }
}

fn has_passed(id: DepositId, passed: &[DepositId]) -> bool
    ensures { IsTrue result ↔ Contains passed.now id }
{
    passed.contains(&id)
}

/// Why the envelope fails the first that it fails of the checks from that of the name to that of the menu.
pub fn header_reason(envelope: &Envelope, about: &About) -> Option<HeaderReason>
    ensures check { (rest : List ℕ) → MatchOption result
        (PassesBelow (CheckSays (env_of envelope.now) rest (known_in about.now)) 9)
        (λ reason. IsLeastFailing (CheckSays (env_of envelope.now) rest (known_in about.now))
        (header_check reason)) }
    ensures place { IfSome result (IsHeaderReason (env_of envelope.now) (known_in about.now)) }
{
    if let Some(other) = other_name(envelope, &about.name) {
        return Some(HeaderReason::Name(other));
    }
    if envelope.id != about.id {
        return Some(HeaderReason::Id {
            here: envelope.id,
            stated: about.id,
        });
    }
    if !is_full_on_sunday(envelope) {
        return Some(HeaderReason::Sunday(envelope.watermark));
    }
    if !follows_passed(envelope, about) {
        return Some(HeaderReason::PrevId {
            kind: envelope.kind,
            here: envelope.prev_id,
            wanted: wanted_id(envelope.kind, about),
        });
    }
    if has_passed(envelope.id, &about.passed) {
        return Some(HeaderReason::IdTaken(envelope.id));
    }
    let reason = menu_reason(envelope)?;
    Some(HeaderReason::Menu(reason))
}
