//! Which deposits another one follows.
ghost use Rattle.std.specs.Prelude.{◌≡◌, ◌<◌, ◌↔◌, All, IsTrue, MatchOption, length};
ghost use Rattle.std.specs.List.{AllAdjacentBelow};
ghost use Rattle.deposit_pack.specs.Followed.{AreFollowed, IsFollowed, IsFollowedBy, IsLeftOut, is_before_full, is_full_between, is_later_revision, is_replaced};

use deposit_name::{DepositName, Kind};
use schedule::Day;

/// Why a deposit is not one that another follows.
#[derive(Clone, Copy, Debug, PartialEq, Eq)]
pub enum LeftOut {
    /// It is the other one itself.
    Itself,
    /// It is not of an earlier day.
    NotEarlier,
    /// There is a later revision of its day.
    Replaced,
    /// There is a full deposit of a day between the two.
    BeforeFull,
}

fn is_later_revision(one: &DepositName, other: &DepositName) -> bool
    ensures { result ≡ is_later_revision one.now other.now }
{
    other.day == one.day && one.rev < other.rev
}

// Whether a later revision of its day is among these.
fn is_replaced(names: &[DepositName], one: &DepositName) -> bool
    ensures { result ≡ is_replaced names.now one.now }
{
    names.iter().any(|other| is_later_revision(one, other))
}

// Whether a full deposit, in its last revision, stands between a deposit and a day.
fn is_full_between(names: &[DepositName], day: Day, one: &DepositName, full: &DepositName) -> bool
    ensures { result ≡ is_full_between names.now day one.now full.now }
{
    full.kind == Kind::Full && one.day < full.day && full.day < day && !is_replaced(names, full)
}

fn is_before_full(names: &[DepositName], day: Day, one: &DepositName) -> bool
    ensures { result ≡ is_before_full names.now day one.now }
{
    names
        .iter()
        .any(|full| is_full_between(names, day, one, full))
}

/// Why a deposit of this name does not follow one of these, each under the name of its first part: `None` where it does.
pub fn left_out(names: &[DepositName], name: &DepositName, one: &DepositName) -> Option<LeftOut>
    ensures { MatchOption result (IsFollowed names.now name.now.day one.now) (IsLeftOut names.now name.now one.now) }
{
    if one == name {
        Some(LeftOut::Itself)
    } else if one.day >= name.day {
        Some(LeftOut::NotEarlier)
    } else if is_replaced(names, one) {
        Some(LeftOut::Replaced)
    } else if is_before_full(names, name.day, one) {
        Some(LeftOut::BeforeFull)
    } else {
        None
    }
}

// Whether a deposit of this name follows one of these, of its own registry.
fn is_followed(names: &[DepositName], name: &DepositName, one: &DepositName) -> bool
    ensures { IsTrue result ↔ IsFollowedBy name.now names.now one.now }
{
    one.tld == name.tld && left_out(names, name, one).is_none()
}

fn are_all_followed(names: &[DepositName], name: &DepositName) -> bool
    ensures { IsTrue result ↔ All (IsFollowedBy name.now names.now) names.now }
{
    names.iter().all(|one| is_followed(names, name, one))
}

fn days_rise(names: &[DepositName]) -> bool
    ensures { IsTrue result ↔ AllAdjacentBelow (λ one next. one.day < next.day) names.now (length names.now) }
{
    names.is_sorted_by(|one, next| one.day < next.day)
}

/// Whether these are deposits, by day, that one of this name follows.
pub(crate) fn are_followed(names: &[DepositName], name: &DepositName) -> bool
    ensures { IsTrue result ↔ AreFollowed name.now names.now }
{
    are_all_followed(names, name) && days_rise(names)
}
