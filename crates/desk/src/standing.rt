//! When the grounds of releases stand.
ghost use Rattle.std.specs.Prelude.{◌≡◌, List, IfOk, count_by};
ghost use Rattle.std.specs.List.{list_any};
ghost use Rattle.desk.specs.Standing.{ground_stands, is_loss, is_made_good_by, is_receipt, is_recent_loss, is_sunday_lost};
ghost use Rattle.desk.specs.declared.notices.Notice.{Notice};
ghost use Rattle.desk.specs.inside.Receipts.{TellsWhatIsMadeGood, latest_number};

use crate::grounds::Ground;
use crate::notices::{Notice, NoticeKind};
use schedule::{Day, Sec, is_sunday};
use std::alloc::{AllocError, Global};
use std::collections::BTreeMap;

/// Thirty days, in seconds.
const MONTH: i64 = 2_592_000;

fn is_receipt(kind: NoticeKind) -> bool
    ensures { result ≡ is_receipt kind }
{
    matches!(kind, NoticeKind::Receipt { .. })
}

fn is_loss(notice: &Notice) -> bool
    ensures { result ≡ is_loss notice.now }
{
    !is_receipt(notice.kind)
}

/// The greatest number of a receipt of each Sunday that has one.
fn latest_sunday_receipts(
    alloc: Global,
    notices: &[Notice],
) -> Result<BTreeMap<Day, u64>, AllocError>
    ensures { IfOk result (TellsWhatIsMadeGood notices.now) }
{
    let mut latest = BTreeMap::new(alloc);
    for notice in notices {
        if is_receipt(notice.kind) && is_sunday(notice.day) {
            let number = notice.number.max(latest_number(&latest, notice.day));
            latest.insert(notice.day, number)?;
        }
    }
    Ok(latest)
}

/// The greatest number of a receipt of the day, or 0.
fn latest_number(latest: &BTreeMap<Day, u64>, day: Day) -> u64
    ensures { result ≡ latest_number latest.now day }
{
    latest.get(&day).copied().unwrap_or(0)
}

/// Whether a Sunday is lost, where these are the latest receipts of Sundays.
fn is_sunday_lost_by(latest: &BTreeMap<Day, u64>, notice: &Notice) -> bool
    ensures { (notices : List Notice) → TellsWhatIsMadeGood notices latest.now → result ≡ is_sunday_lost notices notice.now }
{
    is_loss(notice) && is_sunday(notice.day) && latest_number(latest, notice.day) <= notice.number
}

fn is_made_good_by(notice: &Notice, later: &Notice) -> bool
    ensures { result ≡ is_made_good_by notice.now later.now }
{
    is_receipt(later.kind) && later.day == notice.day && notice.number < later.number
}

// Whether a later notice tells of a receipt of the same day.
fn is_made_good(notice: &Notice, notices: &[Notice]) -> bool
    ensures { result ≡ list_any (is_made_good_by notice.now) notices.now }
{
    notices.iter().any(|later| is_made_good_by(notice, later))
}

fn is_sunday_lost(notices: &[Notice], notice: &Notice) -> bool
    ensures { result ≡ is_sunday_lost notices.now notice.now }
{
    is_loss(notice) && is_sunday(notice.day) && !is_made_good(notice, notices)
}

fn is_recent_loss(now: Sec, notice: &Notice) -> bool
    ensures { result ≡ is_recent_loss now notice.now }
{
    is_loss(notice)
        && !is_sunday(notice.day)
        && notice.at <= now
        && now.seconds() <= notice.at.seconds() + MONTH
}

/// Whether a Sunday is lost. If memory for a map is refused, each loss of a Sunday looks through the notices.
fn is_any_sunday_lost(alloc: Global, notices: &[Notice]) -> bool
    ensures { result ≡ list_any (is_sunday_lost notices.now) notices.now }
{
    match latest_sunday_receipts(alloc, notices) {
        Ok(latest) => notices
            .iter()
            .any(|notice| is_sunday_lost_by(&latest, notice)),
        Err(_) => notices.iter().any(|notice| is_sunday_lost(notices, notice)),
    }
}

fn count_recent_losses(notices: &[Notice], now: Sec) -> usize
    ensures { result ≡ count_by (is_recent_loss now) notices.now }
{
    notices
        .iter()
        .filter(|notice| is_recent_loss(now, notice))
        .count()
}

/// Whether a ground stands at a moment, by the notices of one registry. Two grounds are looked for among the notices; each
/// other stands whenever it is named.
pub fn ground_stands(alloc: Global, g: Ground, notices: &[Notice], now: Sec) -> bool
    ensures { result ≡ ground_stands g notices.now now }
{
    match g {
        Ground::SundayFailed => is_any_sunday_lost(alloc, notices),
        Ground::FiveFailed => count_recent_losses(notices, now) >= 5,
        Ground::Operator
        | Ground::Termination
        | Ground::NoNotices
        | Ground::Insolvency
        | Ground::Critical
        | Ground::Order
        | Ground::Audit => true,
    }
}
