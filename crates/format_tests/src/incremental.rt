//! Incremental deposits: their names, their envelopes, and which deposit each of them follows.
use crate::deposits::{DIFF, filled, framed};
use deposit_name::{DepositId, DepositName, Kind};
use deposit_verify::{About, Verdict, verify};
use desk::Check;
use envelope::{EnvError, Member, read_envelope, write_envelope};
use std::alloc::{AllocError, Global};
use std::test::Fail;

const NAME: &[u8] = b"example_2026-08-03_incr_S1_R0.ryde";

const ID: &[u8] = b"20260803001";

/// The id of a full deposit, and that of a later one that is not full.
const FULL: &[u8] = b"20260802001";

const LATER: &[u8] = b"20260803000";

const NO_PREV: &str = "";

const PREV_FULL: &str = r#""prevId":"20260802001","#;

const PREV_LATER: &str = r#""prevId":"20260803000","#;

const PREV_X: &str = r#""prevId":"X","#;

/// What an incremental deposit names before it, the latest deposit that passed and the latest full one (or `-`), and the
/// verdict on it.
type Case = (&'static str, &'static [u8], &'static [u8], Verdict);

static CASES: [Case; 7] = [
    (NO_PREV, FULL, FULL, Verdict::Pass),
    (PREV_FULL, FULL, FULL, Verdict::Pass),
    (PREV_X, FULL, FULL, Verdict::Fail(Check::PrevId)),
    (NO_PREV, b"-", b"-", Verdict::Fail(Check::PrevId)),
    (PREV_FULL, b"-", b"-", Verdict::Fail(Check::PrevId)),
    (PREV_FULL, LATER, FULL, Verdict::Pass),
    (PREV_LATER, LATER, FULL, Verdict::Fail(Check::PrevId)),
];

/// The envelope of an incremental deposit with no files.
fn text(alloc: Global, prev: &str) -> Result<String, AllocError> {
    let text = DIFF.replacen(alloc, PREV_FULL, prev, 1)?;
    let text = text.replacen(alloc, "DIFF", "INCR", 1)?;
    filled(alloc, text.as_str())
}

fn joined(alloc: Global, prev: &str) -> Result<String, AllocError> {
    framed(alloc, text(alloc, prev)?.as_str(), &[])
}

fn about(alloc: Global, latest: &[u8], full: &[u8]) -> Option<About> {
    Some(About {
        name: DepositName::parse(NAME).ok()?,
        id: DepositId::parse(ID)?,
        latest: DepositId::parse(latest),
        full: DepositId::parse(full),
        passed: Vec::new(alloc),
        base: None,
    })
}

fn is_told(alloc: Global, (prev, latest, full, verdict): Case) -> Option<bool> {
    let about = about(alloc, latest, full)?;
    let joined = joined(alloc, prev).ok()?;
    Some(verify(alloc, joined.as_bytes(), &about) == Ok(verdict))
}

#[test]
fn follows_the_latest_full_deposit(rt: HostRuntime) {
    for (i, &case) in CASES.iter().enumerate() {
        assert_eq!(rt; is_told(rt.alloc(), case), Some(true), "case {i}");
    }
}

#[test]
fn reads_an_incremental_name(rt: HostRuntime) -> Result<(), Fail> {
    let name = DepositName::parse(NAME)?;
    assert!(rt; name.kind == Kind::Incr && name.day.number() == 20_668);
    assert_eq!(rt; Kind::parse(b"incr"), Some(Kind::Incr));
    assert_eq!(rt; Kind::Incr.as_bytes(), b"incr".as_slice());
    Ok(())
}

/// Whether an envelope is read as an incremental one, and written as it was.
fn is_incremental(alloc: Global, text: &str) -> Result<bool, Fail> {
    let envelope = read_envelope(alloc, text.as_bytes())?;
    let written = write_envelope(alloc, &envelope)?;
    Ok(envelope.kind == Kind::Incr && written.as_slice() == text.as_bytes())
}

#[test]
fn reads_an_incremental_envelope(rt: HostRuntime) -> Result<(), Fail> {
    let alloc = rt.alloc();
    assert_eq!(rt; joined(alloc, NO_PREV)?.len(), 560);
    assert_eq!(rt; joined(alloc, PREV_FULL)?.len(), 583);
    let text = text(alloc, NO_PREV)?;
    assert!(rt; text.len() == 546 && is_incremental(alloc, text.as_str())?);
    let other = text.replacen(alloc, r#""deletes":[],"#, "", 1)?;
    assert_eq!(rt;
        read_envelope(alloc, other.as_bytes()).err(),
        Some(EnvError::from(Member::Deletes))
    );
    Ok(())
}
