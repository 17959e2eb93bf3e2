//! Chains of deposits: which keys there are after them, and counts of deposits that are not full.
use crate::deposits::{DIFF, FULL, framed};
use deposit_name::{DepositId, DepositName};
use deposit_verify::{
    About, Base, Reason, TablesReason, WrongCount, explain, law_bases, law_chains,
};
use desk::Check;
use std::alloc::{AllocError, Global};
use std::test::Fail;

/// The registrar R1, and its key among those that are deleted, once and twice.
const R1: &str = "R1,Example,292,ok\n";

const HAS_R1: &str =
    r#"{"length":18,"name":"registrar","sha256":"2d1afaee9efc15858629efd0365cfc058895a4ae8065fc4eeb9e1c7ecc668476"}"#;

const GONE: &str = "R1\n";

const HAS_GONE: &str =
    r#"{"length":3,"name":"registrar","sha256":"89132c7603ba0736a23f321a22dc0cdba2d4dae96bb16e043884d118254d6496"}"#;

const TWICE: &str = "R1\nR1\n";

const HAS_TWICE: &str =
    r#"{"length":6,"name":"registrar","sha256":"75e2450189eb6fce49242b5168d2aea401a9031e83807b10e91e9c604163d7c9"}"#;

/// A deposit, by the entries of its contents and of its deletes, and its files.
#[derive(Clone, Copy)]
struct Deposit {
    contents: &'static str,
    deletes: &'static str,
    files: &'static [&'static str],
}

const BRINGS: Deposit = Deposit {
    contents: HAS_R1,
    deletes: "",
    files: &[R1],
};

const DELETES: Deposit = Deposit {
    contents: "",
    deletes: HAS_GONE,
    files: &[GONE],
};

const BOTH: Deposit = Deposit {
    contents: HAS_R1,
    deletes: HAS_GONE,
    files: &[R1, GONE],
};

const NOTHING: Deposit = Deposit {
    contents: "",
    deletes: "",
    files: &[],
};

const REFUSED: Deposit = Deposit {
    contents: HAS_R1,
    deletes: HAS_TWICE,
    files: &[R1, TWICE],
};

/// Deposits after the full one, a deposit that follows them, the registrars that it counts, and those that are there.
type Case = (&'static [Deposit], Deposit, u32, usize);

static CASES: [Case; 12] = [
    (&[], NOTHING, 0, 0),
    (&[], NOTHING, 1, 0),
    (&[], BRINGS, 1, 1),
    (&[], BRINGS, 0, 1),
    (&[], DELETES, 0, 0),
    (&[BRINGS], DELETES, 0, 0),
    (&[BRINGS], DELETES, 1, 0),
    (&[BRINGS], BOTH, 1, 1),
    (&[BRINGS], NOTHING, 1, 1),
    (&[BRINGS], NOTHING, 0, 1),
    (&[BRINGS, DELETES], NOTHING, 0, 0),
    (&[BRINGS, DELETES, BOTH], BRINGS, 1, 1),
];

fn joined(
    alloc: Global,
    envelope: &str,
    deposit: Deposit,
    count: u32,
) -> Result<String, AllocError> {
    let contents = format!(in alloc; "\"contents\":[{}]", deposit.contents)?;
    let deletes = format!(in alloc; "\"deletes\":[{}]", deposit.deletes)?;
    let count = format!(in alloc; "csvRegistrar-1.0\":{count}")?;
    let text = envelope.replacen(alloc, "\"contents\":[]", contents.as_str(), 1)?;
    let text = text.replacen(alloc, "\"deletes\":[]", deletes.as_str(), 1)?;
    let text = text.replacen(alloc, "csvRegistrar-1.0\":0", count.as_str(), 1)?;
    framed(alloc, text.as_str(), deposit.files)
}

/// The keys after the full deposit.
fn first(alloc: Global) -> Option<Base> {
    let full = joined(alloc, FULL, NOTHING, 0).ok()?;
    Base::of_full(alloc, full.as_bytes()).ok()?
}

/// The keys after the full deposit and these.
fn base(alloc: Global, chain: &[Deposit]) -> Option<Base> {
    let mut base = first(alloc)?;
    for deposit in chain {
        let joined = joined(alloc, DIFF, *deposit, 0).ok()?;
        if base.then(alloc, joined.as_bytes()) != Ok(true) {
            return None;
        }
    }
    Some(base)
}

fn reason(
    alloc: Global,
    deposit: Deposit,
    count: u32,
    base: Option<Base>,
) -> Option<Option<Reason>> {
    let full = DepositId::parse(b"20260802001");
    let about = About {
        name: DepositName::parse(b"example_2026-08-03_diff_S1_R0.ryde").ok()?,
        id: DepositId::parse(b"20260803001")?,
        latest: full,
        full,
        passed: Vec::new(alloc),
        base,
    };
    let joined = joined(alloc, DIFF, deposit, count).ok()?;
    explain(alloc, joined.as_bytes(), &about).ok()
}

fn is_told(alloc: Global, (chain, deposit, said, there): Case) -> Option<bool> {
    let wrong = WrongCount {
        place: 3,
        said,
        there,
    };
    let base = base(alloc, chain)?;
    let reason = reason(alloc, deposit, said, Some(base))?;
    Some(match reason {
        None => said as usize == there,
        Some(reason) => reason == Reason::Tables(TablesReason::Count(wrong)),
    })
}

fn check(alloc: Global, base: Option<Base>, deposit: Deposit) -> Option<Option<Check>> {
    let reason = reason(alloc, deposit, 7, base)?;
    Some(reason.map(|reason| reason.check()))
}

#[test]
fn counts_the_keys_of_a_chain(rt: HostRuntime) {
    law_chains();
    law_bases();
    for (i, &case) in CASES.iter().enumerate() {
        assert_eq!(rt; is_told(rt.alloc(), case), Some(true), "case {i}");
    }
}

#[test]
fn counts_nothing_without_a_chain(rt: HostRuntime) {
    let alloc = rt.alloc();
    assert_eq!(rt; check(alloc, None, BRINGS), Some(None));
    let refused = Some(Some(Check::Deletes));
    assert_eq!(rt; check(alloc, None, REFUSED), refused);
    assert_eq!(rt; check(alloc, first(alloc), REFUSED), refused);
}

fn is_no_first(alloc: Global, joined: &[u8]) -> bool {
    match Base::of_full(alloc, joined) {
        Ok(base) => base.is_none(),
        Err(_) => false,
    }
}

fn is_no_later(alloc: Global, joined: &[u8]) -> bool {
    match first(alloc) {
        Some(mut base) => base.then(alloc, joined) == Ok(false),
        None => false,
    }
}

#[test]
fn takes_no_other_deposits(rt: HostRuntime) -> Result<(), Fail> {
    let alloc = rt.alloc();
    let full = joined(alloc, FULL, NOTHING, 0)?;
    let partial = joined(alloc, DIFF, BRINGS, 1)?;
    let refused = joined(alloc, DIFF, REFUSED, 1)?;
    assert!(rt; is_no_first(alloc, b"") && is_no_later(alloc, b""));
    assert!(rt; is_no_first(alloc, partial.as_bytes()));
    assert!(rt; is_no_later(alloc, full.as_bytes()));
    assert!(rt; is_no_later(alloc, refused.as_bytes()));
    Ok(())
}
