//! The examples of the pages of the crates that are tested here.
use crate::deposits::{DIFF, FULL, framed};
use deposit_name::{DepositId, DepositName, Kind, NameError, TableName, Tld};
use deposit_verify::{About, Base, Verdict, explain, verify};
use desk::{Check, Ground, Notice, NoticeKind, Revision, ground_stands, report};
use dnrd_csv::{TableError, read_keys, read_table, write_table};
use envelope::{read_envelope, split_frame, write_envelope};
use schedule::{due_after, is_sunday, keep_until, read_day, read_moment, write_day};
use std::test::Fail;

#[test]
fn days(rt: HostRuntime) -> Result<(), Fail> {
    let day = read_day(b"2026-08-02").ok_or("a day")?;
    assert_eq!(rt; write_day(day), *b"2026-08-02");
    assert!(rt; is_sunday(day));

    // Its deposit is due when the day ends, and is kept for a year.
    let end = read_moment(b"2026-08-03T00:00:00Z").ok_or("a moment")?;
    assert_eq!(rt; due_after(day), end.seconds());
    let last = read_day(b"2027-08-02").ok_or("a day")?;
    assert_eq!(rt; keep_until(day), last.number());
    Ok(())
}

#[test]
fn names(rt: HostRuntime) -> Result<(), Fail> {
    let name = DepositName::parse(b"example_2026-08-02_full_S1_R0.ryde")?;
    assert_eq!(rt; name.tld.as_str(), "example");
    assert_eq!(rt; (name.kind, name.part, name.rev), (Kind::Full, 1, 0));
    let text = format!(in rt.alloc(); "{name}")?;
    assert_eq!(rt; text.as_str(), "example_2026-08-02_full_S1_R0.ryde");

    // A deposit has at most eight parts.
    let fault = DepositName::parse(b"example_2026-08-02_full_S9_R0.ryde").err();
    assert_eq!(rt; fault, Some(NameError::Part));
    Ok(())
}

#[test]
fn notices(rt: HostRuntime) -> Result<(), Fail> {
    let receipt = Notice {
        number: 1,
        tld: Tld::parse(b"example").ok_or("a domain")?,
        day: read_day(b"2026-08-02").ok_or("a day")?,
        at: read_moment(b"2026-08-02T10:05:00Z").ok_or("a moment")?,
        kind: NoticeKind::Receipt {
            rev: Revision::new(0).ok_or("a revision")?,
            id: DepositId::parse(b"20260802001").ok_or("an id")?,
        },
    };
    let mut out = Vec::new(rt.alloc());
    report(&[receipt], &mut out)?;
    let line = b"       1 RECEIPT    2026-08-02 R00 20260802001   2026-08-02T10:05:00Z example\n";
    assert_eq!(rt; out.as_slice(), line.as_slice());

    // Fewer than five deposits failed or are absent.
    assert!(rt; !ground_stands(rt.alloc(), Ground::FiveFailed, &[receipt], receipt.at));
    Ok(())
}

#[test]
fn envelopes(rt: HostRuntime) -> Result<(), Fail> {
    let alloc = rt.alloc();
    let deposit = framed(alloc, FULL, &[])?;
    let frame = split_frame(deposit.as_bytes())?;
    let envelope = read_envelope(alloc, frame.envelope)?;
    assert_eq!(rt; envelope.kind, Kind::Full);
    assert_eq!(rt; envelope.id.as_str(), "20260802001");

    // The eight tables behind the envelope have no rows.
    assert_eq!(rt; envelope.contents.len(), 8);
    assert!(rt; frame.rest.is_empty());

    let text = write_envelope(alloc, &envelope)?;
    assert_eq!(rt; text.as_slice(), frame.envelope);
    Ok(())
}

#[test]
fn tables(rt: HostRuntime) -> Result<(), Fail> {
    let alloc = rt.alloc();
    let text = b"R1,\"Example, Inc.\",292,ok\n";
    let table = read_table(alloc, TableName::Registrar, text)?;
    assert_eq!(rt; table.rows.len(), 1);
    assert_eq!(rt; table.rows.field(0, 1), b"Example, Inc.".as_slice());
    let written = write_table(alloc, &table)?;
    assert_eq!(rt; written.as_slice(), text.as_slice());

    // Quotes that the field does not need are K2.
    let quoted = read_table(alloc, TableName::Registrar, b"R1,\"Example\",292,ok\n");
    assert_eq!(rt; quoted.err(), Some(TableError::NotRows { row: 0 }));

    // The keys of deleted hosts.
    let keys = read_keys(alloc, TableName::Host, b"ns1.a.example\n")?;
    assert_eq!(rt; keys.len(), 1);
    assert_eq!(rt; keys.key(0), b"ns1.a.example".as_slice());
    Ok(())
}

#[test]
fn verdicts(rt: HostRuntime) -> Result<(), Fail> {
    let alloc = rt.alloc();
    let joined = framed(alloc, FULL, &[])?;
    let mut about = About {
        name: DepositName::parse(b"example_2026-08-02_full_S1_R0.ryde")?,
        id: DepositId::parse(b"20260802001").ok_or("an id")?,
        latest: None,
        full: None,
        passed: Vec::new(alloc),
        base: None,
    };
    assert_eq!(rt; verify(alloc, joined.as_bytes(), &about)?, Verdict::Pass);

    // The statement has another id than the envelope.
    about.id = DepositId::parse(b"20260802002").ok_or("an id")?;
    let reason = explain(alloc, joined.as_bytes(), &about)?.ok_or("a reason")?;
    assert_eq!(rt; reason.check(), Check::Statement);
    let line = format!(in alloc; "{reason}")?;
    assert_eq!(rt;
        line.as_str(),
        "id is 20260802001, the statement says 20260802002"
    );
    Ok(())
}

#[test]
fn chains(rt: HostRuntime) -> Result<(), Fail> {
    let alloc = rt.alloc();
    let full = framed(alloc, FULL, &[])?;
    let diff = framed(alloc, DIFF, &[])?;

    // The keys after the full deposit, and then after the differential one.
    let mut base = Base::of_full(alloc, full.as_bytes())?.ok_or("a full deposit")?;
    assert!(rt; base.then(alloc, diff.as_bytes())?);

    // A chain begins with its only full deposit.
    assert!(rt; !base.then(alloc, full.as_bytes())?);
    Ok(())
}
