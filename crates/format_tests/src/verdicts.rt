//! Worked deposits with their verdicts. The lengths and digests of files come from another program.
use crate::deposits::{DIFF, FULL, framed};
use deposit_name::{DepositId, DepositName};
use deposit_verify::{About, Verdict, explain, law_one_verdict, verify};
use desk::Check;
use std::alloc::{AllocError, Global};
use std::test::Fail;

const FULL_NAME: &str = "example_2026-08-02_full_S1_R0.ryde";

const DIFF_NAME: &str = "example_2026-08-03_diff_S1_R0.ryde";

const SUNDAY_NAME: &str = "example_2026-08-09_diff_S1_R0.ryde";

const FULL_ID: &str = "20260802001";

const DIFF_ID: &str = "20260803001";

type Change = (&'static str, &'static str);

/// One domain, whose registrar is R9.
const DOMAIN: &str = "a.example,D1-EX,,R9,2020-01-01T00:00:00Z,2030-01-01T00:00:00Z\n";

const HAS_DOMAIN: Change = (
    r#"0,"name":"domain","sha256":"<none>"#,
    r#"62,"name":"domain","sha256":"9447769a1bbb283082e07aef1ee6ff1e927416f0410c5794289136736d69dc6b"#,
);

const ONE_DOMAIN: Change = (r#"csvDomain-1.0":0"#, r#"csvDomain-1.0":1"#);

const TWO_DOMAINS: Change = (r#"csvDomain-1.0":0"#, r#"csvDomain-1.0":2"#);

/// The registrar R9, and its line without an end.
const REGISTRAR: &str = "R9,Example,292,ok\n";

const HAS_REGISTRAR: Change = (
    r#"0,"name":"registrar","sha256":"<none>"#,
    r#"18,"name":"registrar","sha256":"035400494cc5a3bf9669af824fa7953239b629d1e673a5daf136bfb0d9db9796"#,
);

const ONE_REGISTRAR: Change = (r#"csvRegistrar-1.0":0"#, r#"csvRegistrar-1.0":1"#);

const CUT_REGISTRAR: &str = "R9,Example,292,ok";

const HAS_CUT_REGISTRAR: Change = (
    r#"0,"name":"registrar","sha256":"<none>"#,
    r#"17,"name":"registrar","sha256":"b67f4b58b8f93ac2275731999f04a9da4b11c0a33fba585016edf59a3ec11f2e"#,
);

/// The key R1 twice.
const KEY_TWICE: Change = (
    r#""deletes":[]"#,
    r#""deletes":[{"length":6,"name":"registrar","sha256":"75e2450189eb6fce49242b5168d2aea401a9031e83807b10e91e9c604163d7c9"}]"#,
);

/// One registrar's line among the contents of a differential deposit, whole and without its end.
const HAS_SOME: Change = (
    r#""contents":[]"#,
    r#""contents":[{"length":18,"name":"registrar","sha256":"035400494cc5a3bf9669af824fa7953239b629d1e673a5daf136bfb0d9db9796"}]"#,
);

const HAS_SOME_CUT: Change = (
    r#""contents":[]"#,
    r#""contents":[{"length":17,"name":"registrar","sha256":"b67f4b58b8f93ac2275731999f04a9da4b11c0a33fba585016edf59a3ec11f2e"}]"#,
);

const DELETES_HOST: Change = (
    r#""deletes":[]"#,
    r#""deletes":[{"length":14,"name":"host","sha256":"b56dcb9bcf737923206f2d92fcbb4637d5879066f9f15181a75aebcc4297db7a"}]"#,
);

/// The registrar R9 twice, and a row of empty fields.
const HAS_TWO_REGISTRARS: Change = (
    r#"0,"name":"registrar","sha256":"<none>"#,
    r#"34,"name":"registrar","sha256":"8cb475fc8c6fac07ef0818f779fbc56fdd4cff6ec77840c0cc8c535bb094b50c"#,
);

const HAS_COMMAS: Change = (
    r#"0,"name":"domain","sha256":"<none>"#,
    r#"6,"name":"domain","sha256":"f5d44688c30f5a811d6cb906bdc5736c6f62125b31f47099b4635b4391622440"#,
);

const LONG: Change = (r#"{"length":0,"#, r#"{"length":8388608,"#);

const TOO_LONG: Change = (r#"{"length":0,"#, r#"{"length":18446744073709551615,"#);

const DOMAIN_IS_HOST: Change = (r#""domain""#, r#""host""#);

const HOST_IS_DOMAIN: Change = (
    r#"0,"name":"host","sha256":"<none>"},{"length":0,"name":"hostA"#,
    r#"0,"name":"domain","sha256":"<none>"},{"length":0,"name":"hostA"#,
);

const SPACED: Change = (r#"},{"#, r#"}, {"#);

const SENT_AGAIN: Change = (r#""resend":0"#, r#""resend":1"#);

const OF_SUNDAY: Change = ("2026-08-03T", "2026-08-09T");

const FOLLOWS_X: Change = (r#""prevId":"20260802001""#, r#""prevId":"X""#);

const OTHER_HEADER: Change = ("rdeHeader-1.0", "rdeHeader-1.1");

const OF_OTHER_BYTES: Change = (
    "<none>",
    "2cf24dba5fb0a30e26e83b2ac5b9e29e1b161e5c1fa7425e73043362938b9824",
);

/// What is known of a deposit: its name, its id and the latest id, or `-`.
type Known = (&'static str, &'static str, &'static str);

/// A full deposit before any other.
const NEW_FULL: Known = (FULL_NAME, FULL_ID, "-");

/// A differential deposit after the full one.
const NEXT_DIFF: Known = (DIFF_NAME, DIFF_ID, FULL_ID);

/// A deposit, as an envelope that is changed and the files behind it, and its verdict, with the reason where it fails.
#[derive(Clone, Copy)]
struct Case {
    tells: &'static str,
    envelope: &'static str,
    changes: &'static [Change],
    files: &'static [&'static str],
    known: Known,
    told: &'static str,
}

/// Deposits that pass.
static ACCEPTED: [Case; 4] = [
    Case {
        tells: "a full deposit with no rows",
        envelope: FULL,
        changes: &[],
        files: &[],
        known: NEW_FULL,
        told: "PASS",
    },
    Case {
        tells: "a full deposit with a domain",
        envelope: FULL,
        changes: &[HAS_DOMAIN, HAS_REGISTRAR, ONE_DOMAIN, ONE_REGISTRAR],
        files: &[DOMAIN, REGISTRAR],
        known: NEW_FULL,
        told: "PASS",
    },
    Case {
        tells: "a differential deposit with no files",
        envelope: DIFF,
        changes: &[],
        files: &[],
        known: NEXT_DIFF,
        told: "PASS",
    },
    Case {
        tells: "a differential deposit with a table and a deleted host",
        envelope: DIFF,
        changes: &[HAS_SOME, DELETES_HOST],
        files: &[REGISTRAR, "ns1.a.example\n"],
        known: NEXT_DIFF,
        told: "PASS",
    },
];

/// For each check but the first, a deposit where it alone fails.
static ONE_FAILS: [Case; 12] = [
    Case {
        tells: "an envelope with a space",
        envelope: FULL,
        changes: &[SPACED],
        files: &[],
        known: NEW_FULL,
        told: "FAILURE-02 envelope offset 118: '{' is wanted",
    },
    Case {
        tells: "another resend number than the name's",
        envelope: FULL,
        changes: &[SENT_AGAIN],
        files: &[],
        known: NEW_FULL,
        told: "FAILURE-03 resend is 1, the name says 0",
    },
    Case {
        tells: "another id than the stated one",
        envelope: FULL,
        changes: &[],
        files: &[],
        known: (FULL_NAME, "X", "-"),
        told: "FAILURE-04 id is 20260802001, the statement says X",
    },
    Case {
        tells: "a differential deposit of a Sunday",
        envelope: DIFF,
        changes: &[OF_SUNDAY],
        files: &[],
        known: (SUNDAY_NAME, DIFF_ID, FULL_ID),
        told: "FAILURE-05 watermark 2026-08-09 is a Sunday, and the deposit is not full",
    },
    Case {
        tells: "another prevId than the latest",
        envelope: DIFF,
        changes: &[FOLLOWS_X],
        files: &[],
        known: NEXT_DIFF,
        told: "FAILURE-06 prevId is X, 20260802001 is wanted",
    },
    Case {
        tells: "an id that has passed",
        envelope: FULL,
        changes: &[],
        files: &[],
        known: (FULL_NAME, FULL_ID, FULL_ID),
        told: "FAILURE-07 id 20260802001 has passed before",
    },
    Case {
        tells: "another object in the menu",
        envelope: FULL,
        changes: &[OTHER_HEADER],
        files: &[],
        known: NEW_FULL,
        told: "FAILURE-08 rdeMenu.objURI 5: urn:ietf:params:xml:ns:rdeHeader-1.1, urn:ietf:params:xml:ns:rdeHeader-1.0 is wanted",
    },
    Case {
        tells: "the digest of another file",
        envelope: FULL,
        changes: &[OF_OTHER_BYTES],
        files: &[],
        known: NEW_FULL,
        told: "FAILURE-09 contents 1 domain: sha256 is e3b0c44298fc1c149afbf4c8996fb92427ae41e4649b934ca495991b7852b855, the envelope says 2cf24dba5fb0a30e26e83b2ac5b9e29e1b161e5c1fa7425e73043362938b9824",
    },
    Case {
        tells: "a line without its end",
        envelope: FULL,
        changes: &[HAS_CUT_REGISTRAR, ONE_REGISTRAR],
        files: &[CUT_REGISTRAR],
        known: NEW_FULL,
        told: "FAILURE-10 registrar row 1: not a row in its one spelling",
    },
    Case {
        tells: "two domains counted in place of one",
        envelope: FULL,
        changes: &[HAS_DOMAIN, HAS_REGISTRAR, TWO_DOMAINS, ONE_REGISTRAR],
        files: &[DOMAIN, REGISTRAR],
        known: NEW_FULL,
        told: "FAILURE-11 urn:ietf:params:xml:ns:csvDomain-1.0 counts 2, 1 are there",
    },
    Case {
        tells: "a registrar that is not there",
        envelope: FULL,
        changes: &[HAS_DOMAIN, ONE_DOMAIN],
        files: &[DOMAIN],
        known: NEW_FULL,
        told: "FAILURE-12 domain row 1 fClID: no registrar: R9",
    },
    Case {
        tells: "a deleted key twice",
        envelope: DIFF,
        changes: &[KEY_TWICE],
        files: &["R1\nR1\n"],
        known: NEXT_DIFF,
        told: "FAILURE-13 deletes/registrar row 2: the key of row 1",
    },
];

/// Deposits where two checks fail, with the lower one.
static TWO_FAIL: [Case; 10] = [
    Case {
        tells: "envelope and statement",
        envelope: FULL,
        changes: &[SPACED],
        files: &[],
        known: (FULL_NAME, "X", "-"),
        told: "FAILURE-02 envelope offset 118: '{' is wanted",
    },
    Case {
        tells: "name and statement",
        envelope: FULL,
        changes: &[SENT_AGAIN],
        files: &[],
        known: (FULL_NAME, "X", "-"),
        told: "FAILURE-03 resend is 1, the name says 0",
    },
    Case {
        tells: "statement and weekday",
        envelope: DIFF,
        changes: &[OF_SUNDAY],
        files: &[],
        known: (SUNDAY_NAME, "X", FULL_ID),
        told: "FAILURE-04 id is 20260803001, the statement says X",
    },
    Case {
        tells: "weekday and prevId",
        envelope: DIFF,
        changes: &[OF_SUNDAY],
        files: &[],
        known: (SUNDAY_NAME, DIFF_ID, "-"),
        told: "FAILURE-05 watermark 2026-08-09 is a Sunday, and the deposit is not full",
    },
    Case {
        tells: "prevId and id taken",
        envelope: DIFF,
        changes: &[],
        files: &[],
        known: (DIFF_NAME, DIFF_ID, DIFF_ID),
        told: "FAILURE-06 prevId is 20260802001, 20260803001 is wanted",
    },
    Case {
        tells: "id taken and menu",
        envelope: FULL,
        changes: &[OTHER_HEADER],
        files: &[],
        known: (FULL_NAME, FULL_ID, FULL_ID),
        told: "FAILURE-07 id 20260802001 has passed before",
    },
    Case {
        tells: "menu and files",
        envelope: FULL,
        changes: &[OTHER_HEADER],
        files: &["\n"],
        known: NEW_FULL,
        told: "FAILURE-08 rdeMenu.objURI 5: urn:ietf:params:xml:ns:rdeHeader-1.1, urn:ietf:params:xml:ns:rdeHeader-1.0 is wanted",
    },
    Case {
        tells: "files and table",
        envelope: FULL,
        changes: &[HAS_CUT_REGISTRAR, OF_OTHER_BYTES],
        files: &[CUT_REGISTRAR],
        known: NEW_FULL,
        told: "FAILURE-09 contents 1 domain: sha256 is e3b0c44298fc1c149afbf4c8996fb92427ae41e4649b934ca495991b7852b855, the envelope says 2cf24dba5fb0a30e26e83b2ac5b9e29e1b161e5c1fa7425e73043362938b9824",
    },
    Case {
        tells: "table and deletes",
        envelope: DIFF,
        changes: &[HAS_SOME_CUT, KEY_TWICE],
        files: &[CUT_REGISTRAR, "R1\nR1\n"],
        known: NEXT_DIFF,
        told: "FAILURE-10 registrar row 1: not a row in its one spelling",
    },
    Case {
        tells: "counts and references",
        envelope: FULL,
        changes: &[HAS_DOMAIN, TWO_DOMAINS],
        files: &[DOMAIN],
        known: NEW_FULL,
        told: "FAILURE-11 urn:ietf:params:xml:ns:csvDomain-1.0 counts 2, 1 are there",
    },
];

/// Deposits that were made to mislead.
static HOSTILE: [Case; 8] = [
    Case {
        tells: "eight MiB promised before no bytes",
        envelope: FULL,
        changes: &[LONG],
        files: &[],
        known: NEW_FULL,
        told: "FAILURE-09 the files have 8388608 bytes, says the envelope, and 0 are there",
    },
    Case {
        tells: "a length above any file's",
        envelope: FULL,
        changes: &[TOO_LONG],
        files: &[],
        known: NEW_FULL,
        told: "FAILURE-02 contents: not there, or not in form",
    },
    Case {
        tells: "an envelope with a byte behind it",
        envelope: FULL,
        changes: &[("00Z\"}", "00Z\"}\n")],
        files: &[],
        known: NEW_FULL,
        told: "FAILURE-02 envelope offset 1408: its end is wanted",
    },
    Case {
        tells: "a byte behind the files",
        envelope: FULL,
        changes: &[],
        files: &["\n"],
        known: NEW_FULL,
        told: "FAILURE-09 the files have 0 bytes, says the envelope, and 1 are there",
    },
    Case {
        tells: "a row of empty fields",
        envelope: FULL,
        changes: &[HAS_COMMAS, ONE_DOMAIN],
        files: &[",,,,,\n"],
        known: NEW_FULL,
        told: "FAILURE-10 domain row 1 fName: not a host name: ",
    },
    Case {
        tells: "files in another order",
        envelope: FULL,
        changes: &[HAS_DOMAIN, HAS_REGISTRAR, ONE_DOMAIN, ONE_REGISTRAR],
        files: &[REGISTRAR, DOMAIN],
        known: NEW_FULL,
        told: "FAILURE-09 contents 1 domain: sha256 is bee98454998ae22b902dafdfa1d210f81e63124fb35be2d26aeb2d144551f8f2, the envelope says 9447769a1bbb283082e07aef1ee6ff1e927416f0410c5794289136736d69dc6b",
    },
    Case {
        tells: "tables in another order",
        envelope: FULL,
        changes: &[DOMAIN_IS_HOST, HOST_IS_DOMAIN],
        files: &[],
        known: NEW_FULL,
        told: "FAILURE-08 contents 1: host, domain is wanted",
    },
    Case {
        tells: "one key in two rows",
        envelope: FULL,
        changes: &[HAS_TWO_REGISTRARS, ONE_REGISTRAR],
        files: &["R9,Example,292,ok\nR9,Other,293,ok\n"],
        known: NEW_FULL,
        told: "FAILURE-10 registrar row 2: the key of row 1",
    },
];

fn about(alloc: Global, (name, id, latest): Known) -> Option<About> {
    let latest = DepositId::parse(latest.as_bytes());
    let mut passed = Vec::new(alloc);
    passed.extend(latest).ok()?;
    Some(About {
        name: DepositName::parse(name.as_bytes()).ok()?,
        id: DepositId::parse(id.as_bytes())?,
        latest,
        full: None,
        passed,
        base: None,
    })
}

fn joined(alloc: Global, case: &Case) -> Result<String, AllocError> {
    let mut changed = String::from_str(alloc, case.envelope)?;
    for (from, to) in case.changes {
        changed = changed.replacen(alloc, *from, to, 1)?;
    }
    framed(alloc, changed.as_str(), case.files)
}

/// The verdict on a deposit, with the reason where it fails.
fn verdict_on(alloc: Global, case: &Case) -> Option<String> {
    let about = about(alloc, case.known)?;
    let joined = joined(alloc, case).ok()?;
    let told = match explain(alloc, joined.as_bytes(), &about).ok()? {
        None => String::from_str(alloc, "PASS"),
        Some(reason) => format!(in alloc; "FAILURE-{} {reason}", reason.check()),
    };
    told.ok()
}

fn is_told(alloc: Global, case: &Case) -> bool {
    match verdict_on(alloc, case) {
        Some(told) => told.as_str() == case.told,
        None => false,
    }
}

/// What the first case tells that has another verdict, or another reason.
fn first_wrong(alloc: Global, cases: &[Case]) -> Option<&'static str> {
    cases
        .iter()
        .find(|case| !is_told(alloc, case))
        .map(|case| case.tells)
}

#[test]
fn accepts_deposits(rt: HostRuntime) {
    assert_eq!(rt; first_wrong(rt.alloc(), &ACCEPTED), None);
}

#[test]
fn tells_the_check_that_fails(rt: HostRuntime) {
    assert_eq!(rt; first_wrong(rt.alloc(), &ONE_FAILS), None);
}

#[test]
fn tells_the_lower_of_two(rt: HostRuntime) {
    assert_eq!(rt; first_wrong(rt.alloc(), &TWO_FAIL), None);
}

#[test]
fn refuses_hostile_deposits(rt: HostRuntime) {
    assert_eq!(rt; first_wrong(rt.alloc(), &HOSTILE), None);
}

fn is_refused_for_its_frame(alloc: Global, joined: &[u8]) -> bool {
    match about(alloc, (FULL_NAME, "X", "-")) {
        Some(about) => verify(alloc, joined, &about) == Ok(Verdict::Fail(Check::Frame)),
        None => false,
    }
}

/// Whether a deposit is refused that promises more than it has, and one that is cut within its envelope.
fn are_refused_for_their_frames(alloc: Global, whole: &str) -> Result<bool, Fail> {
    let promising = whole.replacen(alloc, "RDE1 00001408", "RDE1 99999999", 1)?;
    let cut = whole.as_bytes().get(..1_000).ok_or("a longer one")?;
    Ok(
        whole.len() == 1_422
            && promising.as_str() != whole
            && is_refused_for_its_frame(alloc, promising.as_bytes())
            && is_refused_for_its_frame(alloc, cut),
    )
}

#[test]
fn refuses_frames(rt: HostRuntime) -> Result<(), Fail> {
    law_one_verdict();
    let alloc = rt.alloc();
    assert!(rt; is_refused_for_its_frame(alloc, b""));
    assert!(rt; is_refused_for_its_frame(alloc, b"RDE1 0000000x\n{}"));
    let whole = joined(alloc, &ACCEPTED[0])?;
    assert!(rt; are_refused_for_their_frames(alloc, whole.as_str())?);
    Ok(())
}
