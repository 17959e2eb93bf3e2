//! Deposits with no files, which the tests change.
use std::alloc::{AllocError, Global};

/// The SHA-256 of no bytes.
const NO_BYTES: &str = "e3b0c44298fc1c149afbf4c8996fb92427ae41e4649b934ca495991b7852b855";

/// A full deposit with no rows. `<none>` stands for the digest of no bytes, `<ns>` for what URIs begin with.
pub const FULL: &str = concat!(
    r#"{"contents":[{"length":0,"name":"domain","sha256":"<none>"},"#,
    r#"{"length":0,"name":"domainContacts","sha256":"<none>"},"#,
    r#"{"length":0,"name":"domainStatuses","sha256":"<none>"},"#,
    r#"{"length":0,"name":"domainNameServers","sha256":"<none>"},"#,
    r#"{"length":0,"name":"host","sha256":"<none>"},"#,
    r#"{"length":0,"name":"hostAddresses","sha256":"<none>"},"#,
    r#"{"length":0,"name":"contact","sha256":"<none>"},"#,
    r#"{"length":0,"name":"registrar","sha256":"<none>"}],"#,
    r#""header":{"count":{"<ns>csvContact-1.0":0,"<ns>csvDomain-1.0":0,"<ns>csvHost-1.0":0,"#,
    r#""<ns>csvRegistrar-1.0":0},"tld":"example"},"id":"20260802001","#,
    r#""rdeMenu":{"objURI":["<ns>csvContact-1.0","<ns>csvDomain-1.0","<ns>csvHost-1.0","#,
    r#""<ns>csvRegistrar-1.0","<ns>rdeHeader-1.0"],"version":"1.0"},"#,
    r#""resend":0,"type":"FULL","watermark":"2026-08-02T00:00:00Z"}"#,
);

/// A differential deposit with no files, which follows the full one.
pub const DIFF: &str = concat!(
    r#"{"contents":[],"deletes":[],"#,
    r#""header":{"count":{"<ns>csvContact-1.0":0,"<ns>csvDomain-1.0":0,"<ns>csvHost-1.0":0,"#,
    r#""<ns>csvRegistrar-1.0":0},"tld":"example"},"id":"20260803001","prevId":"20260802001","#,
    r#""rdeMenu":{"objURI":["<ns>csvContact-1.0","<ns>csvDomain-1.0","<ns>csvHost-1.0","#,
    r#""<ns>csvRegistrar-1.0","<ns>rdeHeader-1.0"],"version":"1.0"},"#,
    r#""resend":0,"type":"DIFF","watermark":"2026-08-03T00:00:00Z"}"#,
);

/// An envelope with its digests and its URIs filled in.
pub fn filled(alloc: Global, envelope: &str) -> Result<String, AllocError> {
    let digests = envelope.replace(alloc, "<none>", NO_BYTES)?;
    digests.replace(alloc, "<ns>", "urn:ietf:params:xml:ns:")
}

/// The deposit of an envelope, once it is filled in, and of these files.
pub fn framed(alloc: Global, envelope: &str, files: &[&str]) -> Result<String, AllocError> {
    let envelope = filled(alloc, envelope)?;
    let mut joined = format!(in alloc; "RDE1 {:08}\n{}", envelope.len(), envelope)?;
    for file in files {
        joined.push_str(file)?;
    }
    Ok(joined)
}
