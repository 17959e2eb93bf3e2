//! Texts of envelopes, with their answers.
use envelope::{EnvError, read_envelope, write_envelope};
use std::alloc::Global;

/// The envelope of a full deposit of eight empty tables.
const FULL0: &str = concat!(
    r#"{"contents":["#,
    r#"{"length":0,"name":"domain","sha256":"e3b0c44298fc1c149afbf4c8996fb92427ae41e4649b934ca495991b7852b855"},"#,
    r#"{"length":0,"name":"domainContacts","sha256":"e3b0c44298fc1c149afbf4c8996fb92427ae41e4649b934ca495991b7852b855"},"#,
    r#"{"length":0,"name":"domainStatuses","sha256":"e3b0c44298fc1c149afbf4c8996fb92427ae41e4649b934ca495991b7852b855"},"#,
    r#"{"length":0,"name":"domainNameServers","sha256":"e3b0c44298fc1c149afbf4c8996fb92427ae41e4649b934ca495991b7852b855"},"#,
    r#"{"length":0,"name":"host","sha256":"e3b0c44298fc1c149afbf4c8996fb92427ae41e4649b934ca495991b7852b855"},"#,
    r#"{"length":0,"name":"hostAddresses","sha256":"e3b0c44298fc1c149afbf4c8996fb92427ae41e4649b934ca495991b7852b855"},"#,
    r#"{"length":0,"name":"contact","sha256":"e3b0c44298fc1c149afbf4c8996fb92427ae41e4649b934ca495991b7852b855"},"#,
    r#"{"length":0,"name":"registrar","sha256":"e3b0c44298fc1c149afbf4c8996fb92427ae41e4649b934ca495991b7852b855"}],"#,
    r#""header":{"count":{"urn:ietf:params:xml:ns:csvContact-1.0":0,"urn:ietf:params:xml:ns:csvDomain-1.0":0,"#,
    r#""urn:ietf:params:xml:ns:csvHost-1.0":0,"urn:ietf:params:xml:ns:csvRegistrar-1.0":0},"tld":"example"},"#,
    r#""id":"20260802001","#,
    r#""rdeMenu":{"objURI":["urn:ietf:params:xml:ns:csvContact-1.0","urn:ietf:params:xml:ns:csvDomain-1.0","#,
    r#""urn:ietf:params:xml:ns:csvHost-1.0","urn:ietf:params:xml:ns:csvRegistrar-1.0","urn:ietf:params:xml:ns:rdeHeader-1.0"],"version":"1.0"},"#,
    r#""resend":0,"type":"FULL","watermark":"2026-08-02T00:00:00Z"}"#,
);

/// The envelope of a differential deposit without a file.
const DIFF0: &str = concat!(
    r#"{"contents":[],"deletes":[],"#,
    r#""header":{"count":{"urn:ietf:params:xml:ns:csvContact-1.0":0,"urn:ietf:params:xml:ns:csvDomain-1.0":0,"#,
    r#""urn:ietf:params:xml:ns:csvHost-1.0":0,"urn:ietf:params:xml:ns:csvRegistrar-1.0":0},"tld":"example"},"#,
    r#""id":"20260803001","prevId":"20260802001","#,
    r#""rdeMenu":{"objURI":["urn:ietf:params:xml:ns:csvContact-1.0","urn:ietf:params:xml:ns:csvDomain-1.0","#,
    r#""urn:ietf:params:xml:ns:csvHost-1.0","urn:ietf:params:xml:ns:csvRegistrar-1.0","urn:ietf:params:xml:ns:rdeHeader-1.0"],"version":"1.0"},"#,
    r#""resend":0,"type":"DIFF","watermark":"2026-08-03T00:00:00Z"}"#,
);

/// Envelopes in their one spelling.
pub const SPELLED: [&str; 2] = [FULL0, DIFF0];

/// What stands in the full envelope, and what in its place makes it the text of no envelope.
pub const EDITS: [(&str, &str); 12] = [
    ("20260802001", r"2026080200\u0031"),
    (r#""length":0,"#, r#""length":0, "#),
    (r#""resend":0,"type":"FULL""#, r#""type":"FULL","resend":0"#),
    (r#""length":0"#, r#""length":00"#),
    ("e3b0c442", "E3B0C442"),
    (r#""resend":0"#, r#""resend":100"#),
    ("csvHost-1.0", "csvContact-1.0"),
    ("[{", r#"[{},{"#),
    (r#""FULL""#, r#""DIFF""#),
    ("T00:00:00Z", "T00:00:01Z"),
    (r#""example""#, r#""Example""#),
    ("Z\"}", "Z\"}\n"),
];

/// Reads an envelope, and says whether it is written as the same text again.
pub fn reads_back(alloc: Global, text: &str) -> Result<bool, EnvError> {
    let envelope = read_envelope(alloc, text.as_bytes())?;
    let back = write_envelope(alloc, &envelope)?;
    Ok(back.as_slice() == text.as_bytes())
}

/// Reads the full envelope with an edit.
pub fn reads_edited(alloc: Global, old: &str, new: &str) -> Result<bool, EnvError> {
    let text = FULL0.replacen(alloc, old, new, 1)?;
    reads_back(alloc, text.as_str())
}
