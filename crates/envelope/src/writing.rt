//! Writing the one text of an envelope.
ghost use Rattle.std.specs.Prelude.{◌≡◌, ◌++◌, codes, decimal, map, OnOk, IfOk, Some, option_map};
ghost use Rattle.schedule.specs.Text.{day_text};
ghost use Rattle.hex.specs.Hex.{encode_lower};
ghost use Rattle.envelope.specs.Envelope.{env_of, quoted_text, array_text, file_text, count_member, counts_text, files_text, header_text, menu_text, later_member, later_member_if, type_text, comma_before, front_text, back_text, env_text};

use crate::envelope::{Count, Envelope, FileEntry, Header, Menu};
use crate::uri::Uri;
use deposit_name::{DepositId, Kind};
use schedule::{Day, write_day};
use std::alloc::{AllocError, Global};

/// The one text of an envelope: compact JSON without escapes, whose members are in byte order of their names.
#[tactic(auto, unfolding(crate::specs::Envelope::env_text))]
pub fn write_envelope(alloc: Global, e: &Envelope) -> Result<Vec<u8>, AllocError>
    ensures { IfOk result (λ t. t.items ≡ env_text (env_of e.now)) }
{
    let mut out = Vec::new(alloc);
    put_front(&mut out, e)?;
    put_back(&mut out, e)?;
    Ok(out)
}

// The members up to `prevId`.
fn put_front(out: &mut Vec<u8>, e: &Envelope) -> Result<(), AllocError>
    ensures { OnOk result (out.new.items ≡ out.old.items ++ front_text (env_of e.now)) }
{
    out.extend_from_slice(b"{\"contents\":")?;
    put_files(out, &e.contents)?;
    put_deletes(out, &e.deletes)?;
    put_header(out, &e.header)?;
    put_id(out, &e.id)?;
    put_prev_id(out, &e.prev_id)
}

// The members from `rdeMenu` on, and the end.
fn put_back(out: &mut Vec<u8>, e: &Envelope) -> Result<(), AllocError>
    ensures { OnOk result (out.new.items ≡ out.old.items ++ back_text (env_of e.now)) }
{
    put_menu(out, &e.menu)?;
    put_resend(out, e.resend)?;
    put_kind(out, e.kind)?;
    put_watermark(out, e.watermark)?;
    out.push(b'}')?;
    Ok(())
}

fn put_deletes(out: &mut Vec<u8>, deletes: &Option<Vec<FileEntry>>) -> Result<(), AllocError>
    ensures { OnOk result (out.new.items ≡ out.old.items
        ++ later_member_if (codes "deletes") files_text (option_map (λ d. d.items) deletes.now)) }
{
    if let Some(files) = deletes {
        out.extend_from_slice(b",\"deletes\":")?;
        put_files(out, files)?;
    }
    Ok(())
}

fn put_header(out: &mut Vec<u8>, header: &Header) -> Result<(), AllocError>
    ensures { OnOk result (out.new.items ≡ out.old.items
        ++ later_member (codes "header") (header_text header.now.count.items header.now.tld)) }
{
    out.extend_from_slice(b",\"header\":{\"count\":")?;
    put_counts(out, &header.count)?;
    out.extend_from_slice(b",\"tld\":")?;
    put_quoted(out, header.tld.as_bytes())?;
    out.push(b'}')?;
    Ok(())
}

fn put_id(out: &mut Vec<u8>, id: &DepositId) -> Result<(), AllocError>
    ensures { OnOk result (out.new.items ≡ out.old.items ++ later_member (codes "id") (quoted_text id.now)) }
{
    out.extend_from_slice(b",\"id\":")?;
    put_quoted(out, id.as_bytes())
}

fn put_prev_id(out: &mut Vec<u8>, prev_id: &Option<DepositId>) -> Result<(), AllocError>
    ensures { OnOk result (out.new.items
        ≡ out.old.items ++ later_member_if (codes "prevId") quoted_text prev_id.now) }
{
    if let Some(id) = prev_id {
        out.extend_from_slice(b",\"prevId\":")?;
        put_quoted(out, id.as_bytes())?;
    }
    Ok(())
}

fn put_menu(out: &mut Vec<u8>, menu: &Menu) -> Result<(), AllocError>
    ensures { OnOk result (out.new.items
        ≡ out.old.items ++ later_member (codes "rdeMenu") (menu_text menu.now.object_uris.items)) }
{
    out.extend_from_slice(b",\"rdeMenu\":{\"objURI\":")?;
    put_uris(out, &menu.object_uris)?;
    out.extend_from_slice(b",\"version\":\"1.0\"")?;
    out.push(b'}')?;
    Ok(())
}

fn put_resend(out: &mut Vec<u8>, resend: u8) -> Result<(), AllocError>
    ensures { OnOk result (out.new.items
        ≡ out.old.items ++ later_member (codes "resend") (decimal resend)) }
{
    out.extend_from_slice(b",\"resend\":")?;
    put_number(out, u32::from(resend))
}

fn put_kind(out: &mut Vec<u8>, kind: Kind) -> Result<(), AllocError>
    ensures { OnOk result (out.new.items
        ≡ out.old.items ++ later_member (codes "type") (quoted_text (type_text kind))) }
{
    out.extend_from_slice(b",\"type\":")?;
    put_quoted(out, type_text(kind).as_bytes())
}

fn put_watermark(out: &mut Vec<u8>, day: Day) -> Result<(), AllocError>
    ensures { OnOk result (out.new.items ≡ out.old.items
        ++ later_member (codes "watermark") (quoted_text (day_text day ++ codes "T00:00:00Z"))) }
{
    out.extend_from_slice(b",\"watermark\":\"")?;
    out.extend_from_slice(&write_day(day))?;
    out.extend_from_slice(b"T00:00:00Z")?;
    out.push(b'"')?;
    Ok(())
}

/// The type of a deposit of this kind, as an envelope shows it.
pub fn type_text(kind: Kind) -> &'static str
    ensures { result.now ≡ type_text kind }
{
    match kind {
        Kind::Full => "FULL",
        Kind::Diff => "DIFF",
        Kind::Incr => "INCR",
    }
}

fn put_quoted(out: &mut Vec<u8>, t: &[u8]) -> Result<(), AllocError>
    ensures { OnOk result (out.new.items ≡ out.old.items ++ quoted_text t.now) }
{
    out.push(b'"')?;
    out.extend_from_slice(t)?;
    out.push(b'"')?;
    Ok(())
}

fn put_number(out: &mut Vec<u8>, n: u32) -> Result<(), AllocError>
    ensures { OnOk result (out.new.items ≡ out.old.items ++ decimal n) }
{
    let digits = n.to_string(*out.allocator())?;
    out.extend_from_slice(digits.as_bytes())?;
    Ok(())
}

fn put_file(out: &mut Vec<u8>, f: &FileEntry) -> Result<(), AllocError>
    ensures { OnOk result (out.new.items ≡ out.old.items ++ file_text f.now) }
{
    out.extend_from_slice(b"{\"length\":")?;
    put_number(out, f.length)?;
    out.extend_from_slice(b",\"name\":")?;
    put_quoted(out, f.name.as_str().as_bytes())?;
    out.extend_from_slice(b",\"sha256\":")?;
    put_digest(out, &f.sha256)?;
    out.push(b'}')?;
    Ok(())
}

fn put_digest(out: &mut Vec<u8>, sha256: &[u8; 32]) -> Result<(), AllocError>
    ensures { OnOk result (out.new.items ≡ out.old.items ++ quoted_text (encode_lower sha256.now)) }
{
    let digits = hex::encode(*out.allocator(), sha256)?;
    put_quoted(out, digits.as_bytes())
}

fn put_files(out: &mut Vec<u8>, files: &[FileEntry]) -> Result<(), AllocError>
    ensures { OnOk result (out.new.items ≡ out.old.items ++ files_text files.now) }
{
    out.push(b'[')?;
    for (i, f) in files.iter().enumerate() {
        put_comma(out, i)?;
        put_file(out, f)?;
    }
    out.push(b']')?;
    Ok(())
}

fn put_uris(out: &mut Vec<u8>, uris: &[Uri]) -> Result<(), AllocError>
    ensures { OnOk result (out.new.items ≡ out.old.items ++ array_text (map quoted_text uris.now)) }
{
    out.push(b'[')?;
    for (i, uri) in uris.iter().enumerate() {
        put_comma(out, i)?;
        put_quoted(out, uri.as_bytes())?;
    }
    out.push(b']')?;
    Ok(())
}

fn put_counts(out: &mut Vec<u8>, counts: &[Count]) -> Result<(), AllocError>
    ensures { OnOk result (out.new.items ≡ out.old.items ++ counts_text counts.now) }
{
    out.push(b'{')?;
    for (i, count) in counts.iter().enumerate() {
        put_comma(out, i)?;
        put_count(out, count)?;
    }
    out.push(b'}')?;
    Ok(())
}

fn put_count(out: &mut Vec<u8>, count: &Count) -> Result<(), AllocError>
    ensures { OnOk result (out.new.items ≡ out.old.items ++ count_member count.now) }
{
    put_quoted(out, count.uri.as_bytes())?;
    out.push(b':')?;
    put_number(out, count.count)
}

// A comma before each item but the first.
fn put_comma(out: &mut Vec<u8>, i: usize) -> Result<(), AllocError>
    ensures { OnOk result (out.new.items ≡ out.old.items ++ comma_before i) }
{
    if i > 0 {
        out.push(b',')?;
    }
    Ok(())
}
