//! Reading an envelope: the JSON value of the text, the envelope that the value stands for, its text, and the comparison.
ghost use Rattle.std.specs.Prelude.{◌≡◌, ◌≢◌, ◌-◌, ◌≤◌, ◌<◌, Option, Some, None, Ok, option_map, IfSome, IfOk, IfErr, IsTrue, IsErrOf, MatchResult, All, length, slice_get, take};
ghost use Rattle.serde_json.specs.View.{items_view, members_view};
ghost use Rattle.serde_json.specs.Read.{read};
ghost use Rattle.serde_json.specs.View as json;
ghost use Rattle.std.specs.List.{list_all};
ghost use Rattle.deposit_name.specs.Tables.{has_deletes};
ghost use Rattle.deposit_name.specs.Identifiers.{IsTld, IsDepositId};
ghost use Rattle.schedule.specs.Schedule.{IsDay};
ghost use Rattle.envelope.specs.Uri.{is_uri};
ghost use Rattle.envelope.specs.Envelope.{Env, IsFile, IsCount, FitsKind, UrisRise, IsEnvelope, env_of, env_text, text_max};
ghost use Rattle.envelope.specs.declared.errors.EnvError.TheVariants.{Memory, Spelling};
ghost use Rattle.envelope.specs.declared.errors.Member.TheVariants as member;
ghost use Rattle.envelope.specs.declared.errors.SpellingFault.TheVariants.{Long};
ghost use Rattle.envelope.specs.JsonReading.{GivesReading, number_at, text_at, file_at, uri_at, each_at, counts_of, files_at, uris_at, counts_at, kind_at, type_at, contents_at, deletes_at, id_at, prev_id_at, watermark_at, count_at, count_in_header, tld_in_header, uris_in_menu, resend_at, env_at};
ghost use Rattle.envelope.specs.Spelling.{IsJson, IsShort, NamesMember, RefusesEnvelope, TellsFault};

use crate::envelope::{Count, Envelope, FileEntry, Header, Menu};
use crate::errors::{EnvError, Member, SpellingFault};
use crate::uri::Uri;
use crate::writing::write_envelope;
use deposit_name::{DepositId, Kind, TableName, Tld};
use hex::FromHex;
use schedule::{Day, read_day};
use serde_json::{Category, Map, Value};
use std::alloc::Global;
use std::str;

/// No envelope has a text of more bytes.
const TEXT_MAX: usize = 8192;

/// In bytes.
const FILE_LENGTH_MAX: u64 = 8_388_608;

const CONTENTS_MAX: usize = 8;

const DELETES_MAX: usize = 4;

const COUNTS_MAX: usize = 16;

const OBJECT_URIS_MAX: usize = 16;

const RESEND_MAX: u64 = 99;

#[tactic(auto, unfolding(crate::specs::JsonReading::number_at))]
fn number_of(value: &Value, limit: u64) -> Option<u64>
    ensures value { result ≡ number_at limit (json.view value.now) }
    ensures small { IfSome result (λ n. n ≤ limit) }
{
    let n = value.as_u64()?;
    if n <= limit { Some(n) } else { None }
}

#[tactic(auto, unfolding(crate::specs::JsonReading::text_at))]
fn text_of<'v>(value: &'v Value, name: &str) -> Option<&'v str>
    ensures { option_map (λ t. t.now) result ≡ text_at name.now (json.view value.now) }
{
    value.get(name)?.as_str()
}

#[tactic(auto, unfolding(crate::specs::JsonReading::file_at))]
fn file_of(value: &Value) -> Option<FileEntry>
    ensures value { result ≡ file_at (json.view value.now) }
    ensures valid { IfSome result IsFile }
{
    let length = number_of(value.get("length")?, FILE_LENGTH_MAX)? as u32;
    let name = TableName::parse(text_of(value, "name")?)?;
    let sha256 = <[u8; 32] as FromHex>::from_hex(text_of(value, "sha256")?).ok()?;
    Some(FileEntry {
        length,
        name,
        sha256,
    })
}

#[tactic(auto, unfolding(crate::specs::JsonReading::uri_at))]
fn uri_of(value: &Value) -> Option<Uri>
    ensures value { result ≡ uri_at (json.view value.now) }
    ensures valid { IfSome result (λ u. IsTrue (is_uri u)) }
{
    Uri::parse(value.as_str()?.as_bytes())
}

#[tactic(auto, unfolding(crate::specs::JsonReading::id_at))]
fn id_of(value: &Value, name: &str) -> Option<DepositId>
    ensures value { result ≡ id_at name.now (json.view value.now) }
    ensures valid { IfSome result IsDepositId }
{
    DepositId::parse(text_of(value, name)?.as_bytes())
}

#[tactic(auto, unfolding(crate::specs::JsonReading::prev_id_at))]
fn prev_id_of(value: &Value) -> Option<Option<DepositId>>
    ensures value { result ≡ prev_id_at (json.view value.now) }
    ensures valid { IfSome result (λ p. IfSome p IsDepositId) }
{
    if value.get("prevId").is_none() {
        return Some(None);
    }
    let id = id_of(value, "prevId")?;
    Some(Some(id))
}

#[tactic(auto, unfolding(crate::specs::JsonReading::type_at))]
fn type_of(value: &Value) -> Option<Kind>
    ensures { result ≡ type_at (json.view value.now) }
{
    kind_of(text_of(value, "type")?)
}

#[tactic(auto, unfolding(crate::specs::JsonReading::kind_at))]
fn kind_of(t: &str) -> Option<Kind>
    ensures { result ≡ kind_at t.now }
{
    match t {
        "FULL" => Some(Kind::Full),
        "DIFF" => Some(Kind::Diff),
        "INCR" => Some(Kind::Incr),
        _ => None,
    }
}

#[tactic(auto, unfolding(crate::specs::JsonReading::watermark_at))]
fn watermark_of(value: &Value) -> Option<Day>
    ensures value { result ≡ watermark_at (json.view value.now) }
    ensures valid { IfSome result IsDay }
{
    let t = text_of(value, "watermark")?.as_bytes();
    read_day(t.get(..10).unwrap_or(t))
}

// The files of a member.
#[tactic(auto, unfolding(crate::specs::JsonReading::files_at))]
fn files_of(
    alloc: Global,
    value: &Value,
    limit: usize,
    member: Member,
) -> Result<Vec<FileEntry>, EnvError>
    ensures value { GivesReading member (λ v. v.items) result (files_at limit (json.view value.now)) }
    ensures few { IfOk result (λ v. length v.items ≤ limit) }
    ensures valid { IfOk result (λ v. All IsFile v.items) }
{
    let items = value.as_array().ok_or(member)?;
    let files = each_file(alloc, items, member)?;
    if files.len() > limit {
        return Err(EnvError::from(member));
    }
    Ok(files)
}

fn each_file(alloc: Global, items: &[Value], member: Member) -> Result<Vec<FileEntry>, EnvError>
    ensures value { GivesReading member (λ v. v.items) result (each_at file_at (items_view items.now)) }
    ensures valid { IfOk result (λ v. All IsFile v.items) }
{
    let mut files = Vec::new(alloc);
    for item in items {
        let Some(file) = file_of(item) else {
            return Err(EnvError::from(member));
        };
        files.push(file)?;
    }
    Ok(files)
}

#[tactic(auto, unfolding(crate::specs::JsonReading::contents_at))]
fn contents_of(alloc: Global, value: &Value) -> Result<Vec<FileEntry>, EnvError>
    ensures value { GivesReading member.Contents (λ v. v.items) result (contents_at (json.view value.now)) }
    ensures few { IfOk result (λ v. length v.items ≤ 8) }
    ensures valid { IfOk result (λ v. All IsFile v.items) }
{
    let list = value.get("contents").ok_or(Member::Contents)?;
    files_of(alloc, list, CONTENTS_MAX, Member::Contents)
}

#[tactic(auto, unfolding(crate::specs::JsonReading::deletes_at))]
fn deletes_of(alloc: Global, value: &Value, kind: Kind) -> Result<Option<Vec<FileEntry>>, EnvError>
    ensures value { GivesReading member.Deletes (option_map (λ v. v.items)) result (deletes_at kind (json.view value.now)) }
    ensures valid { IfOk result (λ d. FitsKind kind (option_map (λ v. v.items) d)) }
{
    match kind {
        Kind::Full => Ok(None),
        Kind::Diff | Kind::Incr => {
            let list = value.get("deletes").ok_or(Member::Deletes)?;
            let files = files_of(alloc, list, DELETES_MAX, Member::Deletes)?;
            if !have_deletes(&files) {
                return Err(EnvError::from(Member::Deletes));
            }
            Ok(Some(files))
        }
    }
}

fn have_deletes(files: &[FileEntry]) -> bool
    ensures value { result ≡ list_all (λ f. has_deletes f.name) files.now }
    ensures named { IsTrue result → All (λ f. IsTrue (has_deletes f.name)) files.now }
{
    files.iter().all(|f| f.name.has_deletes())
}

#[tactic(auto, unfolding(crate::specs::JsonReading::count_in_header))]
fn counts_in(alloc: Global, value: &Value) -> Result<Vec<Count>, EnvError>
    ensures value { GivesReading member.Count (λ v. v.items) result (count_in_header (json.view value.now)) }
    ensures few { IfOk result (λ v. length v.items ≤ 16) }
    ensures valid { IfOk result (λ v. All IsCount v.items) }
    ensures order { IfOk result (λ v. UrisRise v.items) }
{
    let header = value.get("header").ok_or(Member::Count)?;
    let counts = header.get("count").ok_or(Member::Count)?;
    list_counts(alloc, counts)
}

#[tactic(auto, unfolding(crate::specs::JsonReading::counts_at))]
fn list_counts(alloc: Global, value: &Value) -> Result<Vec<Count>, EnvError>
    ensures value { GivesReading member.Count (λ v. v.items) result (counts_at (json.view value.now)) }
    ensures few { IfOk result (λ v. length v.items ≤ 16) }
    ensures valid { IfOk result (λ v. All IsCount v.items) }
    ensures order { IfOk result (λ v. UrisRise v.items) }
{
    let members = value.as_object().ok_or(Member::Count)?;
    let counts = each_count(alloc, members)?;
    if counts.len() > COUNTS_MAX {
        return Err(EnvError::from(Member::Count));
    }
    Ok(counts)
}

fn each_count(alloc: Global, members: &Map<String, Value>) -> Result<Vec<Count>, EnvError>
    ensures value { GivesReading member.Count (λ v. v.items) result (counts_of (members_view members.now.entries)) }
    ensures valid { IfOk result (λ v. All IsCount v.items) }
    ensures order { IfOk result (λ v. UrisRise v.items) }
{
    let mut counts = Vec::new(alloc);
    for (name, value) in members.iter() {
        let Some(count) = count_of(name, value) else {
            return Err(EnvError::from(Member::Count));
        };
        counts.push(count)?;
    }
    Ok(counts)
}

#[tactic(auto, unfolding(crate::specs::JsonReading::count_at))]
fn count_of(name: &str, value: &Value) -> Option<Count>
    ensures value { result ≡ count_at name.now (json.view value.now) }
    ensures valid { IfSome result IsCount }
{
    let uri = Uri::parse(name.as_bytes())?;
    let count = number_of(value, u64::from(u32::MAX))? as u32;
    Some(Count { uri, count })
}

#[tactic(auto, unfolding(crate::specs::JsonReading::tld_in_header))]
fn tld_in(value: &Value) -> Option<Tld>
    ensures value { result ≡ tld_in_header (json.view value.now) }
    ensures valid { IfSome result IsTld }
{
    let header = value.get("header")?;
    Tld::parse(text_of(header, "tld")?.as_bytes())
}

#[tactic(auto, unfolding(crate::specs::JsonReading::uris_in_menu))]
fn uris_in(alloc: Global, value: &Value) -> Result<Vec<Uri>, EnvError>
    ensures value { GivesReading member.ObjectUris (λ v. v.items) result (uris_in_menu (json.view value.now)) }
    ensures some { IfOk result (λ v. 1 ≤ length v.items) }
    ensures few { IfOk result (λ v. length v.items ≤ 16) }
    ensures valid { IfOk result (λ v. All (λ u. IsTrue (is_uri u)) v.items) }
{
    let menu = value.get("rdeMenu").ok_or(Member::ObjectUris)?;
    let uris = menu.get("objURI").ok_or(Member::ObjectUris)?;
    list_uris(alloc, uris)
}

#[tactic(auto, unfolding(crate::specs::JsonReading::uris_at))]
fn list_uris(alloc: Global, value: &Value) -> Result<Vec<Uri>, EnvError>
    ensures value { GivesReading member.ObjectUris (λ v. v.items) result (uris_at (json.view value.now)) }
    ensures some { IfOk result (λ v. 1 ≤ length v.items) }
    ensures few { IfOk result (λ v. length v.items ≤ 16) }
    ensures valid { IfOk result (λ v. All (λ u. IsTrue (is_uri u)) v.items) }
{
    let items = value.as_array().ok_or(Member::ObjectUris)?;
    let uris = each_uri(alloc, items)?;
    if uris.is_empty() || uris.len() > OBJECT_URIS_MAX {
        return Err(EnvError::from(Member::ObjectUris));
    }
    Ok(uris)
}

fn each_uri(alloc: Global, items: &[Value]) -> Result<Vec<Uri>, EnvError>
    ensures value { GivesReading member.ObjectUris (λ v. v.items) result (each_at uri_at (items_view items.now)) }
    ensures valid { IfOk result (λ v. All (λ u. IsTrue (is_uri u)) v.items) }
{
    let mut uris = Vec::new(alloc);
    for item in items {
        let Some(uri) = uri_of(item) else {
            return Err(EnvError::from(Member::ObjectUris));
        };
        uris.push(uri)?;
    }
    Ok(uris)
}

#[tactic(auto, unfolding(crate::specs::JsonReading::resend_at))]
fn resend_of(value: &Value) -> Option<u8>
    ensures value { result ≡ resend_at (json.view value.now) }
    ensures valid { IfSome result (λ n. n ≤ 99) }
{
    Some(number_of(value.get("resend")?, RESEND_MAX)? as u8)
}

/// The envelope whose one text this is. Any other text is refused as a spelling, with the place where it parts from an
/// envelope's text, and one of more than 8,192 bytes before any memory is taken.
pub fn read_envelope(alloc: Global, t: &[u8]) -> Result<Envelope, EnvError>
    // What is read is in form, and the text is its one text.
    ensures found { IfOk result (λ e. IsEnvelope (env_of e) × (t.now ≡ env_text (env_of e))) }
    // The text of each envelope in form is read as it, unless memory runs out.
    ensures only { (v : Env) → IsEnvelope v → t.now ≡ env_text v
        → MatchResult result (λ e. env_of e ≡ v) (λ error. error ≡ Memory) }
    // What is too long for any envelope is told so, however little memory there is.
    ensures long { text_max < length t.now → IsErrOf result (Spelling Long) }
    // Which refusal it is, and where.
    ensures refused { IfErr result (λ error. RefusesEnvelope error t.now) }
{
    if t.len() > TEXT_MAX {
        return Err(EnvError::Spelling(SpellingFault::Long));
    }
    let value = value_of(alloc, t)?;
    let envelope = envelope_of(alloc, &value)?;
    let text = write_envelope(alloc, &envelope)?;
    if text.as_slice() != t {
        let offset = first_difference(t, &text);
        let wanted = text.get(offset).copied();
        return Err(EnvError::Spelling(SpellingFault::Byte { offset, wanted }));
    }
    Ok(envelope)
}

// The JSON value of a text.
fn value_of(alloc: Global, t: &[u8]) -> Result<Value, EnvError>
    requires { IsShort t.now }
    ensures { MatchResult result (λ value. IsJson t.now (json.view value)) (λ error. TellsFault error t.now) }
{
    let text = match str::from_utf8(t) {
        Ok(text) => text,
        Err(e) => {
            let offset = e.valid_up_to();
            return Err(EnvError::Spelling(SpellingFault::NotUtf8 { offset }));
        }
    };
    match Value::from_str(alloc, text) {
        Ok(value) => Ok(value),
        Err(e) if e.classify() == Category::Memory => Err(EnvError::Memory),
        Err(e) => Err(EnvError::Spelling(SpellingFault::NotJson {
            line: e.line(),
            column: e.column(),
        })),
    }
}

#[tactic(auto, unfolding(crate::specs::JsonReading::env_at))]
fn envelope_of(alloc: Global, value: &Value) -> Result<Envelope, EnvError>
    ensures value { MatchResult result (λ e. env_at (json.view value.now) ≡ Some (env_of e))
        (λ error. NamesMember error (json.view value.now)) }
    ensures valid { IfOk result (λ e. IsEnvelope (env_of e)) }
{
    let contents = contents_of(alloc, value)?;
    let kind = type_of(value).ok_or(Member::Type)?;
    let deletes = deletes_of(alloc, value, kind)?;
    let count = counts_in(alloc, value)?;
    let tld = tld_in(value).ok_or(Member::Tld)?;
    let id = id_of(value, "id").ok_or(Member::Id)?;
    let prev_id = prev_id_of(value).ok_or(Member::PrevId)?;
    let object_uris = uris_in(alloc, value)?;
    let resend = resend_of(value).ok_or(Member::Resend)?;
    let watermark = watermark_of(value).ok_or(Member::Watermark)?;
    Ok(Envelope {
        contents,
        deletes,
        header: Header { count, tld },
        id,
        prev_id,
        menu: Menu { object_uris },
        resend,
        kind,
        watermark,
    })
}

// The first offset at which a text differs from the one wanted, or its length.
fn first_difference(text: &[u8], wanted: &[u8]) -> usize
    ensures same { take result text.now ≡ take result wanted.now }
    ensures other { text.now ≢ wanted.now → slice_get text.now result ≢ slice_get wanted.now result }
{
    for (offset, byte) in text.iter().enumerate() {
        if wanted.get(offset) != Some(byte) {
            return offset;
        }
    }
    text.len()
}
