//! What a head asks for, and how long the body is that comes with it.
ghost use Rattle.std.specs.Prelude.{◌≡◌, ℕ, List, length, map, false, Some, IfOk, IfErr, IfSome, IfNone, IsTrue};
ghost use Rattle.std.specs.List.{list_all};
ghost use Rattle.httparse.specs.Grammar.{RequestHead};
ghost use Rattle.httparse.specs.Spans.{name_and_value};
ghost use Rattle.http_request.specs.RequestMeaning.{values_named, HasFault, IsLengthFault, HasNoFaultBelow, fault_number};
ghost use Rattle.http_request.specs.inside.Fields.{AreFieldValues};
ghost use Rattle.http_request.specs.Head.{CoversHead, IsHeadOf};
ghost use Rattle.http_request.specs.Paths.{is_target_byte};
ghost use Rattle.http_request.specs.Plans.{FitsLength, IsPlanOf, IsReached};
ghost use Rattle.http_request.specs.Targets.{target_view};

use crate::fields::{FieldValues, number_of, values_of};
use crate::{Head, RequestFault, Routes, Target};
use std::str;

/// What a head asks for: its target, and the length of the body where the route takes one.
#[derive(Clone, Copy, Debug)]
pub struct Plan<'h> {
    pub target: Target<'h>,
    pub length: Option<u64>,
}

fn is_target_byte(b: u8) -> bool
    ensures { result ≡ is_target_byte b }
{
    b.is_ascii_alphanumeric() || b == b'/' || b == b'-' || b == b'_' || b == b'.'
}

fn has_target_bytes(bytes: &[u8]) -> bool
    ensures { result ≡ list_all is_target_byte bytes.now }
{
    bytes.iter().all(|b| is_target_byte(*b))
}

/// The target as a text, where each byte may stand in one.
#[tactic(auto, using(crate::proofs::Finding::target_text_utf8))]
fn target_text(bytes: &[u8]) -> Option<&str>
    ensures found { IfSome result (λ text. (text.now ≡ bytes.now) × IsTrue (list_all is_target_byte bytes.now)) }
    ensures none { IfNone result (list_all is_target_byte bytes.now ≡ false) }
{
    if has_target_bytes(bytes) {
        str::from_utf8(bytes).ok()
    } else {
        None
    }
}

/// The length that the fields tell, where the route takes a body.
fn length_of(named: FieldValues<'_>, limit: Option<u64>) -> Result<Option<u64>, RequestFault>
    ensures ok { IfOk result (λ n. (values : List (List ℕ)) → AreFieldValues values named.entry → FitsLength limit values n) }
    ensures err { IfErr result (λ fault. (values : List (List ℕ)) → AreFieldValues values named.entry → IsLengthFault limit values fault) }
{
    let Some(limit) = limit else {
        return Ok(None);
    };
    match named {
        FieldValues::None => Err(RequestFault::NoLength),
        FieldValues::Several => Err(RequestFault::Length),
        FieldValues::One(value) => match number_of(value) {
            None => Err(RequestFault::Length),
            Some(n) if n > limit => Err(RequestFault::TooLong),
            Some(n) => Ok(Some(n)),
        },
    }
}

/// The target of a head with its route's method, or the least fault that stands of these.
fn read_target<'h>(routes: &Routes, head: &'h Head) -> Result<Target<'h>, RequestFault>
    requires { IsHeadOf head.now }
    ensures ok { IfOk result (λ target. (h : RequestHead) → CoversHead head.now h → IsReached h (target_view target)) }
    ensures err { IfErr result (λ fault. (h : RequestHead) → CoversHead head.now h
        → (rest : List ℕ) → HasFault h rest fault × HasNoFaultBelow (fault_number fault) h rest) }
{
    let bytes = head.bytes.as_slice();
    let path = target_text(head.spans.path.of(bytes)).ok_or(RequestFault::Target)?;
    let target = routes.find(path).ok_or(RequestFault::NoRoute)?;
    let method = target.method();
    if head.spans.method.of(bytes) != method.as_str().as_bytes() {
        return Err(RequestFault::Method(method));
    }
    Ok(target)
}

/// The values of the fields of a name.
fn field_values<'h>(head: &'h Head, name: &[u8]) -> FieldValues<'h>
    requires { IsHeadOf head.now }
    ensures { (h : RequestHead) → CoversHead head.now h → AreFieldValues (values_named name.now (map name_and_value h.fields)) result }
{
    values_of(
        head.bytes.as_slice(),
        &head.headers[..head.spans.headers],
        name,
    )
}

/// What a head asks for, or the least fault that stands of the head alone.
pub fn read_plan<'h>(routes: &Routes, head: &'h Head) -> Result<Plan<'h>, RequestFault>
    requires { IsHeadOf head.now }
    ensures ok { IfOk result (λ p. (h : RequestHead) → CoversHead head.now h → IsPlanOf h p) }
    ensures err { IfErr result (λ fault. (h : RequestHead) → CoversHead head.now h
        → (rest : List ℕ) → HasFault h rest fault × HasNoFaultBelow (fault_number fault) h rest) }
{
    let target = read_target(routes, head)?;
    let FieldValues::None = field_values(head, b"transfer-encoding") else {
        return Err(RequestFault::TransferCoding);
    };
    let values = field_values(head, b"content-length");
    let length = length_of(values, target.limit())?;
    Ok(Plan { target, length })
}
