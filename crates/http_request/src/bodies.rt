//! What the JSON body of a request stands for.
ghost use Rattle.std.specs.Prelude.{◌≡◌, Some, option_map};
ghost use Rattle.serde_json.specs.View as json;
ghost use Rattle.serde_json.specs.View.{members_view};
ghost use Rattle.http_request.specs.inside.BodyReading.{next_member, end_of, next_text, next_u64, registration_text, statement_fields, two_texts, release_fields, hold_fields};
ghost use Rattle.http_request.specs.inside.BodyTexts.{statement_texts, release_texts, hold_texts};

use serde_json::Value;
use std::collections::btree_map::Iter;

/// The texts and numbers of a statement.
#[derive(Clone, Copy, Debug)]
pub(crate) struct StatementFields<'v> {
    pub(crate) date: &'v str,
    pub(crate) id: &'v str,
    pub(crate) kind: &'v str,
    pub(crate) parts: u64,
    pub(crate) revision: u64,
    pub(crate) tld: &'v str,
}

/// The texts of a release.
#[derive(Clone, Copy, Debug)]
pub(crate) struct ReleaseFields<'v> {
    pub(crate) reason: &'v str,
    pub(crate) tld: &'v str,
}

/// The texts of a hold.
#[derive(Clone, Copy, Debug)]
pub(crate) struct HoldFields<'v> {
    pub(crate) date: &'v str,
    pub(crate) tld: &'v str,
}

/// The value of the next member, where it has that name.
fn next_member<'v>(members: &mut Iter<'v, String, Value>, name: &str) -> Option<&'v Value>
    ensures { option_map (λ v. (json.view v.now, members_view members.new)) result ≡ next_member name.now (members_view members.old) }
{
    let (key, value) = members.next()?;
    if key.as_str() == name {
        Some(value)
    } else {
        None
    }
}

/// That there is no further member.
fn end(members: &mut Iter<'_, String, Value>) -> Option<()>
    ensures { result ≡ end_of (members_view members.old) }
{
    match members.next() {
        Some(_) => None,
        None => Some(()),
    }
}

/// The string of the next member, where it has that name.
fn next_text<'v>(members: &mut Iter<'v, String, Value>, name: &str) -> Option<&'v str>
    ensures { option_map (λ t. (t.now, members_view members.new)) result ≡ next_text name.now (members_view members.old) }
{
    next_member(members, name)?.as_str()
}

/// The whole number of the next member, where it has that name.
fn next_u64(members: &mut Iter<'_, String, Value>, name: &str) -> Option<u64>
    ensures { option_map (λ n. (n, members_view members.new)) result ≡ next_u64 name.now (members_view members.old) }
{
    next_member(members, name)?.as_u64()
}

/// The first day of a registration.
#[tactic(auto, unfolding(crate::specs::inside::BodyReading::registration_text))]
pub(crate) fn registration_text(value: &Value) -> Option<&str>
    ensures { option_map (λ t. t.now) result ≡ registration_text (json.view value.now) }
{
    let mut members = value.as_object()?.iter();
    let first = next_text(&mut members, "first")?;
    end(&mut members)?;
    Some(first)
}

/// The texts and numbers of a statement.
#[tactic(auto, unfolding(crate::specs::inside::BodyReading::statement_fields))]
pub(crate) fn statement_fields(value: &Value) -> Option<StatementFields<'_>>
    ensures { option_map statement_texts result ≡ statement_fields (json.view value.now) }
{
    let mut members = value.as_object()?.iter();
    let date = next_text(&mut members, "date")?;
    let id = next_text(&mut members, "id")?;
    let kind = next_text(&mut members, "kind")?;
    let parts = next_u64(&mut members, "parts")?;
    let revision = next_u64(&mut members, "revision")?;
    let tld = next_text(&mut members, "tld")?;
    end(&mut members)?;
    Some(StatementFields {
        date,
        id,
        kind,
        parts,
        revision,
        tld,
    })
}

/// The strings of an object that has two members, of these names.
#[tactic(auto, unfolding(crate::specs::inside::BodyReading::two_texts))]
fn two_texts<'v>(value: &'v Value, first: &str, second: &str) -> Option<(&'v str, &'v str)>
    ensures { option_map (λ t. (t.0.now, t.1.now)) result ≡ two_texts first.now second.now (json.view value.now) }
{
    let mut members = value.as_object()?.iter();
    let one = next_text(&mut members, first)?;
    let two = next_text(&mut members, second)?;
    end(&mut members)?;
    Some((one, two))
}

/// The texts of a release.
pub(crate) fn release_fields(value: &Value) -> Option<ReleaseFields<'_>>
    ensures { option_map release_texts result ≡ release_fields (json.view value.now) }
{
    let (reason, tld) = two_texts(value, "ground", "tld")?;
    Some(ReleaseFields { reason, tld })
}

/// The texts of a hold.
pub(crate) fn hold_fields(value: &Value) -> Option<HoldFields<'_>>
    ensures { option_map hold_texts result ≡ hold_fields (json.view value.now) }
{
    let (date, tld) = two_texts(value, "date", "tld")?;
    Some(HoldFields { date, tld })
}
