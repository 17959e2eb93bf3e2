//! What a target and a body stand for.
ghost use Rattle.std.specs.Prelude.{◌≡◌, ◌≤◌, ℕ, List, Err, Some, IfErr, IfOk, IfSome, decimal, true};
ghost use Rattle.schedule.specs.Schedule.{IsDay};
ghost use Rattle.schedule.specs.Text.{day_text};
ghost use Rattle.deposit_name.specs.Identifiers.{IsReference, IsTld};
ghost use Rattle.custody_machine.specs.declared.command.Statement as statement;
ghost use Rattle.serde_json.specs.Data.{Data};
ghost use Rattle.serde_json.specs.View as json;
ghost use Rattle.http_request.specs.Bodies.{IsJsonOf, registration_json, statement_json, release_json, hold_json};
ghost use Rattle.http_request.specs.inside.BodyTexts.{statement_texts, release_texts, hold_texts};
ghost use Rattle.http_request.specs.Action.{Means, IsStatement, texts_of_statement, handover_texts, held_day_texts};
ghost use Rattle.http_request.specs.Action as asked;
ghost use Rattle.http_request.specs.ActionView.{action_view};
ghost use Rattle.http_request.specs.Targets.{target_view};
ghost use Rattle.http_request.specs.Errors.{IsMeaningError};
ghost use Rattle.http_request.specs.Paths.{takes_json};

use crate::bodies::{
    HoldFields, ReleaseFields, StatementFields, hold_fields, registration_text, release_fields,
    statement_fields,
};
use crate::fields::short_number_of;
use crate::{RequestAction, RequestError, RequestFault, Route, Target};
use custody_machine::{Command, Statement};
use deposit_name::{DepositId, Kind, Reference, Tld};
use desk::{Ground, Revision};
use schedule::{Day, read_day};
use serde_json::{Category, Value};
use std::alloc::Global;

/// The registry that a path names.
fn tld_of(text: &[u8]) -> Result<Tld, RequestFault>
    ensures found { IfOk result (λ tld. (tld ≡ text.now) × IsTld tld) }
    ensures form { IfErr result (λ fault. (fault ≡ RequestFault.Form) × ¬ IsTld text.now) }
{
    Tld::parse(text).ok_or(RequestFault::Form)
}

/// The reference that a path names.
fn reference_of(text: &[u8]) -> Result<Reference, RequestFault>
    ensures found { IfOk result (λ reference. (reference ≡ text.now) × IsReference reference) }
    ensures form { IfErr result (λ fault. (fault ≡ RequestFault.Form) × ¬ IsReference text.now) }
{
    Reference::parse(text).ok_or(RequestFault::Form)
}

/// The revision that a path names.
fn revision_of(text: &[u8]) -> Option<Revision>
    ensures found { IfSome result (λ rev. (rev ≤ 99) × (text.now ≡ decimal rev)) }
    ensures only { (rev : ℕ) → rev ≤ 99 → text.now ≡ decimal rev → result ≡ Some rev }
{
    Revision::new(short_number_of(text)?)
}

/// The JSON value of a body.
fn value_of(alloc: Global, body: &[u8]) -> Result<Value, RequestError>
    ensures found { IfOk result (λ v. IsJsonOf body.now (json.view v)) }
    ensures form { result ≡ Err (RequestError.Fault RequestFault.Form)
        → (d : Data) → ¬ IsJsonOf body.now d }
    ensures kind { IfErr result IsMeaningError }
{
    match Value::from_slice(alloc, body) {
        Ok(value) => Ok(value),
        Err(error) if error.classify() == Category::Memory => Err(RequestError::NoMemory),
        Err(_) => Err(RequestError::Fault(RequestFault::Form)),
    }
}

/// The first day that a registration tells.
#[tactic(auto, using(crate::proofs::BodyLemmas::registration_is, crate::proofs::BodyLemmas::registration_back))]
fn first_day_in(value: &Value) -> Option<Day>
    ensures found { IfSome result (λ day. IsDay day × (json.view value.now ≡ registration_json (day_text day))) }
    ensures only { (day : ℕ) → IsDay day → json.view value.now ≡ registration_json (day_text day) → result ≡ Some day }
{
    let text = registration_text(value)?;
    read_day(text.as_bytes())
}

fn first_day_of(alloc: Global, body: &[u8]) -> Result<Day, RequestError>
    ensures found { IfOk result (λ day. IsDay day × IsJsonOf body.now (registration_json (day_text day))) }
    ensures form { result ≡ Err (RequestError.Fault RequestFault.Form) → (day : ℕ) → IsDay day
        → ¬ IsJsonOf body.now (registration_json (day_text day)) }
    ensures kind { IfErr result IsMeaningError }
{
    let value = value_of(alloc, body)?;
    Ok(first_day_in(&value).ok_or(RequestFault::Form)?)
}

/// A number of at most so much, in a byte.
fn at_most(number: u64, limit: u8) -> Option<u8>
    ensures found { IfSome result (λ n. (n ≡ number) × (number ≤ limit)) }
    ensures only { number ≤ limit → result ≡ Some number }
{
    if number <= u64::from(limit) {
        Some(number as u8)
    } else {
        None
    }
}

/// The statement of which these are the texts.
fn statement_in(fields: &StatementFields<'_>) -> Option<Statement>
    ensures found { IfSome result (λ s. IsStatement s × (statement_texts fields.now ≡ texts_of_statement s)) }
    ensures only { (s : statement.Statement) → IsStatement s → statement_texts fields.now ≡ texts_of_statement s → result ≡ Some s }
{
    let day = read_day(fields.date.as_bytes())?;
    let id = DepositId::parse(fields.id.as_bytes())?;
    let kind = Kind::parse(fields.kind.as_bytes())?;
    let parts = at_most(fields.parts, 8)?;
    let rev = Revision::new(at_most(fields.revision, 99)?)?;
    let tld = Tld::parse(fields.tld.as_bytes())?;
    if parts == 0 {
        return None;
    }
    Some(Statement {
        tld,
        day,
        kind,
        rev,
        parts,
        id,
    })
}

/// What an operator states.
#[tactic(auto, using(crate::proofs::BodyLemmas::statement_is, crate::proofs::BodyLemmas::statement_back))]
fn statement_at(value: &Value) -> Option<Statement>
    ensures found { IfSome result (λ s. IsStatement s × (json.view value.now ≡ statement_json (texts_of_statement s))) }
    ensures only { (s : statement.Statement) → IsStatement s → json.view value.now ≡ statement_json (texts_of_statement s) → result ≡ Some s }
{
    statement_in(&statement_fields(value)?)
}

fn statement_of(alloc: Global, body: &[u8]) -> Result<Statement, RequestError>
    ensures found { IfOk result (λ s. IsStatement s × IsJsonOf body.now (statement_json (texts_of_statement s))) }
    ensures form { result ≡ Err (RequestError.Fault RequestFault.Form) → (s : statement.Statement)
        → IsStatement s → ¬ IsJsonOf body.now (statement_json (texts_of_statement s)) }
    ensures kind { IfErr result IsMeaningError }
{
    let value = value_of(alloc, body)?;
    Ok(statement_at(&value).ok_or(RequestFault::Form)?)
}

/// The registry of a release, and its ground, of which these are the texts.
fn handover_in(fields: &ReleaseFields<'_>) -> Option<(Tld, Ground)>
    ensures found { IfSome result (λ h. IsTld h.0 × (release_texts fields.now ≡ handover_texts h.0 h.1)) }
    ensures only { (tld : List ℕ) (reason : Ground) → IsTld tld
        → release_texts fields.now ≡ handover_texts tld reason → result ≡ Some (tld, reason) }
{
    let reason = Ground::parse(fields.reason)?;
    let tld = Tld::parse(fields.tld.as_bytes())?;
    Some((tld, reason))
}

/// Which registry's deposits are to be handed over, and on which ground.
#[tactic(auto, using(crate::proofs::BodyLemmas::release_is, crate::proofs::BodyLemmas::release_back))]
fn handover_at(value: &Value) -> Option<(Tld, Ground)>
    ensures found { IfSome result (λ h.
        IsTld h.0 × (json.view value.now ≡ release_json (handover_texts h.0 h.1))) }
    ensures only { (tld : List ℕ) (reason : Ground) → IsTld tld
        → json.view value.now ≡ release_json (handover_texts tld reason) → result ≡ Some (tld, reason) }
{
    handover_in(&release_fields(value)?)
}

fn handover_of(alloc: Global, body: &[u8]) -> Result<(Tld, Ground), RequestError>
    ensures found { IfOk result (λ h. IsTld h.0 × IsJsonOf body.now (release_json (handover_texts h.0 h.1))) }
    ensures form { result ≡ Err (RequestError.Fault RequestFault.Form)
        → (tld : List ℕ) (reason : Ground) → IsTld tld
        → ¬ IsJsonOf body.now (release_json (handover_texts tld reason)) }
    ensures kind { IfErr result IsMeaningError }
{
    let value = value_of(alloc, body)?;
    Ok(handover_at(&value).ok_or(RequestFault::Form)?)
}

/// The registry of a hold, and its day, of which these are the texts.
fn held_day_in(fields: &HoldFields<'_>) -> Option<(Tld, Day)>
    ensures found { IfSome result (λ h. IsTld h.0 × IsDay h.1 × (hold_texts fields.now ≡ held_day_texts h.0 h.1)) }
    ensures only { (tld : List ℕ) (day : ℕ) → IsTld tld → IsDay day
        → hold_texts fields.now ≡ held_day_texts tld day → result ≡ Some (tld, day) }
{
    let day = read_day(fields.date.as_bytes())?;
    let tld = Tld::parse(fields.tld.as_bytes())?;
    Some((tld, day))
}

/// Of which registry a day is to be held, and which day.
#[tactic(auto, using(crate::proofs::BodyLemmas::hold_is, crate::proofs::BodyLemmas::hold_back))]
fn held_day_at(value: &Value) -> Option<(Tld, Day)>
    ensures found { IfSome result (λ h.
        IsTld h.0 × IsDay h.1 × (json.view value.now ≡ hold_json (held_day_texts h.0 h.1))) }
    ensures only { (tld : List ℕ) (day : ℕ) → IsTld tld → IsDay day
        → json.view value.now ≡ hold_json (held_day_texts tld day) → result ≡ Some (tld, day) }
{
    held_day_in(&hold_fields(value)?)
}

fn held_day_of(alloc: Global, body: &[u8]) -> Result<(Tld, Day), RequestError>
    ensures found { IfOk result (λ h. IsTld h.0 × IsDay h.1 × IsJsonOf body.now (hold_json (held_day_texts h.0 h.1))) }
    ensures form { result ≡ Err (RequestError.Fault RequestFault.Form)
        → (tld : List ℕ) (day : ℕ) → IsTld tld → IsDay day
        → ¬ IsJsonOf body.now (hold_json (held_day_texts tld day)) }
    ensures kind { IfErr result IsMeaningError }
{
    let value = value_of(alloc, body)?;
    Ok(held_day_at(&value).ok_or(RequestFault::Form)?)
}

/// What a target and a body stand for.
pub fn meaning_of<'a>(
    alloc: Global,
    target: Target<'a>,
    body: &'a [u8],
) -> Result<RequestAction<'a>, RequestError>
    ensures found { IfOk result (λ w. Means (target_view target.entry) body.entry.now (action_view w)) }
    ensures form { result ≡ Err (RequestError.Fault RequestFault.Form)
        → (w : asked.RequestAction) → ¬ Means (target_view target.entry) body.entry.now w }
    ensures kind { IfErr result IsMeaningError }
    // Memory is taken for the JSON of a body alone.
    ensures memory { result ≡ Err RequestError.NoMemory → takes_json (target_view target.entry) ≡ true }
{
    match target.route {
        Route::Registry => {
            let tld = tld_of(target.first)?;
            Ok(RequestAction::Do(Command::Register(tld, first_day_of(alloc, body)?)))
        }
        Route::Deposit => Ok(RequestAction::Do(Command::Receive(target.first, body))),
        Route::Statements => Ok(RequestAction::Do(Command::Statement(statement_of(alloc, body)?))),
        Route::Check => {
            let tld = tld_of(target.first)?;
            let day = read_day(target.second).ok_or(RequestFault::Form)?;
            Ok(RequestAction::Do(Command::Check(tld, day)))
        }
        Route::Release => {
            let reference = reference_of(target.first)?;
            let (tld, reason) = handover_of(alloc, body)?;
            Ok(RequestAction::Do(Command::Release(reference, tld, reason)))
        }
        Route::ReleasedPart => Ok(RequestAction::Fetch(reference_of(target.first)?, target.second)),
        Route::Hold => {
            let reference = reference_of(target.first)?;
            let (tld, day) = held_day_of(alloc, body)?;
            Ok(RequestAction::Do(Command::Hold(reference, tld, day)))
        }
        Route::Lift => Ok(RequestAction::Do(Command::Lift(reference_of(target.first)?))),
        Route::Notices => Ok(RequestAction::Report(tld_of(target.first)?)),
        Route::Reasons => {
            let tld = tld_of(target.first)?;
            let day = read_day(target.second).ok_or(RequestFault::Form)?;
            let rev = revision_of(target.third).ok_or(RequestFault::Form)?;
            Ok(RequestAction::Explain(tld, day, rev))
        }
        Route::Digests => Ok(RequestAction::Digests(tld_of(target.first)?)),
        Route::State => Ok(RequestAction::State),
        Route::Due => Ok(RequestAction::Due),
        Route::Purges => Ok(RequestAction::Do(Command::Purge)),
    }
}
