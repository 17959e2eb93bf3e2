//! The verdict on a deposit, and why it fails.
ghost use Rattle.std.specs.Prelude.{◌≡◌, IfOk, IfSome};
ghost use Rattle.envelope.specs.Envelope.{IsEnvelope, env_of};
ghost use Rattle.deposit_verify.specs.Checks.{PassesBelow, HasMenu, IsLeast, IsVerdict, CheckSays};
ghost use Rattle.deposit_verify.specs.Known.{Known, known_in};
ghost use Rattle.deposit_verify.specs.Reasons.{IsPlaceIn, IsReason, verdict_for};
ghost use Rattle.deposit_verify.specs.Verdict.{verdict};

use crate::about::About;
use crate::base::Base;
use crate::counts::{tables_fault, wrong_chain_count};
use crate::files_read::read_files;
use crate::found_envelope::find_envelope;
use crate::header::header_reason;
use crate::laws::{law_reading, law_verdict};
use crate::reason::Reason;
use crate::tables_reason::TablesReason;
use crate::verdict::Verdict;
use dnrd_csv::{law_one_text, law_table_reader};
use envelope::Envelope;
use std::alloc::{AllocError, Global};

// Why a deposit that passes the checks up to that of the menu fails, from the bytes behind its envelope.
fn files_reason(
    alloc: Global,
    envelope: &Envelope,
    rest: &[u8],
    base: &Option<Base>,
) -> Result<Option<Reason>, AllocError>
    requires form { IsEnvelope (env_of envelope.now) }
    requires menu { HasMenu (env_of envelope.now) }
    ensures check { IfOk result (λ found. (k : Known) → k.base ≡ base.now → PassesBelow (CheckSays (env_of envelope.now) rest.now k) 9
        → IsLeast (CheckSays (env_of envelope.now) rest.now k) (verdict_for found)) }
    ensures place { IfOk result (λ found. IfSome found (λ reason. (k : Known) → k.base ≡ base.now → IsPlaceIn (env_of envelope.now) rest.now k reason)) }
{
    law_one_text();
    law_table_reader();
    let files = match read_files(alloc, envelope, rest)? {
        Ok(files) => files,
        Err(fault) => return Ok(Some(Reason::Read(fault))),
    };
    if let Some(reason) = tables_fault(alloc, envelope, &files.tables)? {
        return Ok(Some(Reason::Tables(reason)));
    }
    match wrong_chain_count(alloc, envelope, &files, base)? {
        Some(wrong) => Ok(Some(Reason::Tables(TablesReason::Count(wrong)))),
        None => Ok(None),
    }
}

/// Why a deposit fails, from its parts, joined in order, and what is known of it: none where it passes.
///
/// # Errors
///
/// Want of memory, and nothing else.
pub fn explain(alloc: Global, joined: &[u8], about: &About) -> Result<Option<Reason>, AllocError>
    // It passes where there is no reason, and fails the reason's check.
    ensures verdict { IfOk result (λ found. IsVerdict joined.now (known_in about.now) (verdict_for found)) }
    // The place is the first at which it fails that check.
    ensures reason { IfOk result (λ found. IfSome found (IsReason joined.now (known_in about.now))) }
{
    law_reading();
    let found = match find_envelope(alloc, joined)? {
        Ok(found) => found,
        Err(reason) => return Ok(Some(reason)),
    };
    if let Some(reason) = header_reason(&found.envelope, about) {
        return Ok(Some(Reason::Header(reason)));
    }
    files_reason(alloc, &found.envelope, found.rest, &about.base)
}

/// Verifies a deposit: its parts, joined in order, against what is known of it.
///
/// # Errors
///
/// Want of memory, and nothing else.
pub fn verify(alloc: Global, joined: &[u8], about: &About) -> Result<Verdict, AllocError>
    // The verdict names the least of the thirteen checks that fails, or is a pass where none does.
    ensures least { IfOk result (IsVerdict joined.now (known_in about.now)) }
    // It is the one that is a function of the same.
    ensures computed { IfOk result (λ v. v ≡ verdict joined.now (known_in about.now)) }
{
    law_verdict();
    match explain(alloc, joined, about)? {
        Some(reason) => Ok(Verdict::Fail(reason.check())),
        None => Ok(Verdict::Pass),
    }
}
