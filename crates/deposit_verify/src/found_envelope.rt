//! Finding the envelope of a deposit.
ghost use Rattle.std.specs.Prelude.{◌≡◌, ℕ, List, IfErr, IfOk};
ghost use Rattle.envelope.specs.Envelope.{Env, env_of, env_text};
ghost use Rattle.deposit_verify.specs.Deposit.{IsDeposit};
ghost use Rattle.deposit_verify.specs.Known.{Known};
ghost use Rattle.deposit_verify.specs.Reasons.{IsReason};

use crate::laws::law_reading;
use crate::reason::Reason;
use envelope::{EnvError, Envelope, read_envelope, split_frame};
use std::alloc::{AllocError, Global};

/// A deposit, cut behind its envelope.
#[derive(Debug, Drop)]
pub struct FoundEnvelope<'d> {
    /// Its text, in JSON.
    pub text: &'d [u8],
    pub envelope: Envelope,
    /// The bytes of the files behind it.
    pub rest: &'d [u8],
}

/// The envelope of a deposit, from its parts, joined in order; or why its frame or its envelope fails.
///
/// # Errors
///
/// Want of memory, and nothing else.
pub fn find_envelope(
    alloc: Global,
    joined: &[u8],
) -> Result<Result<FoundEnvelope<'_>, Reason>, AllocError>
    ensures found { IfOk result (λ read. IfOk read
        (λ found. IsDeposit joined.now (env_of found.envelope) found.rest.now × (found.text.now ≡ env_text (env_of found.envelope)))) }
    ensures none { IfOk result (λ read. IfErr read
        (λ reason. (v : Env) (rest : List ℕ) → ¬ IsDeposit joined.now v rest)) }
    ensures reason { IfOk result (λ read. IfErr read
        (λ reason. (known : Known) → IsReason joined.now known reason)) }
{
    law_reading();
    let frame = match split_frame(joined) {
        Ok(frame) => frame,
        Err(fault) => return Ok(Err(Reason::Frame(fault))),
    };
    let text = frame.envelope;
    let rest = frame.rest;
    match read_envelope(alloc, text) {
        Ok(envelope) => Ok(Ok(FoundEnvelope {
            text,
            envelope,
            rest,
        })),
        Err(EnvError::Spelling(fault)) => Ok(Err(Reason::Envelope(fault))),
        Err(EnvError::Memory) => Err(AllocError),
    }
}
