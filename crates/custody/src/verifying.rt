//! A deposit that is stated, read with those that it follows, and verified.
ghost use Rattle.std.specs.Prelude.{◌≡◌, ◌-◌, ◌<◌, ◌^◌, IfOk};
ghost use Rattle.std.specs.FinMap.{FinMap};
ghost use Rattle.std.specs.Option.{option_and_then};
ghost use Rattle.vault_volume.specs.Vault.{volume_of};
ghost use Rattle.custody_records.specs.Keys.{notice_cmp};
ghost use Rattle.custody_records.specs.MemoryRecords.{records_of};
ghost use Rattle.custody_records.specs.Records as recorded;
ghost use Rattle.deposit_verify.specs.Bases.{base_then};
ghost use Rattle.custody_machine.specs.Explaining.{with_notices};
ghost use Rattle.custody_machine.specs.Machine as machine;
ghost use Rattle.custody_machine.specs.Machine.{base_of, joined_bytes, part_keys};
ghost use Rattle.custody_machine.specs.StoredState.{HaveExtentsInRange, AreWhole, state_in};
ghost use Rattle.custody_rules.specs.Explaining.{AreNoticesOf};
ghost use Rattle.custody.specs.Reading.{ReadsVault};
ghost use Rattle.custody.specs.inside.Verifying.{HasFirstPart, HaveDigests, IsStatedExplained, IsStatedRead, IsVerified, CountsVerifyFailure, chain_keys};

use crate::Refused;
use crate::reading::{RevisionBytes, read_revision};
use custody_machine::{Damage, Failure, Statement};
use custody_records::{PartKey, Records};
use custody_rules::{held_chain, known_about};
use deposit_name::DepositName;
use deposit_verify::{About, Base, Reason, Verdict, explain, law_verdict, verify};
use desk::Notice;
use std::alloc::{AllocError, Global};
use vault_volume::{Vault, Volume};

/// A deposit that is stated: the bytes of its parts, joined, and what is known of it.
#[derive(Drop)]
struct StatedDeposit {
    joined: Vec<u8>,
    about: About,
}

/// Reads the deposit that is stated and those that it follows by some notices of its registry.
fn read_stated<V: Volume>(
    alloc: Global,
    vault: &mut Vault<V>,
    records: &Records,
    notices: &[Notice],
    statement: &Statement,
) -> Result<StatedDeposit, Refused>
    requires whole { AreWhole (records_of records.now) }
    requires blocks { V.size (volume_of vault.old) ≡ (records_of records.now).blocks }
    requires count { V.failures (volume_of vault.old) < 2 ^ 64 - 1 }
    requires first { HasFirstPart (records_of records.now) statement.now }
    ensures stated { V.tells → (told : FinMap notice_cmp recorded.Notice) → AreNoticesOf (with_notices (records_of records.now) told) statement.now.tld notices.now
        → IsStatedRead result (with_notices (records_of records.now) told) (V.image (volume_of vault.old)) statement.now }
    ensures read { ReadsVault vault.old vault.new }
    ensures failures { CountsVerifyFailure result (V.failures (volume_of vault.old)) (V.failures (volume_of vault.new)) }
{
    let base = read_base(alloc, vault, records, notices, statement)?;
    let name = first_part(records, statement);
    let joined = read_whole(alloc, vault, records, &name)?;
    let about = known_about(alloc, records, notices, statement, &name, base)?;
    Ok(StatedDeposit { joined, about })
}

/// Why the deposit that is stated fails, by some notices of its registry: `None` where it passes.
pub(crate) fn explain_stated<V: Volume>(
    alloc: Global,
    vault: &mut Vault<V>,
    records: &Records,
    notices: &[Notice],
    statement: &Statement,
) -> Result<Option<Reason>, Refused>
    requires whole { AreWhole (records_of records.now) }
    requires blocks { V.size (volume_of vault.old) ≡ (records_of records.now).blocks }
    requires count { V.failures (volume_of vault.old) < 2 ^ 64 - 1 }
    requires first { HasFirstPart (records_of records.now) statement.now }
    ensures explained { V.tells → (told : FinMap notice_cmp recorded.Notice) → AreNoticesOf (with_notices (records_of records.now) told) statement.now.tld notices.now
        → IsStatedExplained result (with_notices (records_of records.now) told) (V.image (volume_of vault.old)) statement.now }
    ensures read { ReadsVault vault.old vault.new }
    ensures failures { CountsVerifyFailure result (V.failures (volume_of vault.old)) (V.failures (volume_of vault.new)) }
{
    law_verdict();
    let stated = read_stated(alloc, vault, records, notices, statement)?;
    Ok(explain(alloc, &stated.joined, &stated.about)?)
}

/// Reads the deposit that is stated and those that it follows, and verifies it.
pub(crate) fn verify_stated<V: Volume>(
    alloc: Global,
    vault: &mut Vault<V>,
    records: &Records,
    statement: &Statement,
) -> Result<Verdict, Refused>
    requires whole { AreWhole (records_of records.now) }
    requires blocks { V.size (volume_of vault.old) ≡ (records_of records.now).blocks }
    requires count { V.failures (volume_of vault.old) < 2 ^ 64 - 1 }
    requires first { HasFirstPart (records_of records.now) statement.now }
    ensures verified { V.tells → IsVerified result (records_of records.now) (V.image (volume_of vault.old)) statement.now }
    ensures read { ReadsVault vault.old vault.new }
    ensures failures { CountsVerifyFailure result (V.failures (volume_of vault.old)) (V.failures (volume_of vault.new)) }
{
    let notices = records.notices_of(&statement.tld);
    let stated = read_stated(alloc, vault, records, notices, statement)?;
    Ok(verify(alloc, &stated.joined, &stated.about)?)
}

/// The keys that there are after the deposits that a stated one follows by some notices of its registry,
/// one deposit in memory at a time: `None` where it follows none, they are not all held, or one is not
/// read.
fn read_base<V: Volume>(
    alloc: Global,
    vault: &mut Vault<V>,
    records: &Records,
    notices: &[Notice],
    statement: &Statement,
) -> Result<Option<Base>, Refused>
    requires range { HaveExtentsInRange (records_of records.now) }
    requires blocks { V.size (volume_of vault.old) ≡ (records_of records.now).blocks }
    requires count { V.failures (volume_of vault.old) < 2 ^ 64 - 1 }
    ensures base { V.tells → (told : FinMap notice_cmp recorded.Notice) → AreNoticesOf (with_notices (records_of records.now) told) statement.now.tld notices.now
        → IfOk result (λ base. base ≡ base_of (state_in (with_notices (records_of records.now) told) (V.image (volume_of vault.old))) statement.now) }
    ensures digests { V.tells → (told : FinMap notice_cmp recorded.Notice) → AreNoticesOf (with_notices (records_of records.now) told) statement.now.tld notices.now
        → HaveDigests result (with_notices (records_of records.now) told) (V.image (volume_of vault.old)) (chain_keys (with_notices (records_of records.now) told) (V.image (volume_of vault.old)) statement.now) }
    ensures read { ReadsVault vault.old vault.new }
    ensures failures { CountsVerifyFailure result (V.failures (volume_of vault.old)) (V.failures (volume_of vault.new)) }
{
    let chain = held_chain(alloc, records, notices, statement)?;
    let [first, later @ ..] = chain.as_slice() else {
        return Ok(None);
    };
    let full = read_whole(alloc, vault, records, first)?;
    let mut base = Base::of_full(alloc, &full)?;
    drop(full);
    for name in later {
        let joined = read_whole(alloc, vault, records, name)?;
        base = base_then(alloc, base, &joined)?;
    }
    Ok(base)
}

/// The keys after one deposit more, where it is read and those before it were.
fn base_then(alloc: Global, base: Option<Base>, joined: &[u8]) -> Result<Option<Base>, AllocError>
    ensures { IfOk result (λ next. next ≡ option_and_then (λ base. base_then base joined.now) base) }
{
    let Some(mut base) = base else {
        return Ok(None);
    };
    if base.then(alloc, joined)? {
        Ok(Some(base))
    } else {
        Ok(None)
    }
}

/// The bytes of a deposit's parts, joined, each part with its digest.
fn read_whole<V: Volume>(
    alloc: Global,
    vault: &mut Vault<V>,
    records: &Records,
    name: &DepositName,
) -> Result<Vec<u8>, Refused>
    requires range { HaveExtentsInRange (records_of records.now) }
    requires blocks { V.size (volume_of vault.old) ≡ (records_of records.now).blocks }
    requires count { V.failures (volume_of vault.old) < 2 ^ 64 - 1 }
    ensures bytes { V.tells → IfOk result (λ bytes. bytes.items ≡ joined_bytes (state_in (records_of records.now) (V.image (volume_of vault.old))) name.now) }
    ensures digests { V.tells → HaveDigests result (records_of records.now) (V.image (volume_of vault.old)) (part_keys (state_in (records_of records.now) (V.image (volume_of vault.old))) name.now) }
    ensures read { ReadsVault vault.old vault.new }
    ensures failures { CountsVerifyFailure result (V.failures (volume_of vault.old)) (V.failures (volume_of vault.new)) }
{
    match read_revision(alloc, vault, records, name)? {
        RevisionBytes::Whole(joined) => Ok(joined),
        RevisionBytes::Broken(_) => Err(Refused::Failure(Failure::Damaged(Damage::Digest))),
    }
}

/// The name of the first part of the deposit that is stated, as it is recorded.
fn first_part(records: &Records, statement: &Statement) -> DepositName
    requires { HasFirstPart (records_of records.now) statement.now }
    ensures { result ≡ machine.first_part statement.now }
{
    let key = PartKey {
        tld: statement.tld,
        day: statement.day,
        rev: statement.rev.number(),
        part: 1,
    };
    match records.part(&key) {
        Some(part) => part.name,
        None => unreachable!(),
    }
}
