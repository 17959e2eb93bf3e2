//! The deposits that one follows, and what the agent says of it.
ghost use Rattle.std.specs.Prelude.{◌≡◌, ◌↔◌, ◌⊎◌, ◌++◌, ◌∷◌, [], ℕ, List, Some, IfOk, IfSome, IsTrue, MatchOption, MatchResult, option_map};
ghost use Rattle.deposit_pack.specs.declared.chains.NamedDeposit.{NamedDeposit};
ghost use Rattle.deposit_verify.specs.Bases.{base_at};
ghost use Rattle.deposit_verify.specs.Checks.{AgreesWithName, IsVerdict};
ghost use Rattle.deposit_verify.specs.Known.{Known, known_in};
ghost use Rattle.deposit_verify.specs.Reasons.{IsReason, verdict_for};
ghost use Rattle.envelope.specs.Envelope.{env_of};
ghost use Rattle.deposit_pack.specs.Chains.{BreaksAt, HasId, IsBrokenBy, IsChainBefore, IsChainFault, IsChainOf, IsKnownOf, IsMisnamed, chain_parts, counted_from, joined_of, known_by_chain, names_of, previous_id};

use crate::followed::are_followed;
use deposit_name::{DepositId, DepositName, Kind};
use deposit_verify::{About, Base, FoundEnvelope, Reason, explain, find_envelope};
use envelope::{Envelope, law_one_reading};
use std::alloc::{AllocError, Global};

/// A deposit: the name of its first part, and its parts, joined in order.
#[derive(Clone, Copy, Debug)]
pub struct NamedDeposit<'d> {
    pub name: DepositName,
    pub joined: &'d [u8],
}

/// Why deposits are no chain that another one follows.
#[derive(Clone, Copy, Debug, PartialEq, Eq)]
pub enum ChainFault {
    /// There is none.
    Missing,
    /// By their names they are not what it follows, or they do not stand by day.
    Order,
    /// The deposit at this place, from 0, breaks it: it is not read, or it is the first and not full, or a later one and
    /// full.
    Deposit(usize),
}

/// Deposits that have passed: a full one, and later ones that are not full.
#[derive(Debug, Drop)]
pub struct Chain {
    /// Their ids, in order.
    pub ids: Vec<DepositId>,
    /// The keys that the deposit after them adds to: those after the full one where it is incremental, else those after
    /// all.
    pub base: Base,
}

impl Chain {
    /// The chain that a deposit of this name follows: a full deposit and later ones. They have to be what it follows by
    /// their names (`left_out`), by day.
    ///
    /// # Errors
    ///
    /// Want of memory, and nothing else; within, why they are no such chain.
    pub fn of(
        alloc: Global,
        name: &DepositName,
        deposits: &[NamedDeposit<'_>],
    ) -> Result<Result<Chain, ChainFault>, AllocError>
        ensures { IfOk result (λ r. MatchResult r (IsChainBefore name.now deposits.now) (IsChainFault name.now deposits.now)) }
    {
        let Some((first, later)) = deposits.split_first() else {
            return Ok(Err(ChainFault::Missing));
        };
        if !are_followed(&names_of(alloc, deposits)?, name) {
            return Ok(Err(ChainFault::Order));
        }
        let Chain { ids, base } = match chain_of(alloc, first, later)? {
            Ok(chain) => chain,
            Err(place) => return Ok(Err(ChainFault::Deposit(place))),
        };
        match base_for(alloc, name.kind, first.joined, base)? {
            Some(base) => Ok(Ok(Chain { ids, base })),
            None => Ok(Err(ChainFault::Deposit(0))),
        }
    }

    /// Adds a deposit behind the others, and says whether it continues the chain: whether it is the one that its name
    /// tells, read, and not full. Where it does not, or where memory is refused, the chain is of no use any more.
    ///
    /// # Errors
    ///
    /// Want of memory, and nothing else.
    pub fn then(&mut self, alloc: Global, deposit: &NamedDeposit<'_>) -> Result<bool, AllocError>
        ensures continues { IfOk result (λ is. IsTrue is → (deposits : List NamedDeposit) → IsChainOf deposits self.old → IsChainOf (deposits ++ deposit.now ∷ []) self.new) }
        ensures broken { IfOk result (λ is. ¬ IsTrue is → (deposits : List NamedDeposit) → IsChainOf deposits self.old → IsBrokenBy deposits deposit.now) }
    {
        let Some(id) = id_of(alloc, deposit)? else {
            return Ok(false);
        };
        if !self.base.then(alloc, deposit.joined)? {
            return Ok(false);
        }
        self.ids.push(id)?;
        Ok(true)
    }

    /// The id that a deposit of a kind names as the one before it: the last where it is differential, and the first where
    /// it is incremental.
    pub fn previous_id(&self, kind: Kind) -> Option<DepositId>
        ensures { result ≡ previous_id kind self.now.ids.items }
    {
        match kind {
            Kind::Full => None,
            Kind::Diff => self.ids.last().copied(),
            Kind::Incr => self.ids.first().copied(),
        }
    }
}

fn names_of(alloc: Global, deposits: &[NamedDeposit<'_>]) -> Result<Vec<DepositName>, AllocError>
    ensures { IfOk result (λ names. names.items ≡ names_of deposits.now) }
{
    deposits.iter().map(|deposit| deposit.name).collect(alloc)
}

// The chain of a full deposit and of later ones, or the place, from 0, of the first that breaks it: one that is not read,
// or not the one that its name tells, or the first that is not full, or a later one that is full.
fn chain_of(
    alloc: Global,
    first: &NamedDeposit<'_>,
    later: &[NamedDeposit<'_>],
) -> Result<Result<Chain, usize>, AllocError>
    ensures { IfOk result (λ r. MatchResult r (IsChainOf (first.now ∷ later.now))
        (λ place. IsMisnamed (first.now ∷ later.now) place ⊎ BreaksAt (joined_of (first.now ∷ later.now)) place)) }
{
    let Some(id) = id_of(alloc, first)? else {
        return Ok(Err(0));
    };
    let Some(mut base) = Base::of_full(alloc, first.joined)? else {
        return Ok(Err(0));
    };
    let mut ids = Vec::with_capacity(alloc, later.len().saturating_add(1))?;
    ids.push(id)?;
    for (i, deposit) in later.iter().enumerate() {
        let Some(id) = id_of(alloc, deposit)? else {
            return Ok(Err(i + 1));
        };
        if !base.then(alloc, deposit.joined)? {
            return Ok(Err(i + 1));
        }
        ids.push(id)?;
    }
    Ok(Ok(Chain { ids, base }))
}

// The keys that a deposit of a kind adds to, where these are those after the whole chain.
fn base_for(
    alloc: Global,
    kind: Kind,
    first: &[u8],
    whole: Base,
) -> Result<Option<Base>, AllocError>
    ensures { (later : List (List ℕ)) → base_at (first.now ∷ later) ≡ Some whole
        → IfOk result (λ found. found ≡ base_at (counted_from kind (first.now ∷ later))) }
{
    match kind {
        Kind::Full | Kind::Diff => Ok(Some(whole)),
        Kind::Incr => Base::of_full(alloc, first),
    }
}

// Whether an envelope is that of the deposit that a name tells.
fn agrees_with(envelope: &Envelope, name: &DepositName) -> bool
    ensures { IsTrue result ↔ AgreesWithName (env_of envelope.now) name.now }
{
    envelope.kind == name.kind
        && envelope.header.tld == name.tld
        && envelope.watermark == name.day
        && envelope.resend == name.rev
}

// The id of a deposit, if it is the one that its name tells.
fn id_of(alloc: Global, deposit: &NamedDeposit<'_>) -> Result<Option<DepositId>, AllocError>
    ensures { IfOk result (λ found. MatchOption found ((id : List ℕ) → ¬ HasId deposit.now id) (HasId deposit.now)) }
{
    law_one_reading();
    let Ok(FoundEnvelope { envelope, .. }) = find_envelope(alloc, deposit.joined)? else {
        return Ok(None);
    };
    if agrees_with(&envelope, &deposit.name) {
        Ok(Some(envelope.id))
    } else {
        Ok(None)
    }
}

// What is known of the deposit with this envelope.
fn about_of(alloc: Global, name: &DepositName, envelope: &Envelope, chain: Option<Chain>) -> About
    ensures { known_in result ≡ known_by_chain name.now (env_of envelope.now) chain }
{
    match chain {
        Some(Chain { ids, base }) => About {
            name: *name,
            id: envelope.id,
            latest: ids.last().copied(),
            full: ids.first().copied(),
            passed: ids,
            base: Some(base),
        },
        None => About {
            name: *name,
            id: envelope.id,
            latest: envelope.prev_id,
            full: Some(envelope.prev_id.unwrap_or(envelope.id)),
            passed: Vec::new(alloc),
            base: None,
        },
    }
}

// The chain that is known of a deposit.
fn chain_in(about: About) -> Option<Chain>
    ensures { chain_parts result ≡ option_map (λ base. (about.passed.items, base)) about.base }
{
    let About { passed, base, .. } = about;
    match base {
        Some(base) => Some(Chain { ids: passed, base }),
        None => None,
    }
}

/// Why the agent would refuse a deposit under this name that is stated by its own id, after the deposits of a chain:
/// none where it passes; and the chain again. Without a chain it leaves out what other deposits decide: whether it follows
/// the right one (a differential one without `prevId` follows none), whether its id is new, and, where it is not full, its
/// counts.
///
/// # Errors
///
/// Want of memory, and nothing else.
pub fn check(
    alloc: Global,
    name: &DepositName,
    joined: &[u8],
    chain: Option<Chain>,
) -> Result<(Option<Reason>, Option<Chain>), AllocError>
    ensures reason { IfOk result (λ found. (known : Known) → IsKnownOf name.now chain joined.now known
        → IsVerdict joined.now known (verdict_for found.0) × IfSome found.0 (IsReason joined.now known)) }
    ensures chain { IfOk result (λ found. chain_parts found.1 ≡ chain_parts chain) }
{
    match find_envelope(alloc, joined)? {
        Ok(found) => {
            let about = about_of(alloc, name, &found.envelope, chain);
            let reason = explain(alloc, joined, &about)?;
            Ok((reason, chain_in(about)))
        }
        Err(reason) => Ok((Some(reason), chain)),
    }
}
