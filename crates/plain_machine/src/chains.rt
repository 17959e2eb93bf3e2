//! The deposits that a stated one follows.
ghost use Rattle.std.specs.Prelude.{◌≡◌, if◌then◌else◌, map, IfOk, Some};
ghost use Rattle.std.specs.List.{filter, list_any};
ghost use Rattle.std.specs.Option.{option_and_then};
ghost use Rattle.deposit_verify.specs.Bases.{all_then, base_at, base_then};
ghost use Rattle.custody_machine.specs.Machine.{base_of, chain_before, chain_of, has_dropped_part, held_chain, joined_bytes, later_names, latest_full, passed_first_names};
ghost use Rattle.deposit_name.specs.declared.kinds.Kind.TheVariants as kind;
ghost use Rattle.deposit_name.specs.Name.{is_same_kind};
ghost use Rattle.plain_machine.specs.inside.Listing.{is_first_at, listed_key};
ghost use Rattle.plain_machine.specs.Plain.{state_view};

use crate::listing::{ListedPart, Listing};
use crate::sought_name::SoughtName;
use crate::state::PlainState;
use custody_machine::Statement;
use deposit_name::{DepositName, Kind, Tld};
use deposit_verify::Base;
use schedule::Day;
use std::alloc::{AllocError, Global};

impl PlainState {
    // Whether a part is the first of a registry's deposit that passed.
    fn is_first_of_passed(&self, part: &ListedPart, tld: &Tld) -> bool
        ensures { result ≡ is_first_at (state_view self.now) tld.now (listed_key part.now) }
    {
        let name = &part.name;
        name.tld.as_bytes() == tld.as_bytes()
            && name.part == 1
            && self.notices.has_receipt_on(tld, name.day, name.rev)
    }

    // Of some parts the names of those that are the first of a registry's deposit that passed.
    fn names_of_firsts(
        &self,
        alloc: Global,
        parts: &[ListedPart],
        tld: &Tld,
    ) -> Result<Vec<DepositName>, AllocError>
        ensures { IfOk result (λ names. names.items ≡ map (λ part. part.name)
            (filter (λ part. is_first_at (state_view self.now) tld.now (listed_key part)) parts.now)) }
    {
        parts
            .iter()
            .filter(|part| self.is_first_of_passed(part, tld))
            .map(|part| part.name)
            .collect(alloc)
    }

    // The names of the first parts of a registry's deposits that passed, by day.
    fn passed_first_names(&self, alloc: Global, tld: &Tld) -> Result<Vec<DepositName>, AllocError>
        ensures { IfOk result (λ names. names.items ≡ passed_first_names (state_view self.now) tld.now) }
    {
        let listing = Listing::of(alloc, &self.parts)?;
        self.names_of_firsts(alloc, listing.parts(), tld)
    }

    // The deposits that a stated one follows, oldest first, each by the name of its first part.
    fn chain_before(
        &self,
        alloc: Global,
        stated: &Statement,
    ) -> Result<Vec<DepositName>, AllocError>
        ensures { IfOk result (λ chain. chain.items ≡ chain_before (state_view self.now) stated.now) }
    {
        let passed = self.passed_first_names(alloc, &stated.tld)?;
        chain_of(alloc, stated.kind, &passed)
    }

    fn have_dropped_part(&self, names: &[DepositName]) -> bool
        ensures { result ≡ list_any (has_dropped_part (state_view self.now)) names.now }
    {
        names
            .iter()
            .any(|name| self.has_dropped_part(&SoughtName::of(name)))
    }

    // The deposits that a stated one follows where all their parts are held, and else none.
    fn held_chain(&self, alloc: Global, stated: &Statement) -> Result<Vec<DepositName>, AllocError>
        ensures { IfOk result (λ chain. chain.items ≡ held_chain (state_view self.now) stated.now) }
    {
        let chain = self.chain_before(alloc, stated)?;
        if self.have_dropped_part(&chain) {
            Ok(Vec::new(alloc))
        } else {
            Ok(chain)
        }
    }

    // The keys after later deposits too, where those before them are there.
    fn all_then(
        &self,
        alloc: Global,
        mut base: Option<Base>,
        later: &[DepositName],
    ) -> Result<Option<Base>, AllocError>
        ensures { IfOk result (λ next. next
            ≡ all_then base (map (joined_bytes (state_view self.now)) later.now)) }
    {
        for name in later {
            let joined = self.join(alloc, &SoughtName::of(name))?;
            base = base_then(alloc, base, &joined)?;
        }
        Ok(base)
    }

    // The keys after a chain, where it is read.
    fn base_at(&self, alloc: Global, chain: &[DepositName]) -> Result<Option<Base>, AllocError>
        ensures { IfOk result (λ base. base ≡ base_at (map (joined_bytes (state_view self.now)) chain.now)) }
    {
        let [first, later @ ..] = chain else {
            return Ok(None);
        };
        let joined = self.join(alloc, &SoughtName::of(first))?;
        let base = Base::of_full(alloc, &joined)?;
        self.all_then(alloc, base, later)
    }

    /// The keys after the deposits that a stated one follows, where these are held and read.
    pub(crate) fn base_of(
        &self,
        alloc: Global,
        stated: &Statement,
    ) -> Result<Option<Base>, AllocError>
        ensures { IfOk result (λ base. base ≡ base_of (state_view self.now) stated.now) }
    {
        let chain = self.held_chain(alloc, stated)?;
        self.base_at(alloc, &chain)
    }
}

// Of the deposits that passed those that one of a kind follows.
fn chain_of(
    alloc: Global,
    kind: Kind,
    passed: &[DepositName],
) -> Result<Vec<DepositName>, AllocError>
    ensures { IfOk result (λ chain. chain.items
        ≡ chain_of kind passed.now (latest_full passed.now)) }
{
    let mut chain = Vec::new(alloc);
    let Some(full) = latest_full(passed) else {
        return Ok(chain);
    };
    match kind {
        Kind::Full => {}
        Kind::Incr => chain.push(full)?,
        Kind::Diff => {
            chain.push(full)?;
            chain.extend_from_slice(&later_names(alloc, full.day, passed)?)?;
        }
    }
    Ok(chain)
}

fn latest_full(passed: &[DepositName]) -> Option<DepositName>
    ensures { result ≡ latest_full passed.now }
{
    let mut latest = None;
    for name in passed {
        latest = full_or(name, latest);
    }
    latest
}

fn full_or(name: &DepositName, latest: Option<DepositName>) -> Option<DepositName>
    ensures { result ≡ (if is_same_kind name.now.kind kind.Full then Some name.now else latest) }
{
    if name.kind == Kind::Full {
        Some(*name)
    } else {
        latest
    }
}

fn later_names(
    alloc: Global,
    day: Day,
    passed: &[DepositName],
) -> Result<Vec<DepositName>, AllocError>
    ensures { IfOk result (λ later. later.items ≡ later_names day passed.now) }
{
    passed
        .iter()
        .filter(|name| day.number() < name.day.number())
        .copied()
        .collect(alloc)
}

// The keys after one deposit more, where those before it are there.
fn base_then(alloc: Global, base: Option<Base>, joined: &[u8]) -> Result<Option<Base>, AllocError>
    ensures { IfOk result (λ next. next
        ≡ option_and_then (λ base. base_then base joined.now) base) }
{
    let Some(mut base) = base else {
        return Ok(None);
    };
    if base.then(alloc, joined)? {
        Ok(Some(base))
    } else {
        Ok(None)
    }
}
