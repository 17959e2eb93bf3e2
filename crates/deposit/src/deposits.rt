//! Deposits in files.
use crate::errors::ProgramError;
use crate::files::{file_name, read_file};
use crate::steps::{clear_step, show_file, show_step};
use deposit_name::{DepositName, Kind, Tld};
use deposit_pack::{Chain, ChainFault, LeftOut, NamedDeposit, PART_LENGTH_MAX, left_out};
use schedule::Day;
use std::alloc::{AllocError, Global};
use std::fmt;

/// The name of a part, and the place of its path among those that were named.
#[derive(Clone, Copy)]
struct PartFile {
    name: DepositName,
    place: usize,
}

/// A deposit: the name of its first part, and its parts, joined in order.
#[derive(Drop)]
pub struct JoinedDeposit {
    pub name: DepositName,
    parts: u8,
    pub bytes: Vec<u8>,
}

impl JoinedDeposit {
    /// The deposit under its name.
    pub fn named(&self) -> NamedDeposit<'_> {
        NamedDeposit {
            name: self.name,
            joined: &self.bytes,
        }
    }
}

// Where a part stands: by day, and within a day by revision.
fn order_of(part: &PartFile) -> (Day, u8, Kind, u8) {
    let name = &part.name;
    (name.day, name.rev, name.kind, name.part)
}

fn is_same_deposit(one: &DepositName, other: &DepositName) -> bool {
    one.tld == other.tld && one.day == other.day && one.kind == other.kind && one.rev == other.rev
}

// The name of the first part of a deposit.
fn first_name(name: &DepositName) -> DepositName {
    let mut first = *name;
    first.part = 1;
    first
}

// The error of a part, by its path and what is wrong with it.
fn misnamed<D: fmt::Display + Drop>(
    alloc: Global,
    paths: &[&str],
    part: &PartFile,
    cause: D,
) -> ProgramError {
    let path = paths.get(part.place).copied().unwrap_or_default();
    match format!(in alloc; "{path}: {cause}") {
        Ok(line) => ProgramError::misused(alloc, line),
        Err(_) => ProgramError::Memory,
    }
}

// The parts that these paths name, by day, those of one deposit beside each other.
fn part_files(alloc: Global, paths: &[&str]) -> Result<Vec<PartFile>, ProgramError> {
    let mut parts = Vec::with_capacity(alloc, paths.len())?;
    for (place, path) in paths.iter().enumerate() {
        match DepositName::parse(file_name(path).as_bytes()) {
            Ok(name) => parts.push(PartFile { name, place })?,
            Err(fault) => {
                let line = format!(in alloc; "{path}: {fault} is no name of a part")?;
                return Err(ProgramError::misused(alloc, line));
            }
        }
    }
    parts.sort_by_key(order_of)?;
    Ok(parts)
}

// The bytes of a part. One that the agent refuses for its size is refused.
fn read_part(rt: &HostRuntime, path: &str) -> Result<Vec<u8>, ProgramError> {
    let bytes = read_file(rt, path)?;
    let length = bytes.len();
    if length == 0 || length > PART_LENGTH_MAX {
        let line = format!(in rt.alloc();
            "Q4 {path}: {length} bytes, 1 to {PART_LENGTH_MAX} are wanted"
        )?;
        return Err(ProgramError::Refused(line));
    }
    Ok(bytes)
}

// Adds a part to the last deposit, or begins a new one with it.
fn add_part(
    rt: &HostRuntime,
    name: DepositName,
    path: &str,
    deposits: &mut Vec<JoinedDeposit>,
) -> Result<(), ProgramError> {
    let alloc = rt.alloc();
    let wanted = match deposits.last() {
        Some(last) if is_same_deposit(&last.name, &name) => last.parts.saturating_add(1),
        _ => 1,
    };
    if name.part != wanted {
        let line = format!(in alloc; "{path}: part {wanted} is wanted")?;
        return Err(ProgramError::misused(alloc, line));
    }
    let bytes = read_part(rt, path)?;
    match deposits.last_mut() {
        Some(last) if wanted > 1 => {
            last.bytes.extend_from_slice(&bytes)?;
            last.parts = wanted;
        }
        _ => deposits.push(JoinedDeposit {
            name,
            parts: 1,
            bytes,
        })?,
    }
    Ok(())
}

// The deposits that have these parts, which are some of those that the paths name.
fn read_deposits(
    rt: &HostRuntime,
    paths: &[&str],
    parts: &[PartFile],
) -> Result<Vec<JoinedDeposit>, ProgramError> {
    let mut deposits = Vec::new(rt.alloc());
    for (i, PartFile { name, place }) in parts.iter().enumerate() {
        if let Some(path) = paths.get(*place) {
            show_file(rt, "reading", path, i, parts.len());
            add_part(rt, *name, path, &mut deposits)?;
        }
    }
    Ok(deposits)
}

/// The one deposit whose parts these paths name.
pub fn read_deposit(rt: &HostRuntime, paths: &[&str]) -> Result<JoinedDeposit, ProgramError> {
    let alloc = rt.alloc();
    let parts = part_files(alloc, paths)?;
    find_no_repeat(alloc, paths, &parts)?;
    let mut deposits = read_deposits(rt, paths, &parts)?;
    if deposits.len() > 1 {
        return Err(ProgramError::misused(alloc, "these are parts of several deposits"));
    }
    match deposits.pop() {
        Some(deposit) => Ok(deposit),
        None => Err(ProgramError::misused(alloc, "no part is named")),
    }
}

// Refuses a part that is named twice.
fn find_no_repeat(alloc: Global, paths: &[&str], parts: &[PartFile]) -> Result<(), ProgramError> {
    for i in 1..parts.len() {
        if parts[i - 1].name == parts[i].name {
            return Err(misnamed(alloc, paths, &parts[i], "this part is named twice"));
        }
    }
    Ok(())
}

// Refuses parts of another registry, and those of two kinds in one revision.
fn find_no_stranger(
    alloc: Global,
    paths: &[&str],
    parts: &[PartFile],
    tld: &Tld,
) -> Result<(), ProgramError> {
    for i in 0..parts.len() {
        let part = &parts[i];
        if part.name.tld != *tld {
            let cause = format!(in alloc; "not of the top-level domain {tld}")?;
            return Err(misnamed(alloc, paths, part, cause));
        }
        if i > 0 && is_other_kind(&parts[i - 1].name, &part.name) {
            let cause = "the revision has parts of another kind";
            return Err(misnamed(alloc, paths, part, cause));
        }
    }
    find_no_repeat(alloc, paths, parts)
}

fn is_other_kind(one: &DepositName, other: &DepositName) -> bool {
    one.day == other.day && one.rev == other.rev && one.kind != other.kind
}

// Prints of each reason how many parts were left out for it.
fn print_left_out(rt: &HostRuntime, name: &DepositName, reasons: &[Option<LeftOut>]) {
    for reason in [
        LeftOut::Itself,
        LeftOut::NotEarlier,
        LeftOut::Replaced,
        LeftOut::BeforeFull,
    ] {
        let count = reasons.iter().filter(|it| **it == Some(reason)).count();
        if count > 0 {
            clear_step(rt);
            let _ = eprintln!(rt;
                "note: left out {}",
                LeftOutParts {
                    count,
                    reason,
                    day: name.day
                }
            );
        }
    }
}

fn noun(count: usize) -> &'static str {
    if count == 1 { "part" } else { "parts" }
}

// What is said of parts that were left out.
#[derive(Clone, Copy)]
struct LeftOutParts {
    count: usize,
    reason: LeftOut,
    day: Day,
}

impl fmt::Display for LeftOutParts {
    fn fmt<W: fmt::Write>(&self, f: &mut fmt::Formatter<W>) -> fmt::Result {
        write!(f, "{} {} of ", self.count, noun(self.count))?;
        match self.reason {
            LeftOut::Itself => f.write_str("the deposit itself"),
            LeftOut::NotEarlier => write!(f, "{} or later", self.day),
            LeftOut::Replaced => f.write_str("revisions that were sent again"),
            LeftOut::BeforeFull => f.write_str("days before the latest full deposit"),
        }
    }
}

// Why a deposit is left out of those that give the tables after the one of this name.
fn left_out_before(
    names: &[DepositName],
    name: &DepositName,
    one: &DepositName,
) -> Option<LeftOut> {
    match left_out(names, name, one) {
        Some(LeftOut::Itself) => None,
        None if name.kind == Kind::Full => Some(LeftOut::BeforeFull),
        reason => reason,
    }
}

// Of these parts those of deposits that one of this name follows, and its own `with_itself`. It prints how many it leaves
// out, and why.
fn followed_parts(
    rt: &HostRuntime,
    name: &DepositName,
    parts: &[PartFile],
    with_itself: bool,
) -> Result<Vec<PartFile>, ProgramError> {
    let alloc = rt.alloc();
    let mut names = Vec::with_capacity(alloc, parts.len())?;
    for part in parts {
        names.push(first_name(&part.name))?;
    }
    let mut reasons = Vec::with_capacity(alloc, parts.len())?;
    let mut followed = Vec::with_capacity(alloc, parts.len())?;
    for (part, first) in parts.iter().zip(&names) {
        let reason = if with_itself {
            left_out_before(&names, name, first)
        } else {
            left_out(&names, name, first)
        };
        if reason.is_none() {
            followed.push(*part)?;
        }
        reasons.push(reason)?;
    }
    print_left_out(rt, name, &reasons);
    Ok(followed)
}

// Of these parts those of an incremental deposit and of the full one, which alone it follows. It prints how many others
// there are.
fn incremental_parts(
    rt: &HostRuntime,
    name: &DepositName,
    parts: &[PartFile],
) -> Result<Vec<PartFile>, ProgramError> {
    let alloc = rt.alloc();
    let mut own = Vec::with_capacity(alloc, parts.len())?;
    for part in parts {
        if part.name.kind == Kind::Full || first_name(&part.name) == *name {
            own.push(*part)?;
        }
    }
    let count = parts.len().saturating_sub(own.len());
    if count > 0 {
        clear_step(rt);
        let noun = noun(count);
        let _ = eprintln!(rt;
            "note: left out {count} {noun} of deposits between the full and the incremental one"
        );
    }
    Ok(own)
}

/// The bytes of deposits, taken out of them.
pub fn joined_bytes(
    alloc: Global,
    deposits: Vec<JoinedDeposit>,
) -> Result<Vec<Vec<u8>>, AllocError> {
    deposits
        .into_iter()
        .map(|deposit| deposit.bytes)
        .collect(alloc)
}

/// The error of a deposit that breaks the chain, by its name.
pub fn broken_at(alloc: Global, name: Option<DepositName>) -> ProgramError {
    match name {
        Some(name) => ProgramError::refused(alloc, Broken { name }),
        None => ProgramError::Memory,
    }
}

// What is said of a deposit that does not continue its chain.
#[derive(Clone, Copy)]
struct Broken {
    name: DepositName,
}

impl fmt::Display for Broken {
    fn fmt<W: fmt::Write>(&self, f: &mut fmt::Formatter<W>) -> fmt::Result {
        write!(
            f,
            "{}: it does not continue a full deposit and those since",
            self.name
        )
    }
}

fn named_deposits<'d>(
    alloc: Global,
    deposits: &'d [JoinedDeposit],
) -> Result<Vec<NamedDeposit<'d>>, AllocError> {
    deposits
        .iter()
        .map(|deposit| deposit.named())
        .collect(alloc)
}

/// Of the deposits whose parts these paths name, those that a deposit of this name follows, by day.
pub fn read_followed(
    rt: &HostRuntime,
    paths: &[&str],
    name: &DepositName,
) -> Result<Vec<JoinedDeposit>, ProgramError> {
    let alloc = rt.alloc();
    let parts = part_files(alloc, paths)?;
    find_no_stranger(alloc, paths, &parts, &name.tld)?;
    let followed = followed_parts(rt, name, &parts, false)?;
    read_deposits(rt, paths, &followed)
}

/// Of the deposits whose parts these paths name, the chain that a deposit of this name follows: none where it follows none
/// of them.
pub fn read_chain(
    rt: &HostRuntime,
    paths: &[&str],
    name: &DepositName,
) -> Result<Option<Chain>, ProgramError> {
    let deposits = read_followed(rt, paths, name)?;
    if deposits.is_empty() {
        return Ok(None);
    }
    show_step(rt, "reading the keys");
    chain_of(rt.alloc(), name, &deposits)
}

/// Of the deposits whose parts these paths name, the latest and those that it follows, by day.
pub fn read_latest(rt: &HostRuntime, paths: &[&str]) -> Result<Vec<JoinedDeposit>, ProgramError> {
    let alloc = rt.alloc();
    let parts = part_files(alloc, paths)?;
    let Some(last) = parts.last() else {
        return Err(ProgramError::misused(alloc, "no part is named"));
    };
    let latest = first_name(&last.name);
    find_no_stranger(alloc, paths, &parts, &latest.tld)?;
    let followed = followed_parts(rt, &latest, &parts, true)?;
    if latest.kind == Kind::Incr {
        let parts = incremental_parts(rt, &latest, &followed)?;
        return read_deposits(rt, paths, &parts);
    }
    read_deposits(rt, paths, &followed)
}

/// The chain that a deposit of this name follows, of deposits in their order: none where there are none.
pub fn chain_of(
    alloc: Global,
    name: &DepositName,
    deposits: &[JoinedDeposit],
) -> Result<Option<Chain>, ProgramError> {
    match Chain::of(alloc, name, &named_deposits(alloc, deposits)?)? {
        Ok(chain) => Ok(Some(chain)),
        Err(ChainFault::Missing) => Ok(None),
        Err(ChainFault::Order) => {
            Err(ProgramError::misused(alloc, "these deposits do not follow one another"))
        }
        Err(ChainFault::Deposit(place)) => Err(broken_at(
            alloc,
            deposits.get(place).map(|deposit| deposit.name),
        )),
    }
}
