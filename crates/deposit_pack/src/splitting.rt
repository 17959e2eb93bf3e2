//! Splitting a deposit into parts.
ghost use Rattle.std.specs.Prelude.{◌≡◌, ◌<◌, ◌*◌, IfOk, MatchOption, drop, length, take};
ghost use Rattle.deposit_pack.specs.Parts.{ArePartsOf, FitsInParts, part_length_max, part_name};

use deposit_name::DepositName;
use std::alloc::{AllocError, Global};

/// The most bytes of a part: 1 MiB.
pub const PART_LENGTH_MAX: usize = 1_048_576;

const PARTS_MAX: usize = 8;

/// In bytes.
pub(crate) const DEPOSIT_LENGTH_MAX: usize = PARTS_MAX * PART_LENGTH_MAX;

/// A part of a deposit.
#[derive(Clone, Copy, Debug)]
pub struct Part<'d> {
    pub name: DepositName,
    /// 1 to 1,048,576.
    pub bytes: &'d [u8],
}

// The part at a place.
fn part_at<'d>(name: &DepositName, deposit: &'d [u8], place: usize) -> Part<'d>
    requires { (place < 8) × (place * part_length_max < length deposit.now) }
    ensures name { result.name ≡ part_name name.now place }
    ensures bytes { result.bytes.now ≡ take part_length_max (drop (place * part_length_max) deposit.now) }
{
    let rest = &deposit[place * PART_LENGTH_MAX..];
    let mut name = *name;
    name.part = place as u8 + 1;
    Part {
        name,
        bytes: &rest[..PART_LENGTH_MAX.min(rest.len())],
    }
}

/// Splits a deposit into parts, as few as hold it, each under its name. `None` where eight do not hold it.
///
/// # Errors
///
/// Want of memory, and nothing else.
pub fn split<'d>(
    alloc: Global,
    name: &DepositName,
    deposit: &'d [u8],
) -> Result<Option<Vec<Part<'d>>>, AllocError>
    ensures { IfOk result (λ parts. MatchOption parts (¬ FitsInParts deposit.now) (λ parts. ArePartsOf name.now deposit.now parts.items)) }
{
    let count = deposit.len().div_ceil(PART_LENGTH_MAX);
    if count > PARTS_MAX {
        return Ok(None);
    }
    let mut parts = Vec::with_capacity(alloc, count)?;
    for place in 0..count {
        parts.push_reserved(part_at(name, deposit, place));
    }
    Ok(Some(parts))
}
