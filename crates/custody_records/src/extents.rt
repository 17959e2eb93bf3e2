//! Extents as bytes: start and count of each as four bytes each, the greatest first.
ghost use Rattle.std.specs.Prelude.{◌≡◌, ◌≤◌, ◌<◌, ◌*◌, ◌==◌, if◌then◌else◌, [], ◌∷◌, length, option_map, IfNone, IfSome, MatchResult};
ghost use Rattle.arrayvec.specs.ArrayVec.{array_vec_len};
ghost use Rattle.custody_records.specs.Form.{extents_in, blob_extents};
ghost use Rattle.custody_records.specs.RowsOfRecords.{blob_of};
ghost use Rattle.custody_records.specs.declared.errors.RowError.TheVariants.{OutOfForm};

use crate::RowError;
use arrayvec::ArrayVec;
use deposit_name::append;
use extent_map::Extent;
use std::alloc::Global;

/// The extents of a blob: none where there is no blob, else one or more.
pub(crate) fn read_extents(
    alloc: Global,
    blob: Option<&[u8]>,
) -> Result<Option<Vec<Extent>>, RowError>
    ensures { MatchResult result (λ found. extents_in (option_map (λ b. b.now) blob.entry) ≡ Some (option_map (λ v. v.items) found))
        (λ e. e ≡ OutOfForm → extents_in (option_map (λ b. b.now) blob.entry) ≡ None) }
{
    match blob {
        None => Ok(None),
        Some([]) => Err(RowError::OutOfForm),
        Some(bytes) => Ok(Some(read_blob(alloc, bytes)?)),
    }
}

fn read_blob(alloc: Global, bytes: &[u8]) -> Result<Vec<Extent>, RowError>
    ensures { MatchResult result (λ v. blob_extents bytes.now ≡ Some v.items) (λ e. e ≡ OutOfForm → blob_extents bytes.now ≡ None) }
{
    let mut extents = Vec::new(alloc);
    let mut rest = bytes;
    while let Some((extent, more)) = first_extent(rest) {
        extents.push(extent)?;
        rest = more;
    }
    if rest.is_empty() {
        Ok(extents)
    } else {
        Err(RowError::OutOfForm)
    }
}

/// The extent of the first eight bytes, and the bytes after them.
fn first_extent(bytes: &[u8]) -> Option<(Extent, &[u8])>
    ensures short { IfNone result (blob_extents bytes.now ≡ (if length bytes.now == 0 then Some [] else None)) }
    ensures first { IfSome result (λ p. blob_extents bytes.now ≡ option_map (λ more. p.0 ∷ more) (blob_extents p.1.now)) }
    ensures shorter { IfSome result (λ p. length p.1.now < length bytes.now) }
{
    if bytes.len() < 8 {
        return None;
    }
    let extent = Extent {
        start: u32::from_be_bytes([bytes[0], bytes[1], bytes[2], bytes[3]]),
        count: u32::from_be_bytes([bytes[4], bytes[5], bytes[6], bytes[7]]),
    };
    Some((extent, &bytes[8..]))
}

/// The extents of a part, of which there are at most 256, as the bytes of a blob.
pub fn write_blob(extents: &[Extent]) -> ArrayVec<u8, 2048>
    requires { length extents.now ≤ 256 }
    ensures bytes { result.items ≡ blob_of extents.now }
    ensures len { array_vec_len result ≡ 8 * length extents.now }
{
    let mut blob = ArrayVec::new();
    for extent in extents {
        append(&mut blob, &extent.start.to_be_bytes());
        append(&mut blob, &extent.count.to_be_bytes());
    }
    blob
}
