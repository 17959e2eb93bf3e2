//! The files behind an envelope.
ghost use Rattle.std.specs.Prelude.{◌≡◌, ◌<◌, ◌^◌, ℕ, List, IfErr, IfOk, MatchResult, length};
ghost use Rattle.dnrd_csv.specs.inside.RowKeys.{borrowed_texts};
ghost use Rattle.envelope.specs.Envelope.{env_of};
ghost use Rattle.deposit_verify.specs.Deposit.{AreFiles, all_entries};
ghost use Rattle.deposit_verify.specs.FilesReasons.{IsOtherDigest, total_length};

use envelope::{Envelope, FileEntry};
use sha2::{Digest, Sha256};
use std::alloc::{AllocError, Global};

/// The entries of all files, in the order in which the files stand.
pub fn all_entries(alloc: Global, envelope: &Envelope) -> Result<Vec<FileEntry>, AllocError>
    ensures { IfOk result (λ entries. entries.items ≡ all_entries (env_of envelope.now)) }
{
    let mut entries = Vec::new(alloc);
    entries.extend_from_slice(&envelope.contents)?;
    if let Some(deletes) = &envelope.deletes {
        entries.extend_from_slice(deletes)?;
    }
    Ok(entries)
}

/// How many bytes the files of entries have.
pub fn total_length(entries: &[FileEntry]) -> usize
    requires { total_length entries.now < 2 ^ 64 }
    ensures { result ≡ total_length entries.now }
{
    entries.iter().map(|entry| entry.length as usize).sum()
}

/// A file that has not the digest of its entry: its place among all files, its entry, and its digest.
#[derive(Clone, Copy)]
pub struct OtherDigest {
    pub place: usize,
    pub entry: FileEntry,
    pub found: [u8; 32],
}

/// Cuts bytes into files, each with the length and the digest of its entry, or tells the first with another digest.
pub fn cut_files<'d>(
    alloc: Global,
    entries: &[FileEntry],
    bytes: &'d [u8],
) -> Result<Result<Vec<&'d [u8]>, OtherDigest>, AllocError>
    requires { total_length entries.now ≡ length bytes.now }
    ensures cut { IfOk result (λ cut. MatchResult cut
        (λ files. AreFiles entries.now bytes.now (borrowed_texts files.items))
        (λ _. (files : List (List ℕ)) → ¬ AreFiles entries.now bytes.now files)) }
    ensures place { IfOk result (λ cut. IfErr cut
        (λ other. IsOtherDigest entries.now bytes.now other.place other.entry other.found)) }
{
    let mut files = Vec::with_capacity(alloc, entries.len())?;
    let mut rest = bytes;
    for (place, entry) in entries.iter().enumerate() {
        let (file, more) = rest.split_at(entry.length as usize);
        let found = Sha256::digest(file);
        if found != entry.sha256 {
            let entry = *entry;
            return Ok(Err(OtherDigest {
                place,
                entry,
                found,
            }));
        }
        files.push(file)?;
        rest = more;
    }
    Ok(Ok(files))
}
