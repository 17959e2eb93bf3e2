//! Unpacking a deposit.
ghost use Rattle.std.specs.Prelude.{◌≡◌, ◌++◌, IfOk, MatchResult, length, map};
ghost use Rattle.dnrd_csv.specs.inside.RowKeys.{borrowed_texts};
ghost use Rattle.envelope.specs.Envelope.{env_of};
ghost use Rattle.deposit_verify.specs.Deposit.{all_entries, deletes_of};
ghost use Rattle.deposit_pack.specs.Unpacking.{IsUnpacked, IsUnpackReason, MayUnpack, file_names, file_texts};

use crate::source::TableFile;
use deposit_verify::{
    FoundEnvelope, HeaderReason, ReadFault, Reason, envelope_files, find_envelope, menu_reason,
};
use envelope::{Envelope, FileEntry, law_one_reading};
use std::alloc::{AllocError, Global};

/// The files of a deposit, as its envelope lists them.
#[derive(Debug, Drop)]
pub struct Unpacked<'d> {
    /// The text of its envelope, in JSON.
    pub envelope: &'d [u8],
    pub contents: Vec<TableFile<'d>>,
    /// Empty where it is full.
    pub deletes: Vec<TableFile<'d>>,
}

// Files, each under the name of its entry.
fn named_files<'d>(
    alloc: Global,
    entries: &[FileEntry],
    files: &[&'d [u8]],
) -> Result<Vec<TableFile<'d>>, AllocError>
    requires { length entries.now ≡ length files.now }
    ensures names { IfOk result (λ named. file_names named.items ≡ map (λ entry. entry.name) entries.now) }
    ensures texts { IfOk result (λ named. file_texts named.items ≡ borrowed_texts files.now) }
{
    let mut named = Vec::with_capacity(alloc, entries.len())?;
    for (entry, text) in entries.iter().zip(files) {
        let name = entry.name;
        named.push(TableFile { name, text })?;
    }
    Ok(named)
}

// The files of an envelope.
fn files_of<'d>(
    alloc: Global,
    text: &'d [u8],
    envelope: &Envelope,
    files: &[&'d [u8]],
) -> Result<Unpacked<'d>, AllocError>
    requires { length files.now ≡ length (all_entries (env_of envelope.now)) }
    ensures envelope { IfOk result (λ unpacked. unpacked.envelope.now ≡ text.now) }
    ensures texts { IfOk result (λ unpacked. file_texts unpacked.contents.items ++ file_texts unpacked.deletes.items ≡ borrowed_texts files.now) }
    ensures contents { IfOk result (λ unpacked. file_names unpacked.contents.items ≡ map (λ entry. entry.name) (env_of envelope.now).contents) }
    ensures deletes { IfOk result (λ unpacked. file_names unpacked.deletes.items ≡ map (λ entry. entry.name) (deletes_of (env_of envelope.now))) }
{
    let (contents, deletes) = files.split_at(envelope.contents.len());
    let deleted: &[FileEntry] = match &envelope.deletes {
        Some(entries) => entries,
        None => &[],
    };
    Ok(Unpacked {
        envelope: text,
        contents: named_files(alloc, &envelope.contents, contents)?,
        deletes: named_files(alloc, deleted, deletes)?,
    })
}

/// Unpacks a deposit: its parts, joined in order. It looks at its frame, its envelope, its menu, and the lengths and
/// digests of its files, but not at their tables.
///
/// # Errors
///
/// Want of memory, and nothing else; within, why one of these checks fails.
pub fn unpack(alloc: Global, joined: &[u8]) -> Result<Result<Unpacked<'_>, Reason>, AllocError>
    ensures unpacked { IfOk result (λ r. MatchResult r (IsUnpacked joined.now) (λ _. ¬ MayUnpack joined.now)) }
    ensures reason { IfOk result (λ r. MatchResult r (λ _. MayUnpack joined.now) (IsUnpackReason joined.now)) }
{
    law_one_reading();
    let FoundEnvelope {
        text,
        envelope,
        rest,
    } = match find_envelope(alloc, joined)? {
        Ok(found) => found,
        Err(reason) => return Ok(Err(reason)),
    };
    if let Some(reason) = menu_reason(&envelope) {
        return Ok(Err(Reason::Header(HeaderReason::Menu(reason))));
    }
    match envelope_files(alloc, &envelope, rest)? {
        Ok(files) => Ok(Ok(files_of(alloc, text, &envelope, &files)?)),
        Err(reason) => Ok(Err(Reason::Read(ReadFault::Files(reason)))),
    }
}
