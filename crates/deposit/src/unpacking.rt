//! Unpacking a deposit into a folder.
use crate::checking::print_check;
use crate::deposits::read_deposit;
use crate::errors::ProgramError;
use crate::files::{NewFile, make_files};
use crate::steps::clear_step;
use deposit_pack::{TableFile, Unpacked, unpack};
use std::alloc::Global;

fn add_files<'d>(
    alloc: Global,
    folder: &str,
    tables: &[TableFile<'d>],
    files: &mut Vec<NewFile<'d>>,
) -> Result<(), ProgramError> {
    for table in tables {
        let path = format!(in alloc; "{folder}/{}.csv", table.name)?;
        let bytes = table.text;
        files.push(NewFile { path, bytes })?;
    }
    Ok(())
}

// The files of a deposit, with the text of its envelope.
fn new_files<'d>(
    alloc: Global,
    folder: &str,
    deletes: &str,
    unpacked: &Unpacked<'d>,
) -> Result<Vec<NewFile<'d>>, ProgramError> {
    let mut files = Vec::new(alloc);
    add_files(alloc, folder, &unpacked.contents, &mut files)?;
    add_files(alloc, deletes, &unpacked.deletes, &mut files)?;
    let path = format!(in alloc; "{folder}/envelope.json")?;
    let bytes = unpacked.envelope;
    files.push(NewFile { path, bytes })?;
    Ok(files)
}

fn print_files(rt: &HostRuntime, files: &[NewFile<'_>]) -> Result<(), ProgramError> {
    for file in files {
        if println!(rt; "{} {}", file.path, file.bytes.len()).is_err() {
            return Err(ProgramError::Output);
        }
    }
    Ok(())
}

/// Writes the files of the deposit whose parts these are, if frame, envelope and digests are right, and answers whether it
/// passes.
pub fn unpack_files(rt: &HostRuntime, paths: &[&str], folder: &str) -> Result<bool, ProgramError> {
    let alloc = rt.alloc();
    let deposit = read_deposit(rt, paths)?;
    let (passes, _) = print_check(rt, &deposit, None)?;
    let Ok(unpacked) = unpack(alloc, &deposit.bytes)? else {
        return Ok(false);
    };
    let deletes = format!(in alloc; "{folder}/deletes")?;
    let files = new_files(alloc, folder, &deletes, &unpacked)?;
    let folders = [folder, deletes.as_str()];
    let count = if unpacked.deletes.is_empty() { 1 } else { 2 };
    make_files(rt, &folders[..count], &files)?;
    clear_step(rt);
    print_files(rt, &files)?;
    Ok(passes)
}
