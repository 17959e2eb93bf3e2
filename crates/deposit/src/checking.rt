//! Checking a deposit as an agent does.
use crate::deposits::{JoinedDeposit, read_chain, read_deposit};
use crate::errors::ProgramError;
use crate::steps::{clear_step, show_step};
use deposit_name::{DepositId, Kind};
use deposit_pack::{Chain, TableFile, check, unpack};
use deposit_verify::{FoundEnvelope, Reason, find_envelope};
use dnrd_csv::{read_keys, read_table};
use envelope::type_text;
use std::alloc::Global;
use std::io;

// What is left out without the deposits before it.
fn left_out(kind: Kind, has_chain: bool) -> &'static str {
    match (kind, has_chain) {
        (_, true) => "",
        (Kind::Full, false) => ", without check 7",
        (_, false) => ", without checks 6, 7 and 11",
    }
}

// The id of a deposit that has passed.
fn id_of(alloc: Global, deposit: &JoinedDeposit) -> Option<DepositId> {
    let FoundEnvelope { envelope, .. } = find_envelope(alloc, &deposit.bytes).ok()?.ok()?;
    Some(envelope.id)
}

fn output(printed: io::Result<()>) -> Result<(), ProgramError> {
    match printed {
        Ok(()) => Ok(()),
        Err(_) => Err(ProgramError::Output),
    }
}

// Prints each table of a deposit that passes with the number of its rows.
fn print_tables(rt: &HostRuntime, files: &[TableFile<'_>]) -> Result<(), ProgramError> {
    for TableFile { name, text } in files {
        let Ok(table) = read_table(rt.alloc(), *name, text) else {
            return Err(ProgramError::Memory);
        };
        output(println!(rt; "{name} {}", table.rows.len()))?;
    }
    Ok(())
}

fn print_deletes(rt: &HostRuntime, files: &[TableFile<'_>]) -> Result<(), ProgramError> {
    for TableFile { name, text } in files {
        if !name.has_deletes() {
            continue;
        }
        let Ok(keys) = read_keys(rt.alloc(), *name, text) else {
            return Err(ProgramError::Memory);
        };
        output(println!(rt; "deletes/{name} {}", keys.len()))?;
    }
    Ok(())
}

/// Prints how many rows each table of a deposit that passes has, and how many keys it deletes.
pub fn print_rows(rt: &HostRuntime, joined: &[u8]) -> Result<(), ProgramError> {
    let Ok(files) = unpack(rt.alloc(), joined)? else {
        return Err(ProgramError::Memory);
    };
    print_tables(rt, &files.contents)?;
    print_deletes(rt, &files.deletes)
}

// Prints that a deposit passes, and its tables.
fn print_pass(
    rt: &HostRuntime,
    deposit: &JoinedDeposit,
    has_chain: bool,
) -> Result<(), ProgramError> {
    let Some(id) = id_of(rt.alloc(), deposit) else {
        return Err(ProgramError::Memory);
    };
    let kind = deposit.name.kind;
    let day = deposit.name.day;
    output(println!(rt;
        "PASS {} {id} {day}{}",
        type_text(kind),
        left_out(kind, has_chain)
    ))?;
    print_rows(rt, &deposit.bytes)
}

/// Prints what an agent would say of a deposit after a chain, and answers whether it passes; and the chain again.
pub fn print_check(
    rt: &HostRuntime,
    deposit: &JoinedDeposit,
    chain: Option<Chain>,
) -> Result<(bool, Option<Chain>), ProgramError> {
    let has_chain = chain.is_some();
    show_step(rt, "checking");
    let (found, chain) = check(rt.alloc(), &deposit.name, &deposit.bytes, chain)?;
    clear_step(rt);
    match found {
        None => {
            print_pass(rt, deposit, has_chain)?;
            Ok((true, chain))
        }
        Some(reason) => {
            output(println!(rt; "FAILURE-{:02} {reason}", reason.check().number()))?;
            Ok((false, chain))
        }
    }
}

/// Checks the deposit whose parts these are, after the deposits whose parts those are. It answers whether it passes.
pub fn check_files(rt: &HostRuntime, files: &[&str], after: &[&str]) -> Result<bool, ProgramError> {
    let deposit = read_deposit(rt, files)?;
    let chain = read_chain(rt, after, &deposit.name)?;
    let (passes, _) = print_check(rt, &deposit, chain)?;
    Ok(passes)
}
