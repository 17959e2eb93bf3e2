//! Restoring the tables of a registry from its deposits.
ghost use Rattle.std.specs.Prelude.{IfOk};
ghost use Rattle.deposit_verify.specs.Tables.{AreAllTables};

use crate::checking::print_check;
use crate::deposits::{JoinedDeposit, broken_at, chain_of, joined_bytes, read_latest};
use crate::errors::ProgramError;
use crate::files::{NewFile, make_files};
use crate::steps::{clear_step, show_step};
use deposit_name::{DepositName, Kind, TableName};
use deposit_pack::Chain;
use deposit_tables::restore;
use deposit_verify::{MissingKeyText, missing_key, wanted_table};
use dnrd_csv::{Rows, column_names};
use std::alloc::Global;

// The text of a table's file, and how many rows it has.
#[derive(Drop)]
struct TableText {
    name: TableName,
    rows: usize,
    text: Vec<u8>,
}

// The chain of some deposits, which the one of this name follows, where `chain` is that of all but the last.
fn chain_before(
    alloc: Global,
    before: &[JoinedDeposit],
    name: &DepositName,
    chain: Option<Chain>,
) -> Result<Option<Chain>, ProgramError> {
    if let (Some(last), Some(mut chain)) = (before.last(), chain) {
        if chain.then(alloc, &last.named())? {
            return Ok(Some(chain));
        }
    }
    chain_of(alloc, name, before)
}

// Prints what an agent said of each deposit after those before it, up to the first that does not pass, and answers whether
// all pass.
fn print_checks(rt: &HostRuntime, deposits: &[JoinedDeposit]) -> Result<bool, ProgramError> {
    let alloc = rt.alloc();
    let mut chain = None;
    for (place, deposit) in deposits.iter().enumerate() {
        let before = &deposits[..place];
        let all = chain_before(alloc, before, &deposit.name, chain)?;
        let (passes, same) = match deposit.name.kind {
            // It adds to the keys of the full deposit alone.
            Kind::Incr => {
                let own = chain_of(alloc, &deposit.name, before)?;
                let (passes, _) = print_check(rt, deposit, own)?;
                (passes, all)
            }
            Kind::Full | Kind::Diff => print_check(rt, deposit, all)?,
        };
        if !passes {
            return Ok(false);
        }
        chain = same;
    }
    Ok(true)
}

fn restored(alloc: Global, deposits: Vec<JoinedDeposit>) -> Result<Vec<Rows>, ProgramError>
    ensures { IfOk result (λ tables. AreAllTables tables.items) }
{
    let first = deposits.first().map(|deposit| deposit.name);
    match restore(alloc, joined_bytes(alloc, deposits)?)? {
        Some(tables) => Ok(tables),
        None => Err(broken_at(alloc, first)),
    }
}

// The names of a table's columns, as a row.
fn header_of(alloc: Global, name: TableName) -> Result<Vec<u8>, ProgramError> {
    let mut text = Vec::new(alloc);
    for (i, column) in column_names(name).iter().enumerate() {
        if i > 0 {
            text.push(b',')?;
        }
        text.extend_from_slice(column.as_bytes())?;
    }
    text.push(b'\n')?;
    Ok(text)
}

fn table_texts(
    alloc: Global,
    tables: &[Rows],
    has_headers: bool,
) -> Result<Vec<TableText>, ProgramError> {
    let mut texts = Vec::with_capacity(alloc, tables.len())?;
    for (place, table) in tables.iter().enumerate() {
        let Some(name) = wanted_table(place) else {
            break;
        };
        let mut text = if has_headers {
            header_of(alloc, name)?
        } else {
            Vec::new(alloc)
        };
        table.write(&mut text)?;
        let rows = table.len();
        texts.push(TableText { name, rows, text })?;
    }
    Ok(texts)
}

fn new_files<'t>(
    alloc: Global,
    folder: &str,
    texts: &'t [TableText],
) -> Result<Vec<NewFile<'t>>, ProgramError> {
    let mut files = Vec::with_capacity(alloc, texts.len())?;
    for table in texts {
        let path = format!(in alloc; "{folder}/{}.csv", table.name)?;
        let bytes = table.text.as_slice();
        files.push(NewFile { path, bytes })?;
    }
    Ok(files)
}

// Prints the tables and the files, and the first row that names an object which is not there.
fn print_restored(
    rt: &HostRuntime,
    texts: &[TableText],
    files: &[NewFile<'_>],
) -> std::io::Result<()> {
    for table in texts {
        println!(rt; "{} {}", table.name, table.rows)?;
    }
    for file in files {
        println!(rt; "{} {}", file.path, file.bytes.len())?;
    }
    Ok(())
}

/// Writes the tables of a registry after the latest of the deposits whose parts these are, and those that it follows, into a
/// folder, if all of them pass; and answers whether they do.
pub fn restore_files(
    rt: &HostRuntime,
    paths: &[&str],
    folder: &str,
    has_headers: bool,
) -> Result<bool, ProgramError> {
    let alloc = rt.alloc();
    let deposits = read_latest(rt, paths)?;
    if !print_checks(rt, &deposits)? {
        return Ok(false);
    }
    show_step(rt, "restoring");
    let tables = restored(alloc, deposits)?;
    let missing = missing_key(alloc, &tables)?;
    let texts = table_texts(alloc, &tables, has_headers)?;
    let files = new_files(alloc, folder, &texts)?;
    make_files(rt, &[folder], &files)?;
    clear_step(rt);
    if let Some(missing) = missing {
        let _ = eprintln!(rt; "note: {}.csv{}", missing.table, MissingKeyText(&missing));
    }
    match print_restored(rt, &texts, &files) {
        Ok(()) => Ok(true),
        Err(_) => Err(ProgramError::Output),
    }
}
