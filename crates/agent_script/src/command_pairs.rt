//! Two commands in one list, both of which one call does.
use crate::fault::ScriptFault;
use crate::files::Files;
use crate::orders::{compare, print_answer};
use crate::output::Printed;
use crate::plain_comparison::Plain;
use crate::steps::{Step, call_in};
use crate::vault::Vault;
use custody::Custody;
use sqlite::Alter;
use std::alloc::Global;
use std::io::Write;
use vault_volume::{MemVolume, Volume};

/// Does the two commands of a line in one list, and prints each answer.
pub fn run_list<S: Alter + Drop, W: Write>(
    alloc: Global,
    words: &str,
    files: &Files,
    vault: Vault<S>,
    plain: &mut Plain,
    out: &mut W,
) -> Result<Vault<S>, ScriptFault> {
    let (first, second) = words.split_once("; ").ok_or(ScriptFault::Line)?;
    let first = call_in(alloc, first, files)?;
    let second = call_in(alloc, second, files)?;
    match vault.open(alloc)? {
        Ok(custody) => run_on(alloc, &first, &second, custody, plain, out),
        Err((fault, volume, db)) => {
            writeln!(out, "{fault}")?;
            Ok(Vault::Closed(volume, db))
        }
    }
}

fn run_on<S: Alter + Drop, W: Write>(
    alloc: Global,
    first: &Step<'_>,
    second: &Step<'_>,
    custody: Custody<MemVolume, S>,
    plain: &mut Plain,
    out: &mut W,
) -> Result<Vault<S>, ScriptFault> {
    let mut custody = custody;
    print_run(alloc, first, second, &mut custody, plain, out)?;
    Ok(Vault::Open(custody))
}

fn print_run<V: Volume, S: Alter, W: Write>(
    alloc: Global,
    first: &Step<'_>,
    second: &Step<'_>,
    custody: &mut Custody<V, S>,
    plain: &mut Plain,
    out: &mut W,
) -> Result<(), ScriptFault> {
    let Some(first) = first.command(alloc) else {
        return Err(ScriptFault::Line);
    };
    let Some(second) = second.command(alloc) else {
        return Err(ScriptFault::Line);
    };
    let commands = [first, second];
    let answers = custody.run(alloc, &commands)?;
    for (answer, (command, now)) in answers.iter().zip(&commands) {
        let mut printed = Printed::new(alloc)?;
        print_answer(alloc, answer, command, *now, plain, &mut printed)?;
        printed.show(out)?;
    }
    let mut printed = Printed::new(alloc)?;
    compare(custody, plain, &mut printed)?;
    printed.show(out)?;
    Ok(())
}
