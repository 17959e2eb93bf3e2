//! The program `deposit`: packs, checks and unpacks escrow deposits of registries.
#![tactic(auto)]

mod checking;
mod deposits;
mod errors;
mod faults;
mod files;
mod lined_rows;
mod packing;
mod restoring;
mod steps;
mod unpacking;
mod words;

use checking::check_files;
use clap::ArgMatches;
use errors::ProgramError;
use packing::pack_tables;
use restoring::restore_files;
use std::env;
use std::io::ErrorKind;
use std::process::ExitCode;
use steps::clear_step;
use unpacking::unpack_files;
use words::{matches_of, pack_order, text_in, texts_in};

// Does what the words of a call ask for. It answers whether the deposit passes.
fn obey(rt: &HostRuntime, matches: &ArgMatches<'_>) -> Result<bool, ProgramError> {
    match matches.subcommand() {
        Some(("pack", inner)) => {
            let order = pack_order(rt.alloc(), inner)?;
            pack_tables(rt, &order, texts_in(inner, "after"))?;
            Ok(true)
        }
        Some(("unpack", inner)) => {
            unpack_files(rt, texts_in(inner, "FILE"), text_in(inner, "out"))
        }
        Some(("restore", inner)) => restore_files(
            rt,
            texts_in(inner, "FILE"),
            text_in(inner, "out"),
            inner.get_flag("header"),
        ),
        Some((_, inner)) => check_files(rt, texts_in(inner, "FILE"), texts_in(inner, "after")),
        None => Ok(false),
    }
}

fn call(rt: &HostRuntime, words: &[String]) -> Result<bool, ProgramError> {
    let matches = matches_of(rt.alloc(), words)?;
    obey(rt, &matches)
}

// Does what the words that the program was started with ask for.
fn run(rt: &HostRuntime) -> Result<bool, ProgramError> {
    let alloc = rt.alloc();
    let words = match env::args(rt) {
        Ok(words) => words.collect::<Vec<String>>(alloc)?,
        Err(error) if error.kind() == ErrorKind::OutOfMemory => return Err(ProgramError::Memory),
        Err(error) => return Err(ProgramError::misused(alloc, error)),
    };
    call(rt, words.as_slice())
}

// Prints the line of an error, and answers the status.
fn tell(rt: &HostRuntime, error: &ProgramError) -> u8 {
    clear_step(rt);
    let printed = match error {
        ProgramError::Words(error) => error.print(rt),
        ProgramError::Misused(line) | ProgramError::Refused(line) | ProgramError::File(line) => {
            eprintln!(rt; "{line}")
        }
        ProgramError::Output => eprintln!(rt; "output failed"),
        ProgramError::Memory => eprintln!(rt; "no memory"),
    };
    match printed {
        Ok(()) => error.status(),
        Err(_) => 3,
    }
}

fn main(rt: HostRuntime) -> ExitCode {
    ExitCode::from(match run(&rt) {
        Ok(true) => 0,
        Ok(false) => 1,
        Err(error) => tell(&rt, &error),
    })
}
