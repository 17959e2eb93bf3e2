//! Worked examples of the agent over memory: plays the script on standard input, and prints each of its
//! lines with what the agent answers.
#![tactic(auto)]

mod clients;
mod command_pairs;
mod cuts;
mod databases;
mod disk;
mod example;
mod fault;
mod files;
mod orders;
mod output;
mod places;
mod plain_comparison;
mod requests;
mod runs;
mod script_actions;
mod sessions;
mod steps;
mod stopping;
mod stopping_places;
mod vault;
mod wide_volume;

use cuts::play_cuts;
use disk::play_on_disk;
use example::play;
use fault::ScriptFault;
use files::Files;
use plain_comparison::Plain;
use sessions::show_sessions;
use sqlite::Connection;
use std::alloc::{AllocError, Global};
use std::io::{self, BufWriter, Write};
use std::process::ExitCode;
use stopping_places::play_everywhere;
use vault::Vault;
use vault_volume::MemVolume;
use wide_volume::show_sizes;

/// How many blocks the volume of an example has, where it names no number.
const BLOCKS: u32 = 8;

/// What a line begins with that gives a value of an example.
const EACH: &str = "! each ";

/// The number of blocks that the first deed of an example names.
fn blocks_of(example: &str) -> u32 {
    for line in example.lines() {
        if let Some(number) = line.strip_prefix("! volume ") {
            return number.parse().unwrap_or(BLOCKS);
        }
    }
    BLOCKS
}

/// The deed of the first line, if it is one.
fn kind_of(example: &str) -> &str {
    let line = example.lines().next().unwrap_or("");
    let words = line.strip_prefix("! ").unwrap_or("");
    words.split(' ').next().unwrap_or("")
}

/// Plays an example, most of them over a new volume and a new database.
fn play_anew<W: Write>(
    alloc: Global,
    example: &str,
    files: &mut Files,
    out: &mut W,
) -> Result<(), ScriptFault> {
    match kind_of(example) {
        "cuts_anew" => return play_cuts(alloc, example, files, out),
        "disk" => return play_on_disk(alloc, example, files, out),
        "stops" | "fails" => return play_everywhere(alloc, example, files, out),
        "sizes" => return show_sizes(alloc, out),
        "sessions" => return show_sessions(alloc, out),
        _ => {}
    }
    let volume = MemVolume::new(alloc, blocks_of(example), 400, 16)?;
    let vault = Vault::Closed(volume, Connection::open_in_memory(alloc)?);
    play(alloc, example, files, vault, &mut Plain::new(alloc), out)?;
    writeln!(out)?;
    Ok(())
}

/// Plays an example once for each of its lines `! each VALUE`, with that value where `%` stands, and
/// once as it is where it has none.
fn play_each<W: Write>(
    alloc: Global,
    example: &str,
    files: &mut Files,
    out: &mut W,
) -> Result<(), ScriptFault> {
    let lines = lines_of(alloc, example)?;
    let mut is_played = false;
    for line in example.lines() {
        if let Some(value) = line.strip_prefix(EACH) {
            let one = lines.replace(alloc, "%", value)?;
            play_anew(alloc, one.as_str(), files, out)?;
            is_played = true;
        }
    }
    if !is_played {
        play_anew(alloc, lines.as_str(), files, out)?;
    }
    Ok(())
}

/// The lines of an example but those of its values.
fn lines_of(alloc: Global, example: &str) -> Result<String, AllocError> {
    let mut lines = String::new(alloc);
    for line in example.lines() {
        if !line.starts_with(EACH) {
            lines.push_str(line)?;
            lines.push('\n')?;
        }
    }
    Ok(lines)
}

fn play_all<W: Write>(alloc: Global, script: &str, out: &mut W) -> Result<(), ScriptFault> {
    let mut files = Files::new(alloc);
    for example in script.split("\n\n") {
        play_each(alloc, example, &mut files, out)?;
    }
    out.flush()?;
    Ok(())
}

fn run(rt: &HostRuntime) -> Result<(), ScriptFault> {
    let script = io::read_to_string(rt.alloc(), rt.stdin())?;
    let mut out = BufWriter::new(rt.alloc(), io::writer(rt))?;
    play_all(rt.alloc(), script.as_str(), &mut out)
}

fn main(rt: HostRuntime) -> ExitCode {
    match run(&rt) {
        Ok(()) => ExitCode::SUCCESS,
        Err(fault) => {
            let _ = eprintln!(rt; "{fault}");
            ExitCode::FAILURE
        }
    }
}
