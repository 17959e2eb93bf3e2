//! An example: its lines in their order.
use crate::fault::ScriptFault;
use crate::files::Files;
use crate::orders::{Way, order};
use crate::plain_comparison::Plain;
use crate::script_actions::deed;
use crate::vault::Vault;
use sqlite::{Alter, Connection};
use std::alloc::Global;
use std::io::Write;
use vault_volume::MemVolume;

/// Plays lines of an example. After `$` stand the words of a call of `escrow`, after `!` what else is
/// done, and any other line is a comment.
pub fn play<S: Alter + Drop, W: Write>(
    alloc: Global,
    lines: &str,
    files: &mut Files,
    vault: Vault<S>,
    plain: &mut Plain,
    out: &mut W,
) -> Result<Vault<S>, ScriptFault> {
    let mut vault = vault;
    for line in lines.lines() {
        writeln!(out, "{line}")?;
        vault = match line.split_once(' ') {
            Some(("$", words)) => order(alloc, Way::Program, words, files, vault, plain, out)?,
            Some(("!", words)) => deed(alloc, words, files, vault, plain, out)?,
            _ => vault,
        };
    }
    Ok(vault)
}

/// Plays lines of an example over what a closed vault holds, and closes it.
pub fn play_closed<S: Alter + Drop, W: Write>(
    alloc: Global,
    lines: &str,
    files: &mut Files,
    volume: MemVolume,
    db: Connection<S>,
    plain: &mut Plain,
    out: &mut W,
) -> Result<(MemVolume, Connection<S>), ScriptFault> {
    let vault = play(alloc, lines, files, Vault::Closed(volume, db), plain, out)?;
    Ok(vault.close())
}
