//! What a script does beside calls of `escrow`.
use crate::clients::serve_clients;
use crate::command_pairs::run_list;
use crate::fault::ScriptFault;
use crate::files::Files;
use crate::orders::{Way, check, order};
use crate::plain_comparison::Plain;
use crate::requests::request;
use crate::stopping::BLOCK;
use crate::vault::Vault;
use custody_records::{Part, Records};
use sqlite::{Alter, Connection};
use std::alloc::{AllocError, Global};
use std::io::{self, Write};
use vault_volume::{BLOCK_BYTES, MemVolume, Volume, write_head};

/// Does what the words of a line say.
pub fn deed<S: Alter + Drop, W: Write>(
    alloc: Global,
    words: &str,
    files: &mut Files,
    vault: Vault<S>,
    plain: &mut Plain,
    out: &mut W,
) -> Result<Vault<S>, ScriptFault> {
    let (verb, rest) = words.split_once(' ').unwrap_or((words, ""));
    match verb {
        "file" | "more" | "rows" | "lettered" => {
            name_file(alloc, verb, rest, files)?;
            Ok(vault)
        }
        "ask" => order(alloc, Way::Command, words, files, vault, plain, out),
        "run" => run_list(alloc, rest, files, vault, plain, out),
        "check" => check(alloc, Way::Command, rest, vault, plain, out),
        "insist" => insist(alloc, rest, files, vault, plain, out),
        "count" => count(alloc, rest, vault, out),
        "calls" => count_calls(vault, out),
        "block" => compare_block(rest, files, vault, out),
        "send" | "resend" | "break" | "breaks" | "cut" | "cuts" => {
            plain.leave();
            request(alloc, verb, rest, files, vault, out)
        }
        "clients" => {
            plain.leave();
            serve_clients(alloc, rest, vault, out)
        }
        "parts" => {
            show_parts(&vault, out)?;
            Ok(vault)
        }
        _ => change(alloc, verb, rest, vault, plain),
    }
}

/// A call or a check, which is done once more where memory is wanting.
fn insist<S: Alter + Drop, W: Write>(
    alloc: Global,
    words: &str,
    files: &Files,
    vault: Vault<S>,
    plain: &mut Plain,
    out: &mut W,
) -> Result<Vault<S>, ScriptFault> {
    match words.strip_prefix("check ") {
        Some(words) => check(alloc, Way::Twice, words, vault, plain, out),
        None => order(alloc, Way::Twice, words, files, vault, plain, out),
    }
}

fn name_file(alloc: Global, verb: &str, words: &str, files: &mut Files) -> Result<(), ScriptFault> {
    let (name, rest) = words.split_once(' ').unwrap_or((words, ""));
    match verb {
        "file" => files.add_text(alloc, name, rest)?,
        "more" => files.lengthen(words)?,
        "rows" => add_rows(alloc, name, rest, files)?,
        _ => files.add_lettered(alloc, name, number_in(rest)? as usize)?,
    }
    Ok(())
}

/// More rows of a file. The words are the first and the last number, and the text of a row.
fn add_rows(alloc: Global, first: &str, words: &str, files: &mut Files) -> Result<(), ScriptFault> {
    let (last, text) = words.split_once(' ').ok_or(ScriptFault::Line)?;
    files.add_rows(alloc, number_in(first)?..=number_in(last)?, text)?;
    Ok(())
}

/// Prints how many rows there are of which a text of SQL tells, from its `FROM` on.
fn count<S: Alter + Drop, W: Write>(
    alloc: Global,
    sql: &str,
    vault: Vault<S>,
    out: &mut W,
) -> Result<Vault<S>, ScriptFault> {
    let (volume, db) = vault.close();
    let mut db = db;
    writeln!(out, "{}", rows_in(alloc, sql, &mut db)?)?;
    Ok(Vault::Closed(volume, db))
}

fn rows_in<S: Alter>(alloc: Global, sql: &str, db: &mut Connection<S>) -> Result<i64, ScriptFault> {
    let sql = format!(in alloc; "SELECT count(*) {sql}")?;
    Ok(db.query_row(sql.as_str(), &[])?.get(0)?)
}

/// Closes a vault, and prints how many calls of its volume there were.
fn count_calls<S: Alter + Drop, W: Write>(
    vault: Vault<S>,
    out: &mut W,
) -> Result<Vault<S>, ScriptFault> {
    let (volume, db) = vault.close();
    writeln!(out, "{} calls", volume.calls())?;
    Ok(Vault::Closed(volume, db))
}

/// Closes a vault, and prints whether a block of its volume holds the first bytes of a file.
fn compare_block<S: Alter + Drop, W: Write>(
    words: &str,
    files: &Files,
    vault: Vault<S>,
    out: &mut W,
) -> Result<Vault<S>, ScriptFault> {
    let (number, name) = words.split_once(' ').ok_or(ScriptFault::Line)?;
    let (number, wanted) = (number_in(number)?, files.find(name)?.get(..BLOCK));
    let (volume, db) = vault.close();
    let held = volume.bytes().chunks(BLOCK).nth(number as usize);
    let text = if held.is_some() && held == wanted {
        "same"
    } else {
        "other"
    };
    writeln!(out, "{text}")?;
    Ok(Vault::Closed(volume, db))
}

fn number_in(word: &str) -> Result<u32, ScriptFault> {
    word.parse().ok().ok_or(ScriptFault::Line)
}

/// Closes a vault, and changes what it holds, or what its volume is to do.
fn change<S: Alter + Drop>(
    alloc: Global,
    verb: &str,
    rest: &str,
    vault: Vault<S>,
    plain: &mut Plain,
) -> Result<Vault<S>, ScriptFault> {
    let (mut volume, mut db) = vault.close();
    edit(alloc, verb, rest, &mut volume, &mut db, plain)?;
    Ok(Vault::Closed(volume, db))
}

fn edit<S: Alter>(
    alloc: Global,
    verb: &str,
    rest: &str,
    volume: &mut MemVolume,
    db: &mut Connection<S>,
    plain: &mut Plain,
) -> Result<(), ScriptFault> {
    match verb {
        "volume" | "disk" => {}
        "restart" => restart(alloc, rest, volume)?,
        "stop" => volume.stop_at(call_in(volume, rest)?),
        "fail" => volume.fail_at(vec![in alloc; call_in(volume, rest)?; 1]?),
        "flip" => {
            plain.leave();
            flip(volume, number_in(rest)?)?;
        }
        "head" => {
            plain.leave();
            rename(volume, number_in(rest)?)?;
        }
        "sql" => {
            plain.leave();
            db.execute_batch(rest)?;
        }
        _ => return Err(ScriptFault::Line),
    }
    Ok(())
}

/// The number of a call of the volume, where the next one is the first.
fn call_in(volume: &MemVolume, word: &str) -> Result<u64, ScriptFault> {
    let ahead = u64::from(number_in(word)?);
    Ok(
        (volume.calls() as u64)
            .saturating_add(ahead)
            .saturating_sub(1),
    )
}

/// The machine comes back after a stop, and open bytes hold those of a filling.
fn restart(alloc: Global, filling: &str, volume: &mut MemVolume) -> Result<(), ScriptFault> {
    let fill = fill_of(alloc, filling, volume.bytes())?;
    if fill.len() != BLOCK * volume.size() as usize {
        return Err(ScriptFault::Line);
    }
    volume.restart(&fill);
    Ok(())
}

/// The bytes of a filling. `read` are those that reads gave.
fn fill_of(alloc: Global, filling: &str, read: &[u8]) -> Result<Vec<u8>, AllocError> {
    let mut fill = Vec::with_capacity(alloc, read.len())?;
    for (at, byte) in read.iter().enumerate() {
        fill.push(byte_of(filling, at, *byte))?;
    }
    Ok(fill)
}

fn byte_of(filling: &str, at: usize, read: u8) -> u8 {
    match filling {
        "zeros" => 0,
        "ones" => 255,
        "pattern" => (at % 251) as u8,
        _ => read,
    }
}

/// Changes one bit of the volume.
fn flip(volume: &mut MemVolume, at: u32) -> Result<(), ScriptFault> {
    let old = volume.bytes().get(at as usize).copied();
    let old = old.ok_or(ScriptFault::Line)?;
    if u64::from(at) >= BLOCK_BYTES * u64::from(volume.size()) || volume.failures() > 99 {
        return Err(ScriptFault::Line);
    }
    let is_done = volume.write_at(u64::from(at), &[old ^ 1]).is_ok();
    settle(volume, is_done)
}

/// Writes a number into block 0.
fn rename(volume: &mut MemVolume, number: u32) -> Result<(), ScriptFault> {
    if volume.size() == 0 || volume.failures() > 99 {
        return Err(ScriptFault::Line);
    }
    let is_done = write_head(volume, u64::from(number)).is_ok();
    settle(volume, is_done)
}

fn settle(volume: &mut MemVolume, is_done: bool) -> Result<(), ScriptFault> {
    if is_done && volume.failures() < 99 && volume.sync().is_ok() {
        Ok(())
    } else {
        Err(ScriptFault::Line)
    }
}

/// Prints each part of an open vault with its digest and its extents.
fn show_parts<S: Alter + Drop, W: Write>(vault: &Vault<S>, out: &mut W) -> io::Result<()> {
    let Vault::Open(custody) = vault else {
        return writeln!(out, "closed");
    };
    match custody.records() {
        Ok(records) => show_all(records, out),
        Err(_) => writeln!(out, "closed"),
    }
}

fn show_all<W: Write>(records: &Records, out: &mut W) -> io::Result<()> {
    for part in records.parts() {
        show_part(part, out)?;
    }
    Ok(())
}

fn show_part<W: Write>(part: &Part, out: &mut W) -> io::Result<()> {
    write!(out, "{} ", part.name)?;
    for byte in &part.digest {
        write!(out, "{byte:02x}")?;
    }
    match &part.extents {
        Some(extents) => {
            for extent in extents {
                write!(out, " {}+{}", extent.start, extent.count)?;
            }
        }
        None => write!(out, " dropped")?,
    }
    writeln!(out)
}
