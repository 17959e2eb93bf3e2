//! Texts of tables, of deleted keys and of envelopes.
use crate::envelope_texts::{EDITS, SPELLED, reads_back, reads_edited};
use crate::table_texts::{DELETES, TABLES, count_keys, count_rows};
use std::alloc::Global;
use std::io;

fn print_tables(rt: &HostRuntime, alloc: Global) -> io::Result<()> {
    for (name, text) in TABLES {
        let shown = text.escape_ascii();
        match count_rows(alloc, name, text) {
            Ok(Some(rows)) => println!(rt; "{name} `{shown}`: read and written, {rows} rows")?,
            Ok(None) => println!(rt; "{name} `{shown}`: written as another text")?,
            Err(fault) => println!(rt; "{name} `{shown}`: {fault}")?,
        }
    }
    Ok(())
}

fn print_deletes(rt: &HostRuntime, alloc: Global) -> io::Result<()> {
    for text in DELETES {
        let shown = text.escape_ascii();
        match count_keys(alloc, text) {
            Ok(keys) => println!(rt; "deleted hosts `{shown}`: read, {keys} keys")?,
            Err(fault) => println!(rt; "deleted hosts `{shown}`: {fault}")?,
        }
    }
    Ok(())
}

fn print_spelled(rt: &HostRuntime, alloc: Global) -> io::Result<()> {
    for text in SPELLED {
        match reads_back(alloc, text) {
            Ok(true) => println!(rt; "envelope of {} bytes: read and written", text.len())?,
            Ok(false) => println!(rt; "envelope of {} bytes: written as another text", text.len())?,
            Err(fault) => println!(rt; "envelope of {} bytes: {fault}", text.len())?,
        }
    }
    Ok(())
}

fn print_edited(rt: &HostRuntime, alloc: Global) -> io::Result<()> {
    for (old, new) in EDITS {
        match reads_edited(alloc, old, new) {
            Ok(_) => println!(rt; "envelope with {new:?} for {old:?}: read")?,
            Err(fault) => println!(rt; "envelope with {new:?} for {old:?}: {fault}")?,
        }
    }
    Ok(())
}

/// Reads each text, and prints the answer to it in a line.
pub fn print_answers(rt: &HostRuntime) -> io::Result<()> {
    let alloc = rt.alloc();
    print_tables(rt, alloc)?;
    print_deletes(rt, alloc)?;
    print_spelled(rt, alloc)?;
    print_edited(rt, alloc)
}
