//! Packing the tables of a folder.
use crate::checking::print_rows;
use crate::deposits::{broken_at, chain_of, joined_bytes, read_chain, read_followed};
use crate::errors::ProgramError;
use crate::faults::refuse_faults;
use crate::files::{
    NewFile, is_folder, is_there, list_files, make_files, read_file, read_if_there,
};
use crate::steps::{clear_step, show_step};
use crate::words::PackOrder;
use deposit_name::{Kind, TableName};
use deposit_pack::{Attributes, Chain, PackError, Part, Source, TableFile, pack, split};
use deposit_tables::{WholeError, pack_whole};
use deposit_verify::wanted_table;
use std::alloc::Global;

// The folder of deleted keys within that of the tables.
const DELETES: &str = "deletes";

// A table's name, and the text of its file.
#[derive(Drop)]
struct TableText {
    name: TableName,
    text: Vec<u8>,
}

// Whether a name ends as that of a file of CSV, in any case.
fn is_csv(name: &str) -> bool {
    let bytes = name.as_bytes();
    let start = bytes.len().saturating_sub(4);
    bytes[start..].eq_ignore_ascii_case(b".csv")
}

fn is_table(name: &str) -> bool {
    match name.strip_suffix(".csv") {
        Some(table) => TableName::parse(table).is_some(),
        None => false,
    }
}

// Refuses files of CSV in a folder whose names are those of no table, and folders that are not read.
fn find_no_other(rt: &HostRuntime, folder: &str, inner: Option<&str>) -> Result<(), ProgramError> {
    let alloc = rt.alloc();
    for name in &list_files(rt, folder)? {
        let path = format!(in alloc; "{folder}/{name}")?;
        if is_table(name) || inner == Some(name.as_str()) {
            continue;
        }
        let cause = if is_csv(name) {
            "no table has this name"
        } else if is_folder(rt, &path) {
            "no folder of this name is read"
        } else {
            continue;
        };
        let line = format!(in alloc; "{path}: {cause}")?;
        return Err(ProgramError::misused(alloc, line));
    }
    Ok(())
}

// The tables of a folder: all eight, or those that are there. It may have one folder in it, of deleted keys.
fn read_tables(
    rt: &HostRuntime,
    folder: &str,
    inner: Option<&str>,
    all: bool,
) -> Result<Vec<TableText>, ProgramError> {
    let alloc = rt.alloc();
    find_no_other(rt, folder, inner)?;
    let mut tables = Vec::new(alloc);
    for place in 0..8 {
        let Some(name) = wanted_table(place) else {
            break;
        };
        let path = format!(in alloc; "{folder}/{name}.csv")?;
        if all {
            let text = read_file(rt, &path)?;
            tables.push(TableText { name, text })?;
        } else if let Some(text) = read_if_there(rt, &path)? {
            tables.push(TableText { name, text })?;
        }
    }
    Ok(tables)
}

// The deleted keys of a folder, in the folder `deletes` in it.
fn read_deletes(rt: &HostRuntime, folder: &str) -> Result<Vec<TableText>, ProgramError> {
    let alloc = rt.alloc();
    let deletes = format!(in alloc; "{folder}/{DELETES}")?;
    if is_there(rt, &deletes) {
        read_tables(rt, &deletes, None, false)
    } else {
        Ok(Vec::new(alloc))
    }
}

fn table_files<'t>(
    alloc: Global,
    tables: &'t [TableText],
) -> Result<Vec<TableFile<'t>>, ProgramError> {
    let mut files = Vec::with_capacity(alloc, tables.len())?;
    for table in tables {
        let name = table.name;
        let text = table.text.as_slice();
        files.push(TableFile { name, text })?;
    }
    Ok(files)
}

// The attributes of a deposit that follows a chain: a differential one names the last deposit of it.
fn attributes_after(
    alloc: Global,
    attributes: &Attributes,
    chain: Option<&Chain>,
) -> Result<Attributes, ProgramError> {
    let mut attributes = *attributes;
    let kind = attributes.name.kind;
    let Some(previous) = chain.and_then(|chain| chain.previous_id(kind)) else {
        return Ok(attributes);
    };
    match attributes.prev_id {
        Some(given) if given != previous => {
            let line = format!(in alloc; "--previous {given}: by --after it is {previous}")?;
            return Err(ProgramError::misused(alloc, line));
        }
        None if kind == Kind::Diff => attributes.prev_id = Some(previous),
        _ => {}
    }
    Ok(attributes)
}

// The deposit that takes the tables after those that it follows to the ones of a folder.
fn packed_changes(
    rt: &HostRuntime,
    order: &PackOrder<'_>,
    source: &Source<'_>,
    after: &[&str],
) -> Result<Vec<u8>, ProgramError> {
    let alloc = rt.alloc();
    let name = &order.attributes.name;
    let deposits = read_followed(rt, after, name)?;
    show_step(rt, "reading the keys");
    let Some(chain) = chain_of(alloc, name, &deposits)? else {
        return Err(ProgramError::refused(alloc, PackError::NoBase));
    };
    let attributes = attributes_after(alloc, &order.attributes, Some(&chain))?;
    show_step(rt, "comparing");
    let first = deposits.first().map(|deposit| deposit.name);
    let joined = joined_bytes(alloc, deposits)?;
    match pack_whole(alloc, &attributes, source, joined, &chain.base) {
        Ok(bytes) => Ok(bytes),
        Err(WholeError::Pack(PackError::Memory)) => Err(ProgramError::Memory),
        Err(WholeError::Chain) => Err(broken_at(alloc, first)),
        Err(error) => Err(ProgramError::refused(alloc, error)),
    }
}

// The bytes of a deposit from the tables of a registry.
fn packed_whole(
    rt: &HostRuntime,
    order: &PackOrder<'_>,
    after: &[&str],
) -> Result<Vec<u8>, ProgramError> {
    let alloc = rt.alloc();
    let tables = read_tables(rt, order.tables, None, true)?;
    let contents = table_files(alloc, &tables)?;
    let source = Source {
        contents: &contents,
        deletes: &[],
        has_headers: order.has_headers,
    };
    if order.lists_faults {
        refuse_faults(rt, order, &source)?;
    }
    packed_changes(rt, order, &source, after)
}

// The bytes of the deposit.
fn packed(
    rt: &HostRuntime,
    order: &PackOrder<'_>,
    after: &[&str],
) -> Result<Vec<u8>, ProgramError> {
    let alloc = rt.alloc();
    let kind = order.attributes.name.kind;
    let chain = read_chain(rt, after, &order.attributes.name)?;
    let attributes = attributes_after(alloc, &order.attributes, chain.as_ref())?;
    let inner = if order.are_whole { None } else { Some(DELETES) };
    let tables = read_tables(rt, order.tables, inner, kind == Kind::Full)?;
    let keys = read_deletes(rt, order.tables)?;
    let contents = table_files(alloc, &tables)?;
    let deletes = table_files(alloc, &keys)?;
    let source = Source {
        contents: &contents,
        deletes: &deletes,
        has_headers: order.has_headers,
    };
    if order.lists_faults {
        refuse_faults(rt, order, &source)?;
    }
    show_step(rt, "packing");
    let base = chain.as_ref().map(|chain| &chain.base);
    match pack(alloc, &attributes, &source, base) {
        Ok(bytes) => Ok(bytes),
        Err(PackError::Memory) => Err(ProgramError::Memory),
        Err(error) => Err(ProgramError::refused(alloc, error)),
    }
}

fn new_files<'d>(
    alloc: Global,
    folder: &str,
    parts: &[Part<'d>],
) -> Result<Vec<NewFile<'d>>, ProgramError> {
    let mut files = Vec::with_capacity(alloc, parts.len())?;
    for part in parts {
        let path = format!(in alloc; "{folder}/{}", part.name)?;
        let bytes = part.bytes;
        files.push(NewFile { path, bytes })?;
    }
    Ok(files)
}

// Prints each part, and how the deposit is stated on the command line and over HTTP.
fn print_parts(
    rt: &HostRuntime,
    attributes: &Attributes,
    parts: &[Part<'_>],
) -> std::io::Result<()> {
    for part in parts {
        println!(rt; "{} {}", part.name, part.bytes.len())?;
    }
    let name = &attributes.name;
    let (tld, day, kind, rev) = (name.tld, name.day, name.kind, name.rev);
    let (id, count) = (attributes.id, parts.len());
    println!(rt;
        "escrow verify VAULT {tld} --date {day} --kind {kind} --revision {rev} --parts {count} --id {id}"
    )?;
    println!(rt;
        "{{\"date\":\"{day}\",\"id\":\"{id}\",\"kind\":\"{kind}\",\"parts\":{count},\"revision\":{rev},\"tld\":\"{tld}\"}}"
    )
}

/// Packs the tables of a folder, behind the deposits whose parts are named, and writes the parts.
pub fn pack_tables(
    rt: &HostRuntime,
    order: &PackOrder<'_>,
    after: &[&str],
) -> Result<(), ProgramError> {
    let alloc = rt.alloc();
    let bytes = if order.are_whole && order.attributes.name.kind != Kind::Full {
        packed_whole(rt, order, after)?
    } else {
        packed(rt, order, after)?
    };
    let Some(parts) = split(alloc, &order.attributes.name, &bytes)? else {
        return Err(ProgramError::refused(alloc, PackError::Length));
    };
    let files = new_files(alloc, order.folder, &parts)?;
    make_files(rt, &[order.folder], &files)?;
    clear_step(rt);
    print_rows(rt, &bytes)?;
    match print_parts(rt, &order.attributes, &parts) {
        Ok(()) => Ok(()),
        Err(_) => Err(ProgramError::Output),
    }
}
