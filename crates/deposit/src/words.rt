//! The words of a call, read by `clap`.
use crate::errors::ProgramError;
use clap::builder::ValueParser;
use clap::error::ErrorKind;
use clap::{Arg, ArgAction, ArgMatches, Command};
use deposit_name::{DepositId, DepositName, Kind, Tld};
use deposit_pack::Attributes;
use schedule::read_day;
use std::alloc::{AllocError, Global};

/// A deposit that is to be packed.
#[derive(Clone, Copy)]
pub struct PackOrder<'w> {
    /// The folder of the tables.
    pub tables: &'w str,
    pub attributes: Attributes,
    /// Whether the tables are those of the registry, and not what has changed in them.
    pub are_whole: bool,
    pub has_headers: bool,
    /// Whether all faults of the files are printed, and not the first alone.
    pub lists_faults: bool,
    /// The folder for its parts.
    pub folder: &'w str,
}

// An argument that is given by its place. It has to be there.
fn place<'w>(alloc: Global, id: &'w str, help: &'w str) -> Arg<'w> {
    Arg::new(alloc, id).required(true).help(help)
}

// An argument that is given as `--id VALUE`.
fn optional<'w>(alloc: Global, id: &'w str, value: &'w str, help: &'w str) -> Arg<'w> {
    Arg::new(alloc, id).long(id).value_name(value).help(help)
}

// The same, if it has to be there.
fn required<'w>(alloc: Global, id: &'w str, value: &'w str, help: &'w str) -> Arg<'w> {
    optional(alloc, id, value, help).required(true)
}

// An argument that is given as `--id`, without a value.
fn flag<'w>(alloc: Global, id: &'w str, help: &'w str) -> Arg<'w> {
    Arg::new(alloc, id)
        .long(id)
        .action(ArgAction::SetTrue)
        .help(help)
}

// The same argument, with one value or more.
fn several<'w>(argument: Arg<'w>) -> Arg<'w> {
    argument.num_args(1..).action(ArgAction::Append)
}

fn files<'w>(alloc: Global) -> Arg<'w> {
    several(place(
        alloc,
        "FILE",
        "Parts of one deposit, each of 1 to 1048576 bytes",
    ))
}

fn previous<'w>(alloc: Global) -> Arg<'w> {
    optional(
        alloc,
        "previous",
        "ID",
        "Id of the latest deposit that passed, if --after does not tell it; for an incr that of the latest full one",
    )
}

fn after<'w>(alloc: Global) -> Arg<'w> {
    several(optional(
        alloc,
        "after",
        "FILE",
        "Parts of deposits that passed; those that the deposit does not follow are left out",
    ))
}

fn revision<'w>(alloc: Global) -> Arg<'w> {
    required(
        alloc,
        "revision",
        "N",
        "Resend number of the deposit, 0 to 99",
    )
    .value_parser(ValueParser::signed(0, 99))
}

fn out<'w>(alloc: Global) -> Arg<'w> {
    required(
        alloc,
        "out",
        "FOLDER",
        "Folder for the new files; it is made if it is not there",
    )
}

fn pack_command<'w>(alloc: Global) -> Result<Command<'w>, AllocError> {
    Command::new(alloc, "pack")
        .about("Packs the tables of a folder as a deposit")
        .after_help(
            "Tables: domain.csv, domainContacts.csv, domainStatuses.csv, domainNameServers.csv, host.csv,\n        \
             hostAddresses.csv, contact.csv and registrar.csv\n\
             Deletes: the keys that are gone, in deletes/TABLE.csv, TABLE domain, host, contact or registrar\n\
             A full deposit has all eight tables and no deletes, any other has those with changes\n\
             With --whole the folder has all eight tables as they are now, and no deletes, for any kind:\n        \
             it packs each object that is new or changed since the deposits of --after, and deletes those that are gone\n\
             Prints: each table and the number of its rows, then each part and its length,\n        \
             then how to state the deposit\n\
             Example: deposit pack tables --tld example --date 2026-08-02 --kind full --revision 0 \
             --id 20260802001 --out parts",
        )
        .arg(place(alloc, "TABLES", "Folder of the tables"))?
        .arg(required(alloc, "tld", "TLD", "Top-level domain of the registry"))?
        .arg(required(
            alloc,
            "date",
            "DATE",
            "Day of the deposit, such as 2026-08-02",
        ))?
        .arg(required(
            alloc,
            "kind",
            "KIND",
            "Kind of the deposit: full, diff or incr",
        ))?
        .arg(revision(alloc))?
        .arg(required(
            alloc,
            "id",
            "ID",
            "Id of the deposit, 1 to 13 letters and digits",
        ))?
        .arg(flag(
            alloc,
            "whole",
            "The folder has all eight tables as they are now, and not what has changed",
        ))?
        .arg(previous(alloc))?
        .arg(after(alloc))?
        .arg(flag(
            alloc,
            "header",
            "The first row of each file is the names of its columns",
        ))?
        .arg(flag(
            alloc,
            "all",
            "Prints each fault of the files with its line, not the first alone",
        ))?
        .arg(out(alloc))
}

fn check_command<'w>(alloc: Global) -> Result<Command<'w>, AllocError> {
    Command::new(alloc, "check")
        .about("Says what an agent will say of a deposit")
        .after_help(
            "Without --after it leaves out check 7, and for a diff or an incr also 6 and 11,\n        \
             but a diff without prevId fails check 6\n\
             With --after it compares the id with those of these deposits alone (check 7)\n\
             Prints: PASS TYPE ID DATE and which checks it leaves out,\n        \
             then each table and the number of its rows, or FAILURE-NN and why, with status 1\n\
             Example: deposit check parts/example_2026-08-02_full_S1_R0.ryde",
        )
        .arg(files(alloc))?
        .arg(after(alloc))
}

fn unpack_command<'w>(alloc: Global) -> Result<Command<'w>, AllocError> {
    Command::new(alloc, "unpack")
        .about("Writes the tables of a deposit into a folder")
        .after_help(
            "Writes nothing if frame, envelope, menu or a digest is wrong\n\
             Prints: what check prints, then each file and its length\n\
             Example: deposit unpack example_2026-08-02_full_S1_R0.ryde --out tables",
        )
        .arg(files(alloc))?
        .arg(out(alloc))
}

fn restore_command<'w>(alloc: Global) -> Result<Command<'w>, AllocError> {
    Command::new(alloc, "restore")
        .about("Writes the tables of a registry after its latest deposit")
        .after_help(
            "Of the parts named it reads those of the latest deposit and of those that it follows,\n        \
             and says how many others it leaves out\n\
             Writes nothing if one of them does not pass, and all eight tables else, their rows in ascending order\n\
             Prints: what check prints of each deposit, then each table and the number of its rows,\n        \
             and each file and its length\n\
             Example: deposit restore parts/*.ryde --out tables",
        )
        .arg(several(place(
            alloc,
            "FILE",
            "Parts of a full deposit, and of those behind it",
        )))?
        .arg(flag(
            alloc,
            "header",
            "Writes the names of the columns as the first row of each file",
        ))?
        .arg(out(alloc))
}

fn deposit_command<'w>(alloc: Global) -> Result<Command<'w>, AllocError> {
    Command::new(alloc, "deposit")
        .about("Packs, checks, unpacks and restores escrow deposits of registries")
        .after_help(
            "First steps:\n  \
             deposit pack tables --tld example --date 2026-08-02 --kind full --revision 0 \
             --id 20260802001 --out parts\n  \
             deposit check parts/example_2026-08-02_full_S1_R0.ryde\n  \
             deposit unpack parts/example_2026-08-02_full_S1_R0.ryde --out unpacked\n  \
             deposit restore parts/*.ryde --out restored\n\n\
             Exit status: 0 done, 1 refused, 2 bad arguments, 3 failed",
        )
        .version("0.1.0")
        .subcommand_required(true)
        .subcommand(pack_command(alloc)?)?
        .subcommand(check_command(alloc)?)?
        .subcommand(unpack_command(alloc)?)?
        .subcommand(restore_command(alloc)?)
}

/// The texts of an argument that may stand several times, or not at all.
pub fn texts_in<'m, 'w>(matches: &'m ArgMatches<'w>, id: &str) -> &'m [&'w str] {
    matches.get_strs(id).unwrap_or_default()
}

/// The text of an argument that stands once.
pub fn text_in<'w>(matches: &ArgMatches<'w>, id: &str) -> &'w str {
    matches.get_str(id).unwrap_or("")
}

// The same, as bytes.
fn bytes_in<'w>(matches: &ArgMatches<'w>, id: &str) -> &'w [u8] {
    text_in(matches, id).as_bytes()
}

fn bad_value(alloc: Global, id: &str) -> ProgramError {
    match format!(in alloc; "bad value for --{id}") {
        Ok(line) => ProgramError::Misused(line),
        Err(_) => ProgramError::Memory,
    }
}

fn id_in(alloc: Global, matches: &ArgMatches<'_>, id: &str) -> Result<DepositId, ProgramError> {
    match DepositId::parse(bytes_in(matches, id)) {
        Some(found) => Ok(found),
        None => Err(bad_value(alloc, id)),
    }
}

fn name_in(alloc: Global, matches: &ArgMatches<'_>) -> Result<DepositName, ProgramError> {
    let Some(tld) = Tld::parse(bytes_in(matches, "tld")) else {
        return Err(bad_value(alloc, "tld"));
    };
    let Some(day) = read_day(bytes_in(matches, "date")) else {
        return Err(bad_value(alloc, "date"));
    };
    let Some(kind) = Kind::parse(bytes_in(matches, "kind")) else {
        return Err(bad_value(alloc, "kind"));
    };
    let rev = matches.get_one::<u8>("revision").unwrap_or(0);
    match DepositName::new(tld, day, kind, 1, rev) {
        Some(name) => Ok(name),
        None => Err(bad_value(alloc, "date")),
    }
}

fn attributes_in(alloc: Global, matches: &ArgMatches<'_>) -> Result<Attributes, ProgramError> {
    let name = name_in(alloc, matches)?;
    let id = id_in(alloc, matches, "id")?;
    let prev_id = match matches.get_str("previous") {
        Some(_) => Some(id_in(alloc, matches, "previous")?),
        None => None,
    };
    Ok(Attributes { name, id, prev_id })
}

/// The deposit that the words of `pack` describe.
pub fn pack_order<'w>(
    alloc: Global,
    matches: &ArgMatches<'w>,
) -> Result<PackOrder<'w>, ProgramError> {
    Ok(PackOrder {
        tables: text_in(matches, "TABLES"),
        attributes: attributes_in(alloc, matches)?,
        are_whole: matches.get_flag("whole"),
        has_headers: matches.get_flag("header"),
        lists_faults: matches.get_flag("all"),
        folder: text_in(matches, "out"),
    })
}

/// The words of a call as `clap` finds them. The first of them is the program's name.
pub fn matches_of<'w>(alloc: Global, words: &'w [String]) -> Result<ArgMatches<'w>, ProgramError> {
    match deposit_command(alloc)?.try_get_matches_from(words) {
        Ok(matches) => Ok(matches),
        Err(error) if error.kind() == ErrorKind::OutOfMemory => Err(ProgramError::Memory),
        Err(error) => Err(ProgramError::Words(error)),
    }
}
