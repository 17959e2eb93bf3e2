//! The words of a call, read by `clap` as a simple command with one level of subcommands.
ghost use Rattle.std.specs.Prelude.{Some, map};
ghost use Rattle.std.specs.String.{string_bytes};
ghost use Rattle.clap.specs.Words.{found_of, rows_of};
ghost use Rattle.agent_cli.specs.Order.{AnswersAsRead, AnswersReading, DeedReading, IsFaultFrom, OrderReading, ReadsWords, StatementReading, deed_meaning, meaning};

use crate::grammar::command_of;
use crate::subcommands::{MOST_ABSENCES, Subcommand};
use crate::values::{
    count_if_given, count_in, date_in, first_in, ground_in, id_in, is_given, kind_in, now_in,
    number_in, parts_in, port_in, reference_in, revision_in, text_in, tld_in,
};
use crate::{Deed, Order, WordFault};
use clap::ArgMatches;
use clap::error::ErrorKind;
use custody_machine::{Command, Statement};
use std::alloc::Global;
use vault_volume::MOST_BLOCKS;

/// What a subcommand is to do, by its words.
fn deed_in<'a>(subcommand: Subcommand, matches: &ArgMatches<'a>) -> Result<Deed<'a>, WordFault>
    ensures { AnswersAsRead deed_meaning (DeedReading subcommand (rows_of (found_of matches.now))) result }
{
    match subcommand {
        Subcommand::Init => init_in(matches),
        Subcommand::Register => {
            let tld = tld_in(matches)?;
            Ok(Deed::Do(Command::Register(tld, first_in(matches)?)))
        }
        Subcommand::Put => Ok(Deed::Put {
            file: text_in(matches, "FILE"),
        }),
        Subcommand::Preview => Ok(Deed::Preview(statement_in(matches)?)),
        Subcommand::Verify => Ok(Deed::Do(Command::Statement(statement_in(matches)?))),
        Subcommand::Due => Ok(Deed::Due),
        Subcommand::Sweep => Ok(Deed::Sweep {
            at_most: count_if_given(matches, "at-most", MOST_ABSENCES),
        }),
        Subcommand::Purge => Ok(Deed::Do(Command::Purge)),
        Subcommand::Hold => hold_in(matches),
        Subcommand::Lift => Ok(Deed::Do(Command::Lift(reference_in(matches)?))),
        Subcommand::Release => release_in(matches),
        Subcommand::Fetch => fetch_in(matches),
        Subcommand::Report => Ok(Deed::Report {
            tld: tld_in(matches)?,
        }),
        Subcommand::Explain => explain_in(matches),
        Subcommand::Digests => Ok(Deed::Digests {
            tld: tld_in(matches)?,
        }),
        Subcommand::State => Ok(Deed::State),
        Subcommand::Audit => Ok(Deed::Audit),
        Subcommand::Batch => Ok(Deed::Batch),
        Subcommand::Serve => Ok(Deed::Serve {
            port: port_in(matches),
            requests: count_in(matches, "requests", 1_000_000),
            until_closed: is_given(matches, "until-closed"),
        }),
    }
}

fn init_in<'a>(matches: &ArgMatches<'a>) -> Result<Deed<'a>, WordFault>
    ensures { AnswersAsRead deed_meaning (DeedReading Subcommand.Init (rows_of (found_of matches.now))) result }
{
    let number = number_in(matches)?;
    let blocks = count_in(matches, "blocks", MOST_BLOCKS);
    Ok(Deed::Init { blocks, number })
}

/// What is stated of a deposit.
fn statement_in(matches: &ArgMatches<'_>) -> Result<Statement, WordFault>
    ensures { AnswersAsRead (λ stated. stated) (StatementReading (rows_of (found_of matches.now))) result }
{
    let tld = tld_in(matches)?;
    let day = date_in(matches)?;
    let kind = kind_in(matches)?;
    let id = id_in(matches)?;
    Ok(Statement {
        tld,
        day,
        kind,
        rev: revision_in(matches),
        parts: parts_in(matches),
        id,
    })
}

fn hold_in<'a>(matches: &ArgMatches<'a>) -> Result<Deed<'a>, WordFault>
    ensures { AnswersAsRead deed_meaning (DeedReading Subcommand.Hold (rows_of (found_of matches.now))) result }
{
    let tld = tld_in(matches)?;
    let day = date_in(matches)?;
    let reference = reference_in(matches)?;
    Ok(Deed::Do(Command::Hold(reference, tld, day)))
}

fn release_in<'a>(matches: &ArgMatches<'a>) -> Result<Deed<'a>, WordFault>
    ensures { AnswersAsRead deed_meaning (DeedReading Subcommand.Release (rows_of (found_of matches.now))) result }
{
    let tld = tld_in(matches)?;
    let reference = reference_in(matches)?;
    let reason = ground_in(matches)?;
    Ok(Deed::Do(Command::Release(reference, tld, reason)))
}

fn fetch_in<'a>(matches: &ArgMatches<'a>) -> Result<Deed<'a>, WordFault>
    ensures { AnswersAsRead deed_meaning (DeedReading Subcommand.Fetch (rows_of (found_of matches.now))) result }
{
    let reference = reference_in(matches)?;
    let name = text_in(matches, "NAME");
    Ok(Deed::Fetch { reference, name })
}

fn explain_in<'a>(matches: &ArgMatches<'a>) -> Result<Deed<'a>, WordFault>
    ensures { AnswersAsRead deed_meaning (DeedReading Subcommand.Explain (rows_of (found_of matches.now))) result }
{
    let tld = tld_in(matches)?;
    let day = date_in(matches)?;
    let rev = revision_in(matches);
    Ok(Deed::Explain { tld, day, rev })
}

/// The order that the words of a subcommand give.
fn order_in<'a>(subcommand: Subcommand, matches: &ArgMatches<'a>) -> Result<Order<'a>, WordFault>
    ensures { AnswersAsRead meaning (OrderReading subcommand (rows_of (found_of matches.now))) result }
{
    let deed = deed_in(subcommand, matches)?;
    let now = now_in(matches)?;
    let folder = text_in(matches, "DIR");
    Ok(Order { folder, now, deed })
}

fn fault_from(error: clap::Error) -> WordFault
    ensures { IsFaultFrom error result }
{
    if error.kind() == ErrorKind::OutOfMemory {
        WordFault::NoMemory
    } else {
        WordFault::Words(error)
    }
}

/// What the words of a call ask for; the first of them is the program's name. A call for help is an
/// `Err` with the text of the help.
pub fn order_of<'a>(alloc: Global, words: &'a [String]) -> Result<Order<'a>, WordFault>
    ensures { AnswersReading (ReadsWords (map string_bytes words.now)) result }
{
    let command = command_of(alloc, words)?;
    let matches = match command.try_get_matches_from(words) {
        Ok(matches) => matches,
        Err(error) => return Err(fault_from(error)),
    };
    let Some((name, inner)) = matches.subcommand() else {
        unreachable!()
    };
    match Subcommand::named(name) {
        Some(subcommand) => order_in(subcommand, inner),
        None => unreachable!(),
    }
}
