//! The values of arguments, each in its form.
ghost use Rattle.std.specs.Prelude.{◌≡◌, ◌≤◌, codes};
ghost use Rattle.clap.specs.Words.{first_of, found_of, rows_of};
ghost use Rattle.answer_lines.specs.Number.{ShowsNumber};
ghost use Rattle.agent_cli.specs.Grammar.{is_given, text_in};
ghost use Rattle.agent_cli.specs.Forms.{ShowsDay, ShowsGround, ShowsId, ShowsIfGiven, ShowsKind, ShowsMoment, ShowsReference, ShowsTld, count_if_given, count_of};
ghost use Rattle.agent_cli.specs.Order.{AnswersValue};

use crate::{Argument, WordFault};
use answer_lines::VolumeNumber;
use clap::ArgMatches;
use deposit_name::{DepositId, Kind, Reference, Tld};
use desk::{Ground, Revision};
use schedule::{Day, Sec, read_day, read_moment};

/// The value of an argument that is required.
pub(crate) fn text_in<'a>(matches: &ArgMatches<'a>, id: &str) -> &'a str
    ensures { result.now ≡ text_in id.now (rows_of (found_of matches.now)) }
{
    matches.get_str(id).unwrap_or("")
}

/// A number that the command's parser has tested to be at most `most`.
pub(crate) fn count_in(matches: &ArgMatches<'_>, id: &str, most: u32) -> u32
    ensures count { result ≡ count_of id.now most (rows_of (found_of matches.now)) }
    ensures most { result ≤ most }
{
    let count = matches.get_one::<u32>(id).unwrap_or(0);
    if count > most { 0 } else { count }
}

/// The same of an argument that may be left out.
pub(crate) fn count_if_given(matches: &ArgMatches<'_>, id: &str, most: u32) -> Option<u32>
    ensures { result ≡ count_if_given id.now most (rows_of (found_of matches.now)) }
{
    matches.get_str(id)?;
    Some(count_in(matches, id, most))
}

pub(crate) fn revision_in(matches: &ArgMatches<'_>) -> Revision
    ensures { result ≡ count_of (codes "revision") 99 (rows_of (found_of matches.now)) }
{
    Revision::new(count_in(matches, "revision", 99) as u8).unwrap()
}

pub(crate) fn parts_in(matches: &ArgMatches<'_>) -> u8
    ensures { result ≡ count_of (codes "parts") 8 (rows_of (found_of matches.now)) }
{
    count_in(matches, "parts", 8) as u8
}

pub(crate) fn port_in(matches: &ArgMatches<'_>) -> u16
    ensures { result ≡ count_of (codes "port") 65_535 (rows_of (found_of matches.now)) }
{
    count_in(matches, "port", 65_535) as u16
}

/// Whether a flag is among the words.
pub(crate) fn is_given(matches: &ArgMatches<'_>, id: &str) -> bool
    ensures { result ≡ is_given id.now (rows_of (found_of matches.now)) }
{
    text_in(matches, id) == "true"
}

pub(crate) fn tld_in(matches: &ArgMatches<'_>) -> Result<Tld, WordFault>
    ensures { AnswersValue Argument.Tld (ShowsTld (text_in (codes "TLD") (rows_of (found_of matches.now)))) result }
{
    Tld::parse(text_in(matches, "TLD").as_bytes()).ok_or(WordFault::Bad(Argument::Tld))
}

pub(crate) fn date_in(matches: &ArgMatches<'_>) -> Result<Day, WordFault>
    ensures { AnswersValue Argument.Date (ShowsDay (text_in (codes "date") (rows_of (found_of matches.now)))) result }
{
    read_day(text_in(matches, "date").as_bytes()).ok_or(WordFault::Bad(Argument::Date))
}

pub(crate) fn first_in(matches: &ArgMatches<'_>) -> Result<Day, WordFault>
    ensures { AnswersValue Argument.First (ShowsDay (text_in (codes "first") (rows_of (found_of matches.now)))) result }
{
    read_day(text_in(matches, "first").as_bytes()).ok_or(WordFault::Bad(Argument::First))
}

pub(crate) fn kind_in(matches: &ArgMatches<'_>) -> Result<Kind, WordFault>
    ensures { AnswersValue Argument.Kind (ShowsKind (text_in (codes "kind") (rows_of (found_of matches.now)))) result }
{
    Kind::parse(text_in(matches, "kind").as_bytes()).ok_or(WordFault::Bad(Argument::Kind))
}

pub(crate) fn id_in(matches: &ArgMatches<'_>) -> Result<DepositId, WordFault>
    ensures { AnswersValue Argument.Id (ShowsId (text_in (codes "id") (rows_of (found_of matches.now)))) result }
{
    DepositId::parse(text_in(matches, "id").as_bytes()).ok_or(WordFault::Bad(Argument::Id))
}

pub(crate) fn reference_in(matches: &ArgMatches<'_>) -> Result<Reference, WordFault>
    ensures { AnswersValue Argument.Reference (ShowsReference (text_in (codes "REF") (rows_of (found_of matches.now)))) result }
{
    Reference::parse(text_in(matches, "REF").as_bytes()).ok_or(WordFault::Bad(Argument::Reference))
}

pub(crate) fn ground_in(matches: &ArgMatches<'_>) -> Result<Ground, WordFault>
    ensures { AnswersValue Argument.Ground (ShowsGround (text_in (codes "GROUND") (rows_of (found_of matches.now)))) result }
{
    Ground::parse(text_in(matches, "GROUND")).ok_or(WordFault::Bad(Argument::Ground))
}

pub(crate) fn number_in(matches: &ArgMatches<'_>) -> Result<VolumeNumber, WordFault>
    ensures { AnswersValue Argument.Number (ShowsNumber (text_in (codes "number") (rows_of (found_of matches.now)))) result }
{
    VolumeNumber::parse(text_in(matches, "number").as_bytes()).ok_or(WordFault::Bad(
        Argument::Number,
    ))
}

pub(crate) fn now_in(matches: &ArgMatches<'_>) -> Result<Option<Sec>, WordFault>
    ensures { AnswersValue Argument.Now (ShowsIfGiven ShowsMoment (first_of (codes "now") (rows_of (found_of matches.now)))) result }
{
    match matches.get_str("now") {
        Some(text) => match read_moment(text.as_bytes()) {
            Some(now) => Ok(Some(now)),
            None => Err(WordFault::Bad(Argument::Now)),
        },
        None => Ok(None),
    }
}
