//! The grammar of the words: the command `escrow` of `clap` and its subcommands, by their table.
ghost use Rattle.std.specs.Prelude.{◌≡◌, IfOk, IfSome, IsSomeAnd, Some, false, map, slice_get};
ghost use Rattle.std.specs.String.{string_bytes};
ghost use Rattle.clap.specs.Words.{app_of, rule_of, shape_of};
ghost use Rattle.clap.specs.declared.builder.Command.TheViews.{out-Command};
ghost use Rattle.agent_cli.specs.Grammar.{ReadsAlike, bare_app, escrow_app, rule_in, shape_in};
ghost use Rattle.agent_cli.specs.Order.{subcommand_named};

use crate::subcommands::{Row, SUBCOMMANDS, Subcommand, Word, WordForm};
use clap::builder::ValueParser;
use clap::{Arg, ArgAction, Command};
use std::alloc::{AllocError, Global};

fn argument<'a>(alloc: Global, word: &Word<'a>) -> Arg<'a>
    ensures rule { rule_of result ≡ rule_in word.now }
    ensures local { result.global ≡ false }
{
    let argument = Arg::new(alloc, word.id).help(word.help);
    match word.form {
        WordForm::Place => argument.required(true),
        WordForm::Option { value, required } => {
            argument.long(word.id).value_name(value).required(required)
        }
        WordForm::Count {
            least,
            most,
            required,
        } => argument
            .long(word.id)
            .value_name("N")
            .required(required)
            .value_parser(ValueParser::signed(i64::from(least), i64::from(most))),
        WordForm::Flag => argument.long(word.id).action(ArgAction::SetTrue),
    }
}

fn subcommand<'a>(alloc: Global, row: &Row<'a>) -> Result<Command<'a>, AllocError>
    ensures { IfOk result (λ c. (shape_of c ≡ shape_in row.now.name.now (map rule_in row.now.words.now)) × ((out-Command c).has_globals ≡ false)) }
{
    let mut command = Command::new(alloc, row.name)
        .about(row.about)
        .after_help(row.after);
    for word in row.words {
        command = command.arg(argument(alloc, word))?;
    }
    Ok(command)
}

/// The version of the program.
const VERSION: &str = "0.1.0";

/// The command before its subcommands.
fn bare_command<'a>(alloc: Global) -> Command<'a>
    ensures app { app_of result ≡ bare_app }
    ensures local { (out-Command result).has_globals ≡ false }
{
    let about =
        "Keeps escrow deposits of registries in a vault: a folder with vault.vol and custody.db";
    let after = "First steps:\n  \
                 mkdir vault\n  \
                 escrow init vault --blocks 262144 --number 0000000000000001\n  \
                 escrow register vault example --first 2026-08-02\n  \
                 escrow put vault example_2026-08-02_full_S1_R0.ryde\n  \
                 escrow verify vault example --date 2026-08-02 --kind full --revision 0 \
                 --parts 1 --id 20260802001\n  \
                 escrow state vault\n\n\
                 Exit status: 0 done, 1 refused, 2 bad arguments, 3 failed";
    Command::new(alloc, "escrow")
        .about(about)
        .after_help(after)
        .version(VERSION)
        .subcommand_required(true)
}

/// The command with all its subcommands.
fn escrow_command<'a>(alloc: Global) -> Result<Command<'a>, AllocError>
    ensures { IfOk result (λ c. app_of c ≡ escrow_app) }
{
    let mut command = bare_command(alloc);
    for named in &SUBCOMMANDS {
        command = command.subcommand(subcommand(alloc, named.row())?)?;
    }
    Ok(command)
}

/// The command of a call's words: with the one subcommand that they name, or else with all.
pub(crate) fn command_of<'a>(alloc: Global, words: &[String]) -> Result<Command<'a>, AllocError>
    ensures { IfOk result (λ c. ReadsAlike (app_of c) (map string_bytes words.now)) }
{
    match named_in(words) {
        Some(named) => bare_command(alloc).subcommand(subcommand(alloc, named.row())?),
        None => escrow_command(alloc),
    }
}

/// The subcommand that the first word after the program's name names.
fn named_in(words: &[String]) -> Option<Subcommand>
    ensures { IfSome result (λ named. IsSomeAnd (slice_get words.now 1) (λ word. subcommand_named (string_bytes word) ≡ Some named)) }
{
    match words.get(1) {
        Some(word) => Subcommand::named(word),
        None => None,
    }
}
