//! Calls of `escrow`, as the program answers them.
use crate::fault::ScriptFault;
use crate::files::Files;
use crate::output::Printed;
use crate::plain_comparison::Plain;
use crate::vault::Vault;
use agent_cli::{Deed, Order, act, file_name, order_of};
use answer_lines::{tell, tell_answer};
use custody::{Custody, Refused, Reply, Silent};
use custody_machine::Command;
use deposit_name::Tld;
use schedule::{Day, Sec, read_day, read_moment};
use sqlite::Alter;
use std::alloc::{AllocError, Global};
use std::io::Write;
use vault_volume::{MemVolume, Volume};

/// How an order is done.
#[derive(Clone, Copy, PartialEq, Eq)]
pub enum Way {
    /// As the program does it.
    Program,
    /// So too, and where memory is wanting once more, after an opening.
    Twice,
    /// By the one command that it asks for, of whose answer it is told whether it is a repeat.
    Command,
}

/// Carries out a call, and prints what it prints. After `<` stands the name of the file that is put.
pub fn order<S: Alter + Drop, W: Write>(
    alloc: Global,
    way: Way,
    words: &str,
    files: &Files,
    vault: Vault<S>,
    plain: &mut Plain,
    out: &mut W,
) -> Result<Vault<S>, ScriptFault> {
    let (words, file) = call_of(alloc, words, files)?;
    let mut printed = Printed::new(alloc)?;
    let mut vault = call(alloc, way, &words, file, vault, plain, &mut printed)?;
    if way == Way::Twice && printed.wants_memory() {
        printed = Printed::new(alloc)?;
        vault = call(
            alloc,
            way,
            &words,
            file,
            vault.closed(),
            plain,
            &mut printed,
        )?;
    }
    printed.show(out)?;
    Ok(vault)
}

/// The words of a call, and the bytes of the file that it puts.
pub fn call_of<'a>(
    alloc: Global,
    text: &str,
    files: &'a Files,
) -> Result<(Vec<String>, &'a [u8]), ScriptFault> {
    let (words, file) = text.split_once(" < ").unwrap_or((text, ""));
    let file = if file.is_empty() {
        &[]
    } else {
        files.find(file)?
    };
    Ok((words_in(alloc, words)?, file))
}

fn call<S: Alter + Drop>(
    alloc: Global,
    way: Way,
    words: &[String],
    file: &[u8],
    vault: Vault<S>,
    plain: &mut Plain,
    printed: &mut Printed,
) -> Result<Vault<S>, ScriptFault> {
    match order_of(alloc, words) {
        Ok(order) => carry_out(alloc, way, &order, file, vault, plain, printed),
        Err(fault) => {
            write!(printed.err, "{fault}")?;
            printed.status = fault.status();
            Ok(vault)
        }
    }
}

/// The words of a call. `''` is the word of no letters.
pub fn words_in(alloc: Global, text: &str) -> Result<Vec<String>, AllocError> {
    let mut words = Vec::new(alloc);
    for word in text.split_whitespace() {
        let word = if word == "''" { "" } else { word };
        words.push(String::from_str(alloc, word)?)?;
    }
    Ok(words)
}

/// The moment that the words name, if they name one, and else the first of all.
pub fn moment_of(order: &Order<'_>) -> Option<Sec> {
    order.now.or(Sec::new(0))
}

fn carry_out<'a, S: Alter + Drop>(
    alloc: Global,
    way: Way,
    order: &Order<'a>,
    file: &'a [u8],
    vault: Vault<S>,
    plain: &mut Plain,
    printed: &mut Printed,
) -> Result<Vault<S>, ScriptFault> {
    if let (Deed::Init { number, .. }, false) = (&order.deed, vault.is_open()) {
        let (vault, status) = vault.begin(alloc, *number, &mut printed.out, &mut printed.err)?;
        printed.status = status;
        return Ok(vault);
    }
    match vault.open(alloc)? {
        Ok(custody) => carry_out_on(alloc, way, order, file, custody, plain, printed),
        Err((fault, volume, db)) => {
            printed.status = tell(&fault, &mut printed.err);
            Ok(Vault::Closed(volume, db))
        }
    }
}

/// The same on the custody that is open.
fn carry_out_on<'a, S: Alter + Drop>(
    alloc: Global,
    way: Way,
    order: &Order<'a>,
    file: &'a [u8],
    custody: Custody<MemVolume, S>,
    plain: &mut Plain,
    printed: &mut Printed,
) -> Result<Vault<S>, ScriptFault> {
    let now = moment_of(order).ok_or(ScriptFault::Line)?;
    let mut custody = custody;
    match way {
        Way::Program | Way::Twice => serve(
            alloc,
            &order.deed,
            file,
            now,
            &mut custody,
            plain,
            printed,
        )?,
        Way::Command => ask_deed(alloc, &order.deed, file, now, &mut custody, plain, printed)?,
    }
    Ok(Vault::Open(custody))
}

/// Does a deed on the custody, and beside it on the plain program.
fn serve<'a, V: Volume, S: Alter>(
    alloc: Global,
    deed: &Deed<'a>,
    file: &'a [u8],
    now: Sec,
    custody: &mut Custody<V, S>,
    plain: &mut Plain,
    printed: &mut Printed,
) -> Result<(), ScriptFault> {
    let (out, err) = (&mut printed.out, &mut printed.err);
    printed.status = act(alloc, custody, deed, file, now, out, err, &mut Silent);
    match deed {
        Deed::Sweep { .. } if printed.status == 0 => plain.sweep(alloc, now, printed)?,
        Deed::Do(command) => plain.follow(alloc, command, now, printed)?,
        Deed::Put { file: path } => {
            let command = Command::Receive(file_name(path), file);
            plain.follow(alloc, &command, now, printed)?;
        }
        _ => {}
    }
    compare(custody, plain, printed)
}

/// Does the one command that a deed is.
fn ask_deed<'a, V: Volume, S: Alter>(
    alloc: Global,
    deed: &Deed<'a>,
    file: &'a [u8],
    now: Sec,
    custody: &mut Custody<V, S>,
    plain: &mut Plain,
    printed: &mut Printed,
) -> Result<(), ScriptFault> {
    match deed {
        Deed::Do(command) => ask(alloc, command, now, custody, plain, printed),
        Deed::Put { file: path } => {
            let command = Command::Receive(file_name(path), file);
            ask(alloc, &command, now, custody, plain, printed)
        }
        _ => Err(ScriptFault::Line),
    }
}

/// Does a command on the custody, and beside it on the plain program.
fn ask<V: Volume, S: Alter>(
    alloc: Global,
    command: &Command<'_>,
    now: Sec,
    custody: &mut Custody<V, S>,
    plain: &mut Plain,
    printed: &mut Printed,
) -> Result<(), ScriptFault> {
    let answer = custody.apply(alloc, command, now);
    print_answer(alloc, &answer, command, now, plain, printed)?;
    compare(custody, plain, printed)
}

/// Prints the answer to a command, and whether it is a repeat. The plain program does the command too.
pub fn print_answer(
    alloc: Global,
    answer: &Result<Reply, Refused>,
    command: &Command<'_>,
    now: Sec,
    plain: &mut Plain,
    printed: &mut Printed,
) -> Result<(), ScriptFault> {
    printed.status = tell_answer(answer, &mut printed.out, &mut printed.err);
    plain.follow(alloc, command, now, printed)?;
    if matches!(answer, Ok(reply) if reply.is_repeat) {
        writeln!(printed.out, "again")?;
    }
    Ok(())
}

/// Adds a line where the plain program keeps something else.
pub fn compare<V: Volume, S: Alter>(
    custody: &Custody<V, S>,
    plain: &Plain,
    printed: &mut Printed,
) -> Result<(), ScriptFault> {
    let keeps_same = match custody.records() {
        Ok(records) => plain.keeps(records),
        Err(_) => true,
    };
    if !keeps_same {
        writeln!(printed.err, "the plain program keeps other records")?;
    }
    Ok(())
}

/// Checks a day: the words are its registry, the day and the moment.
pub fn check<S: Alter + Drop, W: Write>(
    alloc: Global,
    way: Way,
    words: &str,
    vault: Vault<S>,
    plain: &mut Plain,
    out: &mut W,
) -> Result<Vault<S>, ScriptFault> {
    let (tld, day, now) = check_in(words).ok_or(ScriptFault::Line)?;
    let command = Command::Check(tld, day);
    let mut printed = Printed::new(alloc)?;
    let mut vault = check_once(alloc, &command, now, vault, plain, &mut printed)?;
    if way == Way::Twice && printed.wants_memory() {
        printed = Printed::new(alloc)?;
        vault = check_once(alloc, &command, now, vault.closed(), plain, &mut printed)?;
    }
    printed.show(out)?;
    Ok(vault)
}

fn check_once<S: Alter + Drop>(
    alloc: Global,
    command: &Command<'_>,
    now: Sec,
    vault: Vault<S>,
    plain: &mut Plain,
    printed: &mut Printed,
) -> Result<Vault<S>, ScriptFault> {
    match vault.open(alloc)? {
        Ok(custody) => ask_on(alloc, command, now, custody, plain, printed),
        Err((fault, volume, db)) => {
            printed.status = tell(&fault, &mut printed.err);
            Ok(Vault::Closed(volume, db))
        }
    }
}

fn ask_on<S: Alter + Drop>(
    alloc: Global,
    command: &Command<'_>,
    now: Sec,
    custody: Custody<MemVolume, S>,
    plain: &mut Plain,
    printed: &mut Printed,
) -> Result<Vault<S>, ScriptFault> {
    let mut custody = custody;
    ask(alloc, command, now, &mut custody, plain, printed)?;
    Ok(Vault::Open(custody))
}

/// The registry, the day and the moment of a check.
pub fn check_in(words: &str) -> Option<(Tld, Day, Sec)> {
    let (tld, rest) = words.split_once(' ')?;
    let (day, moment) = rest.split_once(' ')?;
    let tld = Tld::parse(tld.as_bytes())?;
    let day = read_day(day.as_bytes())?;
    let now = read_moment(moment.as_bytes())?;
    Some((tld, day, now))
}
