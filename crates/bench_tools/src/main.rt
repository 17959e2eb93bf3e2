//! Does a task of the layers below the agent as often as is asked, or reads texts with known answers.
#![tactic(auto)]

mod deposits;
mod envelope_texts;
mod map;
mod table_texts;
mod tables;
mod texts;

use deposits::print_verdict;
use map::print_map;
use std::{env, io};
use tables::print_table;
use texts::print_answers;

fn print_usage(rt: &HostRuntime) -> io::Result<()> {
    println!(rt; "usage: bench_tools map build|end|holes|runs TIMES | table TABLE FILE TIMES")?;
    println!(rt; "    | verify FILE TIMES NAME ID LATEST | texts | all FILE TIMES NAME ID LATEST")
}

/// The words: `map`, what is done with it, and how often.
fn do_map(rt: &HostRuntime, words: &[String]) -> io::Result<()> {
    let [kind, times] = words else {
        return print_usage(rt);
    };
    match times.parse::<u32>() {
        Ok(times) => print_map(rt, kind.as_str(), times),
        Err(_) => println!(rt; "no such number"),
    }
}

/// The words: `table`, which one, its file, and how often.
fn do_table(rt: &HostRuntime, words: &[String]) -> io::Result<()> {
    let [table, path, times] = words else {
        return print_usage(rt);
    };
    match times.parse::<u32>() {
        Ok(times) => print_table(rt, table.as_str(), path.as_str(), times),
        Err(_) => println!(rt; "no such number"),
    }
}

/// The words: `verify`, the file of a deposit, how often, its name, its id, and the id of the deposit
/// before it.
fn do_verify(rt: &HostRuntime, words: &[String]) -> io::Result<()> {
    let [path, times, name, id, latest] = words else {
        return print_usage(rt);
    };
    let known = [name.as_str(), id.as_str(), latest.as_str()];
    match times.parse::<u32>() {
        Ok(times) => print_verdict(rt, known, path.as_str(), times),
        Err(_) => println!(rt; "no such number"),
    }
}

/// A task of each kind; the words behind `all` are those of `verify`.
fn do_all(rt: &HostRuntime, words: &[String]) -> io::Result<()> {
    print_map(rt, "runs", 1)?;
    print_answers(rt)?;
    do_verify(rt, words)
}

fn main(rt: HostRuntime) -> io::Result<()> {
    let words: Vec<String> = env::args(&rt)?.skip(1).collect(rt.alloc())?;
    let [task, words @ ..] = words.as_slice() else {
        return print_usage(&rt);
    };
    match task.as_str() {
        "map" => do_map(&rt, words),
        "table" => do_table(&rt, words),
        "verify" => do_verify(&rt, words),
        "texts" => print_answers(&rt),
        "all" => do_all(&rt, words),
        _ => print_usage(&rt),
    }
}
