//! The program `escrow`: a registry data escrow agent over the two files of a folder.
#![tactic(auto)]

mod machine;

use agent_program::{Output, run};
use answer_lines::tell;
use custody_machine::Failure;
use machine::Machine;
use std::io::{self, BufWriter};
use std::process::ExitCode;

fn main(rt: HostRuntime) -> ExitCode {
    let mut err = rt.stderr();
    let status = match BufWriter::new(rt.alloc(), io::writer(&rt)) {
        Ok(out) => run(
            &mut Machine::new(&rt),
            rt.stdin(),
            &mut Output::new(out),
            &mut err,
        ),
        Err(_) => tell(&Failure::NoMemory, &mut err),
    };
    ExitCode::from(status)
}
