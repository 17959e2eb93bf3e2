//! The steps of an example that is broken off at each place.
use crate::fault::ScriptFault;
use crate::files::Files;
use crate::orders::{call_of, check_in, moment_of};
use agent_cli::{Deed, Order, file_name, order_of};
use custody_machine::Command;
use deposit_name::Tld;
use schedule::{Day, Sec};
use std::alloc::Global;

/// A line that asks for one command.
#[derive(Drop)]
pub struct Step<'a> {
    /// The words of a call of `escrow`.
    words: Vec<String>,
    /// The file that it sends.
    file: &'a [u8],
    /// In place of a call, the check of a day.
    check: Option<(Tld, Day, Sec)>,
}

impl<'a> Step<'a> {
    /// The command, and its moment.
    pub fn command(&'a self, alloc: Global) -> Option<(Command<'a>, Sec)> {
        if let Some((tld, day, now)) = self.check {
            return Some((Command::Check(tld, day), now));
        }
        let Ok(order) = order_of(alloc, self.words.as_slice()) else {
            return None;
        };
        let now = moment_of(&order)?;
        let Order { deed, .. } = order;
        match deed {
            Deed::Do(command) => Some((command, now)),
            Deed::Put { file } => Some((Command::Receive(file_name(file), self.file), now)),
            _ => None,
        }
    }
}

/// The steps of an example: its calls of `escrow`, and its checks of a day.
pub fn steps_in<'a>(
    alloc: Global,
    example: &str,
    files: &'a Files,
) -> Result<Vec<Step<'a>>, ScriptFault> {
    let mut steps = Vec::new(alloc);
    for line in example.lines() {
        if let Some(words) = line.strip_prefix("$ ") {
            steps.push(call_in(alloc, words, files)?)?;
        } else if let Some(words) = line.strip_prefix("! check ") {
            steps.push(check_of(alloc, words)?)?;
        }
    }
    Ok(steps)
}

/// The step that a call of `escrow` is.
pub fn call_in<'a>(alloc: Global, text: &str, files: &'a Files) -> Result<Step<'a>, ScriptFault> {
    let (words, file) = call_of(alloc, text, files)?;
    Ok(Step {
        words,
        file,
        check: None,
    })
}

fn check_of<'a>(alloc: Global, words: &str) -> Result<Step<'a>, ScriptFault> {
    let check = check_in(words).ok_or(ScriptFault::Line)?;
    Ok(Step {
        words: Vec::new(alloc),
        file: &[],
        check: Some(check),
    })
}
