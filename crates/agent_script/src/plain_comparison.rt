//! The plain program of the machine beside the agent: it is to answer and to keep the same.
use crate::fault::ScriptFault;
use crate::output::Printed;
use answer_lines::Line;
use custody_machine::Command;
use custody_records::{PartKey, Records, Release};
use desk::{Notice, NoticeKind};
use plain_machine::{PlainAnswer, PlainContent, PlainPart, PlainRegistry, PlainState, step_plain};
use schedule::{Day, Sec};
use sha2::{Digest, Sha256};
use std::alloc::Global;
use std::io::Write;

/// The plain program, as long as nothing but orders changes what the agent keeps.
#[derive(Drop)]
pub struct Plain {
    state: PlainState,
    is_beside: bool,
}

impl Plain {
    pub fn new(alloc: Global) -> Plain {
        // (The checker has to be told of the types that lie within a state or an answer.)
        let _kind: Option<NoticeKind> = None;
        Plain {
            state: PlainState::new(alloc),
            is_beside: true,
        }
    }

    /// What the agent keeps is changed otherwise.
    pub fn leave(&mut self) {
        self.is_beside = false;
    }

    /// Whether it does not take what was answered so: what failed, and what found no blocks, of which
    /// it knows nothing.
    fn passes_over(&self, printed: &Printed) -> bool {
        !self.is_beside || printed.status == 3 || printed.err.starts_with(b"Q11 ")
    }

    fn step(
        &mut self,
        alloc: Global,
        command: &Command<'_>,
        now: Sec,
    ) -> Result<PlainAnswer, ScriptFault> {
        let _notice: Option<Notice> = None;
        let _kind: Option<NoticeKind> = None;
        Ok(step_plain(&mut self.state, alloc, command, now)?)
    }

    /// Takes a command that the agent has answered, and adds a line to what is printed where the plain
    /// program answers it otherwise.
    pub fn follow(
        &mut self,
        alloc: Global,
        command: &Command<'_>,
        now: Sec,
        printed: &mut Printed,
    ) -> Result<(), ScriptFault> {
        let _notice: Option<Notice> = None;
        let _kind: Option<NoticeKind> = None;
        if self.passes_over(printed) {
            return Ok(());
        }
        let answer = self.step(alloc, command, now)?;
        compare(alloc, &answer, printed)
    }

    /// Takes a sweep, as a check of each day that has passed.
    pub fn sweep(&mut self, alloc: Global, now: Sec, printed: &Printed) -> Result<(), ScriptFault> {
        let _kind: Option<NoticeKind> = None;
        if self.passes_over(printed) {
            return Ok(());
        }
        for at in 0..self.state.registries.len() {
            if let Some(registry) = self.state.registries.get(at).copied() {
                self.check_days(alloc, &registry, now)?;
            }
        }
        Ok(())
    }

    /// Checks each day of a registry that has passed.
    fn check_days(
        &mut self,
        alloc: Global,
        registry: &PlainRegistry,
        now: Sec,
    ) -> Result<(), ScriptFault> {
        let _notice: Option<Notice> = None;
        let _kind: Option<NoticeKind> = None;
        for number in registry.first_day.number()..now.day().number() {
            let day = Day::new(number).ok_or(ScriptFault::Line)?;
            self.step(alloc, &Command::Check(registry.tld, day), now)?;
        }
        Ok(())
    }

    /// Whether it keeps these records.
    pub fn keeps(&self, records: &Records) -> bool {
        let _kind: Option<NoticeKind> = None;
        !self.is_beside
            || are_registries(records, &self.state.registries)
                && are_parts(records, &self.state.parts)
                && records.notices().eq(self.state.notices.rows())
                && are_releases(records, &self.state.releases)
                && records.holds() == self.state.holds.rows()
    }
}

/// The line of what was accepted.
fn line_of(answer: &PlainAnswer) -> Option<Line> {
    match answer {
        PlainAnswer::Refused(_) => None,
        PlainAnswer::Registry { tld, first_day, .. } => {
            let (tld, first) = (*tld, *first_day);
            Some(Line::Registered { tld, first })
        }
        PlainAnswer::Part {
            name,
            received,
            len,
            ..
        } => {
            let length = u32::try_from(*len).ok()?;
            let (name, at) = (*name, *received);
            Some(Line::Received { name, length, at })
        }
        PlainAnswer::Notice { notice, .. } => Some(Line::Notice(*notice)),
        PlainAnswer::Release {
            reference,
            tld,
            reason,
            at,
            count,
            ..
        } => {
            let (reference, tld, reason, at, count) = (*reference, *tld, *reason, *at, *count);
            Some(Line::Released {
                reference,
                tld,
                reason,
                at,
                count,
            })
        }
        PlainAnswer::Hold {
            reference,
            tld,
            day,
            at,
            ..
        } => {
            let (reference, tld, day, at) = (*reference, *tld, *day, *at);
            Some(Line::Held {
                reference,
                tld,
                day,
                at,
            })
        }
        PlainAnswer::Lifting { reference, at, .. } => {
            let (reference, at) = (*reference, *at);
            Some(Line::Lifted { reference, at })
        }
        PlainAnswer::Purge { count } => Some(Line::Purged { count: *count }),
    }
}

/// What is printed of an answer. Behind the line of a release come its names.
fn text_of(alloc: Global, answer: &PlainAnswer) -> Result<String, ScriptFault> {
    let _notice: Option<Notice> = None;
    let _kind: Option<NoticeKind> = None;
    if let PlainAnswer::Refused(refusal) = answer {
        return Ok(format!(in alloc; "{refusal}\n")?);
    }
    let line = line_of(answer).ok_or(ScriptFault::Line)?;
    Ok(format!(in alloc; "{line}\n")?)
}

/// Adds a line where an answer is printed otherwise. (The names of a release are compared among the
/// records.)
fn compare(alloc: Global, answer: &PlainAnswer, printed: &mut Printed) -> Result<(), ScriptFault> {
    let text = text_of(alloc, answer)?;
    let is_told = match answer {
        PlainAnswer::Release { .. } => printed.begins_with(text.as_bytes()),
        _ => printed.is(text.as_bytes()),
    };
    if !is_told {
        write!(printed.err, "the plain program: {text}")?;
    }
    Ok(())
}

fn are_registries(records: &Records, kept: &[PlainRegistry]) -> bool {
    records.registries().len() == kept.len()
        && kept.iter().all(|registry| records.first_day(&registry.tld) == Some(registry.first_day))
}

fn are_releases(records: &Records, kept: &[Release]) -> bool {
    records.releases().len() == kept.len()
        && kept.iter().all(|release| has_release(records, release))
}

fn has_release(records: &Records, plain: &Release) -> bool {
    let Some(release) = records.release(&plain.reference) else {
        return false;
    };
    release.tld == plain.tld
        && release.reason.as_str() == plain.reason.as_str()
        && release.at == plain.at
        && release.names == plain.names
}

fn are_parts(records: &Records, kept: &[PlainPart]) -> bool {
    records.parts().take(kept.len() + 1).count() == kept.len()
        && kept.iter().all(|part| has_part(records, part))
}

fn has_part(records: &Records, plain: &PlainPart) -> bool {
    let Some(part) = records.part(&PartKey::of(&plain.name)) else {
        return false;
    };
    let is_same = part.name == plain.name && part.received == plain.received;
    let is_kept = match &plain.content {
        PlainContent::Held(bytes) => {
            part.extents.is_some()
                && part.len as usize == bytes.len()
                && part.digest == Sha256::digest(bytes)
        }
        PlainContent::Dropped(len) => part.extents.is_none() && part.len as usize == *len,
    };
    is_same && is_kept
}
