//! How far a call is, for those who look on.
ghost use Rattle.std.specs.Prelude.{◌<◌};

use crate::host::Host;
use agent_cli::Deed;
use custody::Progress;
use std::io::Write;

/// What a call of many steps goes through: a sweep days, and an audit the blocks of parts.
#[derive(Clone, Copy)]
enum StepKind {
    Day,
    Block,
}

impl StepKind {
    /// After how many steps it is told how far the call is. (So many blocks are 16 MiB.)
    fn every(self) -> usize
        ensures { 0 < result }
    {
        match self {
            StepKind::Day => 1_000,
            StepKind::Block => 4_096,
        }
    }
}

/// The terminal of a call, if it has one: standard error, where that is no file and no pipe.
#[derive(Drop)]
pub struct Terminal<E: Write + Drop> {
    err: Option<E>,
    step: StepKind,
    done: usize,
    steps: usize,
}

impl<E: Write + Drop> Terminal<E> {
    pub fn of<H: Host<Terminal = E>>(host: &H, deed: &Deed<'_>) -> Terminal<E> {
        Terminal {
            err: host.terminal(),
            step: match deed {
                Deed::Audit => StepKind::Block,
                _ => StepKind::Day,
            },
            done: 0,
            steps: 0,
        }
    }
}

impl<E: Write + Drop> Progress for Terminal<E> {
    fn begin(&mut self, steps: usize) {
        self.done = 0;
        self.steps = steps;
    }

    fn advance(&mut self, steps: usize) {
        let every = self.step.every();
        let told = self.done / every;
        self.done = self.done.saturating_add(steps);
        if self.done / every <= told {
            return;
        }
        let (done, steps) = (self.done, self.steps);
        if let Some(err) = &mut self.err {
            let _ = match self.step {
                StepKind::Day => writeln!(err, "swept {done} of {steps} days"),
                StepKind::Block => writeln!(err, "audited {done} of {steps} blocks"),
            };
        }
    }
}
