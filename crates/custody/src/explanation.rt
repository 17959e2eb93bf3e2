//! Why a revision has failed.
ghost use Rattle.std.specs.Prelude.{Some};
ghost use Rattle.custody.specs.ExplanationText.{cause_text, day_behind, explanation_text};

use deposit_verify::Reason;
use desk::Check;
use schedule::Day;
use std::fmt;

/// Why a revision has failed. It prints as one line: `FAILURE-`, the number of the check, a space and the
/// reason.
#[derive(Debug, PartialEq, Drop)]
pub struct Explanation {
    /// The check that its notice names.
    pub check: Check,
    /// Why it fails that check: `None` where a deposit that it follows was dropped since, and without its
    /// keys the reason is not found again.
    pub reason: Option<Reason>,
    /// Where its id had been used, the day of the deposit that had passed with it.
    pub passed_on: Option<Day>,
}

impl fmt::Display for Explanation {
    ghost output = { λ told. Some (explanation_text told) };

    fn fmt<W: fmt::Write>(&self, f: &mut fmt::Formatter<W>) -> fmt::Result {
        write!(
            f,
            "FAILURE-{} {}{}",
            self.check,
            Cause(&self.reason),
            DayBehind(self.passed_on)
        )
    }
}

/// Why it fails its check, or that this is no longer known.
#[derive(Clone, Copy)]
struct Cause<'r>(&'r Option<Reason>);

impl fmt::Display for Cause<'_> {
    ghost output = { λ cause. Some (cause_text cause.0.now) };

    fn fmt<W: fmt::Write>(&self, f: &mut fmt::Formatter<W>) -> fmt::Result {
        match self.0 {
            Some(reason) => write!(f, "{reason}"),
            None => f.write_str("no longer known: a deposit that it follows was dropped"),
        }
    }
}

/// What stands behind it: the day of the deposit that had its id.
#[derive(Clone, Copy)]
struct DayBehind(Option<Day>);

impl fmt::Display for DayBehind {
    ghost output = { λ behind. Some (day_behind behind.0) };

    fn fmt<W: fmt::Write>(&self, f: &mut fmt::Formatter<W>) -> fmt::Result {
        match self.0 {
            Some(day) => write!(f, ", on {day}"),
            None => Ok(()),
        }
    }
}
