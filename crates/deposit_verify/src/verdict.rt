//! Verdicts.
use desk::Check;

/// What the verification of a deposit comes to (Specification 2, Part A section 7).
#[derive(Clone, Copy, Debug, PartialEq, Eq, Hash)]
pub enum Verdict {
    /// It passes each check.
    Pass,
    /// The first check that it fails.
    Fail(Check),
}
