//! What is told of deposits.
use crate::Check;
use crate::revision::Revision;
use deposit_name::{DepositId, Tld};
use schedule::{Day, Sec};

/// What a notice tells of a day's deposit (Specification 2, Part B section 7).
#[derive(Clone, Copy, Debug, PartialEq, Eq)]
pub enum NoticeKind {
    /// A deposit was received and verified.
    Receipt {
        rev: Revision,
        id: DepositId,
    },
    /// A deposit was received, and a check of it failed.
    Failure {
        rev: Revision,
        id: DepositId,
        check: Check,
    },
    /// No deposit of the day was received.
    Absence,
}

/// A notice (Specification 2, Part B section 7).
#[derive(Clone, Copy, Debug, PartialEq, Eq)]
pub struct Notice {
    /// Its number, from 1 on, among the notices of its registry.
    pub number: u64,
    pub tld: Tld,
    /// The day of the deposit.
    pub day: Day,
    /// When it was made.
    pub at: Sec,
    pub kind: NoticeKind,
}
