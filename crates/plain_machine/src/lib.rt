//! The machine of a custody as a plain and slow program, with which tests compare every other body.
#![tactic(auto)]

mod chains;
mod check_steps;
mod hold_steps;
mod holds;
mod listing;
mod notice_kinds;
mod notices;
mod plain;
mod purge_steps;
mod release_steps;
mod sought_name;
mod state;
mod statement_steps;

pub use holds::PlainHolds;
pub use notices::PlainNotices;
pub use plain::step_plain;
pub use state::{PlainAnswer, PlainContent, PlainPart, PlainRegistry, PlainState};
