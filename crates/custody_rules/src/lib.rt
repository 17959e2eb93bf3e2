//! What records decide: how a command is judged, and whether records belong together.
#![tactic(auto)]

mod blocks;
mod chain;
mod check_rules;
mod consistency;
mod days;
mod days_due;
mod explaining;
mod extents;
mod fetching;
mod hold_rules;
mod judging;
mod links;
mod passed_deposits;
mod purging;
mod release_rules;
mod revision;
mod ruling;
mod statement_rules;
mod unique_keys;

pub use chain::held_chain;
pub use consistency::whole_map;
pub use custody_machine::Command;
pub use days_due::{DueDay, due_days};
pub use explaining::{StatedFailure, find_failure, notices_before};
pub use fetching::find_released;
pub use judging::{judge, judge_part};
pub use passed_deposits::{known_about, next_number, passed_day};
pub use purging::{DueParts, due_parts};
pub use release_rules::held_names;
pub use ruling::{Change, KeptRecord, Ruling};
