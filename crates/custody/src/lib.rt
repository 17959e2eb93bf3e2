//! The custody: what a registry data escrow agent keeps for its registries, on a volume and in a
//! database, through stops.
//!
//! `Custody` has the calls. `law_histories` and `law_retries`, of the machine, say what holds of every
//! history that they are moves of. What holds of the calls through stops are laws of `theorems`.
#![tactic(auto)]

mod answers;
mod auditing;
mod custody;
mod explaining;
mod explanation;
mod fetching;
mod open_custody;
mod opening;
mod previewing;
mod progress;
mod reading;
mod receiving;
mod upload;
mod verifying;

pub use answers::{InitError, Outcome, Record, Refused, Reply};
pub use custody::Custody;
pub use custody_machine::{law_histories, law_retries};
pub use explanation::Explanation;
pub use opening::has_record;
pub use progress::{Progress, Silent};
pub use receiving::ReceiveError;
