//! The command machine of a custody of registry data deposits: what a command is answered, what is
//! kept after it, and what holds through stops.
#![tactic(auto)]

mod answers;
mod codes;
mod command;
mod damage;
mod laws;

pub use answers::{Failure, Refusal};
pub use codes::{Code, ExitStatus, HttpStatus};
pub use command::{Command, Statement};
pub use damage::Damage;
pub use laws::{
    law_accepted, law_damage, law_fetched, law_histories, law_read_name, law_refusals, law_retries,
};
