//! What the agent tells a registry and ICANN of its deposits, and the grounds on which deposits are
//! handed over (ICANN Registry Agreement, Specification 2, Part B).
#![tactic(auto)]

mod checks;
mod grounds;
mod lines;
mod notices;
mod reports;
mod revision;
mod standing;

pub use checks::Check;
pub use grounds::Ground;
pub use lines::write_line;
pub use notices::{Notice, NoticeKind};
pub use reports::{Fault, report};
pub use revision::Revision;
pub use standing::ground_stands;
