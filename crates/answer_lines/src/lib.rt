//! What is told of the answers of the agent: the lines that are printed, the writer where each
//! belongs, and the exit status.
#![tactic(auto)]

mod auditing;
mod bytes;
mod digests;
mod due;
mod lines;
mod number;
mod printing;
mod state;
mod writing;

pub use bytes::{failure_bytes, init_error_bytes, refusal_bytes};
pub use digests::write_digests;
pub use due::write_due;
pub use lines::{Line, names_behind};
pub use number::VolumeNumber;
pub use printing::{
    print_audit, print_bytes, print_digests, print_due, print_line, print_report, print_state,
    tell, tell_answer, tell_init, tell_refusal, tell_too_many_absences,
};
pub use state::write_state;
pub use writing::{WriteFailed, write_whole};
