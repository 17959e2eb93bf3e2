//! What the bytes of an HTTP request ask of the agent (RFC 9112).
//!
//! The stages of one request, each over what the one before has read: [`read_head`], [`read_plan`],
//! [`read_body`], [`meaning_of`].
#![tactic(auto)]

mod action;
mod bodies;
mod body;
mod errors;
mod faults;
mod fields;
mod head;
mod laws;
mod meaning;
mod plan;
mod routes;

pub use action::RequestAction;
pub use body::read_body;
pub use errors::RequestError;
pub use faults::{Method, RequestFault};
pub use head::{Head, read_head};
pub use laws::law_asked;
pub use meaning::meaning_of;
pub use plan::{Plan, read_plan};
pub use routes::{Route, Routes, Target};
