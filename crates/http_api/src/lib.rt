//! The HTTP interface of a custody (RFC 9110, RFC 9112): one request, one response; and
//! connections, one after the other.
#![tactic(auto)]

mod answering;
mod client;
mod clients;
mod connections;
mod handling;
mod listener;
mod memory;
mod reading;
mod report;
mod response;
mod status;
mod writing;

pub use clients::Clients;
pub use connections::{ServiceError, serve_connections};
pub use handling::{Api, ServeError, Served};
pub use listener::Listener;
pub use memory::MemClients;
pub use response::Media;
pub use status::ResponseStatus;
