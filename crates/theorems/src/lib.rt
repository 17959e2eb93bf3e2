//! What holds of the agent through stops: laws of a custody and of clients over HTTP, and sessions.
//!
//! No program calls what is here. `law_histories` and `law_retries` are what holds of every history
//! that the other laws make of calls.
#![tactic(auto)]

mod client_laws;
mod custody_laws;
mod deed_laws;
mod explanation_laws;
mod life_laws;
mod reading_laws;
mod serving;
pub mod sessions;

pub use client_laws::{law_clients, law_connections, law_requests, law_responses};
pub use custody::{law_histories, law_retries};
pub use custody_laws::{
    law_at_rest, law_digests, law_rest, law_run, law_sessions, law_shown, law_stop,
};
pub use deed_laws::law_acts;
pub use explanation_laws::law_explained;
pub use life_laws::{law_begun, law_calls, law_lives, law_opened, open_custody};
pub use reading_laws::law_reading;
pub use serving::{begin_and_serve, serve_one};
