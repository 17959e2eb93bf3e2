//! What a request asks for.
use custody_machine::Command;
use deposit_name::{Reference, Tld};
use desk::Revision;
use schedule::Day;

/// What a request asks of the agent.
#[derive(Clone, Copy)]
pub enum RequestAction<'a> {
    /// To do a command.
    Do(Command<'a>),
    /// The report of a registry: its notices.
    Report(Tld),
    /// Why a revision has failed.
    Explain(Tld, Day, Revision),
    /// The records, and the free blocks.
    State,
    /// The days that a sweep would record as missed.
    Due,
    /// The digests of a registry's parts.
    Digests(Tld),
    /// The bytes of a part, under a release that lists this name.
    Fetch(Reference, &'a [u8]),
}
