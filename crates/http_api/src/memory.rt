//! Clients in memory.
ghost use Rattle.std.specs.Prelude.{◌≡◌, ◌+◌, ◌≤◌, [], map, length, vec_len, vec_capacity, Some, IfOk};

use crate::{Clients, ServeError, Served, ServiceError};
use std::alloc::{AllocError, Global};

/// The requests of the clients that are still to come, and what each that came has taken.
#[derive(Drop)]
pub struct MemClients<'r> {
    alloc: Global,
    requests: &'r [&'r [u8]],
    responses: Vec<Vec<u8>>,
    ghost room: { length requests.now + vec_len responses ≤ vec_capacity responses },
}

impl<'r> MemClients<'r> {
    pub fn new(alloc: Global, requests: &'r [&'r [u8]]) -> Result<MemClients<'r>, AllocError>
        ensures requests { IfOk result (λ clients. ⟦<MemClients<'r> as Clients>⟧.requests clients ≡ Some (map (λ request. request.now) requests.entry.now)) }
        ensures responses { IfOk result (λ clients. ⟦<MemClients<'r> as Clients>⟧.responses clients ≡ Some []) }
    {
        let responses = Vec::with_capacity(alloc, requests.len())?;
        Ok(MemClients {
            alloc,
            requests,
            responses,
        })
    }

    /// What each client that came has taken.
    pub fn responses(&self) -> &[Vec<u8>]
        ensures { ⟦<MemClients<'r> as Clients>⟧.responses self.now ≡ Some (map (λ response. response.items) result.now) }
    {
        self.responses.as_slice()
    }
}

/// Clients in memory reveal both. A response is cut off where memory runs out.
impl<'r> Clients for MemClients<'r> {
    type Sender = &'r [u8];

    type Taker = Vec<u8>;

    ghost requests = { λ clients. Some (map (λ request. request.now) clients.requests.now) };

    ghost responses = { λ clients. Some (map (λ response. response.items) clients.responses.items) };

    fn next_client(&mut self) -> Result<Option<&'r [u8]>, ServiceError> {
        let [first, others @ ..] = self.requests else {
            return Ok(None);
        };
        self.requests = others;
        let _ = self.responses.push(Vec::new(self.alloc));
        Ok(Some(*first))
    }

    fn taker(&self, _sender: &'r [u8]) -> Vec<u8> {
        Vec::new(self.alloc)
    }

    fn end_client(&mut self, taker: Vec<u8>, _served: Result<Served, ServeError>) {
        if let Some(last) = self.responses.last_mut() {
            *last = taker;
        }
    }
}
