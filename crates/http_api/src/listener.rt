//! Clients over sockets.
ghost use Rattle.std.specs.Prelude.{None, IfErr};
ghost use Rattle.http_api.specs.Clients.{IsOfSocket};

use crate::client::TimedStream;
use crate::{Clients, ServeError, Served, ServiceError};
use std::io;
use std::net::{Ipv4Addr, TcpListener};
use std::time::Clock;

/// A socket that listens at a port of 127.0.0.1, and the clock by which its connections end.
#[derive(Drop)]
pub struct Listener<'c, C: Clock> {
    port: u16,
    socket: TcpListener,
    clock: &'c C,
}

impl<'c, C: Clock> Listener<'c, C> {
    pub fn bind(rt: &HostRuntime, port: u16, clock: &'c C) -> Result<Listener<'c, C>, ServiceError>
        ensures { IfErr result IsOfSocket }
    {
        match TcpListener::bind(rt, (Ipv4Addr::LOCALHOST, port)) {
            Ok(socket) => Ok(Listener {
                port,
                socket,
                clock,
            }),
            Err(cause) => Err(ServiceError::Socket { port, cause }),
        }
    }
}

/// Sockets reveal nothing.
impl<'c, C: Clock> Clients for Listener<'c, C> {
    type Sender = TimedStream<'c, C>;

    type Taker = TimedStream<'c, C>;

    ghost requests = { λ _. None };

    ghost responses = { λ _. None };

    /// A connection that was given up before it is accepted is none.
    fn next_client(&mut self) -> Result<Option<TimedStream<'c, C>>, ServiceError> {
        match self.socket.accept() {
            Ok((stream, _)) => Ok(TimedStream::new(stream, self.clock).ok()),
            Err(cause) => match cause.kind() {
                io::ErrorKind::ConnectionAborted | io::ErrorKind::Interrupted => Ok(None),
                _ => Err(ServiceError::Socket {
                    port: self.port,
                    cause,
                }),
            },
        }
    }

    fn taker(&self, sender: TimedStream<'c, C>) -> TimedStream<'c, C> {
        sender
    }

    fn end_client(&mut self, taker: TimedStream<'c, C>, served: Result<Served, ServeError>) {
        if served.is_ok() {
            taker.close();
        }
    }
}
