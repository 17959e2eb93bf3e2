//! A client over a socket, and the time that it has.
use std::io::{self, Read, Write};
use std::net::{Shutdown, TcpStream};
use std::time::{Clock, Duration, Instant};

/// How long a client may take to send its request, in seconds.
const REQUEST_SECONDS: u64 = 30;

/// How long it may take from the beginning until it has the response.
const RESPONSE_SECONDS: u64 = 60;

/// How long it is waited for to close the connection.
const CLOSING_SECONDS: u64 = 2;

/// A connection. Its request and its response each end at an instant, whatever the client does.
#[derive(Drop)]
pub struct TimedStream<'c, C: Clock> {
    stream: TcpStream,
    clock: &'c C,
    request_end: Instant,
    response_end: Instant,
}

/// The instant so many seconds from now.
fn instant_in<C: Clock>(seconds: u64, clock: &C) -> io::Result<Instant> {
    let end = Instant::now(clock)?.checked_add(Duration::from_secs(seconds));
    Ok(end.ok_or(io::ErrorKind::TimedOut)?)
}

/// The time that is left until an instant, at least a millisecond.
fn left_until<C: Clock>(end: Instant, clock: &C) -> io::Result<Duration> {
    let left = end.duration_since(Instant::now(clock)?);
    if left.as_millis() == 0 {
        return Err(io::ErrorKind::TimedOut.into());
    }
    Ok(left)
}

impl<'c, C: Clock> TimedStream<'c, C> {
    /// A connection that begins now.
    pub(crate) fn new(stream: TcpStream, clock: &'c C) -> io::Result<TimedStream<'c, C>> {
        Ok(TimedStream {
            stream,
            clock,
            request_end: instant_in(REQUEST_SECONDS, clock)?,
            response_end: instant_in(RESPONSE_SECONDS, clock)?,
        })
    }

    /// Ends a connection whose response is written, and drops what the client still sends: a connection
    /// that is closed over unread bytes is reset, and the client may lose the response.
    pub(crate) fn close(mut self) {
        let _ = self.stream.shutdown(Shutdown::Write);
        let Ok(end) = instant_in(CLOSING_SECONDS, self.clock) else {
            return;
        };
        self.request_end = end;
        let mut piece = [0u8; 4096];
        for _ in 0..1024 {
            match self.read(&mut piece) {
                Ok(0) | Err(_) => return,
                Ok(_) => {}
            }
        }
    }
}

impl<'c, C: Clock> Read for TimedStream<'c, C> {
    fn read(&mut self, buf: &mut [u8]) -> io::Result<usize> {
        let left = left_until(self.request_end, self.clock)?;
        self.stream.set_read_timeout(Some(left))?;
        self.stream.read(buf)
    }
}

impl<'c, C: Clock> Write for TimedStream<'c, C> {
    fn write(&mut self, buf: &[u8]) -> io::Result<usize> {
        let left = left_until(self.response_end, self.clock)?;
        self.stream.set_write_timeout(Some(left))?;
        self.stream.write(buf)
    }

    fn flush(&mut self) -> io::Result<()> {
        Ok(())
    }
}
