//! Requests over HTTP, from peers that send and take a few bytes at a time, end early or fail.
use crate::fault::ScriptFault;
use crate::files::Files;
use crate::vault::Vault;
use custody::Custody;
use http_api::{Api, ServeError, Served};
use schedule::read_moment;
use sqlite::Alter;
use std::alloc::{AllocError, Global};
use std::io::{self, Read, Write};
use vault_volume::{MemVolume, Volume};

/// The moment of each request.
pub const MOMENT: &[u8] = b"2026-08-02T10:05:00Z";

/// Room for each response.
pub const AMPLE: usize = 100_000;

/// Bytes that come in pieces of at most so many. Behind them the sender ends, or fails.
#[derive(Drop)]
pub struct Sender<'a> {
    bytes: &'a [u8],
    size: usize,
    fails: bool,
}

impl<'a> Sender<'a> {
    /// One that ends behind its bytes.
    pub fn of(bytes: &'a [u8], size: usize) -> Sender<'a> {
        let fails = false;
        Sender { bytes, size, fails }
    }
}

impl<'a> Read for Sender<'a> {
    fn read(&mut self, buf: &mut [u8]) -> io::Result<usize> {
        let count = self.size.min(buf.len()).min(self.bytes.len());
        if count == 0 && self.fails {
            return Err(io::ErrorKind::Other.into());
        }
        buf[..count].copy_from_slice(&self.bytes[..count]);
        self.bytes = &self.bytes[count..];
        Ok(count)
    }
}

/// What is taken, in pieces of at most so many bytes and so many in all. Then the taker fails.
#[derive(Drop)]
struct Taker {
    bytes: Vec<u8>,
    size: usize,
    room: usize,
}

impl Write for Taker {
    fn write(&mut self, buf: &[u8]) -> io::Result<usize> {
        let count = buf.len().min(self.room).min(self.size);
        if count == 0 || self.bytes.extend_from_slice(&buf[..count]).is_err() {
            return Err(io::ErrorKind::Other.into());
        }
        self.room -= count;
        Ok(count)
    }

    fn flush(&mut self) -> io::Result<()> {
        Ok(())
    }
}

/// What came of a request, and the bytes that were taken.
pub type Exchange = (Result<Served, ServeError>, Vec<u8>);

pub fn exchange<V: Volume, S: Alter>(
    alloc: Global,
    api: &Api,
    custody: &mut Custody<V, S>,
    sender: Sender<'_>,
    room: usize,
) -> Result<Exchange, ScriptFault> {
    let now = read_moment(MOMENT).ok_or(ScriptFault::Line)?;
    let mut sender = sender;
    let mut taker = Taker {
        bytes: Vec::with_capacity(alloc, room.min(1000))?,
        size: sender.size,
        room,
    };
    let served = api.serve_one(alloc, &mut sender, &mut taker, custody, now);
    Ok((served, taker.bytes))
}

/// Sends the request of a line to the vault, which is opened where it is closed, and prints what the line
/// asks for.
pub fn request<S: Alter + Drop, W: Write>(
    alloc: Global,
    verb: &str,
    words: &str,
    files: &Files,
    vault: Vault<S>,
    out: &mut W,
) -> Result<Vault<S>, ScriptFault> {
    let (number, bytes) = request_in(alloc, words, files)?;
    let mut told = Vec::new(alloc);
    let mut vault = send(alloc, verb, number, &bytes, vault, &mut told)?;
    if verb == "resend" && wants_memory(&told) {
        told.clear();
        vault = send(alloc, verb, number, &bytes, vault.closed(), &mut told)?;
    }
    out.write_all(&told)?;
    Ok(vault)
}

/// The number and the request that words give. In these `\r` and `\n` stand for their bytes, and after `<`
/// stands the name of a file whose bytes follow.
pub fn request_in(
    alloc: Global,
    words: &str,
    files: &Files,
) -> Result<(usize, Vec<u8>), ScriptFault> {
    let (words, file) = words.split_once(" < ").unwrap_or((words, ""));
    let (number, text) = words.split_once(' ').unwrap_or((words, ""));
    let number: u32 = number.parse().ok().ok_or(ScriptFault::Line)?;
    let mut bytes = bytes_of(alloc, text)?;
    if !file.is_empty() {
        bytes.extend_from_slice(files.find(file)?)?;
    }
    Ok((number as usize, bytes))
}

/// Whether what was told of a request is that memory was wanting, or that the database failed.
fn wants_memory(told: &[u8]) -> bool {
    told.starts_with(b"HTTP/1.1 503 ") || told.starts_with(b"C1 ") || told.starts_with(b"C3 ")
}

fn send<S: Alter + Drop>(
    alloc: Global,
    verb: &str,
    number: usize,
    bytes: &[u8],
    vault: Vault<S>,
    told: &mut Vec<u8>,
) -> Result<Vault<S>, ScriptFault> {
    match vault.open(alloc)? {
        Ok(custody) => answer(alloc, verb, number, bytes, custody, told),
        Err((fault, volume, db)) => {
            writeln!(told, "{fault}")?;
            Ok(Vault::Closed(volume, db))
        }
    }
}

/// The text in which `\r` and `\n` stand for their bytes.
pub fn text_of(alloc: Global, text: &str) -> Result<String, AllocError> {
    let text = text.replace(alloc, "\\r", "\r")?;
    text.replace(alloc, "\\n", "\n")
}

fn bytes_of(alloc: Global, text: &str) -> Result<Vec<u8>, AllocError> {
    let text = text_of(alloc, text)?;
    Vec::from_slice(alloc, text.as_bytes())
}

fn answer<S: Alter + Drop, W: Write>(
    alloc: Global,
    verb: &str,
    number: usize,
    bytes: &[u8],
    custody: Custody<MemVolume, S>,
    out: &mut W,
) -> Result<Vault<S>, ScriptFault> {
    let mut custody = custody;
    print_answer(alloc, verb, number, bytes, &mut custody, out)?;
    Ok(Vault::Open(custody))
}

fn print_answer<V: Volume, S: Alter, W: Write>(
    alloc: Global,
    verb: &str,
    number: usize,
    bytes: &[u8],
    custody: &mut Custody<V, S>,
    out: &mut W,
) -> Result<(), ScriptFault> {
    let Ok(api) = Api::new(alloc) else {
        return Err(ScriptFault::NoMemory);
    };
    let fails = verb == "break" || verb == "breaks";
    let size = if verb == "cut" { 7 } else { number };
    let room = if verb == "cut" { number } else { AMPLE };
    let sender = Sender { bytes, size, fails };
    match verb {
        "breaks" => print_breaks(alloc, &api, custody, sender, out),
        "cuts" => print_cuts(alloc, &api, custody, sender, out),
        _ => {
            let (served, taken) = exchange(alloc, &api, custody, sender, room)?;
            print_taken(&served, &taken, out)?;
            Ok(())
        }
    }
}

/// Prints what was taken in one line, and why it is not the whole of a response.
pub fn print_taken<W: Write>(
    served: &Result<Served, ServeError>,
    taken: &[u8],
    out: &mut W,
) -> io::Result<()> {
    match served {
        Ok(Served) => writeln!(out, "{}", taken.escape_ascii()),
        Err(fault) => writeln!(out, "{}{fault}", taken.escape_ascii()),
    }
}

/// Whether an exchange fails so, and the bytes that were taken are these.
fn fails_so<V: Volume, S: Alter>(
    alloc: Global,
    api: &Api,
    custody: &mut Custody<V, S>,
    sender: Sender<'_>,
    wanted: (ServeError, &[u8]),
) -> Result<bool, ScriptFault> {
    let room = if sender.fails { AMPLE } else { wanted.1.len() };
    let (served, taken) = exchange(alloc, api, custody, sender, room)?;
    Ok(served == Err(wanted.0) && taken.as_slice() == wanted.1)
}

/// Lets the sender fail after each number of bytes, and prints how often it was told and nothing was taken.
fn print_breaks<V: Volume, S: Alter, W: Write>(
    alloc: Global,
    api: &Api,
    custody: &mut Custody<V, S>,
    whole: Sender<'_>,
    out: &mut W,
) -> Result<(), ScriptFault> {
    let mut told = 0usize;
    for length in 0..whole.bytes.len() {
        let sender = Sender {
            bytes: &whole.bytes[..length],
            size: whole.size,
            fails: true,
        };
        if fails_so(alloc, api, custody, sender, (ServeError::Read, &[]))? {
            told = told.saturating_add(1);
        }
    }
    writeln!(out, "{told} of {} times read failed", whole.bytes.len())?;
    Ok(())
}

/// Prints a response, lets the taker fail after each number of its bytes, and prints how often it was told
/// and the bytes were those of the response.
fn print_cuts<V: Volume, S: Alter, W: Write>(
    alloc: Global,
    api: &Api,
    custody: &mut Custody<V, S>,
    whole: Sender<'_>,
    out: &mut W,
) -> Result<(), ScriptFault> {
    let (bytes, size) = (whole.bytes, whole.size);
    let (served, response) = exchange(alloc, api, custody, whole, AMPLE)?;
    print_taken(&served, &response, out)?;
    let mut told = 0usize;
    for room in 0..response.len() {
        let sender = Sender {
            bytes,
            size,
            fails: false,
        };
        let wanted = (ServeError::Write, &response[..room]);
        if fails_so(alloc, api, custody, sender, wanted)? {
            told = told.saturating_add(1);
        }
    }
    writeln!(out, "{told} of {} times write failed", response.len())?;
    Ok(())
}
