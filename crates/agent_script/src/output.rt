//! What a call prints.
use std::alloc::{AllocError, Global};
use std::io::{self, Write};

/// How many bytes have room without a growth.
const ROOM: usize = 4096;

/// What a call prints to output and to errors, and its exit status.
#[derive(Drop)]
pub struct Printed {
    pub out: Vec<u8>,
    pub err: Vec<u8>,
    pub status: u8,
}

impl Printed {
    /// Nothing, with room for some lines: so it is not its own memory that is wanting where they are printed.
    pub fn new(alloc: Global) -> Result<Printed, AllocError> {
        Ok(Printed {
            out: Vec::with_capacity(alloc, ROOM)?,
            err: Vec::with_capacity(alloc, ROOM)?,
            status: 0,
        })
    }

    /// Whether output and errors together are this text.
    pub fn is(&self, text: &[u8]) -> bool {
        (self.err.is_empty() && self.out.as_slice() == text)
            || (self.out.is_empty() && self.err.as_slice() == text)
    }

    /// Whether the output begins with this text.
    pub fn begins_with(&self, text: &[u8]) -> bool {
        self.err.is_empty() && self.out.starts_with(text)
    }

    /// Whether memory was wanting, or the database failed, as it does where it finds none.
    pub fn wants_memory(&self) -> bool {
        self.status == 3 && (self.err.starts_with(b"C1 ") || self.err.starts_with(b"C3 "))
    }

    /// Prints output and errors, and the status where it is not 0.
    pub fn show<W: Write>(&self, out: &mut W) -> io::Result<()> {
        out.write_all(&self.out)?;
        out.write_all(&self.err)?;
        if self.status != 0 {
            writeln!(out, "exit {}", self.status)?;
        }
        Ok(())
    }
}
