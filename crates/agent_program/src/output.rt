//! Standard output.
ghost use Rattle.std.specs.Prelude.{◌≡◌};

use std::io::{self, Write};

/// A writer of which it is known afterwards whether it took all that it was given.
#[derive(Drop)]
pub struct Output<W: Write + Drop> {
    writer: W,
    has_failed: bool,
}

impl<W: Write + Drop> Output<W> {
    pub fn new(writer: W) -> Output<W>
        ensures { result.writer ≡ writer }
    {
        Output {
            writer,
            has_failed: false,
        }
    }

    /// Whether a call failed, or took no byte.
    pub fn has_failed(&self) -> bool {
        self.has_failed
    }
}

impl<W: Write + Drop> Write for Output<W> {
    ghost contents = { λ o. W.contents o.writer };

    fn write(&mut self, bytes: &[u8]) -> io::Result<usize> {
        let written = self.writer.write(bytes);
        if let Ok(0) | Err(_) = written {
            self.has_failed = true;
        }
        written
    }

    fn flush(&mut self) -> io::Result<()> {
        let flushed = self.writer.flush();
        if flushed.is_err() {
            self.has_failed = true;
        }
        flushed
    }
}
