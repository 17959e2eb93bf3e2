//! A part that is received while its bytes are read.
ghost use Rattle.std.specs.Prelude.{◌≡◌, ◌≤◌, ◌<◌, IfOk};
ghost use Rattle.custody.specs.Receiving.{Fills, GivesPiece, DropsBody, MayTakeBody, TakesBody};

use crate::Refused;
use crate::open_custody::OpenCustody;
use crate::upload::{PIECE_LEN, Upload, new_buffer};
use sqlite::Alter;
use std::io::{self, Read};
use vault_volume::Volume;

/// Why no part was received.
#[derive(Clone, Copy, Debug, PartialEq, Eq)]
pub enum ReceiveError {
    /// The reader ended before all the bytes had come.
    Short,
    /// The reader failed before all the bytes had come.
    ReadFailed,
    /// The bytes came, and the part was refused or the custody failed.
    Refused(Refused),
}

impl From<Refused> for ReceiveError {
    ghost use Rattle.std.specs.Prelude.{◌≡◌};
    ghost use Rattle.custody.specs.declared.receiving.ReceiveError.TheVariants as error;

    ghost from_gives = { λ refused e. e ≡ error.Refused refused };

    fn from(refused: Refused) -> ReceiveError {
        ReceiveError::Refused(refused)
    }
}

impl<V: Volume, S: Alter> OpenCustody<V, S> {
    /// Takes the bytes of a part until all have come, or the reader ends or fails.
    pub(crate) fn take_body<R: Read>(
        &mut self,
        upload: Upload,
        len: u32,
        reader: &mut R,
    ) -> (Upload, Result<(), ReceiveError>)
        requires { MayTakeBody S.Store self.old upload len }
        ensures { TakesBody S.Store (R.remaining reader.old) self.old self.new upload len result.0 result.1 }
    {
        let mut buffer = new_buffer();
        let mut upload = upload;
        let mut left = len as usize;
        while left > 0 {
            match next_piece(reader, &mut buffer, left) {
                Ok(piece) => {
                    left -= piece.len();
                    upload = self.take(upload, piece);
                }
                Err(ended) => return (upload, Err(ended)),
            }
        }
        (upload, Ok(()))
    }
}

/// Reads the bytes of a part, and drops them.
pub(crate) fn drop_body<R: Read>(len: u32, reader: &mut R) -> Result<(), ReceiveError>
    ensures { DropsBody (R.remaining reader.old) len result }
{
    let mut buffer = new_buffer();
    let mut left = len as usize;
    while left > 0 {
        match next_piece(reader, &mut buffer, left) {
            Ok(piece) => left -= piece.len(),
            Err(ended) => return Err(ended),
        }
    }
    Ok(())
}

/// The next bytes: as many as are left or as the buffer takes, and fewer only where the reader ends. So
/// the volume is called as often for a peer that sends a byte at a time as for any other.
fn next_piece<'b, R: Read>(
    reader: &mut R,
    buffer: &'b mut [u8; 32_768],
    left: usize,
) -> Result<&'b [u8], ReceiveError>
    requires { 1 ≤ left }
    ensures { GivesPiece (R.remaining reader.old) (R.remaining reader.new) left result }
{
    let room = left.min(PIECE_LEN);
    match fill(reader, &mut buffer[..room]) {
        Ok(0) => Err(ReceiveError::Short),
        Ok(count) => Ok(&buffer[..count]),
        Err(_) => Err(ReceiveError::ReadFailed),
    }
}

/// Fills a buffer from a reader, up to the reader's end, and answers how many bytes there were.
fn fill<R: Read>(reader: &mut R, buffer: &mut [u8]) -> io::Result<usize>
    ensures { IfOk result (λ count. Fills (R.remaining reader.old) (R.remaining reader.new) buffer.new count) }
{
    let mut filled = 0;
    while filled < buffer.len() {
        let count = reader.read(&mut buffer[filled..])?;
        if count == 0 {
            return Ok(filled);
        }
        filled += count;
    }
    Ok(filled)
}
