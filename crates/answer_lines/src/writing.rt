//! Texts to a writer. No memory is taken.
ghost use Rattle.std.specs.Prelude.{OnOk};
ghost use Rattle.std.specs.Io.KnownBytes.{Appends, Keeps};
ghost use Rattle.desk.specs.Lines.{AppendsBeginning};
ghost use Rattle.answer_lines.specs.Lines.{line_text};
ghost use Rattle.answer_lines.specs.Printing.{PrintsLine, as_line};

use crate::Line;
use std::io::Write;

/// The writer failed, or took no byte.
#[derive(Clone, Copy, Debug, PartialEq, Eq)]
pub struct WriteFailed;

/// Writes all of the bytes, in as many calls as it takes. An interrupted call has failed.
pub fn write_whole<W: Write>(bytes: &[u8], out: &mut W) -> Result<(), WriteFailed>
    ensures whole { OnOk result (Appends (W.contents out.old) (W.contents out.new) bytes.now) }
    // Whatever is answered, what the writer took is a beginning of them.
    ensures begun { AppendsBeginning (W.contents out.old) (W.contents out.new) bytes.now }
{
    let mut rest = bytes;
    while !rest.is_empty() {
        match out.write(rest) {
            Ok(0) | Err(_) => return Err(WriteFailed),
            Ok(taken) => {
                let (_, left) = rest.split_at(taken);
                rest = left;
            }
        }
    }
    Ok(())
}

/// Writes a line with its line feed.
pub(crate) fn write_line<W: Write>(line: &Line, out: &mut W) -> Result<(), WriteFailed>
    ensures whole { OnOk result (PrintsLine (W.contents out.old) (W.contents out.new) (line_text line.now)) }
    ensures begun { AppendsBeginning (W.contents out.old) (W.contents out.new) (as_line (line_text line.now)) }
{
    write_whole(&line.bytes(), out)
}

/// Has the writer pass on what it holds.
pub(crate) fn flush<W: Write>(out: &mut W) -> Result<(), WriteFailed>
    ensures { Keeps (W.contents out.old) (W.contents out.new) }
{
    out.flush().map_err(|_| WriteFailed)
}

/// Writes a text, and has the writer pass it on.
pub(crate) fn print<W: Write>(text: &[u8], out: &mut W) -> Result<(), WriteFailed>
    ensures whole { OnOk result (Appends (W.contents out.old) (W.contents out.new) text.now) }
    ensures begun { AppendsBeginning (W.contents out.old) (W.contents out.new) text.now }
{
    write_whole(text, out)?;
    flush(out)
}
