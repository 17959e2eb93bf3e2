//! Texts to a writer, one behind the other. No memory is taken.
ghost use Rattle.std.specs.Prelude.{◌++◌, OnOk};
ghost use Rattle.std.specs.Io.KnownBytes.{Appends};
ghost use Rattle.desk.specs.Lines.{AppendsBeginning};

use answer_lines::{WriteFailed, write_whole};
use std::io::Write;

/// Writes bytes, and then others.
pub(crate) fn write_two<W: Write>(
    first: &[u8],
    second: &[u8],
    writer: &mut W,
) -> Result<(), WriteFailed>
    ensures whole { OnOk result (Appends (W.contents writer.old) (W.contents writer.new) (first.now ++ second.now)) }
    ensures begun { AppendsBeginning (W.contents writer.old) (W.contents writer.new) (first.now ++ second.now) }
{
    write_whole(first, writer)?;
    write_whole(second, writer)
}

/// Writes bytes, and then two more texts.
pub(crate) fn write_three<W: Write>(
    first: &[u8],
    second: &[u8],
    third: &[u8],
    writer: &mut W,
) -> Result<(), WriteFailed>
    ensures whole { OnOk result (Appends (W.contents writer.old) (W.contents writer.new) (first.now ++ (second.now ++ third.now))) }
    ensures begun { AppendsBeginning (W.contents writer.old) (W.contents writer.new) (first.now ++ (second.now ++ third.now)) }
{
    write_whole(first, writer)?;
    write_two(second, third, writer)
}
