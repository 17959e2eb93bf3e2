//! The report of a registry.
ghost use Rattle.std.specs.Prelude.{OnErr, OnOk};
ghost use Rattle.std.specs.Io.KnownBytes.{Appends};
ghost use Rattle.desk.specs.Lines.{AppendsBeginning, report_text};

use crate::lines::write_line;
use crate::notices::Notice;
use std::error::Error;
use std::fmt;
use std::io::Write;

/// The writer failed, or took nothing.
#[derive(Clone, Copy, Debug, PartialEq, Eq, Hash)]
pub struct Fault;

impl fmt::Display for Fault {
    ghost use Rattle.std.specs.Prelude.{Some, codes};

    ghost output = { λ _. Some (codes "write failed") };

    fn fmt<W: fmt::Write>(&self, f: &mut fmt::Formatter<W>) -> fmt::Result {
        f.write_str("write failed")
    }
}

impl Error for Fault {}

// Writes all bytes, unless the writer fails or takes nothing.
fn write_bytes<W: Write>(bytes: &[u8], out: &mut W) -> Result<(), Fault>
    ensures whole { OnOk result (Appends (W.contents out.old) (W.contents out.new) bytes.now) }
    ensures begun { OnErr result (AppendsBeginning (W.contents out.old) (W.contents out.new) bytes.now) }
{
    let mut rest = bytes;
    while !rest.is_empty() {
        match out.write(rest) {
            Ok(0) | Err(_) => return Err(Fault),
            Ok(taken) => {
                let (_, left) = rest.split_at(taken);
                rest = left;
            }
        }
    }
    Ok(())
}

/// Writes the line of each notice, in their order.
///
/// # Errors
///
/// A writer that fails or takes nothing, which an interrupted call counts as. What it took is a beginning of the report.
pub fn report<W: Write>(notices: &[Notice], out: &mut W) -> Result<(), Fault>
    ensures whole { OnOk result (Appends (W.contents out.old) (W.contents out.new) (report_text notices.now)) }
    ensures begun { OnErr result (AppendsBeginning (W.contents out.old) (W.contents out.new) (report_text notices.now)) }
{
    for notice in notices {
        write_bytes(&write_line(notice), out)?;
    }
    Ok(())
}
