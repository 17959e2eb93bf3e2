//! The file of a part that is put.
ghost use Rattle.std.specs.Prelude.{◌≡◌, IfErr, IfOk};
ghost use Rattle.agent_program.specs.Errors.{IsOfVault};
ghost use Rattle.agent_program.specs.Parts.{IsOrderRead, IsPartRead};

use crate::errors::ProgramError;
use crate::host::Host;
use agent_cli::{Deed, Order};
use std::alloc::Global;
use std::io::Read;

/// One byte more than a part may have: of a longer file no more is read, and it is refused for its size.
const READ_BYTES: u64 = 1_048_577;

/// The bytes of the file that a `put` names: all of them, or one more than a part may have. No other order
/// has any.
pub fn part_of<H: Host>(host: &H, order: &Order<'_>) -> Result<Vec<u8>, ProgramError>
    ensures read { IfOk result (λ bytes. IsOrderRead (H.BlockFiles.holds host.now) order.entry.now.deed bytes.items) }
    ensures error { IfErr result IsOfVault }
{
    match order.deed {
        Deed::Put { file } => read_file(host, file),
        _ => Ok(Vec::new(host.alloc())),
    }
}

/// The bytes of a file, up to the limit.
fn read_file<H: Host>(host: &H, path: &str) -> Result<Vec<u8>, ProgramError>
    ensures read { IfOk result (λ bytes. IsPartRead (H.BlockFiles.holds host.now path.now) bytes.items) }
    ensures error { IfErr result IsOfVault }
{
    match host.open(path) {
        Ok(file) => read_part(host.alloc(), path, file),
        Err(error) => Err(ProgramError::by_file(host.alloc(), path, error)),
    }
}

/// Reads the bytes of an open file, up to the limit.
fn read_part<R: Read + Drop>(alloc: Global, path: &str, part: R) -> Result<Vec<u8>, ProgramError>
    ensures read { IfOk result (λ bytes. IsPartRead (R.remaining part) bytes.items) }
    ensures error { IfErr result IsOfVault }
{
    let mut bytes = Vec::new(alloc);
    match part.take(READ_BYTES).read_to_end(&mut bytes) {
        Ok(_) => Ok(bytes),
        Err(error) => Err(ProgramError::by_file(alloc, path, error)),
    }
}
