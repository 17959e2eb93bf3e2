//! The standard streams.
ghost use Rattle.std.specs.Prelude.{IfErr};
ghost use Rattle.agent_program.specs.Errors.{IsOfVault};

use crate::errors::ProgramError;
use crate::host::Host;

/// What stands in for a stream that is closed: it is opened for reading, so that printing to it fails.
const NULL: &str = "/dev/null";

/// Takes the places of the standard streams that are closed, for as long as the files are held. Else a
/// file of the vault would be opened in such a place, and what is printed be written over it.
pub fn hold_streams<H: Host>(host: &H) -> Result<(H::Reader, H::Reader, H::Reader), ProgramError>
    ensures { IfErr result IsOfVault }
{
    Ok((open_null(host)?, open_null(host)?, open_null(host)?))
}

fn open_null<H: Host>(host: &H) -> Result<H::Reader, ProgramError>
    ensures { IfErr result IsOfVault }
{
    match host.open(NULL) {
        Ok(file) => Ok(file),
        Err(error) => Err(ProgramError::by_file(host.alloc(), NULL, error)),
    }
}
