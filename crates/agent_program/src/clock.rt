//! The moment of an order.
ghost use Rattle.std.specs.Prelude.{◌≡◌, IfErr, IfOk, IfSome, Ok};
ghost use Rattle.agent_program.specs.Host.{IsOrderMoment};

use crate::errors::ProgramError;
use crate::host::Host;
use agent_cli::Order;
use schedule::Sec;

/// The moment that the words name, or else that of the clock.
pub fn moment_of<H: Host>(host: &H, order: &Order<'_>) -> Result<Sec, ProgramError>
    ensures named { IfSome order.entry.now.now (λ now. result ≡ Ok now) }
    ensures found { IfOk result (IsOrderMoment (H.shown host.now) order.entry.now.now) }
    ensures error { IfErr result (λ error. error ≡ ProgramError.Clock) }
{
    match order.now {
        Some(now) => Ok(now),
        None => host.now().ok_or(ProgramError::Clock),
    }
}
