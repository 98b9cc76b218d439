//! Numbers of 32 bits.
ghost use Rattle.std.specs.Prelude.{◌≡◌, IfOk};

use lk_base::NoMemory;

/// The same number in 32 bits. `NoMemory` where it has more, which doesn't come: what is counted here stands
/// in tables and trees whose numbers have 32 bits.
pub(crate) fn narrow(number: usize) -> Result<u32, NoMemory>
    ensures { IfOk result (λ narrow. narrow ≡ number) }
{
    if number > u32::MAX as usize {
        return Err(NoMemory);
    }
    Ok(number as u32)
}
