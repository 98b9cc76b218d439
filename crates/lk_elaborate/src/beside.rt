//! Values beside one another.
ghost use Rattle.std.specs.Prelude.{◌≡◌, IfOk, Ok};

use lk_base::NoMemory;

/// A value that was made, with one beside it. It is generic, so that what stands beside is let go in one
/// place where the value wasn't made.
pub(crate) fn beside<A: Drop, B: Drop>(
    made: Result<A, NoMemory>,
    other: B,
) -> Result<(A, B), NoMemory>
    ensures made { IfOk result (λ both. made ≡ Ok both.0) }
    ensures other { IfOk result (λ both. both.1 ≡ other) }
{
    let made = made?;
    Ok((made, other))
}
