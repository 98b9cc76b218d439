//! Why a program gets no points.

use lk_base::NoMemory;
use std::alloc::AllocFailed;

/// Why a program gets no points.
#[derive(Clone, Copy, PartialEq, Eq)]
pub enum LowerFault {
    /// It would have more than 65,536 points.
    TooManyPoints,
    /// Its locations and lock places together are more than 65,536.
    TooManyPlaces,
    /// There is not enough memory.
    NoMemory,
}

impl From<NoMemory> for LowerFault {
    ghost use Rattle.std.specs.Prelude.{◌≡◌};
    ghost use Rattle.lk_lower_parts.specs.declared.fault.LowerFault.TheVariants.{NoMemory};

    ghost from_gives = { λ _ fault. fault ≡ NoMemory };

    fn from(_error: NoMemory) -> LowerFault {
        LowerFault::NoMemory
    }
}

impl<T: Drop> From<AllocFailed<T>> for LowerFault {
    ghost use Rattle.std.specs.Prelude.{◌≡◌};
    ghost use Rattle.lk_lower_parts.specs.declared.fault.LowerFault.TheVariants.{NoMemory};

    ghost from_gives = { λ _ fault. fault ≡ NoMemory };

    fn from(_error: AllocFailed<T>) -> LowerFault {
        LowerFault::NoMemory
    }
}
