//! Why things get no numbers.

use lk_base::NoMemory;
use std::alloc::AllocFailed;

/// Why things get no numbers.
#[derive(Clone, Copy, PartialEq, Eq)]
pub enum CountFault {
    /// There are too many of them.
    TooMany,
    /// There is not enough memory.
    NoMemory,
}

impl From<NoMemory> for CountFault {
    ghost use Rattle.std.specs.Prelude.{◌≡◌};
    ghost use Rattle.lk_lower_unit.specs.declared.fault.CountFault.TheVariants.{NoMemory};

    ghost from_gives = { λ _ fault. fault ≡ NoMemory };

    fn from(_error: NoMemory) -> CountFault {
        CountFault::NoMemory
    }
}

impl<T: Drop> From<AllocFailed<T>> for CountFault {
    ghost use Rattle.std.specs.Prelude.{◌≡◌};
    ghost use Rattle.lk_lower_unit.specs.declared.fault.CountFault.TheVariants.{NoMemory};

    ghost from_gives = { λ _ fault. fault ≡ NoMemory };

    fn from(_error: AllocFailed<T>) -> CountFault {
        CountFault::NoMemory
    }
}
