//! Why a program gets no verdicts.

use lk_base::NoMemory;
use lk_label::LabelFault;

/// Why a program gets no verdicts.
#[derive(Clone, Copy, PartialEq, Eq)]
pub enum SolveFault {
    /// It has more than 65,536 labels.
    TooManyLabels,
    /// There is not enough memory.
    NoMemory,
}

impl From<NoMemory> for SolveFault {
    ghost use Rattle.std.specs.Prelude.{◌≡◌};
    ghost use Rattle.lk_solve.specs.declared.fault.SolveFault.TheVariants.{NoMemory};

    ghost from_gives = { λ _ fault. fault ≡ NoMemory };

    fn from(_error: NoMemory) -> SolveFault {
        SolveFault::NoMemory
    }
}

impl From<LabelFault> for SolveFault {
    ghost use Rattle.std.specs.Prelude.{◌≡◌};
    ghost use Rattle.lk_solve.specs.Verdicts.{fault_of};

    ghost from_gives = { λ error fault. fault ≡ fault_of error };

    fn from(fault: LabelFault) -> SolveFault {
        match fault {
            LabelFault::TooMany => SolveFault::TooManyLabels,
            LabelFault::NoMemory => SolveFault::NoMemory,
        }
    }
}
