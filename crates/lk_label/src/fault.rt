//! Why there are no labels.

use lk_base::NoMemory;

/// Why a program gets no labels.
#[derive(Clone, Copy, PartialEq, Eq)]
pub enum LabelFault {
    /// There are more than 65,536 of them.
    TooMany,
    /// There is not enough memory.
    NoMemory,
}

impl From<NoMemory> for LabelFault {
    ghost use Rattle.std.specs.Prelude.{◌≡◌};
    ghost use Rattle.lk_label.specs.declared.fault.LabelFault.TheVariants.{NoMemory};

    ghost from_gives = { λ _ fault. fault ≡ NoMemory };

    fn from(_error: NoMemory) -> LabelFault {
        LabelFault::NoMemory
    }
}
