//! The ordinal behind another.
ghost use Rattle.std.specs.Prelude.{◌≡◌, ◌+◌, IfOk};

use lk_base::NoMemory;

/// The ordinal behind this one. No memory holds a tree that has more nodes than there are ordinals.
pub fn behind(ordinal: u32) -> Result<u32, NoMemory>
    ensures { IfOk result (λ next. next ≡ ordinal + 1) }
{
    match ordinal.checked_add(1) {
        Some(next) => Ok(next),
        None => Err(NoMemory),
    }
}
