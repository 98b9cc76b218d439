//! Copies of operands and of the parts that they lead to.
ghost use Rattle.std.specs.Prelude.{◌≡◌, IfOk};
ghost use Rattle.std.specs.Option.{option_copied};
ghost use Rattle.lk_cells.specs.Places as places;

use lk_base::NoMemory;
use lk_cells::{State, part_of};
use lk_values::{Cell, Value};

/// The value of an operand, copied.
pub(crate) fn copied(value: Option<&Value>) -> Result<Option<Value>, NoMemory>
    ensures { IfOk result (λ copy. copy ≡ option_copied value.entry) }
{
    match value {
        Some(found) => {
            let copy = found.copy()?;
            Ok(Some(copy))
        }
        None => Ok(None),
    }
}

/// The part that a pointer leads to, copied.
pub(crate) fn copied_part(state: &State, value: Option<&Value>) -> Result<Option<Cell>, NoMemory>
    ensures { IfOk result (λ part. part ≡ places.part_of state.now (option_copied value.entry)) }
{
    match part_of(state, value) {
        Some(part) => {
            let copy = part.copy()?;
            Ok(Some(copy))
        }
        None => Ok(None),
    }
}
