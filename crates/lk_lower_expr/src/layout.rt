//! The steps of a node, with their names.
ghost use Rattle.std.specs.Prelude.{◌≡◌, OnOk};
ghost use Rattle.lk_lower_expr.specs.Laid.{laid_from};

use crate::step::{NamedStep, Step};
use lk_base::NoMemory;

/// Puts the steps of a node at the end of others, each with its name.
pub fn lay(node: u32, steps: Vec<Step>, out: &mut Vec<NamedStep>) -> Result<(), NoMemory>
    ensures { OnOk result (out.new.items ≡ laid_from node 0 steps.items out.old.items) }
{
    let mut step = 0;
    for is in steps {
        out.push(NamedStep { node, step, is })?;
        step = step.checked_add(1).ok_or(NoMemory)?;
    }
    Ok(())
}
