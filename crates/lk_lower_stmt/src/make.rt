//! The steps of statements.
ghost use Rattle.std.specs.Prelude.{◌≡◌, IfOk, None};
ghost use Rattle.lk_facts.specs.declared.action.Action.TheVariants as does;
ghost use Rattle.lk_lower_expr.specs.Parts as parts;
ghost use Rattle.lk_lower_expr.specs.Statements as rules;

use lk_base::{NoMemory, Seq, Spot};
use lk_facts::Action;
use lk_lower_expr::Step;
use std::alloc::Global;

/// A step without a value.
pub(crate) fn step(alloc: Global, does: Action, spot: Spot, on: u32) -> Result<Step, NoMemory>
    ensures { IfOk result (λ is. is ≡ parts.step does None spot on) }
{
    Ok(Step {
        does,
        gives: None,
        next: Seq::new(vec![in alloc; on]?),
        spot,
    })
}

/// A step that goes on at `yes` where the value is neither zero nor null, else at `no`.
pub(crate) fn branch(
    alloc: Global,
    spot: Spot,
    value: u32,
    yes: u32,
    no: u32,
) -> Result<Step, NoMemory>
    ensures { IfOk result (λ is. is ≡ rules.branch spot value yes no) }
{
    Ok(Step {
        does: Action::Branch(value),
        gives: None,
        next: Seq::new(vec![in alloc; yes, no]?),
        spot,
    })
}
