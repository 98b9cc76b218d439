//! The turns of loops (C99 6.8.5).
ghost use Rattle.std.specs.Prelude.{◌≡◌, IfOk, OnOk, Some};
ghost use Rattle.lk_lower_expr.specs.Laid.{laid};
ghost use Rattle.lk_lower_expr.specs.Reads.{names_by, part_by};
ghost use Rattle.lk_lower_expr.specs.Statements as rules;

use crate::make::{branch, step};
use lk_base::{NoMemory, Spot};
use lk_facts::Action;
use lk_lower_expr::{Lowering, NamedStep, Step};
use lk_typed::TypedExpr;

/// Where a part begins; `other` where it is missing.
pub(crate) fn first_or(
    source: &Lowering<'_>,
    e: &Option<TypedExpr>,
    other: u32,
) -> Result<u32, NoMemory>
    ensures { IfOk result (λ point.
        point ≡ rules.first_or (rules.part_of (names_by source.now) e.now) other) }
{
    match e {
        None => Ok(other),
        Some(e) => source.first_of(e),
    }
}

/// Adds the steps of a part, where there is one.
pub(crate) fn push_given(
    source: &Lowering<'_>,
    e: &Option<TypedExpr>,
    on: u32,
    steps: &mut Vec<NamedStep>,
) -> Result<(), NoMemory>
    ensures { OnOk result (steps.new.items ≡
        laid (rules.goes_of (rules.part_of (names_by source.now) e.now) on) steps.old.items) }
{
    match e {
        None => Ok(()),
        Some(e) => source.push_steps(e, on, steps),
    }
}

/// The steps of a loop of its own: each turn begins at its condition, and goes on
/// to its body or past the loop.
pub(crate) fn turn_steps(
    source: &Lowering<'_>,
    spot: Spot,
    condition: &TypedExpr,
    body: u32,
    past: u32,
) -> Result<Vec<Step>, NoMemory>
    ensures { IfOk result (λ steps. steps.items ≡
        rules.for_steps spot (Some (part_by source.now condition.now)) body past) }
{
    let begins = source.first_of(condition)?;
    let value = source.value_of(condition)?;
    let turn = step(source.alloc, Action::Skip, spot, begins)?;
    let mut steps = vec![in source.alloc; turn]?;
    steps.push(branch(source.alloc, spot, value, body, past)?)?;
    Ok(steps)
}

/// The steps of `for` of its own: where it goes on in each turn, and its condition.
pub(crate) fn for_steps(
    source: &Lowering<'_>,
    spot: Spot,
    condition: &Option<TypedExpr>,
    body: u32,
    past: u32,
) -> Result<Vec<Step>, NoMemory>
    ensures { IfOk result (λ steps. steps.items ≡
        rules.for_steps spot (rules.part_of (names_by source.now) condition.now) body past) }
{
    match condition {
        None => {
            let is = step(source.alloc, Action::Skip, spot, body)?;
            Ok(vec![in source.alloc; is]?)
        }
        Some(condition) => turn_steps(source, spot, condition, body, past),
    }
}
