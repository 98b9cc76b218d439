//! Where `switch` leads (C99 6.8.4.2).
ghost use Rattle.std.specs.Prelude.{◌≡◌, ◌++◌, ◌∷◌, [], map, IfOk};
ghost use Rattle.lk_lower_expr.specs.Statements as rules;

use lk_base::{NoMemory, Seq, Spot};
use lk_facts::Action;
use lk_lower_expr::{Labelled, Step};
use lk_typed::SwitchCase;
use std::alloc::Global;

/// Where the labelled statement of a node begins; `other` where there is none.
fn begins_at(node: u32, labelled: &[Labelled], other: u32) -> u32
    ensures { result ≡ rules.begins_at node labelled.now other }
{
    for one in labelled {
        if one.node == node {
            return one.first;
        }
    }
    other
}

/// The values of the cases.
fn case_values(alloc: Global, cases: &[SwitchCase]) -> Result<Seq<i128>, NoMemory>
    ensures { IfOk result (λ values. values ≡ map rules.case_value cases.now) }
{
    let mut values = Vec::new(alloc);
    for one in cases {
        values.push(one.value)?;
    }
    Ok(Seq::new(values))
}

/// The points to which control goes: to each case, and last to the default or past the statement.
fn ways(
    alloc: Global,
    cases: &[SwitchCase],
    default: Option<u32>,
    labelled: &[Labelled],
    past: u32,
) -> Result<Seq<u32>, NoMemory>
    ensures { IfOk result (λ next. next ≡ map (λ one. rules.begins_at one.ordinal labelled.now past)
        cases.now ++
        (rules.default_of default labelled.now past ∷ [])) }
{
    let mut next = Vec::new(alloc);
    for one in cases {
        next.push(begins_at(one.ordinal, labelled, past))?;
    }
    let last = match default {
        None => past,
        Some(node) => begins_at(node, labelled, past),
    };
    next.push(last)?;
    Ok(Seq::new(next))
}

/// The step of `switch`.
pub(crate) fn switch_step(
    alloc: Global,
    spot: Spot,
    value: u32,
    cases: &[SwitchCase],
    default: Option<u32>,
    labelled: &[Labelled],
    past: u32,
) -> Result<Step, NoMemory>
    ensures { IfOk result (λ is. is ≡ rules.switch_step spot value cases.now default labelled.now past) }
{
    Ok(Step {
        does: Action::Switch {
            a: value,
            cases: case_values(alloc, cases)?,
        },
        gives: None,
        next: ways(alloc, cases, default, labelled, past)?,
        spot,
    })
}
