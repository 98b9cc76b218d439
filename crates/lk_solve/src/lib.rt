//! The whole analysis of a program, from what is known of it to a verdict for each location.
#![tactic(auto)]

mod fault;
mod points;

ghost use Rattle.std.specs.Prelude.{IfOk};
ghost use Rattle.lk_facts.specs.Analysis.{AreVerdictsOf};
ghost use Rattle.lk_facts.specs.Facts.{basis_of};
ghost use Rattle.lk_graph.specs.Single.{ArePlaceNodes};

pub use fault::SolveFault;
use lk_base::NoMemory;
use lk_conflict::conflicts;
use lk_facts::{Facts, Verdict};
use lk_graph::{after, linear, many};
use lk_held::held;
use lk_items::items;
use lk_verdicts::verdicts;
pub use points::{flow, verdicts_of};
use std::alloc::Global;

/// The verdict of each location of a program, in their order. Each location and lock place is a node of the
/// program's types. Want of memory is its one fault.
pub fn solve(alloc: Global, facts: &Facts<'_>) -> Result<Vec<Verdict>, NoMemory>
    requires { ArePlaceNodes facts.now.program }
    ensures { IfOk result (λ found. AreVerdictsOf (basis_of facts.now) found.items) }
{
    let points = facts.points();
    let after = after(alloc, points)?;
    let held = held(alloc, facts)?;
    let items = items(alloc, facts, &held)?;
    let races = conflicts(alloc, facts, &held, &items, &after)?;
    let many = many(alloc, points)?;
    let linear = linear(alloc, points, &many)?;
    let found = verdicts(alloc, facts, &races, &linear)?;
    Ok(found)
}
