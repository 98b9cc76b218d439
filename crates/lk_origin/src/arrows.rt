//! The arrows along which origins flow.
ghost use Rattle.std.specs.Prelude.{◌≡◌, ◌↔◌, Contains, IfOk, OnOk};
ghost use Rattle.lk_sets.specs.Adding.{Adds, IsGiven};
ghost use Rattle.lk_origin.specs.Arrows.{passes, IsAlong, Flows, IsArrow};
ghost use Rattle.lk_sets.specs.declared.spread.Arrow.{Arrow};

use lk_base::NoMemory;
use lk_facts::{Edge, Mark};
use lk_match::{Side, SummaryEdge, in_order};
use lk_sets::Arrow;
use std::alloc::Global;

/// An arrow for each summary edge, and for each edge that passes a site this way, among so many labels.
pub(crate) fn arrows(
    alloc: Global,
    count: u32,
    summaries: &[SummaryEdge],
    edges: &[Edge],
    side: Side,
) -> Result<Vec<Arrow>, NoMemory>
    ensures { IfOk result (λ arrows. (x : Arrow) →
        Contains arrows.items x ↔ Flows side summaries.now edges.now x) }
{
    let mut arrows = along(alloc, summaries)?;
    for edge in edges {
        push_passing(edge, side, &mut arrows)?;
    }
    let ordered = in_order(alloc, count, arrows)?;
    Ok(ordered)
}

/// An arrow for each summary edge.
fn along(alloc: Global, summaries: &[SummaryEdge]) -> Result<Vec<Arrow>, NoMemory>
    ensures { IfOk result (λ arrows. (x : Arrow) →
        Contains arrows.items x ↔ IsGiven IsAlong summaries.now x) }
{
    let mut arrows = Vec::new(alloc);
    for summary in summaries {
        push_along(summary, &mut arrows)?;
    }
    Ok(arrows)
}

/// Puts the arrow along a summary edge behind the others.
fn push_along(summary: &SummaryEdge, arrows: &mut Vec<Arrow>) -> Result<(), NoMemory>
    ensures { OnOk result (Adds (IsAlong summary.now) arrows.old.items arrows.new.items) }
{
    arrows.push(Arrow {
        from: summary.from.0,
        into: summary.to.0,
    })?;
    Ok(())
}

/// Puts the arrow along an edge behind the others, where it passes a site this way.
fn push_passing(edge: &Edge, side: Side, arrows: &mut Vec<Arrow>) -> Result<(), NoMemory>
    ensures { OnOk result (Adds (IsArrow side edge.now) arrows.old.items arrows.new.items) }
{
    if passes(side, edge.mark) {
        arrows.push(Arrow {
            from: edge.from.0,
            into: edge.to.0,
        })?;
    }
    Ok(())
}

/// Whether an edge with this mark passes a site this way.
fn passes(side: Side, mark: Mark) -> bool
    ensures { result ≡ passes side mark }
{
    match mark {
        Mark::Plain => false,
        Mark::Enter(_) => side == Side::Into,
        Mark::Leave(_) => side == Side::OutOf,
    }
}
