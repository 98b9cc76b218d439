//! Summary edges.
ghost use Rattle.std.specs.Prelude.{◌≡◌, true, ◌<◌, ◌↔◌, All, Contains, IfOk, OnOk, length};
ghost use Rattle.std.specs.List.Sorted.{IsNonDecreasingBy};
ghost use Rattle.lk_sets.specs.Adding.{Adds};
ghost use Rattle.lk_sets.specs.Rows.{has};
ghost use Rattle.lk_facts.specs.Labels.{is_global_at};
ghost use Rattle.lk_facts.specs.PathRules.{Summary};
ghost use Rattle.lk_facts.specs.Paths.{HasEdge};
ghost use Rattle.lk_facts.specs.PathTables.{AreEdgesWithin, IsEdgeWithin};
ghost use Rattle.lk_match.specs.Summaries.{IsSummaryWithin, Ends, IsMatched, GivesSummary};
ghost use Rattle.lk_match.specs.declared.summary.SummaryEdge.{SummaryEdge};

use crate::passage::{Passage, Side, of_site, passages};
use lk_base::NoMemory;
use lk_facts::{Edge, Label, Labels, Mark};
use lk_sets::BitRows;
use std::alloc::Global;

/// A summary edge: a Plain edge, or a call and return at one site with the level
/// between them inside (LOCKSMITH).
#[derive(Clone, Copy, PartialEq, Eq)]
pub struct SummaryEdge {
    /// Where it begins.
    pub from: Label,
    /// Where it ends.
    pub to: Label,
}

/// The summary edges over a relation that holds levels, perhaps not all yet. One
/// may stand there several times.
pub fn summaries(
    alloc: Global,
    edges: &[Edge],
    levels: &BitRows,
    labels: &Labels,
) -> Result<Vec<SummaryEdge>, NoMemory>
    requires edges { AreEdgesWithin labels.now edges.now }
    requires size { levels.now.size ≡ length labels.now.entries }
    ensures each { IfOk result (λ found. (s : SummaryEdge) → Contains found.items s
        ↔ Summary (HasEdge edges.now) (is_global_at labels.now)
        (λ x y. has levels.now x y ≡ true) s.from s.to) }
    ensures within { IfOk result (λ found. All (IsSummaryWithin levels.now.size) found.items) }
{
    let leavings = passages(alloc, edges, Side::OutOf)?;
    let mut found = Vec::new(alloc);
    for edge in edges {
        push_summaries(edge, &leavings, levels, labels, &mut found)?;
    }
    Ok(found)
}

/// Puts the summary edges that an edge gives behind the others.
fn push_summaries(
    edge: &Edge,
    leavings: &[Passage],
    levels: &BitRows,
    labels: &Labels,
    found: &mut Vec<SummaryEdge>,
) -> Result<(), NoMemory>
    requires edge { IsEdgeWithin levels.now.size edge.now }
    requires within { All (λ leaving. leaving.from < levels.now.size) leavings.now }
    requires sorted { IsNonDecreasingBy (λ leaving. leaving.site) leavings.now }
    requires size { levels.now.size ≡ length labels.now.entries }
    ensures { OnOk result (Adds
        (GivesSummary (is_global_at labels.now) levels.now leavings.now
        edge.now.from edge.now.to edge.now.mark)
        found.old.items found.new.items) }
{
    match edge.mark {
        Mark::Plain => found.push(SummaryEdge {
            from: edge.from,
            to: edge.to,
        })?,
        Mark::Enter(site) => push_matched(
            edge.from,
            edge.to,
            of_site(leavings, site),
            levels,
            labels,
            found,
        )?,
        Mark::Leave(_) => {}
    }
    Ok(())
}

/// Puts a summary edge behind the others for each of these Leave edges that ends what was
/// entered at the label inside.
fn push_matched(
    from: Label,
    inside: Label,
    leavings: &[Passage],
    levels: &BitRows,
    labels: &Labels,
    found: &mut Vec<SummaryEdge>,
) -> Result<(), NoMemory>
    requires inside { inside < levels.now.size }
    requires within { All (λ leaving. leaving.from < levels.now.size) leavings.now }
    requires size { levels.now.size ≡ length labels.now.entries }
    ensures { OnOk result (Adds (IsMatched (is_global_at labels.now) levels.now leavings.now from inside)
        found.old.items found.new.items) }
{
    if labels.is_global(inside) {
        return Ok(());
    }
    for leaving in leavings {
        push_ended(from, inside, leaving, levels, labels, found)?;
    }
    Ok(())
}

/// Puts the summary edge that ends with this Leave edge behind the others, where that ends what was entered.
fn push_ended(
    from: Label,
    inside: Label,
    leaving: &Passage,
    levels: &BitRows,
    labels: &Labels,
    found: &mut Vec<SummaryEdge>,
) -> Result<(), NoMemory>
    requires inside { inside < levels.now.size }
    requires within { leaving.now.from < levels.now.size }
    requires size { levels.now.size ≡ length labels.now.entries }
    ensures { OnOk result (Adds (Ends (is_global_at labels.now) levels.now from inside leaving.now)
        found.old.items found.new.items) }
{
    if labels.is_global(leaving.from) || !levels.has(inside.0, leaving.from.0) {
        return Ok(());
    }
    found.push(SummaryEdge {
        from,
        to: leaving.to,
    })?;
    Ok(())
}
