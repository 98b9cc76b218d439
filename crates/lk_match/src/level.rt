//! Level, as the least relation that is closed over its own summary edges.
ghost use Rattle.std.specs.Prelude.{◌≡◌, ℕ, ◌==◌, ◌<◌, ◌≤◌, ◌&&◌, ◌||◌, nat_lt, ◌↔◌, ◌⊎◌, true, All, Contains, IfOk, OnOk, length};
ghost use Rattle.lk_sets.specs.Adding.{Adds, IsGiven};
ghost use Rattle.lk_sets.specs.Closing.{Going, Grows};
ghost use Rattle.lk_sets.specs.Rows.{has};
ghost use Rattle.lk_facts.specs.Labels.{is_global_at};
ghost use Rattle.lk_facts.specs.PathTables.{AreEdgesWithin, AreLevels};
ghost use Rattle.lk_match.specs.Levels.{IsPassedOn, AreSound, AreClosed};
ghost use Rattle.lk_match.specs.Summaries.{IsSummaryWithin, summary_of};
ghost use Rattle.lk_sets.specs.declared.spread.Arrow.{Arrow};

use crate::order::in_order;
use crate::summary::{SummaryEdge, summaries};
use lk_base::NoMemory;
use lk_facts::{Edge, Labels};
use lk_sets::{Arrow, BitRows};
use std::alloc::Global;

/// Which labels stand in Level: row a has each label to which a segment with balanced marks leads from the
/// label a, also a itself (LOCKSMITH: flow with calls and returns matched).
///
/// It rests on the summary edges over what is found so far, until these give nothing new.
pub fn levels(alloc: Global, edges: &[Edge], labels: &Labels) -> Result<BitRows, NoMemory>
    requires { AreEdgesWithin labels.now edges.now }
    ensures { IfOk result (AreLevels edges.now labels.now) }
{
    let mut rows = themselves(alloc, labels.count())?;
    while extend(alloc, edges, labels, &mut rows)? {}
    Ok(rows)
}

/// Each number below the size stands with itself.
fn themselves(alloc: Global, size: u32) -> Result<BitRows, NoMemory>
    requires { size ≤ 65536 }
    ensures size { IfOk result (λ rows. rows.size ≡ size) }
    ensures pairs { IfOk result (λ rows. (a b : ℕ) → has rows a b ≡ (nat_lt a size && a == b)) }
{
    let mut rows = BitRows::new(alloc, size)?;
    for number in 0..size {
        rows.put(number, number);
    }
    Ok(rows)
}

/// Lets the summary edges over what is found so far lead on, and answers whether a pair was new.
fn extend(
    alloc: Global,
    edges: &[Edge],
    labels: &Labels,
    rows: &mut BitRows,
) -> Result<bool, NoMemory>
    requires edges { AreEdgesWithin labels.now edges.now }
    requires size { rows.old.size ≡ length labels.now.entries }
    ensures { IfOk result (Going (AreSound edges.now (is_global_at labels.now))
        (AreClosed edges.now (is_global_at labels.now)) rows.old rows.new) }
{
    let found = summaries(alloc, edges, rows, labels)?;
    let arrows = arrows(alloc, &found, labels)?;
    let put = put_all(&found, rows);
    let passed = rows.spread_marked(alloc, &arrows)?;
    Ok(put | passed)
}

/// Puts the ends of each summary edge together, and answers whether a pair was new.
fn put_all(found: &[SummaryEdge], rows: &mut BitRows) -> bool
    requires { All (IsSummaryWithin rows.old.size) found.now }
    ensures pairs { (a b : ℕ) → (has rows.new a b ≡ true)
        ↔ ((has rows.old a b ≡ true) ⊎ Contains found.now (summary_of a b)) }
    ensures grows { Grows rows.old rows.new result }
{
    let mut changed = false;
    for summary in found {
        changed |= put_summary(summary, rows);
    }
    changed
}

/// Puts the ends of a summary edge together, and answers whether the pair was new.
fn put_summary(summary: &SummaryEdge, rows: &mut BitRows) -> bool
    requires { IsSummaryWithin rows.old.size summary.now }
    ensures pairs { (x y : ℕ) →
        has rows.new x y ≡ (has rows.old x y || x == summary.now.from && y == summary.now.to) }
    ensures grows { Grows rows.old rows.new result }
{
    rows.put(summary.from.0, summary.to.0)
}

/// An arrow back for each summary edge to a label that isn't global, so that what is reached from its end is
/// reached from where it begins.
fn arrows(alloc: Global, found: &[SummaryEdge], labels: &Labels) -> Result<Vec<Arrow>, NoMemory>
    requires { All (IsSummaryWithin (length labels.now.entries)) found.now }
    ensures { IfOk result (λ arrows. (x : Arrow) →
        Contains arrows.items x ↔ IsGiven (IsPassedOn (is_global_at labels.now)) found.now x) }
{
    let mut arrows = Vec::new(alloc);
    for summary in found {
        push_arrow(summary, labels, &mut arrows)?;
    }
    let ordered = in_order(alloc, labels.count(), arrows)?;
    Ok(ordered)
}

/// Puts the arrow of a summary edge behind the others, unless it ends at a global label.
fn push_arrow(
    summary: &SummaryEdge,
    labels: &Labels,
    arrows: &mut Vec<Arrow>,
) -> Result<(), NoMemory>
    requires { IsSummaryWithin (length labels.now.entries) summary.now }
    ensures { OnOk result
        (Adds (IsPassedOn (is_global_at labels.now) summary.now) arrows.old.items arrows.new.items) }
{
    if !labels.is_global(summary.to) {
        arrows.push(Arrow {
            from: summary.to.0,
            into: summary.from.0,
        })?;
    }
    Ok(())
}
