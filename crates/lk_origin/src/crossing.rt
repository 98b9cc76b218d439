//! What crosses each site.
ghost use Rattle.std.specs.Prelude.{◌≡◌, ℕ, ◌+◌, ◌++◌, ◌<◌, ◌≤◌, ◌^◌, ◌↔◌, true, All, IfOk, OnOk};
ghost use Rattle.std.specs.List.Sorted.{IsStrictlyIncreasing};
ghost use Rattle.lk_facts.specs.Origins.{outside_of, IsSetBelow, IsCrossingInRange};
ghost use Rattle.lk_facts.specs.PathTables.{IsEdgeWithin};
ghost use Rattle.lk_facts.specs.Paths.{HasEdge};
ghost use Rattle.lk_facts.specs.declared.edge.Mark.TheVariants.{Enter};
ghost use Rattle.lk_match.specs.declared.passage.Passage.{Passage};
ghost use Rattle.lk_sets.specs.Ids.{has_id};
ghost use Rattle.lk_sets.specs.Rows.{has, row_of};
ghost use Rattle.lk_sets.specs.Adding.{IsGiven};
ghost use Rattle.lk_origin.specs.Crossings.{IsPassageWithin, LeadsTo, LeadsInto, crossed_of};

use crate::inflow::{inflows, outside_at};
use lk_base::{NoMemory, Seq};
use lk_facts::{Crossing, Edge, Site};
use lk_match::{Passage, Side, of_site, passages};
use lk_sets::{BitRows, IdSet};
use std::alloc::Global;

/// What crosses each site, up to the last one that an edge enters.
pub(crate) fn crossings(
    alloc: Global,
    edges: &[Edge],
    levels: &BitRows,
) -> Result<Vec<Crossing>, NoMemory>
    requires { All (IsEdgeWithin levels.now.size) edges.now }
    ensures within { IfOk result (λ all. All (IsCrossingInRange levels.now.size) all.items) }
    ensures each { IfOk result (λ all. (i b m : ℕ) → (has_id (crossed_of all.items i b) m ≡ true)
        ↔ ((l : ℕ) × HasEdge edges.now m l (Enter i) × (has levels.now l b ≡ true))) }
{
    let entrances = passages(alloc, edges, Side::Into)?;
    let mut all = Vec::new(alloc);
    for site in 0..site_count(&entrances) {
        let crossing = crossing(alloc, of_site(&entrances, Site(site as u32)), levels)?;
        all.push(crossing)?;
    }
    Ok(all)
}

/// One more than the greatest site that is passed, or none where none is.
fn site_count(entrances: &[Passage]) -> usize
    ensures bound { result ≤ 2 ^ 32 }
    ensures each { All (λ passage. passage.site < result) entrances.now }
{
    let mut count = 0;
    for entrance in entrances {
        count = past(entrance, count);
    }
    count
}

/// The count, or one more than the site of an entrance where that is greater.
fn past(entrance: &Passage, count: usize) -> usize
    requires { count ≤ 2 ^ 32 }
    ensures bound { result ≤ 2 ^ 32 }
    ensures before { count ≤ result }
    ensures here { entrance.now.site < result }
{
    count.max(entrance.site.0 as usize + 1)
}

/// What crosses the site that these edges enter.
fn crossing(alloc: Global, entrances: &[Passage], levels: &BitRows) -> Result<Crossing, NoMemory>
    requires { All (IsPassageWithin levels.now.size) entrances.now }
    ensures within { IfOk result (IsCrossingInRange levels.now.size) }
    ensures each { IfOk result (λ crossing. (b m : ℕ) → (has_id (outside_of crossing b) m ≡ true)
        ↔ IsGiven (LeadsInto levels.now b) entrances.now m) }
{
    let inside = reached(alloc, entrances, levels)?;
    let inflows = inflows(alloc, entrances, levels)?;
    let mut outside = Vec::new(alloc);
    for label in inside.ids() {
        let labels = outside_at(alloc, &inflows, *label)?;
        outside.push(labels)?;
    }
    Ok(Crossing {
        inside,
        outside: Seq::new(outside),
    })
}

/// The labels inside that something flows to, in ascending order.
fn reached(alloc: Global, entrances: &[Passage], levels: &BitRows) -> Result<IdSet, NoMemory>
    requires { All (IsPassageWithin levels.now.size) entrances.now }
    ensures within { IfOk result (IsSetBelow levels.now.size) }
    ensures each { IfOk result (λ ids. (b : ℕ) →
        (has_id ids b ≡ true) ↔ IsGiven (LeadsTo levels.now) entrances.now b) }
{
    prove!(levels.size() as usize <= 65536);
    let mut list = Vec::new(alloc);
    for entrance in entrances {
        push_row(entrance, levels, &mut list)?;
    }
    let ids = ascending(alloc, &list)?;
    Ok(ids)
}

/// Puts the labels in the level behind an entrance behind the others.
fn push_row(entrance: &Passage, levels: &BitRows, list: &mut Vec<u32>) -> Result<(), NoMemory>
    requires { IsPassageWithin levels.now.size entrance.now }
    ensures { OnOk result (list.new.items ≡ list.old.items ++ row_of levels.now entrance.now.to) }
{
    for label in levels.row(entrance.to.0) {
        list.push(label)?;
    }
    Ok(())
}

/// The numbers of a list, as a set.
pub(crate) fn ascending(alloc: Global, list: &[u32]) -> Result<IdSet, NoMemory>
    ensures each { IfOk result (λ ids. (x : ℕ) → has_id ids x ≡ has_id list.now x) }
    ensures sorted { IfOk result IsStrictlyIncreasing }
{
    IdSet::from_list(alloc, list)
}
