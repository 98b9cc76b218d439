//! All and Inner, as the least relations that origins flow into.
ghost use Rattle.std.specs.Prelude.{◌≡◌, ℕ, ◌==◌, ◌&&◌, ◌||◌, ◌<◌, true, List, All, IfOk, OnOk, length};
ghost use Rattle.lk_facts.specs.Labels.{is_origin_at};
ghost use Rattle.lk_facts.specs.Origins.{flow_of};
ghost use Rattle.lk_facts.specs.PathTables.{AreEdgesWithin, AreLevels, IsFlowOf};
ghost use Rattle.lk_sets.specs.Rows.{has};
ghost use Rattle.lk_sets.specs.Spread.{IsWithin};
ghost use Rattle.lk_origin.specs.Flowing.{Flowed};
ghost use Rattle.lk_facts.specs.declared.edge.Edge.{Edge};

use crate::arrows::arrows;
use crate::crossing::crossings;
use crate::taking::{take_all, take_globals};
use lk_base::NoMemory;
use lk_facts::{Edge, Label, Labels, Origins};
use lk_match::{Side, summaries};
use lk_sets::{Arrow, BitRows};
use std::alloc::Global;

/// The origins that may flow to each label, those that do so from within its function or through a global
/// label, and the labels that flow into each site, where `levels` has Level of the edges (LOCKSMITH: label
/// flow, with calls and returns matched).
pub fn origins(
    alloc: Global,
    edges: &[Edge],
    levels: &BitRows,
    labels: &Labels,
) -> Result<Origins, NoMemory>
    requires edges { AreEdgesWithin labels.now edges.now }
    requires levels { AreLevels edges.now labels.now levels.now }
    ensures size { IfOk result (λ origins. origins.all.size ≡ length labels.now.entries) }
    ensures flow { IfOk result (λ origins. IsFlowOf edges.now labels.now (flow_of origins)) }
{
    prove!(levels.size() == labels.count());
    let found = summaries(alloc, edges, levels, labels)?;
    let rising = arrows(alloc, labels.count(), &found, edges, Side::OutOf)?;
    let falling = arrows(alloc, labels.count(), &found, edges, Side::Into)?;
    let mut inner = starts(alloc, labels)?;
    let mut all = BitRows::new(alloc, labels.count())?;
    while flow(alloc, &rising, &falling, labels, &mut inner, &mut all)? {}
    let crossings = crossings(alloc, edges, levels)?;
    Ok(Origins::new(all, inner, crossings))
}

/// Each origin stands with itself.
fn starts(alloc: Global, labels: &Labels) -> Result<BitRows, NoMemory>
    ensures size { IfOk result (λ rows. rows.size ≡ length labels.now.entries) }
    ensures origins { IfOk result (λ rows. (o : ℕ) → is_origin_at labels.now o ≡ true → has rows o o ≡ true) }
    ensures alone { IfOk result (λ rows. (b o : ℕ) →
        has rows b o ≡ true → (is_origin_at labels.now b ≡ true) × (b ≡ o)) }
{
    let mut rows = BitRows::new(alloc, labels.count())?;
    for number in 0..labels.count() {
        put_start(number, labels, &mut rows);
    }
    Ok(rows)
}

/// Lets a label stand with itself where it is an origin.
fn put_start(number: u32, labels: &Labels, rows: &mut BitRows)
    requires number { number < length labels.now.entries }
    requires size { rows.old.size ≡ length labels.now.entries }
    ensures size { rows.new.size ≡ rows.old.size }
    ensures pairs { (b o : ℕ) →
        has rows.new b o ≡ (has rows.old b o || (b == number && is_origin_at labels.now b && b == o)) }
{
    if labels.is_origin(Label(number)) {
        rows.put(number, number);
    }
}

/// Lets origins rise out of sites, then fall into sites, and then rise again from global labels. It answers
/// whether an origin was new at one of these.
fn flow(
    alloc: Global,
    rising: &[Arrow],
    falling: &[Arrow],
    labels: &Labels,
    inner: &mut BitRows,
    all: &mut BitRows,
) -> Result<bool, NoMemory>
    requires rising { All (IsWithin (length labels.now.entries)) rising.now }
    requires falling { All (IsWithin (length labels.now.entries)) falling.now }
    requires inner { inner.old.size ≡ length labels.now.entries }
    requires all { all.old.size ≡ length labels.now.entries }
    ensures size { OnOk result (all.new.size ≡ all.old.size) }
    ensures flowed { IfOk result (λ changed. (es : List Edge) →
        Flowed es labels.now rising.now falling.now inner.old all.old inner.new all.new changed) }
{
    inner.spread_marked(alloc, rising)?;
    take_all(inner, all);
    all.spread_marked(alloc, falling)?;
    Ok(take_globals(all, labels, inner))
}
