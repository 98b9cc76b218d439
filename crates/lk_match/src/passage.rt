//! The edges into sites or out of them, site by site.
ghost use Rattle.std.specs.Prelude.{◌≡◌, ℕ, ◌↔◌, Contains, IfOk, OnOk, MatchOption};
ghost use Rattle.std.specs.List.Sorted.{IsNonDecreasingBy};
ghost use Rattle.lk_sets.specs.Adding.{Adds, IsGiven};
ghost use Rattle.lk_match.specs.Passages.{mark_of, IsPassage};
ghost use Rattle.lk_match.specs.declared.passage.Passage.{Passage};

use lk_base::NoMemory;
use lk_facts::{Edge, Label, Mark, Site};
use std::alloc::Global;

/// Which way an edge passes a site.
#[derive(Clone, Copy, PartialEq, Eq)]
pub enum Side {
    /// Into it: by an Enter.
    Into,
    /// Out of it: by a Leave.
    OutOf,
}

/// An edge that passes a site.
#[derive(Clone, Copy, PartialEq, Eq)]
pub struct Passage {
    /// The site that it passes.
    pub site: Site,
    /// The label where it begins.
    pub from: Label,
    /// The label where it ends.
    pub to: Label,
}

/// The edges that pass a site this way, those of one site together.
pub fn passages(alloc: Global, edges: &[Edge], side: Side) -> Result<Vec<Passage>, NoMemory>
    ensures each { IfOk result (λ all. (x : Passage) →
        Contains all.items x ↔ IsGiven (IsPassage side) edges.now x) }
    ensures sorted { IfOk result (λ all. IsNonDecreasingBy (λ passage. passage.site) all.items) }
{
    let mut all = unsorted(alloc, edges, side)?;
    all.sort_by_key(|passage| passage.site.0)?;
    Ok(all)
}

/// The edges that pass a site this way, in the order of all edges.
fn unsorted(alloc: Global, edges: &[Edge], side: Side) -> Result<Vec<Passage>, NoMemory>
    ensures { IfOk result (λ all. (x : Passage) →
        Contains all.items x ↔ IsGiven (IsPassage side) edges.now x) }
{
    let mut all = Vec::new(alloc);
    for edge in edges {
        push_passage(edge, side, &mut all)?;
    }
    Ok(all)
}

/// Puts an edge that passes a site this way behind the others.
fn push_passage(edge: &Edge, side: Side, all: &mut Vec<Passage>) -> Result<(), NoMemory>
    ensures { OnOk result (Adds (IsPassage side edge.now) all.old.items all.new.items) }
{
    match site_passed(side, edge.mark) {
        None => {}
        Some(site) => all.push(Passage {
            site,
            from: edge.from,
            to: edge.to,
        })?,
    }
    Ok(())
}

/// The site that an edge with this mark passes this way, or nothing where it passes none.
fn site_passed(side: Side, mark: Mark) -> Option<Site>
    ensures { MatchOption result ((i : ℕ) → mark ≡ mark_of side i → ⊥) (λ i. mark ≡ mark_of side i) }
{
    match (side, mark) {
        (Side::Into, Mark::Enter(site)) | (Side::OutOf, Mark::Leave(site)) => Some(site),
        (Side::Into, Mark::Plain | Mark::Leave(_)) | (Side::OutOf, Mark::Plain | Mark::Enter(_)) =>
            None,
    }
}

/// Those of one site.
pub fn of_site(all: &[Passage], site: Site) -> &[Passage]
    requires { IsNonDecreasingBy (λ passage. passage.site) all.now }
    ensures { (x : Passage) → Contains result.now x ↔ (Contains all.now x × (x.site ≡ site)) }
{
    let first = all.partition_point(|passage| passage.site.0 < site.0);
    let rest = &all[first..];
    &rest[..rest.partition_point(|passage| passage.site.0 <= site.0)]
}
