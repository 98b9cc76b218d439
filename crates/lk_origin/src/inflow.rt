//! What flows through one site, label by label.
ghost use Rattle.std.specs.Prelude.{◌≡◌, ℕ, ◌++◌, ◌∷◌, [], ◌↔◌, true, All, Contains, IfOk, OnOk};
ghost use Rattle.std.specs.List.Sorted.{IsNonDecreasingBy, IsStrictlyIncreasing};
ghost use Rattle.lk_match.specs.declared.passage.Passage.{Passage};
ghost use Rattle.lk_sets.specs.Adding.{Adds, IsGiven};
ghost use Rattle.lk_sets.specs.Ids.{has_id};
ghost use Rattle.lk_origin.specs.Crossings.{IsPassageWithin};
ghost use Rattle.lk_origin.specs.Inflows.{Enters, IsOutside, inflow_of};
ghost use Rattle.lk_origin.specs.declared.inflow.Inflow.{Inflow};

use crate::crossing::ascending;
use lk_base::NoMemory;
use lk_match::Passage;
use lk_sets::{BitRows, IdSet};
use std::alloc::Global;

/// A label outside that flows through a site to a label inside.
#[derive(Clone, Copy)]
pub(crate) struct Inflow {
    /// The label inside.
    pub(crate) inside: u32,
    /// The label outside.
    pub(crate) outside: u32,
}

/// What flows through the site that these edges enter, what flows to one label together.
pub(crate) fn inflows(
    alloc: Global,
    entrances: &[Passage],
    levels: &BitRows,
) -> Result<Vec<Inflow>, NoMemory>
    requires { All (IsPassageWithin levels.now.size) entrances.now }
    ensures each { IfOk result (λ all. (x : Inflow) →
        Contains all.items x ↔ IsGiven (Enters levels.now) entrances.now x) }
    ensures sorted { IfOk result (λ all. IsNonDecreasingBy (λ inflow. inflow.inside) all.items) }
{
    let mut all = unsorted(alloc, entrances, levels)?;
    all.sort_by_key(|inflow| inflow.inside)?;
    Ok(all)
}

/// What flows through the site that these edges enter, edge by edge.
fn unsorted(alloc: Global, entrances: &[Passage], levels: &BitRows) -> Result<Vec<Inflow>, NoMemory>
    requires { All (IsPassageWithin levels.now.size) entrances.now }
    ensures { IfOk result (λ all. (x : Inflow) →
        Contains all.items x ↔ IsGiven (Enters levels.now) entrances.now x) }
{
    let mut all = Vec::new(alloc);
    for entrance in entrances {
        push_inflows(entrance, levels, &mut all)?;
    }
    Ok(all)
}

/// Puts what flows along an entrance to the labels in the level behind it behind the others.
fn push_inflows(entrance: &Passage, levels: &BitRows, all: &mut Vec<Inflow>) -> Result<(), NoMemory>
    requires { IsPassageWithin levels.now.size entrance.now }
    ensures { OnOk result (Adds (Enters levels.now entrance.now) all.old.items all.new.items) }
{
    for label in levels.row(entrance.to.0) {
        push_inflow(entrance, label, all)?;
    }
    Ok(())
}

/// Puts what flows along an entrance to a label inside behind the others.
fn push_inflow(entrance: &Passage, inside: u32, all: &mut Vec<Inflow>) -> Result<(), NoMemory>
    ensures { OnOk result (all.new.items ≡ all.old.items ++ inflow_of inside entrance.now.from ∷ []) }
{
    all.push(Inflow {
        inside,
        outside: entrance.from.0,
    })?;
    Ok(())
}

/// What flows to one label inside.
fn of_label(all: &[Inflow], label: u32) -> &[Inflow]
    requires { IsNonDecreasingBy (λ inflow. inflow.inside) all.now }
    ensures { (x : Inflow) → Contains result.now x ↔ (Contains all.now x × (x.inside ≡ label)) }
{
    let first = all.partition_point(|inflow| inflow.inside < label);
    let rest = &all[first..];
    &rest[..rest.partition_point(|inflow| inflow.inside <= label)]
}

/// The labels outside that flow to this label inside, in ascending order.
pub(crate) fn outside_at(alloc: Global, all: &[Inflow], label: u32) -> Result<IdSet, NoMemory>
    requires { IsNonDecreasingBy (λ inflow. inflow.inside) all.now }
    ensures sorted { IfOk result IsStrictlyIncreasing }
    ensures each { IfOk result (λ ids. (m : ℕ) →
        (has_id ids m ≡ true) ↔ Contains all.now (inflow_of label m)) }
{
    let mut list = Vec::new(alloc);
    for inflow in of_label(all, label) {
        push_outside(inflow, &mut list)?;
    }
    let ids = ascending(alloc, &list)?;
    Ok(ids)
}

/// Puts the label outside behind the others.
fn push_outside(inflow: &Inflow, list: &mut Vec<u32>) -> Result<(), NoMemory>
    ensures { OnOk result (Adds (IsOutside inflow.now) list.old.items list.new.items) }
{
    list.push(inflow.outside)?;
    Ok(())
}
