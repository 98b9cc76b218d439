//! What points lock, themselves or in what they run.
ghost use Rattle.std.specs.Prelude.{◌≡◌, ◌<◌, ◌↔◌, ◌⊎◌, ℕ, true, false, List, All, length, IfOk, OnOk};
ghost use Rattle.lk_held.specs.Releasing.{has_in};
ghost use Rattle.lk_facts.specs.Origins.{flow_of};
ghost use Rattle.lk_held.specs.Acts.{OneRuns};
ghost use Rattle.lk_links.specs.Links.{AreLinks, links_at};
ghost use Rattle.lk_order.specs.Acts.{basis_in, labels_in};
ghost use Rattle.lk_order.specs.Giving.{count_of, Has, Gives, IsOutside};
ghost use Rattle.lk_order.specs.Growing.{AreSets};
ghost use Rattle.lk_sets.specs.Ids.{has_id};

use crate::acts::Acts;
use lk_base::NoMemory;
use lk_facts::Facts;
use lk_links::{Link, outside};
use lk_sets::IdSet;
use std::alloc::Global;

/// By what sets of labels stand that say something of functions.
#[derive(Clone, Copy, PartialEq, Eq)]
pub(crate) enum By {
    /// By the numbers of the functions.
    Functions,
    /// By the points that are their exits.
    Exits,
}

/// Adds what labels of the function of a link are outside it, where the link runs one.
fn join_outside(
    alloc: Global,
    facts: &Facts<'_>,
    link: &Link,
    set: &IdSet,
    all: &mut IdSet,
) -> Result<(), NoMemory>
    requires set { All (λ x. x < length facts.now.labels.entries) set.now }
    requires all { All (λ x. x < length facts.now.labels.entries) all.old }
    ensures members { OnOk result ((x : ℕ) → (has_id all.new x ≡ true)
        ↔ ((has_id all.old x ≡ true) ⊎ ((link.now.starts ≡ false)
        × IsOutside (flow_of facts.now.origins) (λ g y. has_id set.now y ≡ true) x link.now))) }
    ensures in_range { OnOk result (All (λ x. x < length facts.now.labels.entries) all.new) }
{
    if link.starts {
        return Ok(());
    }
    let more = outside(alloc, facts, &link.way, set.ids())?;
    *all = all.union(&more)?;
    Ok(())
}

impl Acts<'_, '_> {
    /// The number by which the set of a function stands.
    fn number(&self, function: u32, by: By) -> u32
        requires { function < length self.now.points.now.functions }
        ensures in_range { result < count_of self.now.points.now by }
        ensures value { (sets : List (List ℕ)) (y : ℕ) → (has_in sets result y ≡ true)
            ↔ Has self.now.points.now by sets function y }
    {
        match by {
            By::Functions => function,
            By::Exits => self.points.exit(function),
        }
    }

    /// What the functions that a point runs have, as it is outside them.
    fn outside_callees(
        &self,
        alloc: Global,
        point: u32,
        sets: &[IdSet],
        by: By,
    ) -> Result<IdSet, NoMemory>
        requires linked { AreLinks (basis_in self.now) self.now.links.now }
        requires point { point < length self.now.points.now.points }
        requires sets { AreSets (count_of self.now.points.now by) (labels_in self.now) sets.now }
        ensures members { IfOk result (λ ids. (x : ℕ) → (has_id ids x ≡ true)
            ↔ OneRuns (links_at self.now.links.now point)
            (IsOutside (basis_in self.now).flow (Has self.now.points.now by sets.now) x)) }
        ensures in_range { IfOk result (λ ids. All (λ x. x < length self.now.labels.now.entries) ids) }
    {
        let mut all = IdSet::empty(alloc);
        for link in self.links.at(point) {
            let set = &sets[self.number(link.below, by) as usize];
            join_outside(alloc, self.facts, link, set, &mut all)?;
        }
        Ok(all)
    }

    /// The labels of the mutexes that a point locks, or that what it runs has, as it is outside.
    pub(crate) fn gives(
        &self,
        alloc: Global,
        point: u32,
        sets: &[IdSet],
        by: By,
    ) -> Result<IdSet, NoMemory>
        requires linked { AreLinks (basis_in self.now) self.now.links.now }
        requires point { point < length self.now.points.now.points }
        requires sets { AreSets (count_of self.now.points.now by) (labels_in self.now) sets.now }
        ensures members { IfOk result (λ ids. (x : ℕ) → (has_id ids x ≡ true)
            ↔ Gives (basis_in self.now) (Has self.now.points.now by sets.now) point x) }
        ensures in_range { IfOk result (λ ids. All (λ x. x < length self.now.labels.now.entries) ids) }
    {
        match self.locks(point) {
            Some(mutex) => {
                let set = IdSet::from_list(alloc, &[mutex.0])?;
                Ok(set)
            }
            None => self.outside_callees(alloc, point, sets, by),
        }
    }
}
