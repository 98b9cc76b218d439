//! Which locks each function may release.
ghost use Rattle.std.specs.Prelude.{◌≡◌, ◌<◌, ℕ, true, ◌↔◌, [], length, replicate, ◌⊎◌, false, All, IfOk, OnOk};
ghost use Rattle.lk_facts.specs.Held.{Drops};
ghost use Rattle.lk_graph.specs.Graph.{AreAllBelow};
ghost use Rattle.lk_held.specs.Acts.{basis_in, OneRuns};
ghost use Rattle.lk_held.specs.Progress.{Progress};
ghost use Rattle.lk_held.specs.Releasing.{AreSets, Joins, Releases, Gains, HasReleased, AreReleased, AreDropped, IsOutside, room};
ghost use Rattle.lk_links.specs.Links.{AreLinks, links_at};
ghost use Rattle.lk_sets.specs.Ids.{has_id};

use crate::acts::Acts;
use lk_base::NoMemory;
use lk_links::{Link, has_all, outside};
use lk_sets::IdSet;
use std::alloc::Global;

/// Adds the numbers to a set of the list, and answers whether one was new.
fn add(sets: &mut Vec<IdSet>, place: u32, more: &IdSet) -> Result<bool, NoMemory>
    requires { place < length sets.old.items }
    ensures { IfOk result (Joins sets.old.items sets.new.items place more.now) }
{
    let set = &sets[place as usize];
    if has_all(set, more.ids()) {
        return Ok(false);
    }
    let joined = set.union(more)?;
    sets[place as usize] = joined;
    Ok(true)
}

/// So many empty sets.
fn empty_sets(alloc: Global, count: u32) -> Result<Vec<IdSet>, NoMemory>
    ensures { IfOk result (λ sets. sets.items ≡ replicate count []) }
{
    let mut sets = Vec::new(alloc);
    for _ in 0..count {
        sets.push(IdSet::empty(alloc))?;
    }
    Ok(sets)
}

impl Acts<'_, '_> {
    /// Adds what the function of a link releases, as it is outside it, where the link runs one.
    fn join_outside(
        &self,
        alloc: Global,
        link: &Link,
        released: &[IdSet],
        all: &mut IdSet,
    ) -> Result<(), NoMemory>
        requires below { link.now.below < length self.now.points.now.functions }
        requires sets { AreSets (basis_in self.now) released.now }
        requires all { All (λ x. x < length self.now.labels.now.entries) all.old }
        ensures members { OnOk result ((x : ℕ) → (has_id all.new x ≡ true)
            ↔ ((has_id all.old x ≡ true) ⊎ ((link.now.starts ≡ false)
            × IsOutside (basis_in self.now).flow (Releases released.now) x link.now))) }
        ensures in_range { OnOk result (All (λ x. x < length self.now.labels.now.entries) all.new) }
    {
        if link.starts {
            return Ok(());
        }
        let ids = released[link.below as usize].ids();
        let dropped = outside(alloc, self.facts, &link.way, ids)?;
        *all = all.union(&dropped)?;
        Ok(())
    }

    /// What the functions release that a point runs, as it is outside them.
    fn outside_callees(
        &self,
        alloc: Global,
        point: u32,
        released: &[IdSet],
    ) -> Result<IdSet, NoMemory>
        requires linked { AreLinks (basis_in self.now) self.now.links.now }
        requires point { point < length self.now.points.now.points }
        requires sets { AreSets (basis_in self.now) released.now }
        ensures members { IfOk result (λ ids. (x : ℕ) → (has_id ids x ≡ true)
            ↔ OneRuns (links_at self.now.links.now point)
            (IsOutside (basis_in self.now).flow (Releases released.now) x)) }
        ensures in_range { IfOk result (λ ids. All (λ x. x < length self.now.labels.now.entries) ids) }
    {
        let mut all = IdSet::empty(alloc);
        for link in self.links.at(point) {
            self.join_outside(alloc, link, released, &mut all)?;
        }
        Ok(all)
    }

    /// The labels that a point releases, where the sets say what functions release.
    fn drops(&self, alloc: Global, point: u32, released: &[IdSet]) -> Result<IdSet, NoMemory>
        requires linked { AreLinks (basis_in self.now) self.now.links.now }
        requires point { point < length self.now.points.now.points }
        requires released { AreSets (basis_in self.now) released.now }
        ensures members { IfOk result (λ ids. (x : ℕ) →
            (has_id ids x ≡ true) ↔ Drops (basis_in self.now) (Releases released.now) point x) }
        ensures in_range { IfOk result (λ ids. All (λ x. x < length self.now.labels.now.entries) ids) }
    {
        match self.frees(point) {
            Some(mutex) => {
                let set = IdSet::from_list(alloc, &[mutex.0])?;
                Ok(set)
            }
            None => self.outside_callees(alloc, point, released),
        }
    }

    /// Adds what a point releases to what its function does, and answers whether something was new.
    fn release(
        &self,
        alloc: Global,
        point: u32,
        released: &mut Vec<IdSet>,
    ) -> Result<bool, NoMemory>
        requires linked { AreLinks (basis_in self.now) self.now.links.now }
        requires point { point < length self.now.points.now.points }
        requires released { AreSets (basis_in self.now) released.old.items }
        ensures { IfOk result (Progress (room (length self.now.labels.now.entries))
            (Gains (basis_in self.now)) (HasReleased (basis_in self.now) point)
            released.old.items released.new.items) }
    {
        if !self.points.live(point) {
            return Ok(false);
        }
        let ids = self.drops(alloc, point, released)?;
        add(released, self.points.function(point), &ids)
    }

    /// Lets each point add what it releases, and answers whether something was new. In an order in which each
    /// function stands behind those that it runs, one round does it, recursion apart.
    fn release_each(
        &self,
        alloc: Global,
        order: &[u32],
        released: &mut Vec<IdSet>,
    ) -> Result<bool, NoMemory>
        requires linked { AreLinks (basis_in self.now) self.now.links.now }
        requires order { AreAllBelow (length self.now.points.now.points) order.now }
        requires sets { AreSets (basis_in self.now) released.old.items }
        ensures { IfOk result (Progress (room (length self.now.labels.now.entries))
            (Gains (basis_in self.now))
            (λ sets. (p : ℕ) → p < length self.now.points.now.points → HasReleased (basis_in self.now) p sets)
            released.old.items released.new.items) }
    {
        let mut changed = false;
        for point in order {
            changed |= self.release(alloc, *point, released)?;
        }
        Ok(changed)
    }

    /// For each function the labels that it may release, itself or in what it runs.
    pub(crate) fn released(&self, alloc: Global, order: &[u32]) -> Result<Vec<IdSet>, NoMemory>
        requires linked { AreLinks (basis_in self.now) self.now.links.now }
        requires order { AreAllBelow (length self.now.points.now.points) order.now }
        ensures { IfOk result (λ sets. AreReleased (basis_in self.now) sets.items) }
    {
        let mut released = empty_sets(alloc, self.points.functions())?;
        while self.release_each(alloc, order, &mut released)? {}
        Ok(released)
    }

    /// For each point the labels that it releases.
    pub(crate) fn dropped(&self, alloc: Global, released: &[IdSet]) -> Result<Vec<IdSet>, NoMemory>
        requires linked { AreLinks (basis_in self.now) self.now.links.now }
        requires released { AreReleased (basis_in self.now) released.now }
        ensures { IfOk result (λ sets.
            AreDropped (basis_in self.now) (length self.now.points.now.points) sets.items) }
    {
        let mut dropped = Vec::new(alloc);
        for point in 0..self.points.count() {
            dropped.push(self.drops(alloc, point, released)?)?;
        }
        Ok(dropped)
    }
}
