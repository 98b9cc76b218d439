//! Which locks each way to a point lets go.
ghost use Rattle.std.specs.Prelude.{◌≡◌, ◌<◌, ◌&&◌, ◌↔◌, ℕ, true, false, Some, All, map, length, IfOk, OnOk};
ghost use Rattle.std.specs.List.{range_with_len};
ghost use Rattle.std.specs.List.Sorted.{IsStrictlyIncreasing};
ghost use Rattle.lk_facts.specs.Labels.{is_lock_at};
ghost use Rattle.lk_facts.specs.Program.{entry_of};
ghost use Rattle.lk_graph.specs.Graph.{AreAllBelow};
ghost use Rattle.lk_held.specs.Holding.{AreBrought, Meets, is_in};
ghost use Rattle.lk_held.specs.Progress.{Progress};
ghost use Rattle.lk_links.specs.Links.{AreLinks, links_at};
ghost use Rattle.lk_order.specs.Acts.{basis_in, points_in};
ghost use Rattle.lk_order.specs.Dropping.{AreLetGo, AreAfter, AreStates, Sheds, AreWithin, AreLost, Loses, HasPassed, AreDropped, first_set};
ghost use Rattle.lk_order.specs.Left.{is_left, left_weight};
ghost use Rattle.lk_sets.specs.Ids.{has_id, IsSetOf};

use crate::acts::Acts;
use crate::states::States;
use lk_base::NoMemory;
use lk_facts::Label;
use lk_links::{Link, risen};
use lk_sets::IdSet;
use std::alloc::Global;

/// What is in the set and in all sets before it, of which there may be none.
fn meet_all(before: &Option<IdSet>, set: IdSet) -> Result<IdSet, NoMemory>
    ensures { IfOk result (λ met. (x : ℕ) → has_id met x ≡ (has_id set x && is_in before.now x)) }
{
    match before {
        Some(old) => {
            let met = old.meet(&set)?;
            Ok(met)
        }
        None => Ok(set),
    }
}

impl Acts<'_, '_> {
    /// All labels that name a mutex.
    fn all_locks(&self, alloc: Global) -> Result<IdSet, NoMemory>
        ensures { IfOk result (IsSetOf (is_lock_at self.now.labels.now)) }
    {
        let mut ids = Vec::new(alloc);
        for label in 0..self.labels.count() {
            if self.labels.is_lock(Label(label)) {
                ids.push(label)?;
            }
        }
        let locks = IdSet::from_list(alloc, &ids)?;
        Ok(locks)
    }

    /// Takes away what the function of a link doesn't drop, as it is outside it, where the link runs one.
    fn meet_risen(
        &self,
        alloc: Global,
        link: &Link,
        states: &States,
        all: &mut Option<IdSet>,
    ) -> Result<(), NoMemory>
        requires below { link.now.below < length self.now.points.now.functions }
        requires states { AreStates (basis_in self.now) states.now }
        ensures starts { OnOk result (link.now.starts ≡ true → all.new ≡ all.old) }
        ensures runs { OnOk result (link.now.starts ≡ false
            → Meets (basis_in self.now) (is_left states.now) link.now all.old all.new) }
    {
        if link.starts {
            return Ok(());
        }
        let exit = self.points.exit(link.below);
        let ids = risen(alloc, self.facts, &link.way, states.at(exit).ids())?;
        let met = meet_all(all, ids)?;
        *all = Some(met);
        Ok(())
    }

    /// What each function drops that a point runs, as it is outside them, or nothing where it runs none.
    fn dropped_below(
        &self,
        alloc: Global,
        point: u32,
        states: &States,
    ) -> Result<Option<IdSet>, NoMemory>
        requires linked { AreLinks (basis_in self.now) self.now.links.now }
        requires point { point < length self.now.points.now.points }
        requires states { AreStates (basis_in self.now) states.now }
        ensures { IfOk result (AreBrought (basis_in self.now) (is_left states.now)
            (links_at self.now.links.now point)) }
    {
        let mut all = None;
        for link in self.links.at(point) {
            self.meet_risen(alloc, link, states, &mut all)?;
        }
        Ok(all)
    }

    /// The names of locks that a point lets go, itself or in what it runs.
    fn let_go_at(&self, alloc: Global, point: u32, states: &States) -> Result<IdSet, NoMemory>
        requires linked { AreLinks (basis_in self.now) self.now.links.now }
        requires point { point < length self.now.points.now.points }
        requires states { AreStates (basis_in self.now) states.now }
        ensures { IfOk result (AreLetGo (basis_in self.now) (is_left states.now) point) }
    {
        if let Some(mutex) = self.lets_go(point) {
            let set = IdSet::from_list(alloc, &[mutex.0])?;
            return Ok(set);
        }
        match self.dropped_below(alloc, point, states)? {
            Some(ids) => Ok(ids),
            None => Ok(IdSet::empty(alloc)),
        }
    }

    /// The locks that each way through a point lets go.
    fn after(&self, alloc: Global, point: u32, states: &States) -> Result<IdSet, NoMemory>
        requires linked { AreLinks (basis_in self.now) self.now.links.now }
        requires point { point < length self.now.points.now.points }
        requires states { AreStates (basis_in self.now) states.now }
        ensures { IfOk result (AreAfter (basis_in self.now) (is_left states.now) point) }
    {
        let more = self.let_go_at(alloc, point, states)?;
        let locks = states.locks.meet(&more)?;
        let after = states.at(point).union(&locks)?;
        Ok(after)
    }

    /// Takes away from the live points among these what isn't in the set, and answers whether
    /// something changed.
    fn narrow_each(
        &self,
        alloc: Global,
        points: &[u32],
        states: &mut States,
        set: &IdSet,
    ) -> Result<bool, NoMemory>
        requires points { All (λ p. p < length states.old.sets.items) points.now }
        requires all { length states.old.sets.items ≡ length self.now.points.now.points }
        requires sorted { IsStrictlyIncreasing states.old.locks }
        requires within { (x : ℕ) → has_id set.now x ≡ true → has_id states.old.locks x ≡ true }
        ensures { IfOk result (Progress left_weight (Sheds (basis_in self.now) points.now set.now)
            (AreWithin (basis_in self.now) points.now set.now) states.old states.new) }
    {
        let mut changed = false;
        for point in points {
            if self.points.live(*point) {
                changed |= states.narrow(alloc, *point, set)?;
            }
        }
        Ok(changed)
    }

    /// Takes away from the successors of a point, where it is live, what isn't let go on each way
    /// through it, and answers whether something changed.
    fn pass(&self, alloc: Global, point: u32, states: &mut States) -> Result<bool, NoMemory>
        requires linked { AreLinks (basis_in self.now) self.now.links.now }
        requires point { point < length self.now.points.now.points }
        requires states { AreStates (basis_in self.now) states.old }
        ensures { IfOk result (Progress left_weight (Loses (basis_in self.now))
            (HasPassed (basis_in self.now) point) states.old states.new) }
    {
        if !self.points.live(point) {
            return Ok(false);
        }
        prove!(point < self.points.count());
        let after = self.after(alloc, point, states)?;
        self.narrow_each(alloc, self.points.next(point), states, &after)
    }

    /// Lets each point pass on what is let go on each way through it.
    fn round(&self, alloc: Global, order: &[u32], states: &mut States) -> Result<bool, NoMemory>
        requires linked { AreLinks (basis_in self.now) self.now.links.now }
        requires order { AreAllBelow (points_in self.now) order.now }
        requires states { AreStates (basis_in self.now) states.old }
        ensures { IfOk result (Progress left_weight (Loses (basis_in self.now))
            (λ states. (p : ℕ) → p < length self.now.points.now.points → HasPassed (basis_in self.now) p
            states)
            states.old states.new) }
    {
        let mut changed = false;
        for point in order {
            changed |= self.pass(alloc, *point, states)?;
        }
        Ok(changed)
    }

    /// The points at which functions begin.
    fn entries(&self, alloc: Global) -> Result<IdSet, NoMemory>
        ensures { IfOk result (λ ids. (p : ℕ) →
            (has_id ids p ≡ true) ↔ ((f : ℕ) × (entry_of self.now.points.now f ≡ Some p))) }
    {
        let mut ids = Vec::new(alloc);
        for function in 0..self.points.functions() {
            ids.push(self.points.entry(function))?;
        }
        let entries = IdSet::from_list(alloc, &ids)?;
        Ok(entries)
    }

    /// No locks at a live entry, and all elsewhere.
    fn first_set(
        &self,
        alloc: Global,
        point: u32,
        entries: &IdSet,
    ) -> Result<Option<IdSet>, NoMemory>
        requires point { point < length self.now.points.now.points }
        ensures { IfOk result (λ set. set ≡ first_set self.now.points.now entries.now point) }
    {
        if self.points.live(point) && entries.has(point) {
            return Ok(Some(IdSet::empty(alloc)));
        }
        Ok(None)
    }

    /// No locks at each live entry, and all at the others.
    fn first_sets(&self, alloc: Global, entries: &IdSet) -> Result<Vec<Option<IdSet>>, NoMemory>
        ensures { IfOk result (λ sets. sets.items ≡ map (first_set self.now.points.now entries.now)
            (range_with_len 0 (points_in self.now))) }
    {
        let mut sets = Vec::new(alloc);
        for point in 0..self.points.count() {
            sets.push(self.first_set(alloc, point, entries)?)?;
        }
        Ok(sets)
    }

    /// No locks at each live entry, and all locks at the others.
    fn first_states(&self, alloc: Global) -> Result<States, NoMemory>
        ensures states { IfOk result (AreStates (basis_in self.now)) }
        ensures lost { IfOk result (AreLost (basis_in self.now)) }
    {
        let entries = self.entries(alloc)?;
        let sets = self.first_sets(alloc, &entries)?;
        let locks = self.all_locks(alloc)?;
        Ok(States { locks, sets })
    }

    /// The locks that each way to each point lets go.
    pub(crate) fn dropped(&self, alloc: Global, order: &[u32]) -> Result<States, NoMemory>
        requires linked { AreLinks (basis_in self.now) self.now.links.now }
        requires order { AreAllBelow (points_in self.now) order.now }
        ensures { IfOk result (AreDropped (basis_in self.now)) }
    {
        let mut states = self.first_states(alloc)?;
        while self.round(alloc, order, &mut states)? {}
        prove!(states.sets.len() == self.points.count() as usize);
        Ok(states)
    }
}
