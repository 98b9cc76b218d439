//! Which locks are held at each point.
ghost use Rattle.std.specs.Prelude.{◌≡◌, ◌<◌, ◌↔◌, ℕ, true, Some, length, map, All, IfOk};
ghost use Rattle.std.specs.List.{range_with_len};
ghost use Rattle.std.specs.List.Sorted.{IsStrictlyIncreasing};
ghost use Rattle.lk_facts.specs.Program.{live_at, entry_of};
ghost use Rattle.lk_graph.specs.Graph.{AreAllBelow};
ghost use Rattle.lk_held.specs.Acts.{basis_in};
ghost use Rattle.lk_held.specs.Holding.{AreStates, Sheds, AreWithin, Loses, HasPassed, AreHeld, AreLost, first_set};
ghost use Rattle.lk_held.specs.Progress.{Progress};
ghost use Rattle.lk_held.specs.Releasing.{AreDropped};
ghost use Rattle.lk_held.specs.States.{weight};
ghost use Rattle.lk_links.specs.Links.{AreLinks};
ghost use Rattle.lk_sets.specs.Ids.{has_id};

use crate::acts::Acts;
use crate::states::States;
use lk_base::NoMemory;
use lk_sets::IdSet;
use std::alloc::Global;

/// Takes away from the locks of the points those that aren't in the set, and
/// answers whether something changed.
fn narrow_each(
    alloc: Global,
    points: &[u32],
    states: &mut States,
    set: &IdSet,
) -> Result<bool, NoMemory>
    requires points { All (λ p. p < length states.old.sets.items) points.now }
    requires sorted { IsStrictlyIncreasing states.old.locks }
    requires within { (x : ℕ) → has_id set.now x ≡ true → has_id states.old.locks x ≡ true }
    ensures { IfOk result (Progress weight (Sheds points.now set.now)
        (AreWithin points.now set.now) states.old states.new) }
{
    let mut changed = false;
    for point in points {
        changed |= states.narrow(alloc, *point, set)?;
    }
    Ok(changed)
}

impl Acts<'_, '_> {
    /// Takes away from the successors of a point what isn't held once it has run, and
    /// answers whether something changed.
    fn pass(
        &self,
        alloc: Global,
        point: u32,
        states: &mut States,
        dropped: &[IdSet],
    ) -> Result<bool, NoMemory>
        requires linked { AreLinks (basis_in self.now) self.now.links.now }
        requires point { point < length self.now.points.now.points }
        requires live { live_at self.now.points.now point ≡ true }
        requires states { AreStates (basis_in self.now) states.old }
        requires dropped { AreDropped (basis_in self.now) (length self.now.points.now.points) dropped.now }
        ensures { IfOk result (Progress weight (Loses (basis_in self.now))
            (HasPassed (basis_in self.now) point) states.old states.new) }
    {
        let after = self.after(alloc, point, states, dropped)?;
        narrow_each(alloc, self.points.next(point), states, &after)
    }

    /// Lets a point pass on what is held once it has run, where it is live.
    fn pass_live(
        &self,
        alloc: Global,
        point: u32,
        states: &mut States,
        dropped: &[IdSet],
    ) -> Result<bool, NoMemory>
        requires linked { AreLinks (basis_in self.now) self.now.links.now }
        requires point { point < length self.now.points.now.points }
        requires states { AreStates (basis_in self.now) states.old }
        requires dropped { AreDropped (basis_in self.now) (length self.now.points.now.points) dropped.now }
        ensures { IfOk result (Progress weight (Loses (basis_in self.now))
            (HasPassed (basis_in self.now) point) states.old states.new) }
    {
        if !self.points.live(point) {
            return Ok(false);
        }
        self.pass(alloc, point, states, dropped)
    }

    /// Lets each point pass on what is held once it has run, where it is live. In an order in which control
    /// comes to the points a straight line of code is done in one round.
    fn round(
        &self,
        alloc: Global,
        order: &[u32],
        states: &mut States,
        dropped: &[IdSet],
    ) -> Result<bool, NoMemory>
        requires linked { AreLinks (basis_in self.now) self.now.links.now }
        requires order { AreAllBelow (length self.now.points.now.points) order.now }
        requires states { AreStates (basis_in self.now) states.old }
        requires dropped { AreDropped (basis_in self.now) (length self.now.points.now.points) dropped.now }
        ensures { IfOk result (Progress weight (Loses (basis_in self.now))
            (λ states. (p : ℕ) → p < length self.now.points.now.points
            → HasPassed (basis_in self.now) p states)
            states.old states.new) }
    {
        let mut changed = false;
        for point in order {
            changed |= self.pass_live(alloc, *point, states, dropped)?;
        }
        Ok(changed)
    }

    /// The points at which functions begin.
    fn entries(&self, alloc: Global) -> Result<IdSet, NoMemory>
        ensures { IfOk result (λ ids. (p : ℕ) →
            (has_id ids p ≡ true) ↔ ((f : ℕ) × (entry_of self.now.points.now f ≡ Some p))) }
    {
        let mut ids = Vec::new(alloc);
        for function in 0..self.points.functions() {
            ids.push(self.points.entry(function))?;
        }
        let entries = IdSet::from_list(alloc, &ids)?;
        Ok(entries)
    }

    /// All locks at a live point that isn't an entry, and none at any other.
    fn first_set(
        &self,
        alloc: Global,
        point: u32,
        entries: &IdSet,
    ) -> Result<Option<IdSet>, NoMemory>
        requires { point < length self.now.points.now.points }
        ensures { IfOk result (λ set. set ≡ first_set self.now.points.now entries.now point) }
    {
        if self.points.live(point) && !entries.has(point) {
            return Ok(None);
        }
        Ok(Some(IdSet::empty(alloc)))
    }

    /// The first set of each point.
    fn first_sets(&self, alloc: Global, entries: &IdSet) -> Result<Vec<Option<IdSet>>, NoMemory>
        ensures { IfOk result (λ sets. sets.items ≡ map (first_set self.now.points.now entries.now)
            (range_with_len 0 (length self.now.points.now.points))) }
    {
        let mut sets = Vec::new(alloc);
        for point in 0..self.points.count() {
            sets.push(self.first_set(alloc, point, entries)?)?;
        }
        Ok(sets)
    }

    /// All locks at each live point that isn't an entry, and none at the others.
    fn first_states(&self, alloc: Global) -> Result<States, NoMemory>
        ensures states { IfOk result (AreStates (basis_in self.now)) }
        ensures lost { IfOk result (AreLost (basis_in self.now)) }
    {
        let entries = self.entries(alloc)?;
        let sets = self.first_sets(alloc, &entries)?;
        let locks = self.locks(alloc)?;
        Ok(States { locks, sets })
    }

    /// The locks that are held at each point, where the sets say what each releases.
    pub(crate) fn states(
        &self,
        alloc: Global,
        order: &[u32],
        dropped: &[IdSet],
    ) -> Result<States, NoMemory>
        requires linked { AreLinks (basis_in self.now) self.now.links.now }
        requires order { AreAllBelow (length self.now.points.now.points) order.now }
        requires dropped { AreDropped (basis_in self.now) (length self.now.points.now.points) dropped.now }
        ensures { IfOk result (AreHeld (basis_in self.now)) }
    {
        let mut states = self.first_states(alloc)?;
        while self.round(alloc, order, &mut states, dropped)? {}
        Ok(states)
    }
}
