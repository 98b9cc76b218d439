//! The lock sets of a program.
ghost use Rattle.std.specs.Prelude.{◌≡◌, ◌<◌, length, map, IfOk};
ghost use Rattle.std.specs.List.{range_with_len};
ghost use Rattle.std.specs.List.Sorted.{IsStrictlyIncreasing};
ghost use Rattle.lk_facts.specs.Facts.{basis_of};
ghost use Rattle.lk_facts.specs.Held.{AreLockSets};
ghost use Rattle.lk_facts.specs.Origins.{IsSetBelow, AreSetsBelow};
ghost use Rattle.lk_held.specs.Acts.{basis_in};
ghost use Rattle.lk_held.specs.Holding.{AreStates};
ghost use Rattle.lk_held.specs.LockSets.{out_set, AreKept};
ghost use Rattle.lk_held.specs.Releasing.{AreDropped};
ghost use Rattle.lk_held.specs.States.{set_of};
ghost use Rattle.lk_links.specs.Links.{AreLinks};

use crate::acts::Acts;
use crate::states::States;
use lk_base::NoMemory;
use lk_facts::{Facts, Held};
use lk_links::Links;
use lk_sets::IdSet;
use std::alloc::Global;

/// The locks that are held at each point and at the exit of each function, those that each point keeps while
/// it runs another function, and those that each function may release.
///
/// A lock set holds a place in the stead of each label that can mean that place alone.
pub fn held(alloc: Global, facts: &Facts<'_>) -> Result<Held, NoMemory>
    ensures { IfOk result (AreLockSets (basis_of facts.now)) }
{
    let links = Links::new(alloc, facts)?;
    let acts = Acts {
        facts,
        points: facts.points(),
        labels: facts.labels(),
        links: &links,
    };
    let sets = acts.held(alloc)?;
    Ok(sets)
}

/// An equal set.
fn copy_of(alloc: Global, set: &IdSet) -> Result<IdSet, NoMemory>
    ensures value { IfOk result (λ copy. copy ≡ set.now) }
    ensures sorted { IfOk result IsStrictlyIncreasing }
{
    let none = IdSet::empty(alloc);
    prove!(none.ids().len() <= set.ids().len());
    let copy = set.union(&none)?;
    Ok(copy)
}

impl Acts<'_, '_> {
    /// All lock sets.
    fn held(&self, alloc: Global) -> Result<Held, NoMemory>
        requires linked { AreLinks (basis_in self.now) self.now.links.now }
        ensures { IfOk result (AreLockSets (basis_in self.now)) }
    {
        let order = self.order(alloc)?;
        let released = self.released(alloc, &order)?;
        let dropped = self.dropped(alloc, &released)?;
        let states = self.states(alloc, &order, &dropped)?;
        let at = self.at_points(alloc, &states)?;
        let keep = self.kept(alloc, &states, &dropped)?;
        let out = self.at_exits(alloc, &states)?;
        let sets = Held::new(self.labels.count(), at, keep, out, released);
        Ok(sets)
    }

    /// The locks that are held at a point.
    fn at_point(&self, alloc: Global, point: u32, states: &States) -> Result<IdSet, NoMemory>
        requires point { point < length self.now.points.now.points }
        requires states { AreStates (basis_in self.now) states.now }
        ensures value { IfOk result (λ ids. ids ≡ set_of states.now point) }
        ensures in_range { IfOk result (IsSetBelow (length self.now.labels.now.entries)) }
    {
        let set = copy_of(alloc, states.at(point))?;
        Ok(set)
    }

    /// The locks that are held at each point.
    fn at_points(&self, alloc: Global, states: &States) -> Result<Vec<IdSet>, NoMemory>
        requires { AreStates (basis_in self.now) states.now }
        ensures sets { IfOk result (λ sets. sets.items
            ≡ map (set_of states.now) (range_with_len 0 (length self.now.points.now.points))) }
        ensures in_range { IfOk result (λ sets.
            AreSetsBelow (length self.now.labels.now.entries) sets.items) }
    {
        let mut sets = Vec::new(alloc);
        for point in 0..self.points.count() {
            sets.push(self.at_point(alloc, point, states)?)?;
        }
        Ok(sets)
    }

    /// The locks that are held at the exit of each function.
    fn at_exits(&self, alloc: Global, states: &States) -> Result<Vec<IdSet>, NoMemory>
        requires { AreStates (basis_in self.now) states.now }
        ensures sets { IfOk result (λ sets. sets.items
            ≡ map (out_set self.now.points.now states.now)
            (range_with_len 0 (length self.now.points.now.functions))) }
        ensures in_range { IfOk result (λ sets.
            AreSetsBelow (length self.now.labels.now.entries) sets.items) }
    {
        let mut sets = Vec::new(alloc);
        for function in 0..self.points.functions() {
            sets.push(self.at_point(alloc, self.points.exit(function), states)?)?;
        }
        Ok(sets)
    }

    /// The locks that each point keeps.
    fn kept(
        &self,
        alloc: Global,
        states: &States,
        dropped: &[IdSet],
    ) -> Result<Vec<IdSet>, NoMemory>
        requires states { AreStates (basis_in self.now) states.now }
        requires dropped { AreDropped (basis_in self.now) (length self.now.points.now.points) dropped.now }
        ensures sets { IfOk result (λ sets.
            AreKept (basis_in self.now) states.now (length self.now.points.now.points) sets.items) }
        ensures in_range { IfOk result (λ sets.
            AreSetsBelow (length self.now.labels.now.entries) sets.items) }
    {
        let mut sets = Vec::new(alloc);
        for point in 0..self.points.count() {
            sets.push(self.keeps(alloc, point, states.at(point), dropped)?)?;
        }
        Ok(sets)
    }
}
