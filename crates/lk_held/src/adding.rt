//! Which locks are held once a point has run.
ghost use Rattle.std.specs.Prelude.{◌≡◌, ◌<◌, ◌&&◌, ℕ, true, false, length, IfOk, OnOk};
ghost use Rattle.lk_facts.specs.Labels.{is_lock_at};
ghost use Rattle.lk_held.specs.Acts.{basis_in};
ghost use Rattle.lk_held.specs.Holding.{AreStates, AreAdded, AreAfter, AreBrought, Meets, is_in};
ghost use Rattle.lk_held.specs.Releasing.{AreDropped};
ghost use Rattle.lk_held.specs.States.{holds};
ghost use Rattle.lk_links.specs.Links.{AreLinks, links_at};
ghost use Rattle.lk_sets.specs.Ids.{has_id, IsSetOf};

use crate::acts::Acts;
use crate::states::States;
use lk_base::NoMemory;
use lk_facts::Label;
use lk_links::{Link, held_as, risen};
use lk_sets::IdSet;
use std::alloc::Global;

/// What is in the set and in all sets before it, of which there may be none.
fn meet_all(before: &Option<IdSet>, set: IdSet) -> Result<IdSet, NoMemory>
    ensures { IfOk result (λ met. (x : ℕ) → has_id met x ≡ (has_id set x && is_in before.now x)) }
{
    match before {
        Some(old) => {
            let met = old.meet(&set)?;
            Ok(met)
        }
        None => Ok(set),
    }
}

impl Acts<'_, '_> {
    /// All labels that name a mutex.
    pub(crate) fn locks(&self, alloc: Global) -> Result<IdSet, NoMemory>
        ensures { IfOk result (IsSetOf (is_lock_at self.now.labels.now)) }
    {
        let mut ids = Vec::new(alloc);
        for label in 0..self.labels.count() {
            if self.labels.is_lock(Label(label)) {
                ids.push(label)?;
            }
        }
        let locks = IdSet::from_list(alloc, &ids)?;
        Ok(locks)
    }

    /// Takes away what the function of a link doesn't return with, as it is outside
    /// it, where the link runs one.
    fn meet_risen(
        &self,
        alloc: Global,
        link: &Link,
        states: &States,
        all: &mut Option<IdSet>,
    ) -> Result<(), NoMemory>
        requires below { link.now.below < length self.now.points.now.functions }
        requires states { AreStates (basis_in self.now) states.now }
        ensures starts { OnOk result (link.now.starts ≡ true → all.new ≡ all.old) }
        ensures runs { OnOk result (link.now.starts ≡ false
            → Meets (basis_in self.now) (holds states.now) link.now all.old all.new) }
    {
        if link.starts {
            return Ok(());
        }
        let exit = self.points.exit(link.below);
        let ids = risen(alloc, self.facts, &link.way, states.at(exit).ids())?;
        let met = meet_all(all, ids)?;
        *all = Some(met);
        Ok(())
    }

    /// The labels with which each function returns that a point runs, as they are outside it,
    /// or nothing where it runs none.
    fn brought(&self, alloc: Global, point: u32, states: &States) -> Result<Option<IdSet>, NoMemory>
        requires linked { AreLinks (basis_in self.now) self.now.links.now }
        requires point { point < length self.now.points.now.points }
        requires states { AreStates (basis_in self.now) states.now }
        ensures { IfOk result (AreBrought (basis_in self.now) (holds states.now)
            (links_at self.now.links.now point)) }
    {
        let mut all = None;
        for link in self.links.at(point) {
            self.meet_risen(alloc, link, states, &mut all)?;
        }
        Ok(all)
    }

    /// The labels that a point adds to the locks that are held.
    fn adds(&self, alloc: Global, point: u32, states: &States) -> Result<IdSet, NoMemory>
        requires linked { AreLinks (basis_in self.now) self.now.links.now }
        requires point { point < length self.now.points.now.points }
        requires states { AreStates (basis_in self.now) states.now }
        ensures { IfOk result (AreAdded (basis_in self.now) (holds states.now) point) }
    {
        if let Some(mutex) = self.takes(point) {
            let set = IdSet::from_list(alloc, &[held_as(self.facts, mutex.0)])?;
            return Ok(set);
        }
        match self.brought(alloc, point, states)? {
            Some(ids) => Ok(ids),
            None => Ok(IdSet::empty(alloc)),
        }
    }

    /// The locks that are held once a point has run.
    pub(crate) fn after(
        &self,
        alloc: Global,
        point: u32,
        states: &States,
        dropped: &[IdSet],
    ) -> Result<IdSet, NoMemory>
        requires linked { AreLinks (basis_in self.now) self.now.links.now }
        requires point { point < length self.now.points.now.points }
        requires states { AreStates (basis_in self.now) states.now }
        requires dropped { AreDropped (basis_in self.now) (length self.now.points.now.points) dropped.now }
        ensures { IfOk result (AreAfter (basis_in self.now) (holds states.now) point) }
    {
        let kept = self.keeps(alloc, point, states.at(point), dropped)?;
        let added = self.adds(alloc, point, states)?;
        let locks = states.locks.meet(&added)?;
        let after = kept.union(&locks)?;
        Ok(after)
    }
}
