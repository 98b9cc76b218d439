//! Which locks a point keeps.
ghost use Rattle.std.specs.Prelude.{◌≡◌, ◌<◌, length, All, IfOk};
ghost use Rattle.std.specs.List.{list_any};
ghost use Rattle.lk_held.specs.Acts.{basis_in};
ghost use Rattle.lk_held.specs.Holding.{clash_at, apart_from, IsKept};
ghost use Rattle.lk_held.specs.Releasing.{AreDropped};

use crate::acts::Acts;
use lk_base::NoMemory;
use lk_links::clash;
use lk_sets::IdSet;
use std::alloc::Global;

impl Acts<'_, '_> {
    /// Whether one of the labels may mean the same place as x.
    fn clashes(&self, x: u32, ids: &[u32]) -> bool
        requires x { x < length self.now.labels.now.entries }
        requires ids { All (λ y. y < length self.now.labels.now.entries) ids.now }
        ensures { result ≡ list_any (clash_at self.now.facts.now.origins x) ids.now }
    {
        for id in ids {
            if clash(self.facts, x, *id) {
                return true;
            }
        }
        false
    }

    /// The locks that can mean no place that one of the others may mean.
    fn apart(&self, alloc: Global, locks: &[u32], others: &[u32]) -> Result<Vec<u32>, NoMemory>
        requires locks { All (λ x. x < length self.now.labels.now.entries) locks.now }
        requires others { All (λ x. x < length self.now.labels.now.entries) others.now }
        ensures { IfOk result (λ ids. ids.items
            ≡ apart_from self.now.facts.now.origins others.now locks.now) }
    {
        let mut ids = Vec::new(alloc);
        for x in locks {
            if !self.clashes(*x, others) {
                ids.push(*x)?;
            }
        }
        Ok(ids)
    }

    /// The locks of the set that a point doesn't release.
    pub(crate) fn keeps(
        &self,
        alloc: Global,
        point: u32,
        locks: &IdSet,
        dropped: &[IdSet],
    ) -> Result<IdSet, NoMemory>
        requires point { point < length self.now.points.now.points }
        requires locks { All (λ x. x < length self.now.labels.now.entries) locks.now }
        requires dropped { AreDropped (basis_in self.now) (length self.now.points.now.points) dropped.now }
        ensures { IfOk result (IsKept (basis_in self.now) point locks.now) }
    {
        let others = dropped[point as usize].ids();
        let ids = self.apart(alloc, locks.ids(), others)?;
        let kept = IdSet::from_list(alloc, &ids)?;
        Ok(kept)
    }
}
