//! Which mutexes functions may lock.
ghost use Rattle.std.specs.Prelude.{◌≡◌, ◌<◌, ℕ, IfOk, length};
ghost use Rattle.lk_graph.specs.Graph.{AreAllBelow};
ghost use Rattle.lk_held.specs.Progress.{Progress};
ghost use Rattle.lk_held.specs.Releasing.{room};
ghost use Rattle.lk_links.specs.Links.{AreLinks};
ghost use Rattle.lk_order.specs.Acquired.{Wants};
ghost use Rattle.lk_order.specs.Acts.{basis_in, linear_in, functions_in, points_in, labels_in};
ghost use Rattle.lk_order.specs.Growing.{AreSets, AreExact, Gains};
ghost use Rattle.lk_order.specs.Wanting.{HasWanted};

use crate::acts::Acts;
use crate::giving::By;
use crate::sets::{add, empty_sets};
use lk_base::NoMemory;
use lk_sets::IdSet;
use std::alloc::Global;

impl Acts<'_, '_> {
    /// Adds what a point may lock to what its function may, and answers whether something was new.
    fn want(&self, alloc: Global, point: u32, wants: &mut Vec<IdSet>) -> Result<bool, NoMemory>
        requires linked { AreLinks (basis_in self.now) self.now.links.now }
        requires point { point < length self.now.points.now.points }
        requires wants { AreSets (functions_in self.now) (labels_in self.now)
            wants.old.items }
        ensures { IfOk result (Progress (room (labels_in self.now))
            (Gains (functions_in self.now) (labels_in self.now)
            (Wants (basis_in self.now) (linear_in self.now)))
            (HasWanted (basis_in self.now) point) wants.old.items wants.new.items) }
    {
        if !self.points.live(point) {
            return Ok(false);
        }
        let ids = self.gives(alloc, point, wants, By::Functions)?;
        add(wants, self.points.function(point), &ids)
    }

    /// Lets each point add what it may lock, and answers whether something was new.
    fn want_each(
        &self,
        alloc: Global,
        order: &[u32],
        wants: &mut Vec<IdSet>,
    ) -> Result<bool, NoMemory>
        requires linked { AreLinks (basis_in self.now) self.now.links.now }
        requires order { AreAllBelow (points_in self.now) order.now }
        requires wants { AreSets (functions_in self.now) (labels_in self.now)
            wants.old.items }
        ensures { IfOk result (Progress (room (labels_in self.now))
            (Gains (functions_in self.now) (labels_in self.now)
            (Wants (basis_in self.now) (linear_in self.now)))
            (λ sets. (p : ℕ) → p < length self.now.points.now.points → HasWanted (basis_in self.now) p sets)
            wants.old.items wants.new.items) }
    {
        let mut changed = false;
        for point in order {
            changed |= self.want(alloc, *point, wants)?;
        }
        Ok(changed)
    }

    /// For each function the labels of the mutexes that it may lock, itself or in what it runs.
    pub(crate) fn wants(&self, alloc: Global, order: &[u32]) -> Result<Vec<IdSet>, NoMemory>
        requires linked { AreLinks (basis_in self.now) self.now.links.now }
        requires order { AreAllBelow (points_in self.now) order.now }
        ensures { IfOk result (λ sets. AreExact (functions_in self.now)
            (labels_in self.now) (Wants (basis_in self.now) (linear_in self.now)) sets.items) }
    {
        let mut wants = empty_sets(alloc, self.points.functions())?;
        while self.want_each(alloc, order, &mut wants)? {}
        Ok(wants)
    }
}
