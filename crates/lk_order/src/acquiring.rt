//! Which mutexes a thread may own at each point.
ghost use Rattle.std.specs.Prelude.{◌≡◌, ◌<◌, ◌↔◌, ◌⊎◌, ◌∷◌, [], ℕ, true, All, Contains, IsTrue, IfOk, OnOk, length};
ghost use Rattle.std.specs.Bool.{⊤};
ghost use Rattle.lk_graph.specs.Graph.{AreAllBelow};
ghost use Rattle.lk_held.specs.Progress.{Progress};
ghost use Rattle.lk_held.specs.Releasing.{room};
ghost use Rattle.lk_held.specs.Acts.{OneRuns};
ghost use Rattle.lk_links.specs.Links.{AreLinks, links_at};
ghost use Rattle.lk_links.specs.declared.link.Link.{Link};
ghost use Rattle.lk_order.specs.Acquired.{Acq, Drops, DropsIn};
ghost use Rattle.lk_order.specs.Acquiring.{AllDrop, DropsWhereItRuns, IsAfter, IsKept, IsSameOver, HasAcquired, Grows, HasAll, HaveAll};
ghost use Rattle.lk_order.specs.Acts.{basis_in, linear_in, points_in, labels_in};
ghost use Rattle.lk_order.specs.Dropping.{AreDropped};
ghost use Rattle.lk_order.specs.Growing.{AreSets, AreExact, Gains};
ghost use Rattle.lk_rise.specs.Links.{AreLinksInto};
ghost use Rattle.lk_sets.specs.Ids.{has_id};

use crate::acts::Acts;
use crate::giving::By;
use crate::sets::{add, empty_sets};
use crate::states::States;
use crate::up::up;
use lk_base::NoMemory;
use lk_links::Link;
use lk_sets::IdSet;
use std::alloc::Global;

impl Acts<'_, '_> {
    /// Whether the label y of the function of a link is one label outside, and that is the same as x.
    fn is_same_over(&self, alloc: Global, link: &Link, x: u32, y: u32) -> Result<bool, NoMemory>
        requires above { link.now.above < length self.now.points.now.functions }
        requires x { x < length self.now.labels.now.entries }
        requires y { y < length self.now.labels.now.entries }
        requires into { AreLinksInto (basis_in self.now) self.now.into.now }
        requires functions { length self.now.into.now ≡ length self.now.points.now.functions }
        ensures { IfOk result (λ b. IsTrue b
            ↔ IsSameOver (basis_in self.now) (linear_in self.now) link.now.above link.now.way x y) }
    {
        match up(alloc, self.facts, &link.way, y)? {
            Some(outside) => self.are_same(alloc, link.above, x, outside),
            None => Ok(false),
        }
    }

    /// Whether the function of a link drops a lock that is the same as x outside.
    fn drops_in(
        &self,
        alloc: Global,
        link: &Link,
        x: u32,
        dropped: &States,
    ) -> Result<bool, NoMemory>
        requires above { link.now.above < length self.now.points.now.functions }
        requires below { link.now.below < length self.now.points.now.functions }
        requires x { x < length self.now.labels.now.entries }
        requires dropped { AreDropped (basis_in self.now) dropped.now }
        requires into { AreLinksInto (basis_in self.now) self.now.into.now }
        requires functions { length self.now.into.now ≡ length self.now.points.now.functions }
        ensures { IfOk result (λ b. IsTrue b
            ↔ DropsIn (basis_in self.now) (linear_in self.now) link.now.above link.now.way
            link.now.below x) }
    {
        let exit = self.points.exit(link.below);
        for y in dropped.at(exit).ids() {
            if self.is_same_over(alloc, link, x, *y)? {
                return Ok(true);
            }
        }
        Ok(false)
    }

    /// Whether a point runs some function.
    fn runs_some(&self, point: u32) -> bool
        requires point { point < length self.now.links.now }
        ensures { IsTrue result ↔ OneRuns (links_at self.now.links.now point) (λ link. ⊤) }
    {
        for link in self.links.at(point) {
            if !link.starts {
                return true;
            }
        }
        false
    }

    /// Whether a link starts a thread, or its function drops a lock that is the same as x outside.
    fn starts_or_drops(
        &self,
        alloc: Global,
        link: &Link,
        x: u32,
        dropped: &States,
    ) -> Result<bool, NoMemory>
        requires above { link.now.above < length self.now.points.now.functions }
        requires below { link.now.below < length self.now.points.now.functions }
        requires x { x < length self.now.labels.now.entries }
        requires dropped { AreDropped (basis_in self.now) dropped.now }
        requires into { AreLinksInto (basis_in self.now) self.now.into.now }
        requires functions { length self.now.into.now ≡ length self.now.points.now.functions }
        ensures { IfOk result (λ b. IsTrue b
            ↔ DropsWhereItRuns (basis_in self.now) (linear_in self.now) x link.now) }
    {
        if link.starts {
            return Ok(true);
        }
        self.drops_in(alloc, link, x, dropped)
    }

    /// Whether each function that a point runs drops a lock that is the same as x.
    fn each_drops(
        &self,
        alloc: Global,
        point: u32,
        x: u32,
        dropped: &States,
    ) -> Result<bool, NoMemory>
        requires linked { AreLinks (basis_in self.now) self.now.links.now }
        requires point { point < length self.now.points.now.points }
        requires x { x < length self.now.labels.now.entries }
        requires dropped { AreDropped (basis_in self.now) dropped.now }
        requires into { AreLinksInto (basis_in self.now) self.now.into.now }
        requires functions { length self.now.into.now ≡ length self.now.points.now.functions }
        ensures { IfOk result (λ b. IsTrue b ↔ ((link : Link) →
            Contains (links_at self.now.links.now point) link →
            DropsWhereItRuns (basis_in self.now) (linear_in self.now) x link)) }
    {
        for link in self.links.at(point) {
            if !self.starts_or_drops(alloc, link, x, dropped)? {
                return Ok(false);
            }
        }
        Ok(true)
    }

    /// Whether a point runs some function, and each that it runs drops a lock that is the same as x.
    fn all_drop(
        &self,
        alloc: Global,
        point: u32,
        x: u32,
        dropped: &States,
    ) -> Result<bool, NoMemory>
        requires linked { AreLinks (basis_in self.now) self.now.links.now }
        requires point { point < length self.now.points.now.points }
        requires x { x < length self.now.labels.now.entries }
        requires dropped { AreDropped (basis_in self.now) dropped.now }
        requires into { AreLinksInto (basis_in self.now) self.now.into.now }
        requires functions { length self.now.into.now ≡ length self.now.points.now.functions }
        ensures { IfOk result (λ b. IsTrue b ↔ AllDrop (basis_in self.now) (linear_in self.now) point x) }
    {
        if !self.runs_some(point) {
            return Ok(false);
        }
        self.each_drops(alloc, point, x, dropped)
    }

    /// Whether a point drops x: it lets the same mutex go, or each function does that it runs.
    fn drops(&self, alloc: Global, point: u32, x: u32, dropped: &States) -> Result<bool, NoMemory>
        requires linked { AreLinks (basis_in self.now) self.now.links.now }
        requires point { point < length self.now.points.now.points }
        requires x { x < length self.now.labels.now.entries }
        requires dropped { AreDropped (basis_in self.now) dropped.now }
        requires into { AreLinksInto (basis_in self.now) self.now.into.now }
        requires functions { length self.now.into.now ≡ length self.now.points.now.functions }
        ensures { IfOk result (λ b. IsTrue b ↔ Drops (basis_in self.now) (linear_in self.now) point x) }
    {
        match self.lets_go(point) {
            Some(mutex) => self.are_same(alloc, self.points.function(point), x, mutex.0),
            None => self.all_drop(alloc, point, x, dropped),
        }
    }

    /// Puts a label, where a point doesn't drop it.
    fn put_kept(
        &self,
        alloc: Global,
        point: u32,
        x: u32,
        dropped: &States,
        ids: &mut Vec<u32>,
    ) -> Result<(), NoMemory>
        requires linked { AreLinks (basis_in self.now) self.now.links.now }
        requires point { point < length self.now.points.now.points }
        requires x { x < length self.now.labels.now.entries }
        requires dropped { AreDropped (basis_in self.now) dropped.now }
        requires into { AreLinksInto (basis_in self.now) self.now.into.now }
        requires functions { length self.now.into.now ≡ length self.now.points.now.functions }
        ensures { OnOk result ((y : ℕ) → (has_id ids.new.items y ≡ true)
            ↔ ((has_id ids.old.items y ≡ true)
            ⊎ IsKept (basis_in self.now) (linear_in self.now) point x y)) }
    {
        if self.drops(alloc, point, x, dropped)? {
            return Ok(());
        }
        ids.push(x)?;
        Ok(())
    }

    /// The labels that a point doesn't drop.
    fn kept(
        &self,
        alloc: Global,
        point: u32,
        labels: &[u32],
        dropped: &States,
    ) -> Result<IdSet, NoMemory>
        requires linked { AreLinks (basis_in self.now) self.now.links.now }
        requires point { point < length self.now.points.now.points }
        requires labels { All (λ x. x < length self.now.labels.now.entries) labels.now }
        requires dropped { AreDropped (basis_in self.now) dropped.now }
        requires into { AreLinksInto (basis_in self.now) self.now.into.now }
        requires functions { length self.now.into.now ≡ length self.now.points.now.functions }
        ensures members { IfOk result (λ ids. (x : ℕ) → (has_id ids x ≡ true)
            ↔ ((has_id labels.now x ≡ true) × (Drops (basis_in self.now) (linear_in self.now) point x
            → ⊥))) }
    {
        let mut ids = Vec::new(alloc);
        for x in labels {
            self.put_kept(alloc, point, *x, dropped, &mut ids)?;
        }
        let kept = IdSet::from_list(alloc, &ids)?;
        Ok(kept)
    }

    /// What is acquired once a point has run.
    fn acquired_after(
        &self,
        alloc: Global,
        point: u32,
        acquired: &[IdSet],
        dropped: &States,
    ) -> Result<IdSet, NoMemory>
        requires linked { AreLinks (basis_in self.now) self.now.links.now }
        requires point { point < length self.now.points.now.points }
        requires sets { AreSets (points_in self.now) (labels_in self.now) acquired.now }
        requires dropped { AreDropped (basis_in self.now) dropped.now }
        requires into { AreLinksInto (basis_in self.now) self.now.into.now }
        requires functions { length self.now.into.now ≡ length self.now.points.now.functions }
        ensures members { IfOk result (λ ids. (x : ℕ) → (has_id ids x ≡ true)
            ↔ IsAfter (basis_in self.now) (linear_in self.now) acquired.now point x) }
        ensures in_range { IfOk result (λ ids. All (λ x. x < length self.now.labels.now.entries) ids) }
    {
        let kept = self.kept(alloc, point, acquired[point as usize].ids(), dropped)?;
        let more = self.gives(alloc, point, acquired, By::Exits)?;
        let after = kept.union(&more)?;
        Ok(after)
    }

    /// Adds the numbers to the set of a point, where it is live, and answers whether one was new.
    fn add_live(
        &self,
        point: u32,
        acquired: &mut Vec<IdSet>,
        more: &IdSet,
    ) -> Result<bool, NoMemory>
        requires point { point < points_in self.now }
        requires sets { AreSets (points_in self.now) (labels_in self.now) acquired.old.items }
        requires more { All (λ x. x < labels_in self.now) more.now }
        ensures { IfOk result (Progress (room (labels_in self.now))
            (Grows (basis_in self.now) (point ∷ []) more.now (points_in self.now) (labels_in self.now))
            (HasAll (basis_in self.now) more.now point) acquired.old.items acquired.new.items) }
    {
        if !self.points.live(point) {
            return Ok(false);
        }
        add(acquired, point, more)
    }

    /// Adds the numbers to the sets of the live points among these, and answers whether one was new.
    fn add_each(
        &self,
        points: &[u32],
        acquired: &mut Vec<IdSet>,
        more: &IdSet,
    ) -> Result<bool, NoMemory>
        requires points { All (λ p. p < points_in self.now) points.now }
        requires sets { AreSets (points_in self.now) (labels_in self.now) acquired.old.items }
        requires more { All (λ x. x < labels_in self.now) more.now }
        ensures { IfOk result (Progress (room (labels_in self.now))
            (Grows (basis_in self.now) points.now more.now (points_in self.now) (labels_in self.now))
            (HaveAll (basis_in self.now) points.now more.now) acquired.old.items acquired.new.items) }
    {
        let mut changed = false;
        for point in points {
            changed |= self.add_live(*point, acquired, more)?;
        }
        Ok(changed)
    }

    /// Passes what is acquired once a point has run on to its successors, where it is live, and
    /// answers whether something was new.
    fn acquire(
        &self,
        alloc: Global,
        point: u32,
        acquired: &mut Vec<IdSet>,
        dropped: &States,
    ) -> Result<bool, NoMemory>
        requires linked { AreLinks (basis_in self.now) self.now.links.now }
        requires point { point < length self.now.points.now.points }
        requires sets { AreSets (points_in self.now) (labels_in self.now)
            acquired.old.items }
        requires dropped { AreDropped (basis_in self.now) dropped.now }
        requires into { AreLinksInto (basis_in self.now) self.now.into.now }
        requires functions { length self.now.into.now ≡ length self.now.points.now.functions }
        ensures { IfOk result (Progress (room (labels_in self.now)) (Gains (points_in self.now)
            (labels_in self.now)
            (Acq (basis_in self.now) (linear_in self.now)))
            (HasAcquired (basis_in self.now) (linear_in self.now) point) acquired.old.items
            acquired.new.items) }
    {
        if !self.points.live(point) {
            return Ok(false);
        }
        let after = self.acquired_after(alloc, point, acquired, dropped)?;
        self.add_each(self.points.next(point), acquired, &after)
    }

    /// Lets each point pass on what is acquired, and answers whether something was new.
    fn acquire_each(
        &self,
        alloc: Global,
        order: &[u32],
        acquired: &mut Vec<IdSet>,
        dropped: &States,
    ) -> Result<bool, NoMemory>
        requires linked { AreLinks (basis_in self.now) self.now.links.now }
        requires order { AreAllBelow (points_in self.now) order.now }
        requires sets { AreSets (points_in self.now) (labels_in self.now)
            acquired.old.items }
        requires dropped { AreDropped (basis_in self.now) dropped.now }
        requires into { AreLinksInto (basis_in self.now) self.now.into.now }
        requires functions { length self.now.into.now ≡ length self.now.points.now.functions }
        ensures { IfOk result (Progress (room (labels_in self.now)) (Gains (points_in self.now)
            (labels_in self.now)
            (Acq (basis_in self.now) (linear_in self.now)))
            (λ sets. (p : ℕ) → p < length self.now.points.now.points → HasAcquired (basis_in self.now)
            (linear_in self.now) p sets)
            acquired.old.items acquired.new.items) }
    {
        let mut changed = false;
        for point in order {
            changed |= self.acquire(alloc, *point, acquired, dropped)?;
        }
        Ok(changed)
    }

    /// For each point the labels of the mutexes that were locked on some way there, and not dropped since.
    pub(crate) fn acquired(
        &self,
        alloc: Global,
        order: &[u32],
        dropped: &States,
    ) -> Result<Vec<IdSet>, NoMemory>
        requires linked { AreLinks (basis_in self.now) self.now.links.now }
        requires order { AreAllBelow (points_in self.now) order.now }
        requires dropped { AreDropped (basis_in self.now) dropped.now }
        requires into { AreLinksInto (basis_in self.now) self.now.into.now }
        requires functions { length self.now.into.now ≡ length self.now.points.now.functions }
        ensures { IfOk result (λ sets. AreExact (points_in self.now)
            (labels_in self.now) (Acq (basis_in self.now) (linear_in self.now)) sets.items) }
    {
        let mut acquired = empty_sets(alloc, self.points.count())?;
        while self.acquire_each(alloc, order, &mut acquired, dropped)? {}
        Ok(acquired)
    }
}
