//! Which mutexes functions may lock while they own others.
ghost use Rattle.std.specs.Prelude.{◌≡◌, ◌<◌, All, IfOk, OnOk, length};
ghost use Rattle.lk_links.specs.Links.{AreLinks};
ghost use Rattle.lk_order.specs.Acquired.{Acq, Wants};
ghost use Rattle.lk_order.specs.Acts.{basis_in, linear_in, functions_in, points_in, labels_in};
ghost use Rattle.lk_order.specs.Growing.{AreExact};
ghost use Rattle.lk_order.specs.Pairing.{IsPairBelow, IsPairOf, IsPairWith, IsPairAt, IsPairOutside, IsPairAbove, ArePairs};
ghost use Rattle.lk_rise.specs.Links.{AreLinksInto, links_into};
ghost use Rattle.lk_order.specs.Work.{Finds};
ghost use Rattle.lk_sets.specs.Adding.{IsGiven};

use crate::acts::Acts;
use crate::giving::By;
use indexmap::IndexSet;
use lk_base::NoMemory;
use lk_links::{Link, outside};
use lk_sets::IdSet;
use std::alloc::Global;

/// A function, the label of a mutex that a thread may own in it, and that of one that it may lock then.
#[derive(Clone, Copy, PartialEq, Eq, Hash)]
pub(crate) struct Paired {
    /// The function.
    pub function: u32,
    /// The label of what is owned.
    pub held: u32,
    /// The label of what is locked.
    pub wanted: u32,
}

/// Puts a pair, unless it is there.
fn put_pair(pair: Paired, pairs: &mut IndexSet<Paired>) -> Result<(), NoMemory>
    ensures { OnOk result (Finds (λ other. pair ≡ other) pairs.old.keys pairs.new.keys) }
{
    pairs.insert(pair)?;
    Ok(())
}

/// Puts all pairs of a function that have the one label and one of the others.
fn put_wanted(
    function: u32,
    held: u32,
    wanted: &[u32],
    pairs: &mut IndexSet<Paired>,
) -> Result<(), NoMemory>
    ensures { OnOk result (Finds (IsGiven (IsPairWith function held) wanted.now) pairs.old.keys
        pairs.new.keys) }
{
    for label in wanted {
        let pair = Paired {
            function,
            held,
            wanted: *label,
        };
        put_pair(pair, pairs)?;
    }
    Ok(())
}

/// Puts all pairs of a function with these labels.
fn put_pairs(
    function: u32,
    held: &[u32],
    wanted: &[u32],
    pairs: &mut IndexSet<Paired>,
) -> Result<(), NoMemory>
    ensures { OnOk result (Finds (IsPairOf function held.now wanted.now) pairs.old.keys pairs.new.keys) }
{
    for label in held {
        put_wanted(function, *label, wanted, pairs)?;
    }
    Ok(())
}

impl Acts<'_, '_> {
    /// Puts the pairs of a point: what is acquired there, and what it may lock.
    fn put_here(
        &self,
        alloc: Global,
        point: u32,
        acquired: &[IdSet],
        wants: &[IdSet],
        pairs: &mut IndexSet<Paired>,
    ) -> Result<(), NoMemory>
        requires linked { AreLinks (basis_in self.now) self.now.links.now }
        requires point { point < length self.now.points.now.points }
        requires acquired { AreExact (points_in self.now) (labels_in self.now)
            (Acq (basis_in self.now) (linear_in self.now)) acquired.now }
        requires wants { AreExact (functions_in self.now) (labels_in self.now)
            (Wants (basis_in self.now) (linear_in self.now)) wants.now }
        requires pairs { All (IsPairBelow (functions_in self.now) (labels_in self.now)) pairs.old.keys }
        ensures finds { OnOk result (Finds (IsPairAt (basis_in self.now) (linear_in self.now) point)
            pairs.old.keys pairs.new.keys) }
        ensures in_range { OnOk result (All (IsPairBelow (functions_in self.now) (labels_in self.now))
            pairs.new.keys) }
    {
        if !self.points.live(point) {
            return Ok(());
        }
        let held = &acquired[point as usize];
        let wanted = self.gives(alloc, point, wants, By::Functions)?;
        put_pairs(self.points.function(point), held.ids(), wanted.ids(), pairs)
    }

    /// Puts a pair as it is outside a link.
    fn put_outside_link(
        &self,
        alloc: Global,
        pair: Paired,
        link: &Link,
        pairs: &mut IndexSet<Paired>,
    ) -> Result<(), NoMemory>
        requires pair { IsPairBelow (functions_in self.now) (labels_in self.now) pair }
        requires above { link.now.above < length self.now.points.now.functions }
        requires pairs { All (IsPairBelow (functions_in self.now) (labels_in self.now)) pairs.old.keys }
        ensures finds { OnOk result (Finds (IsPairOutside (basis_in self.now) (linear_in self.now) pair
            link.now) pairs.old.keys pairs.new.keys) }
        ensures in_range { OnOk result (All (IsPairBelow (functions_in self.now) (labels_in self.now))
            pairs.new.keys) }
    {
        let held = outside(alloc, self.facts, &link.way, &[pair.held])?;
        let wanted = outside(alloc, self.facts, &link.way, &[pair.wanted])?;
        put_pairs(link.above, held.ids(), wanted.ids(), pairs)
    }

    /// Puts a pair as it is outside each link into its function.
    fn put_above(
        &self,
        alloc: Global,
        pair: Paired,
        pairs: &mut IndexSet<Paired>,
    ) -> Result<(), NoMemory>
        requires into { AreLinksInto (basis_in self.now) self.now.into.now }
        requires functions { length self.now.into.now ≡ length self.now.points.now.functions }
        requires pair { IsPairBelow (functions_in self.now) (labels_in self.now) pair }
        requires pairs { All (IsPairBelow (functions_in self.now) (labels_in self.now)) pairs.old.keys }
        ensures finds { OnOk result (Finds (IsPairAbove (basis_in self.now) (linear_in self.now) (links_into
            self.now.into.now pair.function) pair) pairs.old.keys pairs.new.keys) }
        ensures in_range { OnOk result (All (IsPairBelow (functions_in self.now) (labels_in self.now))
            pairs.new.keys) }
    {
        for link in self.into[pair.function as usize].list() {
            self.put_outside_link(alloc, pair, link, pairs)?;
        }
        Ok(())
    }

    /// All pairs of functions.
    pub(crate) fn pairs(
        &self,
        alloc: Global,
        acquired: &[IdSet],
        wants: &[IdSet],
    ) -> Result<IndexSet<Paired>, NoMemory>
        requires linked { AreLinks (basis_in self.now) self.now.links.now }
        requires into { AreLinksInto (basis_in self.now) self.now.into.now }
        requires functions { length self.now.into.now ≡ length self.now.points.now.functions }
        requires acquired { AreExact (points_in self.now) (labels_in self.now)
            (Acq (basis_in self.now) (linear_in self.now)) acquired.now }
        requires wants { AreExact (functions_in self.now) (labels_in self.now)
            (Wants (basis_in self.now) (linear_in self.now)) wants.now }
        ensures exact { IfOk result (λ pairs. ArePairs (basis_in self.now) (linear_in self.now)
            pairs.keys) }
        ensures in_range { IfOk result (λ pairs. All (IsPairBelow (functions_in self.now)
            (labels_in self.now)) pairs.keys) }
    {
        let mut pairs = IndexSet::new(alloc);
        for point in 0..self.points.count() {
            self.put_here(alloc, point, acquired, wants, &mut pairs)?;
        }
        for k in 0..usize::MAX {
            let Some(pair) = pairs.get_index(k).copied() else {
                return Ok(pairs);
            };
            self.put_above(alloc, pair, &mut pairs)?;
        }
        prove!(pairs.len() < usize::MAX);
        unreachable!()
    }
}
