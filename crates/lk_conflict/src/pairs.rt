//! Which items of points are in conflict.
ghost use Rattle.std.specs.Prelude.{◌≡◌, ◌<◌, ◌↔◌, ◌⊎◌, true, All, Contains, length, IfOk, OnOk};
ghost use Rattle.lk_conflict.specs.Kinds.{HasKind, IsKindInRange, IsRacingKind, are_in_conflict, is_in_conflict, kind_of, may_meet};
ghost use Rattle.lk_conflict.specs.Listing.{at_location};
ghost use Rattle.lk_conflict.specs.declared.pairs.Kind.{Kind};
ghost use Rattle.lk_rise.specs.PointItems.{IsItemInRange};
ghost use Rattle.lk_sets.specs.Rows.{has};

use crate::grounds::Grounds;
use indexmap::IndexSet;
use lk_base::NoMemory;
use lk_rise::ItemAt;
use std::alloc::Global;

/// What of an item of a point tells with which others it is in conflict.
#[derive(Clone, Copy, PartialEq, Eq, Hash)]
pub(crate) struct Kind {
    /// The point.
    pub point: u32,
    /// Whether a thread makes the access that is started at the point or below.
    pub child: bool,
    /// Whether the access writes.
    pub writes: bool,
}

impl Grounds<'_> {
    /// The items that may be at a location.
    pub(crate) fn at_location(
        &self,
        alloc: Global,
        location: u32,
        items: &[ItemAt],
    ) -> Result<Vec<ItemAt>, NoMemory>
        requires location { location < length self.now.items.now.facts.labels.entries }
        requires items { All (IsItemInRange self.now.items.now.facts) items.now }
        ensures { IfOk result (λ found.
            found.items ≡ at_location self.now.items.now.facts.origins location items.now) }
    {
        let all = self.items.facts().origins().all();
        let mut found = Vec::new(alloc);
        for item in items {
            if all.has(item.subject, location) {
                found.push(*item)?;
            }
        }
        Ok(found)
    }

    /// The kind of an item.
    pub(crate) fn kind(&self, item: &ItemAt) -> Kind
        requires { IsItemInRange self.now.items.now.facts item.now }
        ensures { result ≡ kind_of self.now.items.now.facts.program item.now }
    {
        Kind {
            point: item.point,
            child: item.child,
            writes: self.writes(item.access),
        }
    }

    /// The kinds of items, each once.
    fn kinds(&self, alloc: Global, items: &[ItemAt]) -> Result<IndexSet<Kind>, NoMemory>
        requires { All (IsItemInRange self.now.items.now.facts) items.now }
        ensures { IfOk result (λ kinds. (k : Kind) →
            Contains kinds.keys k ↔ HasKind self.now.items.now.facts.program items.now k) }
    {
        let mut kinds = IndexSet::new(alloc);
        for item in items {
            kinds.insert(self.kind(item))?;
        }
        Ok(kinds)
    }

    /// Whether an item of the first kind is of a thread that is started at its point or below, the second
    /// one's point is later, and one of the accesses writes.
    fn may_meet(&self, first: Kind, second: Kind) -> bool
        requires first { IsKindInRange self.now.items.now.facts.program first }
        requires second { IsKindInRange self.now.items.now.facts.program second }
        ensures { result ≡ may_meet (has self.now.after.now) first second }
    {
        first.child && self.after.has(first.point, second.point) && (first.writes || second.writes)
    }

    /// Whether items of two kinds are in conflict.
    fn are_in_conflict(&self, kind: Kind, other: Kind) -> bool
        requires kind { IsKindInRange self.now.items.now.facts.program kind }
        requires other { IsKindInRange self.now.items.now.facts.program other }
        ensures { result ≡ are_in_conflict (has self.now.after.now) kind other }
    {
        self.may_meet(kind, other) || self.may_meet(other, kind)
    }

    /// Whether an item of a kind is in conflict with one of the others.
    fn is_in_conflict(&self, kind: Kind, others: &[Kind]) -> bool
        requires kind { IsKindInRange self.now.items.now.facts.program kind }
        requires others { All (IsKindInRange self.now.items.now.facts.program) others.now }
        ensures { result ≡ is_in_conflict (has self.now.after.now) others.now kind }
    {
        for other in others {
            if self.are_in_conflict(kind, *other) {
                return true;
            }
        }
        false
    }

    /// Puts a kind to the others where an item of it is in conflict with one of these kinds.
    fn put_racing(
        &self,
        kind: Kind,
        kinds: &[Kind],
        racing: &mut IndexSet<Kind>,
    ) -> Result<(), NoMemory>
        requires kind { IsKindInRange self.now.items.now.facts.program kind }
        requires kinds { All (IsKindInRange self.now.items.now.facts.program) kinds.now }
        ensures { OnOk result ((k : Kind) → Contains racing.new.keys k
            ↔ (Contains racing.old.keys k
            ⊎ ((k ≡ kind) × (is_in_conflict (has self.now.after.now) kinds.now kind ≡ true)))) }
    {
        if !self.is_in_conflict(kind, kinds) {
            return Ok(());
        }
        racing.insert(kind)?;
        Ok(())
    }

    /// Those of the kinds of items that are in conflict with one of them.
    pub(crate) fn racing_kinds(
        &self,
        alloc: Global,
        items: &[ItemAt],
    ) -> Result<IndexSet<Kind>, NoMemory>
        requires { All (IsItemInRange self.now.items.now.facts) items.now }
        ensures { IfOk result (λ racing. (k : Kind) → Contains racing.keys k
            ↔ IsRacingKind self.now.items.now.facts.program (has self.now.after.now) items.now k) }
    {
        let kinds = self.kinds(alloc, items)?;
        let mut racing = IndexSet::new(alloc);
        for kind in kinds.as_slice() {
            self.put_racing(*kind, kinds.as_slice(), &mut racing)?;
        }
        Ok(racing)
    }
}
