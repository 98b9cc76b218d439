//! A set of numbers.
ghost use Rattle.std.specs.Prelude.{◌≡◌, ◌&&◌, ◌||◌, ℕ, Bool, [], List, IfOk};
ghost use Rattle.std.specs.List.Sorted.{IsStrictlyIncreasing};
ghost use Rattle.lk_sets.specs.Ids.{has_id, IsSetOf};

use lk_base::NoMemory;
use std::alloc::Global;
use std::cmp::Ordering;
use std::marker::Model;

/// A set of numbers. A contract sees it as the list of its numbers in ascending order, each once.
#[derive(Drop)]
pub struct IdSet {
    ids: Vec<u32>,
}

impl Model for IdSet {
    ghost use Rattle.std.specs.Prelude.{ℕ, List};
    ghost use Rattle.std.specs.List.Sorted.{IsStrictlyIncreasing};

    ghost Value = { List ℕ };

    ghost view = { λ set. set.ids.items };

    ghost invariant = { λ set. IsStrictlyIncreasing set.ids.items };
}

impl IdSet {
    /// The set without numbers. It takes no memory.
    pub fn empty(alloc: Global) -> IdSet
        ensures { result ≡ [] }
    {
        IdSet {
            ids: Vec::new(alloc),
        }
    }

    /// The same set once more.
    pub fn copy(&self) -> Result<IdSet, NoMemory>
        ensures { IfOk result (λ set. set ≡ self.now) }
    {
        let ids = self.ids.clone()?;
        Ok(IdSet { ids })
    }

    /// The set of the numbers in a list, which may have them in any order and more than once.
    pub fn from_list(alloc: Global, list: &[u32]) -> Result<IdSet, NoMemory>
        ensures { IfOk result (IsSetOf (has_id list.now)) }
    {
        let mut ids = Vec::from_slice(alloc, list)?;
        ids.sort_unstable();
        ids.dedup();
        Ok(IdSet { ids })
    }

    /// The numbers, in ascending order.
    pub fn ids(&self) -> &[u32]
        ensures list { result.now ≡ self.now }
        ensures sorted { IsStrictlyIncreasing self.now }
    {
        self.ids.as_slice()
    }

    /// Whether the number is in the set.
    pub fn has(&self, id: u32) -> bool
        ensures { result ≡ has_id self.now id }
    {
        self.ids.binary_search(&id).is_ok()
    }

    /// The numbers that are in both sets.
    pub fn meet(&self, other: &IdSet) -> Result<IdSet, NoMemory>
        ensures { IfOk result (IsSetOf (λ x. has_id self.now x && has_id other.now x)) }
    {
        let mut ids = Vec::new(*self.ids.allocator());
        let mut left = self.ids.as_slice();
        let mut right = other.ids.as_slice();
        while let (Some((x, xs)), Some((y, ys))) = (left.split_first(), right.split_first()) {
            match x.cmp(y) {
                Ordering::Less => left = xs,
                Ordering::Greater => right = ys,
                Ordering::Equal => {
                    ids.push(*x)?;
                    left = xs;
                    right = ys;
                }
            }
        }
        Ok(IdSet { ids })
    }

    /// The numbers that are in one of the sets or in both.
    pub fn union(&self, other: &IdSet) -> Result<IdSet, NoMemory>
        ensures { IfOk result (IsSetOf (λ x. has_id self.now x || has_id other.now x)) }
    {
        let mut ids = Vec::new(*self.ids.allocator());
        let mut left = self.ids.as_slice();
        let mut right = other.ids.as_slice();
        while let (Some((x, xs)), Some((y, ys))) = (left.split_first(), right.split_first()) {
            match x.cmp(y) {
                Ordering::Less => {
                    ids.push(*x)?;
                    left = xs;
                }
                Ordering::Greater => {
                    ids.push(*y)?;
                    right = ys;
                }
                Ordering::Equal => {
                    ids.push(*x)?;
                    left = xs;
                    right = ys;
                }
            }
        }
        ids.extend_from_slice(left)?;
        ids.extend_from_slice(right)?;
        Ok(IdSet { ids })
    }
}

/// No two ascending lists have the same numbers, so what is said of a set's numbers says what its list is.
pub fn a_set_has_one_list()
    ensures { (member : ℕ → Bool) (ids others : List ℕ) → IsSetOf member ids →
        IsSetOf member others → ids ≡ others }
{}
