//! Sets of locks that shrink, one for each point: those that each way to it lets go.
ghost use Rattle.std.specs.Prelude.{◌≡◌, ◌<◌, ℕ, true, length, IfOk, MatchOption};
ghost use Rattle.std.specs.List.Sorted.{IsStrictlyIncreasing};
ghost use Rattle.lk_sets.specs.Ids.{has_id};

use lk_base::NoMemory;
use lk_links::has_all;
use lk_sets::IdSet;
use std::alloc::Global;

/// For each point the locks that each way to it lets go, as far as is known.
#[derive(Drop)]
pub(crate) struct States {
    /// All locks.
    pub locks: IdSet,
    /// For each point those that are left, or nothing while all are.
    pub sets: Vec<Option<IdSet>>,
}

impl States {
    ghost use Rattle.lk_order.specs.Left.{left_at, is_left, IsLessLeft, NarrowsLeft};

    /// The locks that are left at a point.
    pub(crate) fn at(&self, point: u32) -> &IdSet
        requires { point < length self.now.sets.items }
        ensures { result.now ≡ left_at self.now point }
    {
        match &self.sets[point as usize] {
            Some(set) => set,
            None => &self.locks,
        }
    }

    /// The locks of a point that are in the set too, or nothing where all are.
    fn left(&self, alloc: Global, point: u32, set: &IdSet) -> Result<Option<IdSet>, NoMemory>
        requires point { point < length self.now.sets.items }
        requires sorted { IsStrictlyIncreasing self.now.locks }
        requires within { (x : ℕ) → has_id set.now x ≡ true → has_id self.now.locks x ≡ true }
        ensures { IfOk result (λ found. MatchOption found
            ((x : ℕ) → is_left self.now point x ≡ true → has_id set.now x ≡ true)
            (IsLessLeft self.now point set.now)) }
    {
        match &self.sets[point as usize] {
            None => {
                let copy = IdSet::from_list(alloc, set.ids())?;
                Ok(Some(copy))
            }
            Some(old) => {
                if has_all(set, old.ids()) {
                    return Ok(None);
                }
                let met = old.meet(set)?;
                Ok(Some(met))
            }
        }
    }

    /// Takes away from the locks of a point those that aren't in the set, and
    /// answers whether something changed.
    pub(crate) fn narrow(
        &mut self,
        alloc: Global,
        point: u32,
        set: &IdSet,
    ) -> Result<bool, NoMemory>
        requires point { point < length self.old.sets.items }
        requires sorted { IsStrictlyIncreasing self.old.locks }
        requires within { (x : ℕ) → has_id set.now x ≡ true → has_id self.old.locks x ≡ true }
        ensures { IfOk result (NarrowsLeft self.old self.new point set.now) }
    {
        match self.left(alloc, point, set)? {
            None => Ok(false),
            Some(left) => {
                self.sets[point as usize] = Some(left);
                Ok(true)
            }
        }
    }
}
