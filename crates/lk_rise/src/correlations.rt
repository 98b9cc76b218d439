//! Accesses, with the locks that are held at them.
ghost use Rattle.std.specs.Prelude.{◌≡◌, ◌<◌, ◌^◌, [], Some, length, slice_get, IfOk, MatchOption};
ghost use Rattle.std.specs.List.Sorted.{IsStrictlyIncreasing};
ghost use Rattle.std.specs.Option.{option_copied, option_map};
ghost use Rattle.lk_rise.specs.Correlations.{AreCorrelations, set_of};
ghost use Rattle.lk_rise.specs.Tables.{IsLeft, IsWithin, Offered};

use indexmap::IndexMap;
use lk_base::NoMemory;
use lk_links::has_all;
use lk_sets::IdSet;
use std::alloc::Global;
use std::marker::Model;

/// An access that a function makes, itself or in what it runs or starts: an item or a
/// racing item, by numbers alone.
#[derive(Clone, Copy, PartialEq, Eq, Hash)]
pub struct Correlation {
    /// The function.
    pub function: u32,
    /// Whether a thread makes the access that was started in the function, and not its own thread.
    pub child: bool,
    /// The label of what is accessed; of a racing item the location.
    pub subject: u32,
    /// The point of the access.
    pub access: u32,
}

/// Items, each once, with the locks that are held at each.
///
/// A contract sees them as a list of pairs, in the order in which the items were found.
#[derive(Drop)]
pub struct Correlations {
    entries: IndexMap<Correlation, IdSet>,
}

impl Model for Correlations {
    ghost use Rattle.std.specs.Prelude.{ℕ, List};
    ghost use Rattle.lk_rise.specs.declared.correlations.Correlation.{Correlation};

    ghost Value = { List (Correlation × List ℕ) };

    ghost view = { λ correlations. correlations.entries.entries };
}

impl Correlations {
    /// No items.
    pub(crate) fn new(alloc: Global) -> Correlations
        ensures { result ≡ [] }
    {
        Correlations {
            entries: IndexMap::new(alloc),
        }
    }

    /// How many items there are.
    pub fn count(&self) -> usize
        ensures value { result ≡ length self.now }
        ensures small { result < 2 ^ 63 }
        ensures different { AreCorrelations self.now }
    {
        self.entries.len()
    }

    /// The item with this number, and the locks that are held at it.
    fn entry(&self, i: usize) -> (&Correlation, &IdSet)
        requires { i < length self.now }
        ensures { slice_get self.now i ≡ Some (result.0.now, result.1.now) }
    {
        self.entries.get_index(i).unwrap()
    }

    /// The item with this number.
    pub fn item(&self, i: usize) -> Correlation
        requires { i < length self.now }
        ensures { option_map (λ entry. entry.0) (slice_get self.now i) ≡ Some result }
    {
        *self.entry(i).0
    }

    /// The locks that are held at the item with this number, in ascending order.
    pub fn locks(&self, i: usize) -> &[u32]
        requires { i < length self.now }
        ensures value { option_map (λ entry. entry.1) (slice_get self.now i) ≡ Some result.now }
        ensures sorted { IsStrictlyIncreasing result.now }
    {
        self.entry(i).1.ids()
    }

    /// The set of the locks that are held at an item, or nothing where it isn't there.
    pub(crate) fn set(&self, item: Correlation) -> Option<&IdSet>
        ensures { option_copied result ≡ set_of self.now item }
    {
        self.entries.get(&item)
    }

    /// The locks that are held at an item, in ascending order, or nothing where it isn't there.
    pub fn find(&self, item: Correlation) -> Option<&[u32]>
        ensures { option_copied result ≡ set_of self.now item }
    {
        match self.entries.get(&item) {
            Some(set) => Some(set.ids()),
            None => None,
        }
    }

    /// What is left of the locks of an item once they have met a set, or nothing where all are left. Of a new
    /// item all of the set is left.
    fn left(&self, alloc: Global, item: Correlation, set: &IdSet) -> Result<Option<IdSet>, NoMemory>
        ensures { IfOk result (λ found.
            MatchOption found (IsWithin self.now item set.now) (IsLeft self.now item set.now)) }
    {
        match self.entries.get(&item) {
            None => {
                let copy = IdSet::from_list(alloc, set.ids())?;
                Ok(Some(copy))
            }
            Some(old) => {
                if has_all(set, old.ids()) {
                    return Ok(None);
                }
                let met = old.meet(set)?;
                Ok(Some(met))
            }
        }
    }

    /// Puts an item with the locks of a set, or takes those away from its locks that aren't in the set where
    /// the item is there already, and answers whether it was there and has fewer locks now.
    pub(crate) fn offer(
        &mut self,
        alloc: Global,
        item: Correlation,
        set: &IdSet,
    ) -> Result<bool, NoMemory>
        ensures { IfOk result (Offered self.old self.new item set.now) }
    {
        match self.left(alloc, item, set)? {
            None => Ok(false),
            Some(left) => {
                let fewer = self.entries.contains_key(&item);
                self.entries.insert(item, left)?;
                Ok(fewer)
            }
        }
    }
}
