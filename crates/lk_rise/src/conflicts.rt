//! The racing items of a program.
ghost use Rattle.std.specs.Prelude.{◌≡◌, ◌<◌, Some, length, map, slice_get, IfOk};
ghost use Rattle.std.specs.List.Sorted.{IsStrictlyIncreasing};
ghost use Rattle.std.specs.Option.{option_map};
ghost use Rattle.lk_rise.specs.Conflicts.{conflicts_of, race_in, race_with, racing_of};

use crate::correlations::{Correlation, Correlations};
use lk_base::{NoMemory, Seq};
use lk_facts::Racing;
use std::alloc::Global;
use std::marker::Model;

/// A racing item: an access to a location that races in a function, itself or in what it runs or starts.
#[derive(Clone, Copy)]
pub struct RaceItem {
    /// The function.
    pub function: u32,
    /// Whether a thread makes the access that was started in the function, and not its own thread.
    pub child: bool,
    /// The location.
    pub location: u32,
    /// The point of the access.
    pub access: u32,
}

/// The racing items of all functions, each once, with the locks that are held at each, and for each location
/// the racing accesses of `main` with the lock places that are held there.
///
/// A contract sees them as the correlations that they are, as the list of racing items, in one order, and as
/// the lists of racing accesses.
#[derive(Drop)]
pub struct Conflicts {
    found: Correlations,
    races: Vec<RaceItem>,
    racing: Vec<Seq<Racing>>,
}

impl Model for Conflicts {
    ghost use Rattle.std.specs.Prelude.{◌≡◌, length};
    ghost use Rattle.lk_rise.specs.Conflicts.{ConflictTable, conflicts_of};

    ghost Value = { ConflictTable };

    ghost view = { λ a. conflicts_of a.found a.races.items a.racing.items };

    ghost invariant = { λ a. length a.races.items ≡ length a.found };
}

/// The racing item of a correlation, whose subject is a location.
fn race(correlation: Correlation) -> RaceItem
    ensures { result ≡ race_with correlation }
{
    RaceItem {
        function: correlation.function,
        child: correlation.child,
        location: correlation.subject,
        access: correlation.access,
    }
}

/// The racing items of correlations, in their order.
fn all_races(alloc: Global, found: &Correlations) -> Result<Vec<RaceItem>, NoMemory>
    ensures { IfOk result (λ races. races.items ≡ map race_in found.now) }
{
    let mut races = Vec::new(alloc);
    for i in 0..found.count() {
        races.push(race(found.item(i)))?;
    }
    Ok(races)
}

impl Conflicts {
    /// The racing items that these correlations are, with these racing accesses of each location.
    pub fn new(
        alloc: Global,
        found: Correlations,
        racing: Vec<Seq<Racing>>,
    ) -> Result<Conflicts, NoMemory>
        ensures { IfOk result (λ conflicts. conflicts ≡ conflicts_of found (map race_in found) racing.items) }
    {
        let races = all_races(alloc, &found)?;
        Ok(Conflicts {
            found,
            races,
            racing,
        })
    }

    /// How many locations there are.
    pub fn locations(&self) -> usize
        ensures { result ≡ length self.now.racing }
    {
        self.racing.len()
    }

    /// The racing accesses of `main` for a location, in ascending order, each with the
    /// lock places that are held there.
    pub fn racing(&self, location: u32) -> &[Racing]
        requires { location < length self.now.racing }
        ensures { result.now ≡ racing_of self.now location }
    {
        self.racing[location as usize].list()
    }

    /// How many racing items there are.
    pub fn count(&self) -> usize
        ensures value { result ≡ length self.now.entries }
        ensures races { length self.now.races ≡ length self.now.entries }
    {
        self.races.len()
    }

    /// The racing item with this number.
    pub fn race(&self, i: usize) -> &RaceItem
        requires { i < length self.now.entries }
        ensures { slice_get self.now.races i ≡ Some result.now }
    {
        &self.races[i]
    }

    /// The locks that are held at the racing item with this number, in ascending order.
    pub fn locks(&self, i: usize) -> &[u32]
        requires { i < length self.now.entries }
        ensures value { option_map (λ entry. entry.1) (slice_get self.now.entries i) ≡ Some result.now }
        ensures sorted { IsStrictlyIncreasing result.now }
    {
        self.found.locks(i)
    }
}
