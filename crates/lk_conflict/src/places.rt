//! The racing accesses of `main`, and the lock places that are held there.
ghost use Rattle.lk_facts.specs.Facts.{basis_of};
ghost use Rattle.std.specs.Prelude.{◌≡◌, ◌<◌, ◌↔◌, ◌⊎◌, ◌++◌, ℕ, true, All, IfOk, IsTrue, OnOk, length};
ghost use Rattle.lk_conflict.specs.Listing.{access_at, access_of, subjects_of};
ghost use Rattle.lk_conflict.specs.Places.{AreLocksBelow, IsPlaceBy, IsPlaceOf};
ghost use Rattle.lk_facts.specs.Lists.{Lists};
ghost use Rattle.lk_facts.specs.Program.{IsLockPlace};
ghost use Rattle.lk_facts.specs.Verdicts.{AreRacing, IsRacing, InLockSet};
ghost use Rattle.lk_rise.specs.Conflicts.{every_place};
ghost use Rattle.lk_rise.specs.Correlations.{has_of, locks_of};
ghost use Rattle.lk_rise.specs.Groups.{AreGroups};
ghost use Rattle.lk_links.specs.Only.{IsTheOne};
ghost use Rattle.lk_sets.specs.Ids.{has_id};

use lk_base::NoMemory;
use lk_facts::{Facts, Racing};
use lk_links::only_in_row;
use lk_rise::{Correlation, Correlations, Groups};
use lk_sets::IdSet;
use std::alloc::Global;

/// What the racing accesses of a program rest on.
#[derive(Drop)]
pub(crate) struct Races<'a> {
    /// What is known of the program.
    pub facts: &'a Facts<'a>,
    /// Its racing items, with the locks that are held at each.
    pub items: &'a Correlations,
    /// Their numbers, for each location.
    pub numbers: &'a Groups,
    ghost in_range: { AreLocksBelow (length facts.now.labels.entries) items.now },
}

/// Puts the access of an item behind the numbers, where it is one of the function.
fn push_access(item: Correlation, function: u32, accesses: &mut Vec<u32>) -> Result<(), NoMemory>
    ensures { OnOk result (accesses.new.items ≡ accesses.old.items ++ access_of function item) }
{
    if item.function == function {
        accesses.push(item.access)?;
    }
    Ok(())
}

impl Races<'_> {
    /// Whether a label is that of a lock place.
    fn is_lock_place(&self, label: u32) -> bool
        ensures { IsTrue result ↔ IsLockPlace self.now.facts.now.program label }
    {
        let first = self.facts.points().locations();
        first <= label && label < first + self.facts.points().locks()
    }

    /// The lock place that a lock can mean alone, where there is one.
    fn place(&self, lock: u32) -> Option<u32>
        requires { lock < length self.now.facts.now.labels.entries }
        ensures { IsTheOne (IsPlaceBy (basis_of self.now.facts.now) every_place lock) result }
    {
        let place = only_in_row(self.facts.origins().all(), lock)?;
        if !self.is_lock_place(place) {
            return None;
        }
        Some(place)
    }

    /// Puts the lock place that a lock can mean alone behind the numbers.
    fn push_place(&self, lock: u32, places: &mut Vec<u32>) -> Result<(), NoMemory>
        requires { lock < length self.now.facts.now.labels.entries }
        ensures { OnOk result ((q : ℕ) → (has_id places.new.items q ≡ true)
            ↔ ((has_id places.old.items q ≡ true)
            ⊎ IsPlaceBy (basis_of self.now.facts.now) every_place lock q)) }
    {
        if let Some(place) = self.place(lock) {
            places.push(place)?;
        }
        Ok(())
    }

    /// The lock places that some of the locks can mean alone.
    fn places(&self, alloc: Global, locks: &[u32]) -> Result<IdSet, NoMemory>
        requires { All (λ x. x < length self.now.facts.now.labels.entries) locks.now }
        ensures { IfOk result (Lists (IsPlaceOf (basis_of self.now.facts.now) every_place locks.now)) }
    {
        let mut places = Vec::new(alloc);
        for lock in locks {
            self.push_place(*lock, &mut places)?;
        }
        let set = IdSet::from_list(alloc, &places)?;
        Ok(set)
    }

    /// The lock places that are held at a racing access of `main`.
    fn lock_set(&self, alloc: Global, location: u32, access: u32) -> Result<IdSet, NoMemory>
        requires { IsRacing (basis_of self.now.facts.now) (has_of self.now.items.now)
            (locks_of self.now.items.now) location access }
        ensures { IfOk result (Lists (InLockSet (basis_of self.now.facts.now)
            (has_of self.now.items.now) (locks_of self.now.items.now) every_place location access)) }
    {
        let item = Correlation {
            function: self.facts.points().main(),
            child: false,
            subject: location,
            access,
        };
        let own = self.items.find(item);
        let child = self.items.find(Correlation {
            child: true,
            ..item
        });
        match (own, child) {
            (Some(own), Some(child)) => {
                let places = self.places(alloc, own)?;
                let others = self.places(alloc, child)?;
                let both = places.meet(&others)?;
                Ok(both)
            }
            (Some(own), None) => {
                let places = self.places(alloc, own)?;
                Ok(places)
            }
            (None, Some(child)) => {
                let places = self.places(alloc, child)?;
                Ok(places)
            }
            (None, None) => unreachable!(),
        }
    }

    /// Puts the access of the item with a number behind the numbers, where it is one of the function.
    fn push_item(
        &self,
        number: usize,
        function: u32,
        accesses: &mut Vec<u32>,
    ) -> Result<(), NoMemory>
        requires { number < length self.now.items.now }
        ensures { OnOk result
            (accesses.new.items ≡ accesses.old.items ++ access_at function self.now.items.now number) }
    {
        push_access(self.items.item(number), function, accesses)?;
        Ok(())
    }

    /// The racing accesses of `main` for a location.
    fn accesses(&self, alloc: Global, location: u32) -> Result<IdSet, NoMemory>
        requires numbers { AreGroups (subjects_of self.now.items.now) self.now.numbers.now }
        requires location { location < length self.now.numbers.now }
        ensures { IfOk result (Lists (IsRacing (basis_of self.now.facts.now)
            (has_of self.now.items.now) (locks_of self.now.items.now) location)) }
    {
        let main = self.facts.points().main();
        let mut accesses = Vec::new(alloc);
        for number in self.numbers.at(location) {
            self.push_item(*number, main, &mut accesses)?;
        }
        let set = IdSet::from_list(alloc, &accesses)?;
        Ok(set)
    }

    /// The racing accesses of `main` for a location, each with its lock set.
    pub(crate) fn racing(&self, alloc: Global, location: u32) -> Result<Vec<Racing>, NoMemory>
        requires numbers { AreGroups (subjects_of self.now.items.now) self.now.numbers.now }
        requires location { location < length self.now.numbers.now }
        ensures { IfOk result (λ v. AreRacing (basis_of self.now.facts.now) (has_of self.now.items.now)
            (locks_of self.now.items.now) every_place location v.items) }
    {
        let accesses = self.accesses(alloc, location)?;
        let mut racing = Vec::new(alloc);
        for access in accesses.ids() {
            let locks = self.lock_set(alloc, location, *access)?;
            racing.push(Racing {
                access: *access,
                locks,
            })?;
        }
        Ok(racing)
    }
}
