//! The racing items of a program.
ghost use Rattle.std.specs.Prelude.{◌≡◌, [], length, map, IfOk};
ghost use Rattle.lk_conflict.specs.Bases.{Adds, IsInConflict};
ghost use Rattle.lk_conflict.specs.Facts.{setting_of};
ghost use Rattle.lk_conflict.specs.Listing.{subjects_of};
ghost use Rattle.lk_facts.specs.Facts.{basis_of};
ghost use Rattle.lk_facts.specs.Racing.{AreRaces};
ghost use Rattle.lk_rise.specs.Conflicts.{AreRacingLists, race_in};
ghost use Rattle.lk_rise.specs.Correlations.{AreInRange, has_of, locks_of};

use crate::grounds::Grounds;
use crate::places::Races;
use lk_base::{NoMemory, Seq};
use lk_facts::{Facts, Held, Racing};
use lk_links::Links;
use lk_rise::{Conflicts, Correlation, Correlations, Groups, Items, PointItems, Subjects, rise};
use lk_sets::{BitRows, IdSet};
use std::alloc::Global;

/// What racing items begin with: the items of all functions that are in conflict, each for its location, with
/// the locks that are held there.
fn begun(
    alloc: Global,
    items: &PointItems<'_>,
    after: &BitRows,
) -> Result<Vec<(Correlation, IdSet)>, NoMemory>
    requires { after.now.size ≡ length items.now.facts.program.points }
    ensures { IfOk result (λ based.
        Adds items.now.facts (setting_of after.now items.now.entries items.now.held)
        (IsInConflict items.now.facts (setting_of after.now items.now.entries items.now.held))
        [] based.items) }
{
    prove!(items.facts().points().count() == after.size());
    let grounds = Grounds { items, after };
    let mut based = Vec::new(alloc);
    for function in 0..items.facts().points().functions() {
        grounds.push_conflicts(alloc, function, &mut based)?;
    }
    Ok(based)
}

/// The locations of racing items, in the order of the items.
fn subjects(alloc: Global, items: &Correlations) -> Result<Vec<u32>, NoMemory>
    ensures { IfOk result (λ keys. keys.items ≡ subjects_of items.now) }
{
    let mut keys = Vec::new(alloc);
    for i in 0..items.count() {
        keys.push(items.item(i).subject)?;
    }
    Ok(keys)
}

/// For each location the racing accesses of `main`, each with the lock places that are held there.
fn racing_lists(
    alloc: Global,
    facts: &Facts<'_>,
    items: &Correlations,
) -> Result<Vec<Seq<Racing>>, NoMemory>
    requires { AreInRange facts.now facts.now.program.locations items.now }
    ensures { IfOk result (λ racing. AreRacingLists (basis_of facts.now) items.now racing.items) }
{
    let keys = subjects(alloc, items)?;
    let numbers = Groups::new(alloc, &keys, facts.points().locations() as usize)?;
    let races = Races {
        facts,
        items,
        numbers: &numbers,
    };
    let mut racing = Vec::new(alloc);
    for location in 0..facts.points().locations() {
        let accesses = races.racing(alloc, location)?;
        racing.push(Seq::new(accesses))?;
    }
    Ok(racing)
}

/// The racing items of all functions, with the locks that are held at each, and the racing accesses
/// of `main` for each location.
///
/// A function's items are in conflict for a location where one is of a thread that was started at a point or
/// below, the other is of a later point, both may access the location, and one writes. They rise by calls and
/// creations. The items, lock sets and order are those of the points. A racing access of `main` has the lock
/// places of its lock set before it is asked which of them are linear.
pub fn conflicts(
    alloc: Global,
    facts: &Facts<'_>,
    held: &Held,
    items: &Items,
    after: &BitRows,
) -> Result<Conflicts, NoMemory>
    requires held_points { length held.now.at ≡ length facts.now.program.points }
    requires held_labels { held.now.labels ≡ length facts.now.labels.entries }
    requires after { after.now.size ≡ length facts.now.program.points }
    requires items { AreInRange facts.now (length facts.now.labels.entries) items.now.entries }
    ensures races { IfOk result (λ c.
        AreRaces (basis_of facts.now) (setting_of after.now items.now.entries held.now)
        (has_of c.entries) (locks_of c.entries)) }
    ensures racing { IfOk result (λ c. AreRacingLists (basis_of facts.now) c.entries c.racing) }
    ensures items { IfOk result (λ c. c.races ≡ map race_in c.entries) }
    ensures in_range { IfOk result (λ c. AreInRange facts.now facts.now.program.locations c.entries) }
{
    let links = Links::new(alloc, facts)?;
    let points = PointItems::new(alloc, facts, held, &links, items)?;
    let based = begun(alloc, &points, after)?;
    let races = rise(alloc, facts, held, &links, &based, Subjects::AsTheyAre)?;
    let racing = racing_lists(alloc, facts, &races)?;
    let conflicts = Conflicts::new(alloc, races, racing)?;
    Ok(conflicts)
}
