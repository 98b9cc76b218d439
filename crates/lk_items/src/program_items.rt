//! The items of a program.
ghost use Rattle.std.specs.Prelude.{◌≡◌, length, map, IfOk};
ghost use Rattle.lk_facts.specs.Analysis.{held_table};
ghost use Rattle.lk_facts.specs.Facts.{basis_of};
ghost use Rattle.lk_facts.specs.Items.{AreItems};
ghost use Rattle.lk_rise.specs.Correlations.{has_of, locks_of, AreInRange};
ghost use Rattle.lk_rise.specs.Items.{item_in};

use crate::accesses::accesses;
use lk_base::NoMemory;
use lk_facts::{Facts, Held};
use lk_links::Links;
use lk_rise::{Items, Subjects, rise};
use std::alloc::Global;

/// What each function accesses, itself and in what it runs and starts, with the locks that are held at
/// each access wherever it is made.
///
/// The subject of an item is the label by which the function names what is accessed. Lock
/// sets are those of the points.
pub fn items(alloc: Global, facts: &Facts<'_>, held: &Held) -> Result<Items, NoMemory>
    requires held_points { length held.now.at ≡ length facts.now.program.points }
    requires held_labels { held.now.labels ≡ length facts.now.labels.entries }
    ensures items { IfOk result (λ found.
        AreItems (basis_of facts.now) (held_table held.now) (has_of found.entries) (locks_of found.entries)) }
    ensures named { IfOk result (λ found. found.items ≡ map (item_in facts.now.labels) found.entries) }
    ensures in_range { IfOk result (λ found.
        AreInRange facts.now (length facts.now.labels.entries) found.entries) }
{
    let links = Links::new(alloc, facts)?;
    let base = accesses(alloc, facts, held)?;
    let found = rise(alloc, facts, held, &links, &base, Subjects::AsOutside)?;
    let items = Items::new(alloc, facts, found)?;
    Ok(items)
}
