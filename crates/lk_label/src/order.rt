//! The order of labels: places first.
ghost use Rattle.std.specs.Prelude.{◌≡◌, ◌<◌, ◌+◌, length, IfOk, OnOk};
ghost use Rattle.lk_label.specs.Gathering.{AreAllLabels, AreOrdered, ArePlacesTo, PutsKnown};

use crate::names::Names;
use lk_base::NoMemory;
use lk_facts::{Holder, LabelName, Place, Points};
use std::alloc::Global;

/// Puts a name, where it is among the names.
fn put_known(names: &Names, name: &LabelName, found: &mut Names) -> Result<(), NoMemory>
    ensures { OnOk result (PutsKnown names.now name.now found.old found.new) }
{
    if !names.has(name) {
        return Ok(());
    }
    found.put(name.holder, name.node)?;
    Ok(())
}

/// Puts the name of a location or lock place, where it is among the names.
fn put_place(points: &Points, names: &Names, n: u32, found: &mut Names) -> Result<(), NoMemory>
    requires { n < length points.now.places }
    ensures { OnOk result (ArePlacesTo points.now names.now n found.old → ArePlacesTo points.now names.now (n + 1) found.new) }
{
    let Place { root, node } = points.place(n);
    let holder = Holder::Root(root);
    put_known(names, &LabelName { holder, node }, found)
}

/// How many locations and lock places there are.
fn place_count(points: &Points) -> u32
    ensures { result ≡ length points.now.places }
{
    points.locations() + points.locks()
}

/// Those of the names that are locations or lock places, in the order of these.
fn names_of_places(alloc: Global, points: &Points, names: &Names) -> Result<Names, NoMemory>
    ensures { IfOk result (ArePlacesTo points.now names.now (length points.now.places)) }
{
    let mut found = Names::new(alloc);
    for n in 0..place_count(points) {
        put_place(points, names, n, &mut found)?;
    }
    Ok(found)
}

/// All labels in their order: the locations and lock places in theirs, and then the rest by their holders.
pub fn places_first(alloc: Global, points: &Points, names: &Names) -> Result<Names, NoMemory>
    requires { AreAllLabels points.now names.now }
    ensures { IfOk result (AreOrdered points.now) }
{
    let mut ordered = names_of_places(alloc, points, names)?;
    for name in names.list() {
        ordered.put(name.holder, name.node)?;
    }
    ordered.are_different();
    Ok(ordered)
}
