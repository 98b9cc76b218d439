//! Labels of structs: those that are one in the program have one label.
ghost use Rattle.std.specs.Prelude.{◌≡◌, ◌<◌, All, IfOk, OnOk, length};
ghost use Rattle.lk_join.specs.Classes.{IsInProgram};
ghost use Rattle.lk_join.specs.Labels.{AreLabels, AreOwn, HasMetAll, HaveMet, IsRelabelled};
ghost use Rattle.lk_link.specs.Sources.{AreSources};
ghost use Rattle.lk_link.specs.Structs.{AreResolved};

use crate::struct_set::StructSet;
use lk_base::{NoMemory, Seq};
use lk_link::{StructOf, StructPair, have_no_difference};
use lk_typed::TypedUnit;
use std::alloc::Global;

/// The labels of so many structs, each its own place.
fn first_labels(alloc: Global, count: usize) -> Result<Vec<usize>, NoMemory>
    ensures { IfOk result (λ labels. AreOwn count labels.items) }
{
    let mut labels = Vec::new(alloc);
    for place in 0..count {
        labels.push(place)?;
    }
    Ok(labels)
}

/// Gives what has one label another one.
fn relabel(labels: &mut Vec<usize>, kept: usize, other: usize)
    ensures { IsRelabelled labels.old.items labels.new.items kept other }
{
    for place in 0..labels.len() {
        if labels[place] == other {
            labels[place] = kept;
        }
    }
}

/// Gives two structs one label, where a comparison finds no difference between them.
fn meet(
    alloc: Global,
    units: &[TypedUnit],
    becomes: &[Seq<StructOf>],
    structs: &StructSet,
    labels: &mut Vec<usize>,
    places: (usize, usize),
) -> Result<(), NoMemory>
    requires sources { AreSources units.now }
    requires resolved { AreResolved units.now becomes.now }
    requires known { All (IsInProgram units.now) structs.now }
    requires first { places.0 < length structs.now }
    requires second { places.1 < length structs.now }
    requires size { length labels.old.items ≡ length structs.now }
    ensures { OnOk result (HaveMet units.now structs.now labels.old.items labels.new.items places.0 places.1) }
{
    let (first, second) = places;
    let (kept, other) = (labels[first], labels[second]);
    if kept == other {
        return Ok(());
    }
    let pair = StructPair {
        first: structs.at(first),
        second: structs.at(second),
    };
    if have_no_difference(alloc, units, becomes, pair)? {
        relabel(labels, kept, other);
    }
    Ok(())
}

/// Gives a struct the label of each one before it, where a comparison finds no difference between the two.
fn meet_all(
    alloc: Global,
    units: &[TypedUnit],
    becomes: &[Seq<StructOf>],
    structs: &StructSet,
    labels: &mut Vec<usize>,
    place: usize,
) -> Result<(), NoMemory>
    requires sources { AreSources units.now }
    requires resolved { AreResolved units.now becomes.now }
    requires known { All (IsInProgram units.now) structs.now }
    requires place { place < length structs.now }
    requires size { length labels.old.items ≡ length structs.now }
    ensures { OnOk result (HasMetAll units.now structs.now labels.old.items labels.new.items place place) }
{
    for before in 0..place {
        meet(alloc, units, becomes, structs, labels, (before, place))?;
    }
    Ok(())
}

/// The labels of these structs: two have one label exactly where they are one in the program.
pub(crate) fn labels(
    alloc: Global,
    units: &[TypedUnit],
    becomes: &[Seq<StructOf>],
    structs: &StructSet,
) -> Result<Vec<usize>, NoMemory>
    requires sources { AreSources units.now }
    requires resolved { AreResolved units.now becomes.now }
    requires known { All (IsInProgram units.now) structs.now }
    ensures { IfOk result (λ labels. AreLabels units.now structs.now labels.items) }
{
    let mut labels = first_labels(alloc, structs.len())?;
    for place in 0..structs.len() {
        meet_all(alloc, units, becomes, structs, &mut labels, place)?;
    }
    Ok(labels)
}
