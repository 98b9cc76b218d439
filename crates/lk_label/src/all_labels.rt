//! The labels of a program.
ghost use Rattle.std.specs.Prelude.{◌≡◌, Err, IfOk, OnOk};
ghost use Rattle.lk_facts.specs.LabelRules.{AreHolders, AreLabels, HasMoreLabels};
ghost use Rattle.lk_label.specs.Gathering.{AreOrdered};
ghost use Rattle.lk_label.specs.Listing.{AreEntriesOf};
ghost use Rattle.lk_label.specs.declared.fault.LabelFault.TheVariants.{TooMany};

use crate::entries::entries;
use crate::fault::LabelFault;
use crate::gather::labels_by_holder;
use crate::holder_set::HolderSet;
use crate::holders::all_holders;
use crate::names::Names;
use crate::order::places_first;
use crate::targets::targets;
use lk_base::NoMemory;
use lk_facts::{Holder, LabelEntry, Labels, Points};
use std::alloc::Global;

/// The names of all labels of these holders, in their order.
fn ordered_names(alloc: Global, points: &Points, holders: &[Holder]) -> Result<Names, LabelFault>
    requires { AreHolders points.now holders.now }
    ensures ok { IfOk result (AreOrdered points.now) }
    ensures too_many { result ≡ Err TooMany → HasMoreLabels points.now 65536 }
{
    let found = labels_by_holder(alloc, points, holders)?;
    let names = places_first(alloc, points, &found)?;
    Ok(names)
}

/// What is known of each label of these holders, in their order.
fn entries_by(
    alloc: Global,
    points: &Points,
    holders: &[Holder],
    names: &Names,
) -> Result<Vec<LabelEntry>, NoMemory>
    requires holders { AreHolders points.now holders.now }
    requires names { AreOrdered points.now names.now }
    ensures { IfOk result (λ entries. AreEntriesOf points.now names.now entries.items) }
{
    let numbers = HolderSet::of(alloc, holders)?;
    entries(alloc, points, &numbers, names)
}

/// The names of all labels, in their order, with what is known of each.
fn known_names(alloc: Global, points: &Points) -> Result<(Names, Vec<LabelEntry>), LabelFault>
    ensures ordered { IfOk result (λ found. AreOrdered points.now found.0) }
    ensures known { IfOk result (λ found. AreEntriesOf points.now found.0 found.1.items) }
    ensures too_many { result ≡ Err TooMany → HasMoreLabels points.now 65536 }
{
    let holders = all_holders(alloc, points)?;
    let names = ordered_names(alloc, points, &holders)?;
    let entries = entries_by(alloc, points, &holders, &names)?;
    Ok((names, entries))
}

/// The labels with these names, of which this is known: beside it the target of each point.
fn with_targets(
    alloc: Global,
    points: &Points,
    names: Names,
    entries: Vec<LabelEntry>,
) -> Result<Labels, NoMemory>
    requires names { AreOrdered points.now names }
    requires entries { AreEntriesOf points.now names entries.items }
    ensures ok { IfOk result (AreLabels points.now) }
    ensures few { OnOk result (HasMoreLabels points.now 65536 → ⊥) }
{
    let targets = targets(alloc, points, &names)?;
    names.are_different();
    Ok(Labels::new(names.into_set(), entries, targets))
}

/// The labels of a program (LOCKSMITH: a label for each level of each type): each holder's nodes
/// that name a place or a function, the locations and lock places first, with what is known of each
/// and the target of each point.
///
/// `TooMany` is answered exactly where there are more than 65,536 of them, unless memory ends first: where
/// labels are answered, there are no more.
pub fn labels(alloc: Global, points: &Points) -> Result<Labels, LabelFault>
    ensures ok { IfOk result (AreLabels points.now) }
    ensures too_many { result ≡ Err TooMany → HasMoreLabels points.now 65536 }
    ensures few { OnOk result (HasMoreLabels points.now 65536 → ⊥) }
{
    let (names, entries) = known_names(alloc, points)?;
    let labels = with_targets(alloc, points, names, entries)?;
    Ok(labels)
}
