//! What is known of each label.
ghost use Rattle.std.specs.Prelude.{◌≡◌, ◌+◌, ◌<◌, IfOk, OnOk, length, min, ◌-◌, ◌^◌, ℕ};
ghost use Rattle.lk_facts.specs.LabelRules.{AreHolders, IsEntryOf, IsHolder, IsLabel, IsNumberOfHolder};
ghost use Rattle.lk_types.specs.Objects.{is_mutex};
ghost use Rattle.lk_types.specs.Table.{IsKnown, type_at};
ghost use Rattle.lk_label.specs.Gathering.{AreOrdered, AreOrigins, AreOriginsTo};
ghost use Rattle.lk_label.specs.Listing.{AreEntriesOf};

use crate::gather::put_names;
use crate::holder_set::HolderSet;
use crate::kinds::is_global_holder;
use crate::names::Names;
use crate::within::nodes_within;
use lk_base::NoMemory;
use lk_facts::{Holder, LabelEntry, LabelName, Points};
use lk_types::{CType, TypeId, TypeTable};
use std::alloc::Global;

/// Puts the origins of a root.
fn put_origins(alloc: Global, points: &Points, r: u32, found: &mut Names) -> Result<(), NoMemory>
    requires { r < length points.now.roots }
    ensures { OnOk result (AreOriginsTo points.now r found.old → AreOriginsTo points.now (r + 1) found.new) }
{
    let nodes = nodes_within(alloc, points.types(), points.root(r).ty)?;
    put_names(Holder::Root(r), nodes.list(), found)
}

/// The origins: the labels of roots whose nodes are reached without going through a pointer.
fn origins(alloc: Global, points: &Points) -> Result<Names, NoMemory>
    ensures { IfOk result (AreOrigins points.now) }
{
    let mut found = Names::new(alloc);
    for r in 0..points.roots() {
        put_origins(alloc, points, r, &mut found)?;
    }
    Ok(found)
}

/// The number of a holder by its place among the holders, from 0 on, and 2^32 - 1 where it would be higher.
/// It is 0 where the holder is none of them, which doesn't come: `holders` are all that the points have.
fn number_of(points: &Points, holders: &HolderSet, holder: Holder) -> u32
    requires holder { IsHolder points.now holder }
    requires holders { AreHolders points.now holders.now }
    ensures { (n : ℕ) → IsNumberOfHolder points.now holder n → result ≡ min n (2 ^ 32 - 1) }
{
    match holders.find(holder) {
        Some(number) => number.min(u32::MAX as usize) as u32,
        None => 0,
    }
}

/// Whether a type is that of mutexes.
fn is_mutex(types: &TypeTable, t: TypeId) -> bool
    requires { IsKnown types.now t }
    ensures { result ≡ is_mutex (type_at types.now t) }
{
    match types.get(t) {
        CType::Mutex => true,
        CType::Void
        | CType::Int(_)
        | CType::ThreadId
        | CType::Cond
        | CType::Pointer(_)
        | CType::Array(_, _)
        | CType::Struct(_)
        | CType::Function { .. }
        | CType::Opaque(_) => false,
    }
}

/// What is known of a label.
fn entry_of(points: &Points, holders: &HolderSet, origins: &Names, name: &LabelName) -> LabelEntry
    requires label { IsLabel points.now name.now }
    requires holders { AreHolders points.now holders.now }
    requires origins { AreOrigins points.now origins.now }
    ensures { IsEntryOf points.now name.now result }
{
    let types = points.types();
    LabelEntry {
        root: number_of(points, holders, name.holder),
        is_origin: origins.has(name),
        is_lock: is_mutex(types, types.node_type(name.node)),
        is_global: is_global_holder(points, name.holder),
    }
}

/// What is known of each label, in their order.
pub fn entries(
    alloc: Global,
    points: &Points,
    holders: &HolderSet,
    names: &Names,
) -> Result<Vec<LabelEntry>, NoMemory>
    requires holders { AreHolders points.now holders.now }
    requires names { AreOrdered points.now names.now }
    ensures { IfOk result (λ entries. AreEntriesOf points.now names.now entries.items) }
{
    let origins = origins(alloc, points)?;
    let mut entries = Vec::new(alloc);
    for name in names.list() {
        entries.push(entry_of(points, holders, &origins, name))?;
    }
    Ok(entries)
}
