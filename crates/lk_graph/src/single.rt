//! Which mutexes have one object.
ghost use Rattle.std.specs.Prelude.{◌≡◌, ◌<◌, ◌↔◌, ℕ, true, Some, IfOk, IfSome, IsTrue, OnOk, length};
ghost use Rattle.lk_facts.specs.Lists.{Lists};
ghost use Rattle.lk_facts.specs.Many.{IsLinear, Many};
ghost use Rattle.lk_facts.specs.Program.{IsLockPlace};
ghost use Rattle.lk_graph.specs.Single.{ArePlaceNodes, IsLinearAt, IsOneAllocated, IsOneLocal, IsOneRoot};
ghost use Rattle.lk_sets.specs.Adding.{Adds};
ghost use Rattle.lk_sets.specs.Ids.{has_id};

use lk_base::NoMemory;
use lk_facts::{Points, RootKind};
use lk_sets::IdSet;
use std::alloc::Global;

/// The labels of the linear lock places: those that have one mutex at most. Their paths go into no array, and
/// their roots are of static storage, locals of functions that are entered once at most, or the one objects
/// of allocations that are performed once at most.
///
/// The numbers that may be performed more than once are those of these points, and the node of each place
/// is one of the program's types.
pub fn linear(alloc: Global, points: &Points, many: &IdSet) -> Result<IdSet, NoMemory>
    requires many { (p : ℕ) → (has_id many.now p ≡ true) ↔ Many points.now p }
    requires nodes { ArePlaceNodes points.now }
    ensures { IfOk result (Lists (IsLinear points.now)) }
{
    let mut ids = Vec::new(alloc);
    for place in points.locations()..points.locations() + points.locks() {
        push_linear(points, many, place, &mut ids)?;
    }
    let linear = IdSet::from_list(alloc, &ids)?;
    Ok(linear)
}

/// Puts a lock place behind the others where it is linear.
fn push_linear(
    points: &Points,
    many: &IdSet,
    place: u32,
    ids: &mut Vec<u32>,
) -> Result<(), NoMemory>
    requires many { (p : ℕ) → (has_id many.now p ≡ true) ↔ Many points.now p }
    requires nodes { ArePlaceNodes points.now }
    requires place { IsLockPlace points.now place }
    ensures { OnOk result (Adds (IsLinearAt points.now place) ids.old.items ids.new.items) }
{
    if !is_linear(points, many, place) {
        return Ok(());
    }
    ids.push(place)?;
    Ok(())
}

/// Whether a lock place is linear.
fn is_linear(points: &Points, many: &IdSet, place: u32) -> bool
    requires many { (p : ℕ) → (has_id many.now p ≡ true) ↔ Many points.now p }
    requires nodes { ArePlaceNodes points.now }
    requires place { IsLockPlace points.now place }
    ensures { IsTrue result ↔ IsLinear points.now place }
{
    let place = points.place(place);
    points.types().has_no_element(place.node) && is_single(points, many, place.root)
}

/// Whether a root has one object at most.
fn is_single(points: &Points, many: &IdSet, root: u32) -> bool
    requires many { (p : ℕ) → (has_id many.now p ≡ true) ↔ Many points.now p }
    requires root { root < length points.now.roots }
    ensures { IsTrue result ↔ IsOneRoot points.now root }
{
    let root = points.root(root);
    match root.kind {
        RootKind::Global | RootKind::Static => true,
        RootKind::Local => is_single_local(points, many, root.function),
        RootKind::Heap { one } => one && is_single_allocation(points, many, root.point),
        RootKind::Text | RootKind::Argv | RootKind::Args | RootKind::Function => false,
    }
}

/// Whether a local of a function has one object at most: the function is there, and is entered once at most.
fn is_single_local(points: &Points, many: &IdSet, function: Option<u32>) -> bool
    requires many { (p : ℕ) → (has_id many.now p ≡ true) ↔ Many points.now p }
    requires function { IfSome function (λ f. f < length points.now.functions) }
    ensures { IsTrue result ↔ IsOneLocal points.now function }
{
    match function {
        Some(function) => !many.has(points.entry(function)),
        None => false,
    }
}

/// Whether a point is there that allocates once at most.
fn is_single_allocation(points: &Points, many: &IdSet, point: Option<u32>) -> bool
    requires { (p : ℕ) → (has_id many.now p ≡ true) ↔ Many points.now p }
    ensures { IsTrue result ↔ IsOneAllocated points.now point }
{
    match point {
        Some(point) => !many.has(point),
        None => false,
    }
}
