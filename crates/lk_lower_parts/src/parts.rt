//! The Parts of `void`.
ghost use Rattle.std.specs.Prelude.{◌≡◌, IfOk, OnOk, length};
ghost use Rattle.lk_lower_parts.specs.Parts as spec;
ghost use Rattle.lk_lower_parts.specs.Parts.{AreMarkedParts, AreVoidPartsOf, IsWith, by_conversion, given_of, is_void_type, target_of};
ghost use Rattle.lk_types.specs.Table.{least_of};

use lk_base::NoMemory;
use lk_facts::{Action, Point};
use lk_types::{CType, TypeId, TypeTable};
use std::alloc::Global;

/// What a type points to, where it is a pointer.
fn target(types: &TypeTable, t: TypeId) -> Option<TypeId>
    ensures { result ≡ target_of types.now t }
{
    if t.0 >= types.count() {
        return None;
    }
    match types.get(t) {
        CType::Pointer(target) => Some(*target),
        CType::Void
        | CType::Int(_)
        | CType::ThreadId
        | CType::Mutex
        | CType::Cond
        | CType::Array(_, _)
        | CType::Struct(_)
        | CType::Function { .. }
        | CType::Opaque(_) => None,
    }
}

/// Whether a type is `void`.
fn is_void(types: &TypeTable, t: TypeId) -> bool
    ensures { result ≡ is_void_type types.now t }
{
    t.0 < types.count() && matches!(types.get(t), CType::Void)
}

/// The type that a conversion from a pointer to a type to a pointer to another gives `void` as a Part.
fn converted(types: &TypeTable, from: TypeId, to: TypeId) -> Option<TypeId>
    ensures { result ≡ spec.converted types.now from to }
{
    match (is_void(types, from), is_void(types, to)) {
        (true, false) => Some(to),
        (false, true) => Some(from),
        (true, true) | (false, false) => None,
    }
}

/// What the value of a point points to, where it is a pointer.
fn pointed(types: &TypeTable, point: &Point) -> Option<TypeId>
    ensures { result ≡ spec.pointed types.now point.now }
{
    target(types, point.value?)
}

/// The type that a conversion of the value of the point `a` gives `void` as a Part.
fn by_conversion(types: &TypeTable, points: &[Point], point: &Point, a: u32) -> Option<TypeId>
    ensures { result ≡ spec.by_conversion types.now points.now point.now a }
{
    let from = pointed(types, points.get(a as usize)?)?;
    let to = pointed(types, point)?;
    converted(types, from, to)
}

/// The type that a point gives `void` as a Part: that of which it allocates an object, or whose pointer it
/// converts to or from `void *`.
fn given(types: &TypeTable, points: &[Point], point: &Point) -> Option<TypeId>
    ensures { result ≡ given_of types.now points.now point.now }
{
    match &point.action {
        Action::Allocate { ty, .. } => Some(*ty),
        Action::Convert { a, .. } => by_conversion(types, points, point, *a),
        Action::Value { .. }
        | Action::Null { .. }
        | Action::Func { .. }
        | Action::SelfId
        | Action::Root(_)
        | Action::Text(_)
        | Action::Field { .. }
        | Action::Index { .. }
        | Action::Read { .. }
        | Action::Write { .. }
        | Action::SlotRead(_)
        | Action::SlotWrite { .. }
        | Action::Unary { .. }
        | Action::Binary { .. }
        | Action::Compute { .. }
        | Action::Branch(_)
        | Action::Switch { .. }
        | Action::Skip
        | Action::Call { .. }
        | Action::PointerCall { .. }
        | Action::Return(_)
        | Action::Create { .. }
        | Action::StoreId(_)
        | Action::Join(_)
        | Action::Detach(_)
        | Action::ExitThread
        | Action::ExitProcess
        | Action::Lock(_)
        | Action::Unlock(_)
        | Action::Release { .. }
        | Action::Retake(_)
        | Action::Init(_)
        | Action::Destroy(_)
        | Action::Signal(_)
        | Action::Free(_)
        | Action::Scan(_)
        | Action::Fill { .. } => None,
    }
}

/// Adds a type, as the one with the least number that differs from it in the sizes of arrays alone, where
/// that isn't there yet. Each type that a point gives is in the table.
fn push_part(
    types: &TypeTable,
    t: TypeId,
    seen: &mut Vec<bool>,
    parts: &mut Vec<TypeId>,
) -> Result<(), NoMemory>
    requires long { length seen.old.items ≡ length types.now.types }
    requires marked { AreMarkedParts seen.old.items parts.old.items }
    ensures long { OnOk result (length seen.new.items ≡ length types.now.types) }
    ensures marked { OnOk result (AreMarkedParts seen.new.items parts.new.items) }
    ensures with { OnOk result (IsWith (least_of types.now t) parts.old.items parts.new.items) }
{
    if t.0 >= types.count() {
        return Err(NoMemory);
    }
    let least = types.least_alike(t);
    if !seen[least.index()] {
        seen[least.index()] = true;
        parts.push(least)?;
    }
    Ok(())
}

/// The Parts of `void`: each type that a point gives it, types that differ in the sizes of arrays alone as
/// the one with the least number, in the order of the first point of each.
pub fn void_parts(
    alloc: Global,
    types: &TypeTable,
    points: &[Point],
) -> Result<Vec<TypeId>, NoMemory>
    ensures { IfOk result (λ parts. AreVoidPartsOf types.now points.now parts.items) }
{
    let mut seen = vec![in alloc; false; types.count() as usize]?;
    let mut parts = Vec::new(alloc);
    for point in points {
        if let Some(t) = given(types, points, point) {
            push_part(types, t, &mut seen, &mut parts)?;
        }
    }
    Ok(parts)
}
