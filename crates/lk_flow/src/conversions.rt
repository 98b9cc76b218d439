//! The edges of conversions.
ghost use Rattle.std.specs.Prelude.{◌≡◌, ◌↔◌, ◌<◌, ℕ, true, length, Some, IfSome, OnOk};
ghost use Rattle.lk_facts.specs.EdgeRules.{Converts};
ghost use Rattle.lk_facts.specs.LabelRules.{AreLabels};
ghost use Rattle.lk_facts.specs.Typed.{IsForm};
ghost use Rattle.lk_types.specs.Table.{IsKnown};
ghost use Rattle.lk_types.specs.declared.c_type.CType.TheVariants.{Pointer, Void};
ghost use Rattle.lk_flow.specs.Growing.{Adds, Joins};
ghost use Rattle.lk_flow.specs.Conversions.{FromVoid, IsAlikeSub, PointersConvert, ToVoid};

use crate::found::Found;
use crate::names::{inside, pointee};
use crate::rows::put_sub;
use lk_base::NoMemory;
use lk_facts::{Holder, Labels, Mark, Points};
use lk_types::{CType, Sel, TypeId, TypeTable};

/// What a pointer type points to.
fn pointed(types: &TypeTable, t: TypeId) -> Option<TypeId>
    requires { IsKnown types.now t }
    ensures exact { (u : ℕ) → (result ≡ Some u) ↔ IsForm types.now t (Pointer u) }
    ensures known { IfSome result (IsKnown types.now) }
{
    match types.get(t) {
        CType::Pointer(u) => Some(*u),
        CType::Void
        | CType::Int(_)
        | CType::ThreadId
        | CType::Mutex
        | CType::Cond
        | CType::Array(_, _)
        | CType::Struct(_)
        | CType::Function { .. }
        | CType::Opaque(_) => None,
    }
}

/// Whether a type is void.
fn is_void(types: &TypeTable, t: TypeId) -> bool
    requires { IsKnown types.now t }
    ensures { (result ≡ true) ↔ IsForm types.now t Void }
{
    match types.get(t) {
        CType::Void => true,
        CType::Int(_)
        | CType::ThreadId
        | CType::Mutex
        | CType::Cond
        | CType::Pointer(_)
        | CType::Array(_, _)
        | CType::Struct(_)
        | CType::Function { .. }
        | CType::Opaque(_) => false,
    }
}

/// Joins what two values of equal types point to.
fn put_alike(
    points: &Points,
    labels: &Labels,
    a: u32,
    s: TypeId,
    p: u32,
    t: TypeId,
    found: &mut Found,
) -> Result<(), NoMemory>
    requires from { a < length points.now.points }
    requires from_type { IsKnown points.now.types s }
    requires to { p < length points.now.points }
    requires to_type { IsKnown points.now.types t }
    requires labels { AreLabels points.now labels.now }
    ensures { OnOk result (Adds (Joins labels.now.names
        (IsAlikeSub points.now a s p t)) found.old found.new) }
{
    if !points.types().are_alike(s, t) {
        return Ok(());
    }
    let from = Holder::Point(a);
    put_sub(points, labels, from, Holder::Point(p), &Mark::Plain, found)
}

/// Joins what a pointer to an object points to with the Part of a `void *`.
fn put_to_void(
    points: &Points,
    labels: &Labels,
    a: u32,
    s: TypeId,
    p: u32,
    t: TypeId,
    found: &mut Found,
) -> Result<(), NoMemory>
    requires from { a < length points.now.points }
    requires from_type { IsKnown points.now.types s }
    requires to { p < length points.now.points }
    requires to_type { IsKnown points.now.types t }
    requires labels { AreLabels points.now labels.now }
    ensures { OnOk result (Adds (Joins labels.now.names (ToVoid points.now a s p t)) found.old found.new) }
{
    if !is_void(points.types(), t) {
        return Ok(());
    }
    let from = pointee(points, labels, Holder::Point(a));
    let void = pointee(points, labels, Holder::Point(p));
    let to = inside(points, labels, void, Sel::Part(s));
    found.put(from, to, &Mark::Plain)
}

/// Joins the Part of a `void *` with what a pointer to an object points to.
fn put_from_void(
    points: &Points,
    labels: &Labels,
    a: u32,
    s: TypeId,
    p: u32,
    t: TypeId,
    found: &mut Found,
) -> Result<(), NoMemory>
    requires from { a < length points.now.points }
    requires from_type { IsKnown points.now.types s }
    requires to { p < length points.now.points }
    requires to_type { IsKnown points.now.types t }
    requires labels { AreLabels points.now labels.now }
    ensures { OnOk result (Adds (Joins labels.now.names (FromVoid points.now a s p t)) found.old found.new) }
{
    if !is_void(points.types(), s) {
        return Ok(());
    }
    let void = pointee(points, labels, Holder::Point(a));
    let from = inside(points, labels, void, Sel::Part(t));
    let to = pointee(points, labels, Holder::Point(p));
    found.put(from, to, &Mark::Plain)
}

/// Joins what two pointers point to, one of which is a `void *`.
fn put_pointers(
    points: &Points,
    labels: &Labels,
    a: u32,
    s: TypeId,
    p: u32,
    t: TypeId,
    found: &mut Found,
) -> Result<(), NoMemory>
    requires from { a < length points.now.points }
    requires from_type { IsKnown points.now.types s }
    requires to { p < length points.now.points }
    requires to_type { IsKnown points.now.types t }
    requires labels { AreLabels points.now labels.now }
    ensures { OnOk result (Adds (Joins labels.now.names
        (PointersConvert points.now a s p t)) found.old found.new) }
{
    let types = points.types();
    let Some(x) = pointed(types, s) else {
        return Ok(());
    };
    let Some(y) = pointed(types, t) else {
        return Ok(());
    };
    put_to_void(points, labels, a, x, p, y, found)?;
    put_from_void(points, labels, a, x, p, y, found)
}

/// Joins what a conversion joins.
pub fn put_conversion(
    points: &Points,
    labels: &Labels,
    a: u32,
    p: u32,
    found: &mut Found,
) -> Result<(), NoMemory>
    requires from { a < length points.now.points }
    requires to { p < length points.now.points }
    requires labels { AreLabels points.now labels.now }
    ensures { OnOk result (Adds (Joins labels.now.names (Converts points.now a p)) found.old found.new) }
{
    let Some(s) = points.value_type(a) else {
        return Ok(());
    };
    let Some(t) = points.value_type(p) else {
        return Ok(());
    };
    put_alike(points, labels, a, s, p, t, found)?;
    put_pointers(points, labels, a, s, p, t, found)
}
