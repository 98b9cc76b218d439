//! The parameters and the results of functions (C99 6.9.1).
ghost use Rattle.std.specs.Prelude.{◌↔◌, ◌≡◌, ◌<◌, IsTrue, IfSome, All, length, Some, ℕ};
ghost use Rattle.lk_facts.specs.InRange.{IsHolderInRange, sizes_of};
ghost use Rattle.lk_facts.specs.Typed.{IsFunctionTyped, IsHolderIn, IsHolderType};
ghost use Rattle.lk_types.specs.Table.{IsKnown};
ghost use Rattle.lk_point_types.specs.Parameters.{AreHeld, IsHeld};

use crate::calls::function_type;
use crate::cells::slot_type;
use crate::objects::is_local_of;
use lk_facts::{Holder, Points};
use lk_types::{CType, TypeId};

/// The type of what a holder holds, where there is one.
pub(crate) fn held_type(points: &Points, holder: Holder) -> Option<TypeId>
    requires { IsHolderInRange (sizes_of points.now) holder }
    ensures is { IfSome result (IsHolderType points.now holder) }
    ensures only { (t : ℕ) → IsHolderType points.now holder t → result ≡ Some t }
    ensures known { IfSome result (IsKnown points.now.types) }
{
    match holder {
        Holder::Root(r) => Some(points.root(r).ty),
        Holder::Slot(f, slot) => slot_type(points, f, slot),
        Holder::Result(f) => Some(points.result(f)),
        Holder::Point(p) => points.value_type(p),
    }
}

/// Whether a holder is a slot or an object of a function's frame.
fn is_holder_in(points: &Points, f: u32, holder: Holder) -> bool
    requires { IsHolderInRange (sizes_of points.now) holder }
    ensures { IsTrue result ↔ IsHolderIn points.now f holder }
{
    match holder {
        Holder::Root(r) => is_local_of(points, f, r),
        Holder::Slot(g, _) => g == f,
        Holder::Result(_) | Holder::Point(_) => false,
    }
}

/// Whether a holder holds a parameter of a function of this type, but for the sizes of arrays.
fn is_held(points: &Points, f: u32, holder: Holder, t: TypeId) -> bool
    requires holder { IsHolderInRange (sizes_of points.now) holder }
    requires known { IsKnown points.now.types t }
    ensures { IsTrue result ↔ IsHeld points.now f holder t }
{
    match held_type(points, holder) {
        Some(is) => is_holder_in(points, f, holder) && points.types().are_alike(is, t),
        None => false,
    }
}

/// Whether holders hold parameters of a function of these types, in order, and no more.
fn are_held(points: &Points, f: u32, holders: &[Holder], types: &[TypeId]) -> bool
    requires holders { All (IsHolderInRange (sizes_of points.now)) holders.now }
    requires types { All (IsKnown points.now.types) types.now }
    ensures { IsTrue result ↔ AreHeld points.now f holders.now types.now }
{
    if holders.len() != types.len() {
        return false;
    }
    for place in 0..types.len() {
        if !is_held(points, f, holders[place], types[place]) {
            return false;
        }
    }
    true
}

/// Whether the parameters and the result of a function have the types of its root.
pub(crate) fn is_function_typed(points: &Points, f: u32) -> bool
    requires { f < length points.now.functions }
    ensures { IsTrue result ↔ IsFunctionTyped points.now f }
{
    match function_type(points, f) {
        CType::Function { result, params, .. } => {
            points.types().are_alike(points.result(f), *result)
                && are_held(points, f, points.parameters(f), params.list())
        }
        CType::Void
        | CType::Int(_)
        | CType::ThreadId
        | CType::Mutex
        | CType::Cond
        | CType::Pointer(_)
        | CType::Array(_, _)
        | CType::Struct(_)
        | CType::Opaque(_) => false,
    }
}
