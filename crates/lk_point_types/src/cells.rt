//! What reads and writes cells and slots takes and gives.
ghost use Rattle.std.specs.Prelude.{◌↔◌, ◌≡◌, ◌<◌, IsTrue, IfSome, length, Some, ℕ};
ghost use Rattle.lk_facts.specs.Typed.{
  Gives,
  GivesScalar,
  IsMember,
  IsReturn,
  IsSlot,
  PointsTo,
};
ghost use Rattle.lk_types.specs.Table.{IsKnown};

use crate::readers::{gives, gives_scalar, points_to, target};
use lk_facts::Points;
use lk_types::{CType, TypeId, TypeTable};

/// The type of a member of a struct type.
fn member_of(types: &TypeTable, s: TypeId, member: u32) -> Option<TypeId>
    requires { IsKnown types.now s }
    ensures member { IfSome result (IsMember types.now s member) }
    ensures only { (t : ℕ) → IsMember types.now s member t → result ≡ Some t }
    ensures known { IfSome result (IsKnown types.now) }
{
    match types.get(s) {
        CType::Struct(number) => {
            let members = types.members(*number);
            if (member as usize) < members.len() {
                Some(members[member as usize].ty)
            } else {
                None
            }
        }
        CType::Void
        | CType::Int(_)
        | CType::ThreadId
        | CType::Mutex
        | CType::Cond
        | CType::Pointer(_)
        | CType::Array(_, _)
        | CType::Function { .. }
        | CType::Opaque(_) => None,
    }
}

/// Whether a point gives a pointer to a member of a struct type.
fn points_to_member(points: &Points, s: TypeId, member: u32, p: u32) -> bool
    requires s { IsKnown points.now.types s }
    requires p { p < length points.now.points }
    ensures { IsTrue result ↔
        ((t : ℕ) × IsMember points.now.types s member t × PointsTo points.now p t) }
{
    match member_of(points.types(), s, member) {
        Some(t) => points_to(points, p, t),
        None => false,
    }
}

/// Whether a pointer to a struct gives one to a member of it (C99 6.5.2.3).
pub(crate) fn is_field(points: &Points, a: u32, member: u32, p: u32) -> bool
    requires a { a < length points.now.points }
    requires p { p < length points.now.points }
    ensures { IsTrue result ↔
        ((s t : ℕ) × PointsTo points.now a s × IsMember points.now.types s member t × PointsTo points.now p t) }
{
    match target(points, a) {
        Some(s) => points_to_member(points, s, member, p),
        None => false,
    }
}

/// Whether a point gives the scalar value of the cell that another points to.
pub(crate) fn is_read(points: &Points, a: u32, p: u32) -> bool
    requires a { a < length points.now.points }
    requires p { p < length points.now.points }
    ensures { IsTrue result ↔
        ((t : ℕ) × PointsTo points.now a t × Gives points.now p t × GivesScalar points.now p) }
{
    match target(points, a) {
        Some(t) => gives(points, p, t) && gives_scalar(points, p),
        None => false,
    }
}

/// Whether a point gives a scalar value for the cell that another points to.
pub(crate) fn is_write(points: &Points, a: u32, b: u32) -> bool
    requires a { a < length points.now.points }
    requires b { b < length points.now.points }
    ensures { IsTrue result ↔
        ((t : ℕ) × PointsTo points.now a t × Gives points.now b t × GivesScalar points.now b) }
{
    match target(points, a) {
        Some(t) => gives(points, b, t) && gives_scalar(points, b),
        None => false,
    }
}

/// The type of a slot of a function, where the function has that slot.
pub(crate) fn slot_type(points: &Points, f: u32, slot: u32) -> Option<TypeId>
    ensures slot { IfSome result (IsSlot points.now f slot) }
    ensures only { (t : ℕ) → IsSlot points.now f slot t → result ≡ Some t }
    ensures known { IfSome result (IsKnown points.now.types) }
{
    if f >= points.functions() {
        return None;
    }
    let slots = points.slots(f);
    if (slot as usize) < slots.len() {
        Some(slots[slot as usize])
    } else {
        None
    }
}

/// Whether a point gives a value of the type of a slot.
pub(crate) fn gives_slot(points: &Points, f: u32, slot: u32, a: u32) -> bool
    requires { a < length points.now.points }
    ensures { IsTrue result ↔ ((t : ℕ) × IsSlot points.now f slot t × Gives points.now a t) }
{
    match slot_type(points, f, slot) {
        Some(t) => gives(points, a, t),
        None => false,
    }
}

/// Whether what a return takes is the result of its function (C99 6.8.6.4, 6.9.1).
pub(crate) fn is_return(points: &Points, f: u32, a: Option<u32>) -> bool
    requires { IfSome a (λ a. a < length points.now.points) }
    ensures { IsTrue result ↔ IsReturn points.now f a }
{
    match a {
        Some(a) => f < points.functions() && gives(points, a, points.result(f)),
        None => true,
    }
}
