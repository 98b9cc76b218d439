//! The parts of objects, by their types.
ghost use Rattle.std.specs.Prelude.{◌≡◌, ◌<◌, ℕ, IfSome, Some, length};
ghost use Rattle.lk_facts.specs.Lowered.{HasPart};
ghost use Rattle.lk_facts.specs.Typed.{HasPartAt};
ghost use Rattle.lk_types.specs.Table.{IsKnown};
ghost use Rattle.lk_point_statics.specs.Leading.{LeadsTo};

use lk_base::CellStep;
use lk_facts::Points;
use lk_types::{CType, TypeId, TypeTable};

/// The type of the part of an object of type `t` to which a step leads, or nothing
/// where there is no such part.
fn part_at(types: &TypeTable, t: TypeId, step: &CellStep) -> Option<TypeId>
    requires { IsKnown types.now t }
    ensures leads { IfSome result (LeadsTo types.now t step.now) }
    ensures only { (u : ℕ) → LeadsTo types.now t step.now u → result ≡ Some u }
    ensures known { IfSome result (IsKnown types.now) }
{
    match (types.get(t), step) {
        (CType::Struct(s), CellStep::Field(k)) => {
            let member = types.members(*s).get(*k as usize)?;
            Some(member.ty)
        }
        (CType::Array(element, count), CellStep::Index(i)) => {
            if i < count { Some(*element) } else { None }
        }
        (
            CType::Void
            | CType::Int(_)
            | CType::ThreadId
            | CType::Mutex
            | CType::Cond
            | CType::Pointer(_)
            | CType::Array(_, _)
            | CType::Struct(_)
            | CType::Function { .. }
            | CType::Opaque(_),
            CellStep::Field(_) | CellStep::Index(_),
        ) => None,
    }
}

/// The type of the part of an object of type `t` to which steps lead, or nothing where there is no such part.
fn part_along(types: &TypeTable, t: TypeId, path: &[CellStep]) -> Option<TypeId>
    requires { IsKnown types.now t }
    ensures part { IfSome result (HasPartAt types.now t path.now) }
    ensures only { (u : ℕ) → HasPartAt types.now t path.now u → result ≡ Some u }
    ensures known { IfSome result (IsKnown types.now) }
{
    let mut reached = t;
    for step in path {
        match part_at(types, reached, step) {
            Some(part) => reached = part,
            None => return None,
        }
    }
    Some(reached)
}

/// The type of the part of a root's object to which steps lead, or nothing where there is no such part.
pub(crate) fn part_of(points: &Points, root: u32, path: &[CellStep]) -> Option<TypeId>
    requires { root < length points.now.roots }
    ensures part { IfSome result (HasPart points.now root path.now) }
    ensures only { (u : ℕ) → HasPart points.now root path.now u → result ≡ Some u }
    ensures known { IfSome result (IsKnown points.now.types) }
{
    part_along(points.types(), points.root(root).ty, path)
}
