//! The parts of objects, by their types.
ghost use Rattle.std.specs.Prelude.{◌≡◌, length, slice_get};
ghost use Rattle.std.specs.Option.{option_copied};
ghost use Rattle.lk_cells.specs.Parts as spec;

use lk_base::CellStep;
use lk_types::{CType, TypeId, TypeTable};

/// The elements of an array: their type, and how many there are.
#[derive(Clone, Copy)]
pub struct Elements {
    /// The type of each.
    pub ty: TypeId,
    /// How many there are.
    pub count: u64,
}

/// The form of a type, where the number is that of a type.
pub fn form_of(types: &TypeTable, ty: TypeId) -> Option<&CType>
    ensures { option_copied result ≡ spec.form_of types.now ty }
{
    if ty.0 < types.count() {
        Some(types.get(ty))
    } else {
        None
    }
}

/// The elements of an array by its form; one without a size has as many as its object says (C99 6.7.5.2).
pub fn elements_of(own: u64, form: &CType) -> Option<Elements>
    ensures { result ≡ spec.elements_of own form.now }
{
    match form {
        CType::Array(ty, count) => Some(Elements {
            ty: *ty,
            count: if *count == 0 { own } else { *count },
        }),
        CType::Void
        | CType::Int(_)
        | CType::ThreadId
        | CType::Mutex
        | CType::Cond
        | CType::Pointer(_)
        | CType::Struct(_)
        | CType::Function { .. }
        | CType::Opaque(_) => None,
    }
}

/// The type of a member of a struct, where there is such a member (C99 6.7.2.1).
fn member_type(types: &TypeTable, form: &CType, number: u32) -> Option<TypeId>
    ensures { result ≡ slice_get (spec.members_in types.now form.now) number }
{
    match form {
        CType::Struct(place) if *place < types.structs() => {
            let member = types.members(*place).get(number as usize)?;
            Some(member.ty)
        }
        CType::Struct(_)
        | CType::Void
        | CType::Int(_)
        | CType::ThreadId
        | CType::Mutex
        | CType::Cond
        | CType::Pointer(_)
        | CType::Array(_, _)
        | CType::Function { .. }
        | CType::Opaque(_) => None,
    }
}

/// How many members a struct has.
pub(crate) fn member_count(types: &TypeTable, form: &CType) -> usize
    ensures { result ≡ length (spec.members_in types.now form.now) }
{
    match form {
        CType::Struct(place) if *place < types.structs() => types.members(*place).len(),
        CType::Struct(_)
        | CType::Void
        | CType::Int(_)
        | CType::ThreadId
        | CType::Mutex
        | CType::Cond
        | CType::Pointer(_)
        | CType::Array(_, _)
        | CType::Function { .. }
        | CType::Opaque(_) => 0,
    }
}

/// The type of the part that a step leads to from a type, where there is one; `own`
/// is the length of the object.
pub fn part_at(types: &TypeTable, own: u64, ty: TypeId, step: CellStep) -> Option<TypeId>
    ensures { result ≡ spec.part_at types.now own ty step }
{
    let form = form_of(types, ty)?;
    match step {
        CellStep::Field(number) => member_type(types, form, number),
        CellStep::Index(number) => {
            let elements = elements_of(own, form)?;
            if number < elements.count {
                Some(elements.ty)
            } else {
                None
            }
        }
    }
}

/// The type of the part that a path leads to from a type, where there is one; `own`
/// is the length of the object.
pub fn type_along(types: &TypeTable, own: u64, path: &[CellStep], ty: TypeId) -> Option<TypeId>
    ensures { result ≡ spec.type_along types.now own path.now ty }
{
    let mut reached = ty;
    for step in path {
        match part_at(types, own, reached, *step) {
            Some(part) => reached = part,
            None => return None,
        }
    }
    Some(reached)
}
