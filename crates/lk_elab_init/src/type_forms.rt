//! What is asked of the type of an object, or of a part of one, by its number.
ghost use Rattle.std.specs.Prelude.{◌≡◌, ◌||◌, IfOk, OnOk, Some, nat_eq, nat_le, not, slice_get, true};
ghost use Rattle.lk_base.specs.declared.cell.CellStep.TheVariants.{Field, Index};
ghost use Rattle.lk_types.specs.Table.{IsKnown};
ghost use Rattle.lk_typed.specs.Initialised.{step_to};
ghost use Rattle.lk_typed.specs.InitialiserRules.{entry_type};
ghost use Rattle.lk_typed.specs.Meaning.{meaning};
ghost use Rattle.lk_typed.specs.Ty as spec;
ghost use Rattle.lk_elab_init.specs.Giving.{count_in, element_in};
ghost use Rattle.lk_elab_init.specs.Settled.{fields_listed};

use lk_base::{CellStep, Kind, NoMemory};
use lk_elaborator::{known, nowhere};
use lk_typed::{ExprType, form, is_pointer, kind_of};
use lk_types::{CType, TypeId, TypeTable};

/// A part of an object.
#[derive(Clone, Copy)]
pub(crate) struct ObjectPart {
    /// The step from the object to it.
    pub(crate) step: CellStep,
    /// Its type.
    pub(crate) ty: TypeId,
}

/// How many elements a type has, where it is an array.
pub(crate) fn count_at(types: &TypeTable, t: TypeId) -> Result<Option<u64>, NoMemory>
    ensures known { OnOk result (IsKnown types.now t) }
    ensures value { IfOk result (λ count. count ≡ count_in (meaning types.now t)) }
{
    let t = known(types, t)?;
    match form(types, t) {
        CType::Array(_, count) => Ok(Some(*count)),
        CType::Void
        | CType::Int(_)
        | CType::ThreadId
        | CType::Mutex
        | CType::Cond
        | CType::Pointer(_)
        | CType::Struct(_)
        | CType::Function { .. }
        | CType::Opaque(_) => Ok(None),
    }
}

/// Whether a type is a pointer.
pub fn is_pointer_at(types: &TypeTable, t: TypeId) -> Result<bool, NoMemory>
    ensures { IfOk result (λ is. is ≡ spec.is_pointer (meaning types.now t)) }
{
    let t = known(types, t)?;
    Ok(is_pointer(types, &ExprType::Listed(t)))
}

/// The kind of a type, where it is one of integers.
pub fn kind_at(types: &TypeTable, t: TypeId) -> Result<Option<Kind>, NoMemory>
    ensures { IfOk result (λ kind. kind ≡ spec.kind_of (meaning types.now t)) }
{
    let t = known(types, t)?;
    Ok(kind_of(types, &ExprType::Listed(t)))
}

/// The type of an element of an array. What a text initialises is one (C99 6.7.8, 14).
pub fn element_at(types: &TypeTable, t: TypeId) -> Result<TypeId, NoMemory>
    ensures known { IfOk result (IsKnown types.now) }
    ensures value { IfOk result (λ element.
        element_in (meaning types.now t) ≡ Some (meaning types.now element)) }
{
    let t = known(types, t)?;
    match form(types, t) {
        CType::Array(element, _) => Ok(*element),
        CType::Void
        | CType::Int(_)
        | CType::ThreadId
        | CType::Mutex
        | CType::Cond
        | CType::Pointer(_)
        | CType::Struct(_)
        | CType::Function { .. }
        | CType::Opaque(_) => Err(nowhere()),
    }
}

/// The member with this number of a struct, which has it.
fn member_part(types: &TypeTable, s: u32, number: u32) -> Result<ObjectPart, NoMemory>
    ensures step { IfOk result (λ part. part.step ≡ Field number) }
    ensures member { IfOk result (λ part.
        slice_get (fields_listed types.now s) number ≡ Some (meaning types.now part.ty)) }
{
    if s >= types.structs() {
        return Err(nowhere());
    }
    match types.members(s).get(number as usize) {
        Some(member) => Ok(ObjectPart {
            step: CellStep::Field(number),
            ty: member.ty,
        }),
        None => Err(nowhere()),
    }
}

/// Whether an array of so many elements has one with this number; 0 stands for no size.
fn has_element(count: u64, number: u32) -> bool
    ensures { result ≡ (nat_eq count 0 || not (nat_le count number)) }
{
    count == 0 || u64::from(number) < count
}

/// The element with this number of an array of so many.
fn element_part(element: TypeId, count: u64, number: u32) -> Result<ObjectPart, NoMemory>
    ensures step { IfOk result (λ part. part.step ≡ Index number) }
    ensures ty { IfOk result (λ part. part.ty ≡ element) }
    ensures there { OnOk result ((nat_eq count 0 || not (nat_le count number)) ≡ true) }
{
    if has_element(count, number) {
        Ok(ObjectPart {
            step: CellStep::Index(u64::from(number)),
            ty: element,
        })
    } else {
        Err(nowhere())
    }
}

/// The part of an object that the entry with this number of its list initialises (C99 6.7.8, 17). Each entry
/// has one: a source with more is refused with `Code::BadInitialiser`.
pub(crate) fn part_at(types: &TypeTable, t: TypeId, number: u32) -> Result<ObjectPart, NoMemory>
    ensures known { OnOk result (IsKnown types.now t) }
    ensures step { IfOk result (λ part. step_to (meaning types.now t) number ≡ Some part.step) }
    ensures part { IfOk result (λ part.
        entry_type (fields_listed types.now) (meaning types.now t) number ≡ Some (meaning types.now part.ty)) }
{
    let t = known(types, t)?;
    match form(types, t) {
        CType::Array(element, count) => element_part(*element, *count, number),
        CType::Struct(s) => member_part(types, *s, number),
        CType::Void
        | CType::Int(_)
        | CType::ThreadId
        | CType::Mutex
        | CType::Cond
        | CType::Pointer(_)
        | CType::Function { .. }
        | CType::Opaque(_) => Err(nowhere()),
    }
}
