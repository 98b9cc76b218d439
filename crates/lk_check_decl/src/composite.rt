//! The composite type of two declarations of one name (C99 6.2.7, 3).
ghost use Rattle.std.specs.Prelude.{◌≡◌, ◌<◌, map, true, None, All, IfOk, IfSome, OnOk, MatchOption};
ghost use Rattle.std.specs.Option.{option_map};
ghost use Rattle.lk_types.specs.Building.{IsLonger};
ghost use Rattle.lk_types.specs.Table.{IsKnown};
ghost use Rattle.lk_typed.specs.Declarations as spec;
ghost use Rattle.lk_typed.specs.Elements.{HasFewElements};
ghost use Rattle.lk_typed.specs.Meaning.{meaning};
ghost use Rattle.lk_typed.specs.Ty as trees;
ghost use Rattle.lk_typed.specs.Ty.{are_equal_but, is_redeclarable, sizes_or_none, types_of};
ghost use Rattle.lk_check_decl.specs.Composites.{AddsTypes, IsArrayOf, IsFunctionOf, PointsTo, StandEach, Stands};

use crate::storing::{stored_array, stored_function, stored_pointer};
use lk_base::NoMemory;
use lk_types::{CType, TypeId, TypeIds, TypeTable};
use std::alloc::Global;

/// What an array is made of.
#[derive(Clone, Copy)]
struct ArrayParts {
    element: TypeId,
    /// How many elements it has; 0 where no size is known.
    size: u64,
}

/// What a function is made of.
#[derive(Drop)]
struct FunctionParts {
    result: TypeId,
    params: TypeIds,
    dots: bool,
}

/// What a pointer points to, where the type is one.
fn pointer_target(types: &TypeTable, t: TypeId) -> Option<TypeId>
    requires { IsKnown types.now t }
    ensures { MatchOption result (trees.target_of (meaning types.now t) ≡ None) (PointsTo types.now t) }
{
    match types.get(t) {
        CType::Pointer(target) => Some(*target),
        CType::Void
        | CType::Int(_)
        | CType::ThreadId
        | CType::Mutex
        | CType::Cond
        | CType::Array(_, _)
        | CType::Struct(_)
        | CType::Function { .. }
        | CType::Opaque(_) => None,
    }
}

/// What a type is made of, where it is an array.
fn array_parts(types: &TypeTable, t: TypeId) -> Option<ArrayParts>
    requires { IsKnown types.now t }
    ensures { MatchOption result (trees.array_of (meaning types.now t) ≡ None) (IsArrayOf types.now t) }
{
    match types.get(t) {
        CType::Array(element, size) => Some(ArrayParts {
            element: *element,
            size: *size,
        }),
        CType::Void
        | CType::Int(_)
        | CType::ThreadId
        | CType::Mutex
        | CType::Cond
        | CType::Pointer(_)
        | CType::Struct(_)
        | CType::Function { .. }
        | CType::Opaque(_) => None,
    }
}

/// What a type is made of, where it is a function.
fn function_parts(types: &TypeTable, t: TypeId) -> Result<Option<FunctionParts>, NoMemory>
    requires { IsKnown types.now t }
    ensures { IfOk result (λ found.
        MatchOption found (trees.function_of (meaning types.now t) ≡ None) (IsFunctionOf types.now t)) }
{
    match types.get(t) {
        CType::Function {
            result,
            params,
            dots,
        } => Ok(Some(FunctionParts {
            result: *result,
            params: params.copy()?,
            dots: *dots,
        })),
        CType::Void
        | CType::Int(_)
        | CType::ThreadId
        | CType::Mutex
        | CType::Cond
        | CType::Pointer(_)
        | CType::Array(_, _)
        | CType::Struct(_)
        | CType::Opaque(_) => Ok(None),
    }
}

/// The size that one of two declarations gives.
fn sized(size: u64, other: u64) -> u64
    ensures { result ≡ spec.sized size other }
{
    if size == 0 { other } else { size }
}

/// The composite of two types that two declarations of one name may have.
#[cycle(composite)]
pub(crate) fn composite(
    alloc: Global,
    types: &mut TypeTable,
    t: TypeId,
    old: TypeId,
) -> Result<TypeId, NoMemory>
    requires t { IsKnown types.old t }
    requires old { IsKnown types.old old }
    requires equal { is_redeclarable (meaning types.old t) (meaning types.old old) ≡ true }
    requires few { HasFewElements types.old }
    ensures means { IfOk result (λ made. meaning types.new made ≡
        spec.composite (meaning types.old t) (meaning types.old old)) }
    ensures known { IfOk result (IsKnown types.new) }
    ensures longer { OnOk result (IsLonger types.old types.new) }
    ensures members { OnOk result (types.new.members ≡ types.old.members) }
    ensures few { OnOk result (HasFewElements types.new) }
{
    if t == old {
        return Ok(t);
    }
    if let Some(target) = pointer_target(types, t) {
        return of_pointers(alloc, types, t, target, old);
    }
    if let Some(parts) = array_parts(types, t) {
        return of_arrays(alloc, types, t, parts, old);
    }
    match function_parts(types, t)? {
        Some(parts) => of_functions(alloc, types, t, &parts, old),
        None => Ok(t),
    }
}

/// The composite of a pointer and another type.
#[cycle(composite)]
fn of_pointers(
    alloc: Global,
    types: &mut TypeTable,
    t: TypeId,
    target: TypeId,
    old: TypeId,
) -> Result<TypeId, NoMemory>
    requires t { IsKnown types.old t }
    requires old { IsKnown types.old old }
    requires equal { is_redeclarable (meaning types.old t) (meaning types.old old) ≡ true }
    requires few { HasFewElements types.old }
    requires points { PointsTo types.old t target }
    ensures made { IfOk result
        (Stands types.new (spec.composite (meaning types.old t) (meaning types.old old))) }
    ensures adds { OnOk result (AddsTypes types.old types.new) }
{
    types.is_table();
    match pointer_target(types, old) {
        Some(other) => {
            let both = composite(alloc, types, target, other)?;
            types.is_table();
            let made = stored_pointer(types, both)?;
            types.is_table();
            Ok(made.unwrap())
        }
        None => Ok(t),
    }
}

/// The composite of an array and another type.
#[cycle(composite)]
fn of_arrays(
    alloc: Global,
    types: &mut TypeTable,
    t: TypeId,
    parts: ArrayParts,
    old: TypeId,
) -> Result<TypeId, NoMemory>
    requires t { IsKnown types.old t }
    requires old { IsKnown types.old old }
    requires equal { is_redeclarable (meaning types.old t) (meaning types.old old) ≡ true }
    requires few { HasFewElements types.old }
    requires parts { IsArrayOf types.old t parts }
    ensures made { IfOk result
        (Stands types.new (spec.composite (meaning types.old t) (meaning types.old old))) }
    ensures adds { OnOk result (AddsTypes types.old types.new) }
{
    types.is_table();
    match array_parts(types, old) {
        Some(other) => {
            let both = composite(alloc, types, parts.element, other.element)?;
            types.is_table();
            let made = stored_array(types, both, sized(parts.size, other.size))?;
            types.is_table();
            Ok(made.unwrap())
        }
        None => Ok(t),
    }
}

/// The composite of a function and another type.
#[cycle(composite)]
fn of_functions(
    alloc: Global,
    types: &mut TypeTable,
    t: TypeId,
    parts: &FunctionParts,
    old: TypeId,
) -> Result<TypeId, NoMemory>
    requires t { IsKnown types.old t }
    requires old { IsKnown types.old old }
    requires equal { is_redeclarable (meaning types.old t) (meaning types.old old) ≡ true }
    requires few { HasFewElements types.old }
    requires parts { IsFunctionOf types.old t parts.now }
    ensures made { IfOk result
        (Stands types.new (spec.composite (meaning types.old t) (meaning types.old old))) }
    ensures adds { OnOk result (AddsTypes types.old types.new) }
{
    types.is_table();
    match function_parts(types, old)? {
        Some(other) => {
            let both = composite(alloc, types, parts.result, other.result)?;
            types.is_table();
            let params = of_params(alloc, types, parts.params.list(), other.params.list())?;
            types.is_table();
            let made = stored_function(types, both, params, parts.dots)?;
            types.is_table();
            Ok(made.unwrap())
        }
        None => Ok(t),
    }
}

/// The composites of the types of two lists of parameters, one by one.
#[cycle(composite)]
fn of_params(
    alloc: Global,
    types: &mut TypeTable,
    params: &[TypeId],
    others: &[TypeId],
) -> Result<TypeIds, NoMemory>
    requires params { All (IsKnown types.old) params.now }
    requires others { All (IsKnown types.old) others.now }
    requires equal { are_equal_but sizes_or_none (types_of (map (meaning types.old) params.now))
        (types_of (map (meaning types.old) others.now)) ≡ true }
    requires few { HasFewElements types.old }
    ensures made { IfOk result (StandEach types.old types.new params.now others.now) }
    ensures adds { OnOk result (AddsTypes types.old types.new) }
{
    types.is_table();
    let mut made = Vec::new(alloc);
    for place in 0..params.len() {
        let both = composite(alloc, types, params[place], others[place])?;
        types.is_table();
        made.push(both)?;
    }
    Ok(TypeIds::new(made))
}

/// Whether two types are those that two declarations of one name may have (C99 6.2.7).
fn are_redeclarable(types: &TypeTable, t: TypeId, u: TypeId) -> bool
    requires t { IsKnown types.now t }
    requires u { IsKnown types.now u }
    ensures { result ≡ is_redeclarable (meaning types.now t) (meaning types.now u) }
{
    types.is_table();
    types.are_redeclarable(t, u)
}

/// The composite of a type and one that is declared before, where they are those of one entity.
pub fn composite_if_equal(
    alloc: Global,
    types: &mut TypeTable,
    t: TypeId,
    old: Option<TypeId>,
) -> Result<TypeId, NoMemory>
    requires t { IsKnown types.old t }
    requires old { IfSome old (IsKnown types.old) }
    requires few { HasFewElements types.old }
    ensures means { IfOk result (λ made. meaning types.new made ≡
        spec.composite_if_equal (meaning types.old t) (option_map (meaning types.old) old)) }
    ensures known { IfOk result (IsKnown types.new) }
    ensures longer { OnOk result (IsLonger types.old types.new) }
    ensures members { OnOk result (types.new.members ≡ types.old.members) }
    ensures few { OnOk result (HasFewElements types.new) }
{
    types.is_table();
    match old {
        Some(old) => {
            if are_redeclarable(types, t, old) {
                composite(alloc, types, t, old)
            } else {
                Ok(t)
            }
        }
        None => Ok(t),
    }
}
