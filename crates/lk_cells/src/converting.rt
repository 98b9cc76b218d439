//! What conversions give of values.
ghost use Rattle.std.specs.Prelude.{◌≡◌, IfOk, false};
ghost use Rattle.std.specs.Option.{option_map_or};
ghost use Rattle.lk_cells.specs.Parts as cells;
ghost use Rattle.lk_cells.specs.Converting as spec;

use crate::computing::Computed;
use crate::parts::{form_of, type_along};
use crate::places::object_at;
use crate::state::State;
use lk_arith::convert;
use lk_base::{Kind, NoMemory};
use lk_types::{CType, TypeId, TypeTable};
use lk_values::{Pointer, Value, Why};

/// A value converted to an integer kind (C99 6.3.1.2, 6.3.1.3).
fn to_kind(kind: Kind, value: &Value) -> Computed
    ensures { result ≡ spec.to_kind kind value.now }
{
    match value {
        Value::Number(_, number) => Some(Ok(Value::Number(kind, convert(kind, *number)))),
        Value::Pointer(_) | Value::Function(_) => Some(Ok(Value::Number(kind, 1))),
        Value::Null => Some(Ok(Value::Number(kind, 0))),
        Value::Thread(_) | Value::Indeterminate => None,
    }
}

/// Whether the part that a pointer points to or one past has this type.
fn is_part_of_type(types: &TypeTable, state: &State, ty: TypeId, p: &Pointer) -> bool
    ensures { result ≡ spec.is_part_of_type types.now state.now ty p.now }
{
    let Some(object) = object_at(state, p.part.object) else {
        return false;
    };
    match type_along(types, object.length, p.part.path.list(), object.ty) {
        Some(found) => found.0 == ty.0,
        None => false,
    }
}

/// A value converted to a pointer to a type; from void, to that of the part that
/// it points to (C99 6.3.2.3, 1).
fn to_pointer(
    types: &TypeTable,
    state: &State,
    from_void: bool,
    ty: TypeId,
    value: &Value,
) -> Result<Computed, NoMemory>
    ensures { IfOk result (λ computed. computed ≡
        spec.to_pointer types.now state.now from_void ty value.now) }
{
    match value {
        Value::Pointer(p) => {
            if from_void && !is_part_of_type(types, state, ty, p) {
                return Ok(Some(Err(Why::WrongType)));
            }
            let pointer = p.copy()?;
            Ok(Some(Ok(Value::Pointer(pointer))))
        }
        Value::Function(f) => Ok(Some(Ok(Value::Function(*f)))),
        Value::Null => Ok(Some(Ok(Value::Null))),
        Value::Number(_, _) | Value::Thread(_) | Value::Indeterminate => Ok(None),
    }
}

/// A thread id stays as it is.
fn to_id(value: &Value) -> Computed
    ensures { result ≡ spec.to_id value.now }
{
    match value {
        Value::Thread(thread) => Some(Ok(Value::Thread(*thread))),
        Value::Number(_, _)
        | Value::Pointer(_)
        | Value::Function(_)
        | Value::Null
        | Value::Indeterminate => None,
    }
}

/// Whether a type is void.
fn is_void(form: &CType) -> bool
    ensures { result ≡ spec.is_void form.now }
{
    match form {
        CType::Void => true,
        CType::Int(_)
        | CType::ThreadId
        | CType::Mutex
        | CType::Cond
        | CType::Pointer(_)
        | CType::Array(_, _)
        | CType::Struct(_)
        | CType::Function { .. }
        | CType::Opaque(_) => false,
    }
}

/// Whether the type of this number is void.
fn is_void_type(types: &TypeTable, ty: TypeId) -> bool
    ensures { result ≡ option_map_or spec.is_void (cells.form_of types.now ty) false }
{
    match form_of(types, ty) {
        Some(form) => is_void(form),
        None => false,
    }
}

/// What a pointer type points to.
fn target_of(form: &CType) -> Option<TypeId>
    ensures { result ≡ spec.target_of form.now }
{
    match form {
        CType::Pointer(target) => Some(*target),
        CType::Void
        | CType::Int(_)
        | CType::ThreadId
        | CType::Mutex
        | CType::Cond
        | CType::Array(_, _)
        | CType::Struct(_)
        | CType::Function { .. }
        | CType::Opaque(_) => None,
    }
}

/// Whether a type is `void *`.
fn is_void_pointer(types: &TypeTable, ty: Option<TypeId>) -> bool
    ensures { result ≡ spec.is_void_pointer types.now ty }
{
    let Some(pointer) = ty else {
        return false;
    };
    let Some(form) = form_of(types, pointer) else {
        return false;
    };
    match target_of(form) {
        Some(target) => is_void_type(types, target),
        None => false,
    }
}

/// A value of the type `from` converted to a type (C99 6.3).
pub fn converted_to(
    types: &TypeTable,
    state: &State,
    from: Option<TypeId>,
    ty: TypeId,
    value: &Value,
) -> Result<Computed, NoMemory>
    ensures { IfOk result (λ computed. computed ≡ spec.converted_to types.now state.now from ty value.now) }
{
    let Some(form) = form_of(types, ty) else {
        return Ok(None);
    };
    match form {
        CType::Int(kind) => Ok(to_kind(*kind, value)),
        CType::ThreadId => Ok(to_id(value)),
        CType::Pointer(target) => {
            let from_void = is_void_pointer(types, from) && !is_void_type(types, *target);
            let computed = to_pointer(types, state, from_void, *target, value)?;
            Ok(computed)
        }
        CType::Void
        | CType::Mutex
        | CType::Cond
        | CType::Array(_, _)
        | CType::Struct(_)
        | CType::Function { .. }
        | CType::Opaque(_) => Ok(None),
    }
}
