//! Types of expressions by their numbers in the table.
ghost use Rattle.std.specs.Prelude.{◌≡◌, ◌↔◌, IfOk, IfSome, IsTrue, OnOk};
ghost use Rattle.std.specs.Option.{option_map};
ghost use Rattle.lk_types.specs.Building.{IsLonger};
ghost use Rattle.lk_types.specs.Table.{IsKnown};
ghost use Rattle.lk_typed.specs.Meaning.{IsKnownType, IsReady, meaning, meaning_of};
ghost use Rattle.lk_typed.specs.Operands.{node_type};
ghost use Rattle.lk_elaborator.specs.Elements.{element_type};

use crate::source_types::SourceTypes;
use crate::unreached::nowhere;
use lk_base::NoMemory;
use lk_typed::{ExprType, form, is_function};
use lk_types::{CType, TypeId, TypeTable};

/// Whether a number is one of a type.
pub(crate) fn is_number(types: &TypeTable, t: TypeId) -> bool
    ensures { IsTrue result ↔ IsKnown types.now t }
{
    t.0 < types.count()
}

/// The number itself, which is one of a type: each number that the records or the typed tree hold is one, and
/// types stay while the table grows.
pub fn known(types: &TypeTable, t: TypeId) -> Result<TypeId, NoMemory>
    ensures known { IfOk result (IsKnown types.now) }
    ensures value { IfOk result (λ same. same ≡ t) }
{
    if is_number(types, t) {
        Ok(t)
    } else {
        Err(nowhere())
    }
}

/// The type itself, which is one of the table or a pointer to one, as `known` has it.
pub fn known_type(types: &TypeTable, ty: &ExprType) -> Result<ExprType, NoMemory>
    ensures known { IfOk result (IsKnownType types.now) }
    ensures value { IfOk result (λ same. same ≡ ty.now) }
{
    match ty {
        ExprType::Listed(t) => Ok(ExprType::Listed(known(types, *t)?)),
        ExprType::PointerTo(t) => Ok(ExprType::PointerTo(known(types, *t)?)),
    }
}

/// The number of a type.
pub fn listed(types: &mut SourceTypes, ty: &ExprType) -> Result<TypeId, NoMemory>
    requires { IsKnownType types.old ty.now }
    ensures means { IfOk result (λ t. meaning types.new t ≡ meaning_of types.old ty.now) }
    ensures known { IfOk result (IsKnown types.new) }
    ensures longer { OnOk result (IsLonger types.old types.new) }
    ensures members { OnOk result (types.new.members ≡ types.old.members) }
    ensures ready { OnOk result (IsReady types.old → IsReady types.new) }
{
    match ty {
        ExprType::Listed(t) => Ok(*t),
        ExprType::PointerTo(target) => types.pointer(*target),
    }
}

/// The type of a node: a function has no value but the pointer to it (C99 6.3.2.1, 4).
pub(crate) fn node_type(types: &mut SourceTypes, ty: &ExprType) -> Result<TypeId, NoMemory>
    requires { IsKnownType types.old ty.now }
    ensures means { IfOk result (λ t. meaning types.new t ≡ node_type (meaning_of types.old ty.now)) }
    ensures known { IfOk result (IsKnown types.new) }
    ensures longer { OnOk result (IsLonger types.old types.new) }
    ensures members { OnOk result (types.new.members ≡ types.old.members) }
    ensures ready { OnOk result (IsReady types.old → IsReady types.new) }
{
    let t = listed(types, ty)?;
    if is_function(types.table(), &ExprType::Listed(t)) {
        types.pointer(t)
    } else {
        Ok(t)
    }
}

/// The type of an element, where it is an array.
pub(crate) fn element_of(types: &TypeTable, ty: &ExprType) -> Option<TypeId>
    requires { IsKnownType types.now ty.now }
    ensures value { option_map (meaning types.now) result ≡ element_type (meaning_of types.now ty.now) }
    ensures known { IfSome result (IsKnown types.now) }
{
    match ty {
        ExprType::Listed(t) => element_at(types, *t),
        ExprType::PointerTo(_) => None,
    }
}

/// The type of an element, where a type of the table is an array.
fn element_at(types: &TypeTable, t: TypeId) -> Option<TypeId>
    requires { IsKnown types.now t }
    ensures value { option_map (meaning types.now) result ≡ element_type (meaning types.now t) }
    ensures known { IfSome result (IsKnown types.now) }
{
    match form(types, t) {
        CType::Array(element, _) => Some(*element),
        CType::Void
        | CType::Int(_)
        | CType::ThreadId
        | CType::Mutex
        | CType::Cond
        | CType::Pointer(_)
        | CType::Struct(_)
        | CType::Function { .. }
        | CType::Opaque(_) => None,
    }
}
