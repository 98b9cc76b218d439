//! What a function's type is made of (C99 6.7.5.3).
ghost use Rattle.std.specs.Prelude.{◌≡◌, IfOk, Some};
ghost use Rattle.lk_types.specs.Table.{IsKnown};
ghost use Rattle.lk_typed.specs.Meaning.{meaning};
ghost use Rattle.lk_typed.specs.NodeParts.{result_of};
ghost use Rattle.lk_elaborate.specs.PuttingParameters.{AreTypesOf};

use lk_base::NoMemory;
use lk_elaborator::{known, nowhere};
use lk_typed::form;
use lk_types::{CType, TypeId, TypeIds, TypeTable};

/// The types of the parameters of a function. What is defined with a body is one (C99 6.9.1, 2).
pub(crate) fn parameter_types(types: &TypeTable, t: TypeId) -> Result<TypeIds, NoMemory>
    ensures { IfOk result (λ list. AreTypesOf types.now (meaning types.now t) list) }
{
    let t = known(types, t)?;
    match form(types, t) {
        CType::Function { params, .. } => Ok(params.copy()?),
        CType::Void
        | CType::Int(_)
        | CType::ThreadId
        | CType::Mutex
        | CType::Cond
        | CType::Pointer(_)
        | CType::Array(_, _)
        | CType::Struct(_)
        | CType::Opaque(_) => Err(nowhere()),
    }
}

/// The result of a function.
pub(crate) fn result_type(types: &TypeTable, t: TypeId) -> Result<TypeId, NoMemory>
    ensures known { IfOk result (IsKnown types.now) }
    ensures value { IfOk result (λ r.
        result_of (Some (meaning types.now t)) ≡ Some (meaning types.now r)) }
{
    let t = known(types, t)?;
    match form(types, t) {
        CType::Function { result, .. } => Ok(*result),
        CType::Void
        | CType::Int(_)
        | CType::ThreadId
        | CType::Mutex
        | CType::Cond
        | CType::Pointer(_)
        | CType::Array(_, _)
        | CType::Struct(_)
        | CType::Opaque(_) => Err(nowhere()),
    }
}
