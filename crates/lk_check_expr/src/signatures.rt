//! The signatures of functions (C99 6.7.5.3).
ghost use Rattle.std.specs.Prelude.{◌≡◌, IfSome};
ghost use Rattle.std.specs.Option.{option_map};
ghost use Rattle.lk_types.specs.Table.{IsKnown};
ghost use Rattle.lk_typed.specs.Calls as spec;
ghost use Rattle.lk_typed.specs.Meaning.{meaning, meaning_of, IsKnownType};
ghost use Rattle.lk_typed.specs.Ty.{function_of, target_of as spec_target_of};
ghost use Rattle.lk_check_expr.specs.Signatures.{HasKnownTypes, signature_in};

use lk_typed::{ExprType, form, target_of};
use lk_types::{CType, TypeId, TypeTable};

/// The result and the parameters of a function.
#[derive(Clone, Copy)]
pub(crate) struct Signature<'a> {
    pub(crate) result: TypeId,
    pub(crate) params: &'a [TypeId],
    pub(crate) dots: bool,
}

/// The signature of a function of this type.
pub(crate) fn function_at(types: &TypeTable, t: TypeId) -> Option<Signature<'_>>
    requires { IsKnown types.now t }
    ensures value { option_map (signature_in types.now) result ≡ function_of (meaning types.now t) }
    ensures known { IfSome result (HasKnownTypes types.now) }
{
    match form(types, t) {
        CType::Function {
            result,
            params,
            dots,
        } => Some(Signature {
            result: *result,
            params: params.list(),
            dots: *dots,
        }),
        CType::Void
        | CType::Int(_)
        | CType::ThreadId
        | CType::Mutex
        | CType::Cond
        | CType::Pointer(_)
        | CType::Array(_, _)
        | CType::Struct(_)
        | CType::Opaque(_) => None,
    }
}

/// The signature of the function that a value of this type points to.
pub(crate) fn signature_at<'a>(types: &'a TypeTable, ty: &ExprType) -> Option<Signature<'a>>
    requires { IsKnownType types.now ty.now }
    ensures value { option_map (signature_in types.now) result
        ≡ spec.signature_at (spec_target_of (meaning_of types.now ty.now)) }
    ensures known { IfSome result (HasKnownTypes types.now) }
{
    match target_of(types, ty) {
        Some(target) => function_at(types, target),
        None => None,
    }
}
