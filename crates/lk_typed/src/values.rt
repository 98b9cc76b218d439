//! The value of an expression where it is no operand of `&` or `sizeof` (C99 6.3.2.1, 2 to 4).
ghost use Rattle.lk_typed.specs.Addresses as spec;
ghost use Rattle.lk_typed.specs.Typings.{ForEach, IsOperand, IsTyping};

use crate::forms::form;
use crate::typed::{ExprType, Typed};
use lk_types::{CType, TypeTable};

/// What a place holds is no constant; anything else stays as it is.
fn read(types: &TypeTable, e: &Typed) -> Typed
    requires { IsOperand types.now e.now }
    ensures operand { IsOperand types.now result }
    ensures value { ForEach types.now e.now (λ x. IsTyping types.now result (spec.read x)) }
{
    if e.is_place { Typed::of_type(e.ty) } else { *e }
}

/// The value of an expression: an array gives the pointer to its first element, a function the pointer to it,
/// and any other place what it holds.
pub fn value(types: &TypeTable, e: &Typed) -> Typed
    requires { IsOperand types.now e.now }
    ensures operand { IsOperand types.now result }
    ensures value { ForEach types.now e.now (λ x. IsTyping types.now result (spec.value x)) }
{
    match e.ty {
        ExprType::Listed(t) => match form(types, t) {
            CType::Array(element, _) => Typed::of_type(ExprType::PointerTo(*element)),
            CType::Function { .. } => Typed::of_type(ExprType::PointerTo(t)),
            CType::Void
            | CType::Int(_)
            | CType::ThreadId
            | CType::Mutex
            | CType::Cond
            | CType::Pointer(_)
            | CType::Struct(_)
            | CType::Opaque(_) => read(types, e),
        },
        ExprType::PointerTo(_) => read(types, e),
    }
}
