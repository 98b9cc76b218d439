//! The forms of types.
ghost use Rattle.std.specs.Prelude.{◌≡◌, ◌↔◌, ◌<◌, ℕ, IsTrue, IfSome, Some};
ghost use Rattle.lk_base.specs.declared.kind.Kind.{Kind as KindIs};
ghost use Rattle.lk_facts.specs.Typed.{IsForm, IsObjectType};
ghost use Rattle.lk_types.specs.Table.{IsKnown, HasKnown};
ghost use Rattle.lk_types.specs.declared.c_type.CType.TheVariants.{Int, Pointer};

use lk_base::Kind;
use lk_types::{CType, TypeId, TypeTable};

/// The form of a type. What it is made of is in the table.
pub(crate) fn form(types: &TypeTable, t: TypeId) -> &CType
    requires { IsKnown types.now t }
    ensures form { IsForm types.now t result.now }
    ensures known { HasKnown types.now result.now }
{
    types.get(t)
}

/// The kind of an integer type (C99 6.2.5).
pub(crate) fn kind_of(types: &TypeTable, t: TypeId) -> Option<Kind>
    requires { IsKnown types.now t }
    ensures form { IfSome result (λ kind. IsForm types.now t (Int kind)) }
    ensures only { (kind : KindIs) → IsForm types.now t (Int kind) → result ≡ Some kind }
{
    match form(types, t) {
        CType::Int(kind) => Some(*kind),
        CType::Void
        | CType::ThreadId
        | CType::Mutex
        | CType::Cond
        | CType::Pointer(_)
        | CType::Array(_, _)
        | CType::Struct(_)
        | CType::Function { .. }
        | CType::Opaque(_) => None,
    }
}

/// The type that a pointer type points to.
pub(crate) fn target_of(types: &TypeTable, t: TypeId) -> Option<TypeId>
    requires { IsKnown types.now t }
    ensures form { IfSome result (λ target. IsForm types.now t (Pointer target)) }
    ensures only { (target : ℕ) → IsForm types.now t (Pointer target) → result ≡ Some target }
    ensures known { IfSome result (IsKnown types.now) }
{
    match form(types, t) {
        CType::Pointer(target) => Some(*target),
        CType::Void
        | CType::Int(_)
        | CType::ThreadId
        | CType::Mutex
        | CType::Cond
        | CType::Array(_, _)
        | CType::Struct(_)
        | CType::Function { .. }
        | CType::Opaque(_) => None,
    }
}

/// Whether a type is one of objects: not `void`, and not that of a function (C99 6.2.5).
pub(crate) fn is_object(types: &TypeTable, t: TypeId) -> bool
    requires { IsKnown types.now t }
    ensures { IsTrue result ↔ IsObjectType types.now t }
{
    match form(types, t) {
        CType::Void | CType::Function { .. } => false,
        CType::Int(_)
        | CType::ThreadId
        | CType::Mutex
        | CType::Cond
        | CType::Pointer(_)
        | CType::Array(_, _)
        | CType::Struct(_)
        | CType::Opaque(_) => true,
    }
}
