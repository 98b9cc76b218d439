//! What the rules ask of a type.
ghost use Rattle.std.specs.Prelude.{◌≡◌, IfSome};
ghost use Rattle.std.specs.Option.{option_map};
ghost use Rattle.lk_types.specs.Building.{IsMadeOf};
ghost use Rattle.lk_types.specs.Table.{IsKnown};
ghost use Rattle.lk_typed.specs.Ty as spec;
ghost use Rattle.lk_typed.specs.Ty.{Pointer};
ghost use Rattle.lk_typed.specs.Meaning.{meaning, meaning_of, tree_of, IsKnownType};

use crate::typed::ExprType;
use lk_base::Kind;
use lk_types::{CType, TypeId, TypeTable};

/// The form of a type of the table, by what it is made of.
pub fn form(types: &TypeTable, t: TypeId) -> &CType
    requires { IsKnown types.now t }
    ensures tree { meaning types.now t ≡ tree_of (meaning types.now) result.now }
    ensures made_of { IsMadeOf types.now t result.now }
{
    types.get(t)
}

/// The kind of an integer type.
pub fn kind_of(types: &TypeTable, ty: &ExprType) -> Option<Kind>
    requires { IsKnownType types.now ty.now }
    ensures { result ≡ spec.kind_of (meaning_of types.now ty.now) }
{
    match ty {
        ExprType::Listed(t) => match form(types, *t) {
            CType::Int(kind) => Some(*kind),
            CType::Void
            | CType::ThreadId
            | CType::Mutex
            | CType::Cond
            | CType::Pointer(_)
            | CType::Array(_, _)
            | CType::Struct(_)
            | CType::Function { .. }
            | CType::Opaque(_) => None,
        },
        ExprType::PointerTo(_) => None,
    }
}

/// What a pointer points to.
pub fn target_of(types: &TypeTable, ty: &ExprType) -> Option<TypeId>
    requires { IsKnownType types.now ty.now }
    ensures value { option_map (meaning types.now) result ≡ spec.target_of (meaning_of types.now ty.now) }
    ensures known { IfSome result (IsKnown types.now) }
{
    match ty {
        ExprType::Listed(t) => match form(types, *t) {
            CType::Pointer(target) => Some(*target),
            CType::Void
            | CType::Int(_)
            | CType::ThreadId
            | CType::Mutex
            | CType::Cond
            | CType::Array(_, _)
            | CType::Struct(_)
            | CType::Function { .. }
            | CType::Opaque(_) => None,
        },
        ExprType::PointerTo(target) => Some(*target),
    }
}

/// The number of a struct.
pub fn struct_of(types: &TypeTable, ty: &ExprType) -> Option<u32>
    requires { IsKnownType types.now ty.now }
    ensures { result ≡ spec.struct_of (meaning_of types.now ty.now) }
{
    match ty {
        ExprType::Listed(t) => form(types, *t).struct_number(),
        ExprType::PointerTo(_) => None,
    }
}

/// Whether it is `void`.
pub fn is_void(types: &TypeTable, ty: &ExprType) -> bool
    requires { IsKnownType types.now ty.now }
    ensures { result ≡ spec.is_void (meaning_of types.now ty.now) }
{
    match ty {
        ExprType::Listed(t) => matches!(form(types, *t), CType::Void),
        ExprType::PointerTo(_) => false,
    }
}

/// Whether it is `pthread_t`.
pub fn is_thread_id(types: &TypeTable, ty: &ExprType) -> bool
    requires { IsKnownType types.now ty.now }
    ensures { result ≡ spec.is_thread_id (meaning_of types.now ty.now) }
{
    match ty {
        ExprType::Listed(t) => matches!(form(types, *t), CType::ThreadId),
        ExprType::PointerTo(_) => false,
    }
}

/// Whether it is a mutex or a condition variable.
pub fn is_lock(types: &TypeTable, ty: &ExprType) -> bool
    requires { IsKnownType types.now ty.now }
    ensures { result ≡ spec.is_lock (meaning_of types.now ty.now) }
{
    match ty {
        ExprType::Listed(t) => matches!(form(types, *t), CType::Mutex | CType::Cond),
        ExprType::PointerTo(_) => false,
    }
}

/// Whether it is a struct.
pub fn is_struct(types: &TypeTable, ty: &ExprType) -> bool
    requires { IsKnownType types.now ty.now }
    ensures { result ≡ spec.is_struct (meaning_of types.now ty.now) }
{
    match ty {
        ExprType::Listed(t) => matches!(form(types, *t), CType::Struct(_)),
        ExprType::PointerTo(_) => false,
    }
}

/// Whether it is a function.
pub fn is_function(types: &TypeTable, ty: &ExprType) -> bool
    requires { IsKnownType types.now ty.now }
    ensures { result ≡ spec.is_function (meaning_of types.now ty.now) }
{
    match ty {
        ExprType::Listed(t) => matches!(form(types, *t), CType::Function { .. }),
        ExprType::PointerTo(_) => false,
    }
}

/// Whether it is a pointer.
pub fn is_pointer(types: &TypeTable, ty: &ExprType) -> bool
    requires { IsKnownType types.now ty.now }
    ensures { result ≡ spec.is_pointer (meaning_of types.now ty.now) }
{
    match ty {
        ExprType::Listed(t) => matches!(form(types, *t), CType::Pointer(_)),
        ExprType::PointerTo(_) => true,
    }
}

/// Whether it is an integer type.
pub fn is_integer(types: &TypeTable, ty: &ExprType) -> bool
    requires { IsKnownType types.now ty.now }
    ensures { result ≡ spec.is_integer (meaning_of types.now ty.now) }
{
    kind_of(types, ty).is_some()
}

/// Whether two types of the table are the same exactly: equal types have one number.
#[tactic(auto, using(crate::proofs::SameTrees::number_is_same, crate::proofs::SameTrees::number_is_same_back))]
fn are_one(types: &TypeTable, t: TypeId, u: TypeId) -> bool
    requires first { IsKnown types.now t }
    requires second { IsKnown types.now u }
    ensures there { result ≡ spec.is_same (meaning types.now t) (meaning types.now u) }
    ensures back { result ≡ spec.is_same (meaning types.now u) (meaning types.now t) }
{
    types.is_table();
    t == u
}

/// Whether a type of the table is a pointer to another one of it.
#[tactic(auto, unfolding(crate::specs::Ty::is_same))]
fn points_to(types: &TypeTable, t: TypeId, target: TypeId) -> bool
    requires pointer { IsKnown types.now t }
    requires target { IsKnown types.now target }
    ensures there { result ≡ spec.is_same (meaning types.now t) (Pointer (meaning types.now target)) }
    ensures back { result ≡ spec.is_same (Pointer (meaning types.now target)) (meaning types.now t) }
{
    match form(types, t) {
        CType::Pointer(other) => are_one(types, *other, target),
        CType::Void
        | CType::Int(_)
        | CType::ThreadId
        | CType::Mutex
        | CType::Cond
        | CType::Array(_, _)
        | CType::Struct(_)
        | CType::Function { .. }
        | CType::Opaque(_) => false,
    }
}

/// Whether two types are the same exactly.
#[tactic(auto, unfolding(crate::specs::Ty::is_same))]
pub fn are_same(types: &TypeTable, a: &ExprType, b: &ExprType) -> bool
    requires a { IsKnownType types.now a.now }
    requires b { IsKnownType types.now b.now }
    ensures { result ≡ spec.is_same (meaning_of types.now a.now) (meaning_of types.now b.now) }
{
    match a {
        ExprType::Listed(t) => match b {
            ExprType::Listed(u) => are_one(types, *t, *u),
            ExprType::PointerTo(u) => points_to(types, *t, *u),
        },
        ExprType::PointerTo(t) => match b {
            ExprType::Listed(u) => points_to(types, *u, *t),
            ExprType::PointerTo(u) => are_one(types, *t, *u),
        },
    }
}
