//! How a value converts to a type (C99 6.3, 6.5.4, 6.5.16.1). A value is what `value` gives.
ghost use Rattle.std.specs.Prelude.{◌≡◌, ◌||◌};
ghost use Rattle.lk_base.specs.declared.kind.Kind.TheVariants as kinds;
ghost use Rattle.lk_typed.specs.Conversions as spec;
ghost use Rattle.lk_typed.specs.Ty.{is_same_kind, is_lock as spec_is_lock};
ghost use Rattle.lk_typed.specs.Codes.{code_unless, least_code, named_code};
ghost use Rattle.lk_typed.specs.Meaning.{meaning_of, IsKnownType};
ghost use Rattle.lk_typed.specs.Typings.{ForEach, IsOperand};

use crate::forms::{
    are_same, is_function, is_integer, is_lock, is_pointer, is_struct, is_thread_id, is_void,
    kind_of, target_of,
};
use crate::typed::{ExprType, Typed};
use lk_base::{Code, Kind};
use lk_types::TypeTable;

/// Whether it is the kind of `_Bool`.
fn is_bool_kind(kind: Kind) -> bool
    ensures { result ≡ is_same_kind kinds.Bool kind }
{
    match kind {
        Kind::Bool => true,
        Kind::Char
        | Kind::SChar
        | Kind::UChar
        | Kind::Short
        | Kind::UShort
        | Kind::Int
        | Kind::UInt
        | Kind::Long
        | Kind::ULong
        | Kind::LLong
        | Kind::ULLong => false,
    }
}

/// Whether it is `_Bool`.
fn is_bool(types: &TypeTable, ty: &ExprType) -> bool
    requires { IsKnownType types.now ty.now }
    ensures { result ≡ spec.is_bool (meaning_of types.now ty.now) }
{
    match kind_of(types, ty) {
        Some(kind) => is_bool_kind(kind),
        None => false,
    }
}

/// Whether it is `void *`.
fn is_void_pointer(types: &TypeTable, ty: &ExprType) -> bool
    requires { IsKnownType types.now ty.now }
    ensures { result ≡ spec.is_void_pointer (meaning_of types.now ty.now) }
{
    match target_of(types, ty) {
        Some(target) => is_void(types, &ExprType::Listed(target)),
        None => false,
    }
}

/// Whether it is a pointer to a function.
pub fn is_function_pointer(types: &TypeTable, ty: &ExprType) -> bool
    requires { IsKnownType types.now ty.now }
    ensures { result ≡ spec.is_function_pointer (meaning_of types.now ty.now) }
{
    match target_of(types, ty) {
        Some(target) => is_function(types, &ExprType::Listed(target)),
        None => false,
    }
}

/// Whether it is a pointer to an object or incomplete type, `void` among them (C99 6.2.5, 1).
fn is_object_pointer(types: &TypeTable, ty: &ExprType) -> bool
    requires { IsKnownType types.now ty.now }
    ensures { result ≡ spec.is_object_pointer (meaning_of types.now ty.now) }
{
    match target_of(types, ty) {
        Some(target) => !is_function(types, &ExprType::Listed(target)),
        None => false,
    }
}

/// Whether both are one pointer type.
pub fn are_same_pointers(types: &TypeTable, a: &ExprType, b: &ExprType) -> bool
    requires a { IsKnownType types.now a.now }
    requires b { IsKnownType types.now b.now }
    ensures { result ≡ spec.are_same_pointers (meaning_of types.now a.now) (meaning_of types.now b.now) }
{
    is_pointer(types, a) && are_same(types, a, b)
}

/// Whether one is `void *` and the other a pointer to an object or incomplete type (C99 6.3.2.3, 1).
pub fn are_void_and_object(types: &TypeTable, a: &ExprType, b: &ExprType) -> bool
    requires a { IsKnownType types.now a.now }
    requires b { IsKnownType types.now b.now }
    ensures { result ≡ spec.are_void_and_object (meaning_of types.now a.now) (meaning_of types.now b.now) }
{
    is_void_pointer(types, a) && is_object_pointer(types, b)
        || is_void_pointer(types, b) && is_object_pointer(types, a)
}

/// Whether C and the profile have the conversion: integers (C99 6.3.1), a pointer to `_Bool` (6.3.1.2), a
/// null pointer constant (6.3.2.3, 3), equal pointers, `void *` (6.3.2.3, 1), thread ids.
fn converts(types: &TypeTable, target: &ExprType, v: &Typed) -> bool
    requires target { IsKnownType types.now target.now }
    requires value { IsOperand types.now v.now }
    ensures { ForEach types.now v.now (λ x. result ≡ spec.converts (meaning_of types.now target.now) x) }
{
    is_integer(types, target) && is_integer(types, &v.ty)
        || is_bool(types, target) && is_pointer(types, &v.ty)
        || is_pointer(types, target) && v.is_null
        || are_same_pointers(types, target, &v.ty)
        || are_void_and_object(types, target, &v.ty)
        || is_thread_id(types, target) && is_thread_id(types, &v.ty)
}

/// Whether it is a conversion between an integer kind, as a target other than `_Bool`, and a pointer; other
/// than from a null pointer constant (C99 6.3.2.3, 5 and 6).
fn is_integer_and_pointer(types: &TypeTable, target: &ExprType, v: &Typed) -> bool
    requires target { IsKnownType types.now target.now }
    requires value { IsOperand types.now v.now }
    ensures { ForEach types.now v.now (λ x.
        result ≡ spec.is_integer_and_pointer (meaning_of types.now target.now) x) }
{
    !v.is_null
        && (is_integer(types, target) && !is_bool(types, target) && is_pointer(types, &v.ty)
            || is_pointer(types, target) && is_integer(types, &v.ty))
}

/// Whether these are two different pointer types neither of which is `void *`.
fn are_two_pointers(types: &TypeTable, a: &ExprType, b: &ExprType) -> bool
    requires a { IsKnownType types.now a.now }
    requires b { IsKnownType types.now b.now }
    ensures { result ≡ spec.are_two_pointers (meaning_of types.now a.now) (meaning_of types.now b.now) }
{
    is_pointer(types, a)
        && is_pointer(types, b)
        && !are_same(types, a, b)
        && !is_void_pointer(types, a)
        && !is_void_pointer(types, b)
}

/// Whether one is a function pointer and the other is not of its type.
fn is_function_pointer_alone(types: &TypeTable, a: &ExprType, b: &ExprType) -> bool
    requires a { IsKnownType types.now a.now }
    requires b { IsKnownType types.now b.now }
    ensures { result
        ≡ spec.is_function_pointer_alone (meaning_of types.now a.now) (meaning_of types.now b.now) }
{
    (is_function_pointer(types, a) || is_function_pointer(types, b)) && !are_same(types, a, b)
}

/// Whether it is a conversion between different pointers, or between a function pointer and anything but its
/// own type (C99 6.3.2.3, 7 and 8).
fn are_different_pointers(types: &TypeTable, target: &ExprType, ty: &ExprType) -> bool
    requires target { IsKnownType types.now target.now }
    requires value { IsKnownType types.now ty.now }
    ensures { result
        ≡ spec.are_different_pointers (meaning_of types.now target.now) (meaning_of types.now ty.now) }
{
    are_two_pointers(types, target, ty) || is_function_pointer_alone(types, target, ty)
}

/// Whether one of two types is a mutex or a condition variable.
pub fn has_lock(types: &TypeTable, a: &ExprType, b: &ExprType) -> bool
    requires a { IsKnownType types.now a.now }
    requires b { IsKnownType types.now b.now }
    ensures { result ≡ spec_is_lock (meaning_of types.now a.now) || spec_is_lock (meaning_of types.now b.now) }
{
    is_lock(types, a) || is_lock(types, b)
}

/// A code, unless something is there.
fn code_unless(exists: bool, code: Code) -> Option<Code>
    ensures { result ≡ code_unless exists code }
{
    if exists { None } else { Some(code) }
}

/// The code that names a conversion which C and the profile don't have: `Code::IntPointerCast`,
/// `Code::PointerCast`, `Code::StructValue` or `Code::MutexValue`, the first of these that holds, else
/// `Code::Mismatch`.
fn named_code(
    integer_and_pointer: bool,
    different_pointers: bool,
    of_struct: bool,
    of_lock: bool,
) -> Code
    ensures { result ≡ named_code integer_and_pointer different_pointers of_struct of_lock }
{
    if integer_and_pointer {
        Code::IntPointerCast
    } else if different_pointers {
        Code::PointerCast
    } else if of_struct {
        Code::StructValue
    } else if of_lock {
        Code::MutexValue
    } else {
        Code::Mismatch
    }
}

/// The least code that a conversion breaks by assignment, argument, result or initialiser; nothing
/// where there is such a conversion.
pub fn convert_code(types: &TypeTable, target: &ExprType, v: &Typed) -> Option<Code>
    requires target { IsKnownType types.now target.now }
    requires value { IsOperand types.now v.now }
    ensures { ForEach types.now v.now (λ x.
        result ≡ least_code (spec.conversion_codes (meaning_of types.now target.now) x)) }
{
    let exists = converts(types, target, v);
    let integer_and_pointer = is_integer_and_pointer(types, target, v);
    let different_pointers = are_different_pointers(types, target, &v.ty);
    let of_struct = is_struct(types, &v.ty);
    let of_lock = has_lock(types, target, &v.ty);
    let named = named_code(integer_and_pointer, different_pointers, of_struct, of_lock);
    code_unless(exists, named)
}

/// The least code that a cast breaks. It may also drop its value, but a mutex and a condition variable are no
/// values (C99 6.3.2.2, 6.5.4, 2).
pub fn cast_code(types: &TypeTable, target: &ExprType, v: &Typed) -> Option<Code>
    requires target { IsKnownType types.now target.now }
    requires value { IsOperand types.now v.now }
    ensures { ForEach types.now v.now (λ x.
        result ≡ least_code (spec.cast_codes (meaning_of types.now target.now) x)) }
{
    if is_void(types, target) {
        if is_lock(types, &v.ty) {
            Some(Code::MutexValue)
        } else {
            None
        }
    } else {
        convert_code(types, target, v)
    }
}
