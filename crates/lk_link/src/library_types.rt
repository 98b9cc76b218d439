//! Types beside those of the library's functions.
ghost use Rattle.std.specs.Prelude.{◌≡◌, ◌∷◌, [], All, Some, IfSome, map};
ghost use Rattle.std.specs.Option.{option_map};
ghost use Rattle.lk_check_expr.specs.Functions.{parameter_in, rows_of};
ghost use Rattle.lk_link.specs.LibraryTypes.{function_tree, plain_tree};
ghost use Rattle.lk_typed.specs.Library as spec;
ghost use Rattle.lk_typed.specs.Meaning.{meaning};
ghost use Rattle.lk_typed.specs.Ty as tree;
ghost use Rattle.lk_typed.specs.Ty.{are_equal_but, holds_of, is_redeclarable, sizes_or_none, types_of};
ghost use Rattle.lk_types.specs.Table.{IsKnown};

use lk_base::Kind;
use lk_check_expr::{LibraryFunction, Parameter};
use lk_typed::{ExprType, form, target_of};
use lk_types::{CType, TypeId, TypeTable};

/// A type that is made of no other.
#[derive(Clone, Copy)]
enum PlainType {
    Void,
    Int(Kind),
    ThreadId,
    Mutex,
    Cond,
    Opaque(u32),
}

/// Whether a type that is made of no other is this integer type.
#[tactic(auto, unfolding(lk_typed::specs::Ty::is_redeclarable))]
fn is_kind(kind: Kind, wanted: PlainType) -> bool
    ensures { result ≡ is_redeclarable (tree.Int kind) (plain_tree wanted) }
{
    match wanted {
        PlainType::Int(other) => kind == other,
        PlainType::Void
        | PlainType::ThreadId
        | PlainType::Mutex
        | PlainType::Cond
        | PlainType::Opaque(_) => false,
    }
}

/// Whether a type that is made of no other is the one with this number that is never complete.
#[tactic(auto, unfolding(lk_typed::specs::Ty::is_redeclarable))]
fn is_opaque(number: u32, wanted: PlainType) -> bool
    ensures { result ≡ is_redeclarable (tree.Opaque number) (plain_tree wanted) }
{
    match wanted {
        PlainType::Opaque(other) => number == other,
        PlainType::Void
        | PlainType::Int(_)
        | PlainType::ThreadId
        | PlainType::Mutex
        | PlainType::Cond => false,
    }
}

/// Whether a type is this one.
#[tactic(auto, unfolding(lk_typed::specs::Ty::is_redeclarable))]
fn is_plain(types: &TypeTable, t: TypeId, wanted: PlainType) -> bool
    requires { IsKnown types.now t }
    ensures { result ≡ is_redeclarable (meaning types.now t) (plain_tree wanted) }
{
    match form(types, t) {
        CType::Void => matches!(wanted, PlainType::Void),
        CType::Int(kind) => is_kind(*kind, wanted),
        CType::ThreadId => matches!(wanted, PlainType::ThreadId),
        CType::Mutex => matches!(wanted, PlainType::Mutex),
        CType::Cond => matches!(wanted, PlainType::Cond),
        CType::Opaque(number) => is_opaque(*number, wanted),
        CType::Pointer(_) | CType::Array(_, _) | CType::Struct(_) | CType::Function { .. } => false,
    }
}

/// The type that a pointer points to.
fn target(types: &TypeTable, t: TypeId) -> Option<TypeId>
    requires { IsKnown types.now t }
    ensures value { option_map (meaning types.now) result ≡ tree.target_of (meaning types.now t) }
    ensures known { IfSome result (IsKnown types.now) }
{
    let ty = ExprType::Listed(t);
    target_of(types, &ty)
}

/// Whether a type is a pointer to this one.
#[tactic(auto, using(crate::proofs::LibraryRows::pointer_is))]
fn is_pointer(types: &TypeTable, t: TypeId, wanted: PlainType) -> bool
    requires { IsKnown types.now t }
    ensures { result ≡ is_redeclarable (meaning types.now t) (tree.Pointer (plain_tree wanted)) }
{
    match target(types, t) {
        Some(target) => is_plain(types, target, wanted),
        None => false,
    }
}

/// Whether a type is `void **`.
#[tactic(auto, using(crate::proofs::LibraryRows::pointer_is))]
fn is_pointer_to_pointer(types: &TypeTable, t: TypeId) -> bool
    requires { IsKnown types.now t }
    ensures { result ≡ is_redeclarable (meaning types.now t) (tree.Pointer tree.void_pointer) }
{
    match target(types, t) {
        Some(target) => is_pointer(types, target, PlainType::Void),
        None => false,
    }
}

/// Whether the only parameter of a function is a `void *`.
#[tactic(auto, using(crate::proofs::LibraryRows::one_parameter))]
fn is_start_parameter(types: &TypeTable, params: &[TypeId]) -> bool
    requires { All (IsKnown types.now) params.now }
    ensures { result ≡ are_equal_but sizes_or_none (types_of (map (meaning types.now) params.now))
        (types_of (tree.void_pointer ∷ [])) }
{
    params.len() == 1 && is_pointer(types, params[0], PlainType::Void)
}

/// Whether a type is that of a start routine, `void *(void *)`.
#[tactic(auto, unfolding(lk_typed::specs::Ty::is_redeclarable))]
fn is_routine(types: &TypeTable, t: TypeId) -> bool
    requires { IsKnown types.now t }
    ensures { result ≡ is_redeclarable (meaning types.now t) spec.routine_type }
{
    match form(types, t) {
        CType::Function {
            result,
            params,
            dots,
        } => {
            if *dots || !is_pointer(types, *result, PlainType::Void) {
                return false;
            }
            is_start_parameter(types, params.list())
        }
        CType::Void
        | CType::Int(_)
        | CType::ThreadId
        | CType::Mutex
        | CType::Cond
        | CType::Pointer(_)
        | CType::Array(_, _)
        | CType::Struct(_)
        | CType::Opaque(_) => false,
    }
}

/// Whether a type is a pointer to a start routine, `void *(*)(void *)`.
#[tactic(auto, using(crate::proofs::LibraryRows::pointer_is))]
fn is_to_routine(types: &TypeTable, t: TypeId) -> bool
    requires { IsKnown types.now t }
    ensures { result ≡ is_redeclarable (meaning types.now t) (tree.Pointer spec.routine_type) }
{
    match target(types, t) {
        Some(target) => is_routine(types, target),
        None => false,
    }
}

/// Whether a type is that of this parameter of a library function.
fn is_parameter(types: &TypeTable, t: TypeId, parameter: Parameter) -> bool
    requires { IsKnown types.now t }
    ensures { result ≡ is_redeclarable (meaning types.now t) (spec.passed_type (parameter_in parameter)) }
{
    match parameter {
        Parameter::Int => is_plain(types, t, PlainType::Int(Kind::Int)),
        Parameter::UnsignedInt => is_plain(types, t, PlainType::Int(Kind::UInt)),
        Parameter::Count | Parameter::Size => is_plain(types, t, PlainType::Int(Kind::ULong)),
        Parameter::Thread => is_plain(types, t, PlainType::ThreadId),
        Parameter::ToThread => is_pointer(types, t, PlainType::ThreadId),
        Parameter::ToMutex => is_pointer(types, t, PlainType::Mutex),
        Parameter::ToCond => is_pointer(types, t, PlainType::Cond),
        Parameter::ToText => is_pointer(types, t, PlainType::Int(Kind::Char)),
        Parameter::ToAnything => is_pointer(types, t, PlainType::Void),
        Parameter::NoThreadAttributes => is_pointer(types, t, PlainType::Opaque(0)),
        Parameter::NoMutexAttributes => is_pointer(types, t, PlainType::Opaque(1)),
        Parameter::NoCondAttributes => is_pointer(types, t, PlainType::Opaque(2)),
        Parameter::NoResult => is_pointer_to_pointer(types, t),
        Parameter::Routine => is_to_routine(types, t),
    }
}

/// Whether types are those of these parameters, one by one.
fn are_parameters(types: &TypeTable, ts: &[TypeId], parameters: &[Parameter]) -> bool
    requires { All (IsKnown types.now) ts.now }
    ensures { result ≡ are_equal_but sizes_or_none (types_of (map (meaning types.now) ts.now))
        (types_of (map spec.passed_type (map parameter_in parameters.now))) }
{
    if ts.len() != parameters.len() {
        return false;
    }
    for place in 0..ts.len() {
        if !is_parameter(types, ts[place], parameters[place]) {
            return false;
        }
    }
    true
}

/// Whether a type is that of a library function's result.
#[tactic(auto, unfolding(lk_typed::specs::Library::library))]
fn is_result(types: &TypeTable, t: TypeId, function: LibraryFunction) -> bool
    requires { IsKnown types.now t }
    ensures { result ≡ holds_of (rows_of function) (λ row. is_redeclarable (meaning types.now t) row.result) }
{
    match function {
        LibraryFunction::ExitThread
        | LibraryFunction::Free
        | LibraryFunction::Exit
        | LibraryFunction::Abort
        | LibraryFunction::Perror => is_plain(types, t, PlainType::Void),
        LibraryFunction::SelfId => is_plain(types, t, PlainType::ThreadId),
        LibraryFunction::Malloc | LibraryFunction::Calloc => is_pointer(types, t, PlainType::Void),
        LibraryFunction::Sleep => is_plain(types, t, PlainType::Int(Kind::UInt)),
        LibraryFunction::Create
        | LibraryFunction::Join
        | LibraryFunction::Detach
        | LibraryFunction::Equal
        | LibraryFunction::MutexInit
        | LibraryFunction::MutexDestroy
        | LibraryFunction::MutexLock
        | LibraryFunction::MutexUnlock
        | LibraryFunction::CondInit
        | LibraryFunction::CondDestroy
        | LibraryFunction::CondSignal
        | LibraryFunction::CondBroadcast
        | LibraryFunction::CondWait
        | LibraryFunction::Puts
        | LibraryFunction::Atoi
        | LibraryFunction::Printf
        | LibraryFunction::Putchar
        | LibraryFunction::Getchar
        | LibraryFunction::Rand => is_plain(types, t, PlainType::Int(Kind::Int)),
    }
}

/// Whether further arguments may follow those of a library function.
#[tactic(auto, using(crate::proofs::LibraryRows::only_printf), unfolding(lk_typed::specs::Library::library))]
fn has_dots(function: LibraryFunction) -> bool
    ensures { result ≡ holds_of (rows_of function) (λ row. row.dots) }
{
    matches!(function, LibraryFunction::Printf)
}

/// Whether a function of this result, with these parameters, has the type of a library function.
fn is_signature(
    types: &TypeTable,
    result_type: TypeId,
    params: &[TypeId],
    dots: bool,
    function: LibraryFunction,
) -> bool
    requires result_known { IsKnown types.now result_type }
    requires params_known { All (IsKnown types.now) params.now }
    ensures { (row : spec.LibraryFunction) → rows_of function ≡ Some row →
        result ≡ is_redeclarable (function_tree types.now result_type params.now dots)
        (spec.type_of_function row) }
{
    if dots != has_dots(function) || !is_result(types, result_type, function) {
        return false;
    }
    are_parameters(types, params, function.parameters())
}

/// Whether a type is that of a library function.
#[tactic(auto, unfolding(lk_typed::specs::Ty::is_redeclarable))]
pub(crate) fn is_type_of(types: &TypeTable, t: TypeId, function: LibraryFunction) -> bool
    requires { IsKnown types.now t }
    ensures { (row : spec.LibraryFunction) → rows_of function ≡ Some row →
        result ≡ is_redeclarable (meaning types.now t) (spec.type_of_function row) }
{
    match form(types, t) {
        CType::Function {
            result,
            params,
            dots,
        } => is_signature(types, *result, params.list(), *dots, function),
        CType::Void
        | CType::Int(_)
        | CType::ThreadId
        | CType::Mutex
        | CType::Cond
        | CType::Pointer(_)
        | CType::Array(_, _)
        | CType::Struct(_)
        | CType::Opaque(_) => false,
    }
}
