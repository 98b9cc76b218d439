//! The functions of the library (POSIX, `pthread.h`; C99 7.19, 7.20): their types, and their names in scope.
ghost use Rattle.std.specs.Prelude.{◌≡◌, ◌∷◌, ◌<◌, [], length, IfOk, OnOk};
ghost use Rattle.lk_types.specs.Predeclared.{predeclared};
ghost use Rattle.lk_typed.specs.Meaning.{IsReady};
ghost use Rattle.lk_check_expr.specs.Functions.{rows_of};
ghost use Rattle.lk_predeclared.specs.Functions.{dots_by, number_by, result_by, tree_by, type_by};
ghost use Rattle.lk_predeclared.specs.Plain.{Grows, IsPlain};
ghost use Rattle.lk_predeclared.specs.Scope.{AddsNames, function_declared, functions_declared};

use crate::types::{function_of_types, parameter_types, pointer_to_first};
use crate::words::declare;
use lk_base::NoMemory;
use lk_check_expr::LibraryFunction;
use lk_names::Names;
use lk_typed::{Defines, ExprType, Linkage, Meaning};
use lk_types::{TypeId, TypeTable};
use std::alloc::Global;

/// All of them, in the order of their table.
const FUNCTIONS: [LibraryFunction; 28] = [
    LibraryFunction::Create,
    LibraryFunction::Join,
    LibraryFunction::Detach,
    LibraryFunction::ExitThread,
    LibraryFunction::SelfId,
    LibraryFunction::Equal,
    LibraryFunction::MutexInit,
    LibraryFunction::MutexDestroy,
    LibraryFunction::MutexLock,
    LibraryFunction::MutexUnlock,
    LibraryFunction::CondInit,
    LibraryFunction::CondDestroy,
    LibraryFunction::CondSignal,
    LibraryFunction::CondBroadcast,
    LibraryFunction::CondWait,
    LibraryFunction::Malloc,
    LibraryFunction::Calloc,
    LibraryFunction::Free,
    LibraryFunction::Exit,
    LibraryFunction::Abort,
    LibraryFunction::Puts,
    LibraryFunction::Perror,
    LibraryFunction::Atoi,
    LibraryFunction::Printf,
    LibraryFunction::Putchar,
    LibraryFunction::Getchar,
    LibraryFunction::Rand,
    LibraryFunction::Sleep,
];

/// What a function returns: a predeclared type, or a pointer to one.
#[tactic(auto, unfolding(lk_typed::specs::Library::library))]
fn returned(function: LibraryFunction) -> ExprType
    ensures tree { tree_by result ≡ result_by (rows_of function) }
    ensures first { number_by result < length predeclared }
{
    match function {
        LibraryFunction::ExitThread
        | LibraryFunction::Free
        | LibraryFunction::Exit
        | LibraryFunction::Abort
        | LibraryFunction::Perror => ExprType::Listed(TypeId::VOID),
        LibraryFunction::SelfId => ExprType::Listed(TypeId::THREAD),
        LibraryFunction::Malloc | LibraryFunction::Calloc => ExprType::PointerTo(TypeId::VOID),
        LibraryFunction::Sleep => ExprType::Listed(TypeId::UNSIGNED),
        LibraryFunction::Create
        | LibraryFunction::Join
        | LibraryFunction::Detach
        | LibraryFunction::Equal
        | LibraryFunction::MutexInit
        | LibraryFunction::MutexDestroy
        | LibraryFunction::MutexLock
        | LibraryFunction::MutexUnlock
        | LibraryFunction::CondInit
        | LibraryFunction::CondDestroy
        | LibraryFunction::CondSignal
        | LibraryFunction::CondBroadcast
        | LibraryFunction::CondWait
        | LibraryFunction::Puts
        | LibraryFunction::Atoi
        | LibraryFunction::Printf
        | LibraryFunction::Putchar
        | LibraryFunction::Getchar
        | LibraryFunction::Rand => ExprType::Listed(TypeId::INT),
    }
}

/// Whether further arguments may follow.
#[tactic(auto, unfolding(lk_typed::specs::Library::library))]
fn has_dots(function: LibraryFunction) -> bool
    ensures { result ≡ dots_by (rows_of function) }
{
    matches!(function, LibraryFunction::Printf)
}

/// The type of what a function returns.
fn result_type(types: &mut TypeTable, function: LibraryFunction) -> Result<TypeId, NoMemory>
    requires { IsReady types.old }
    ensures plain { IfOk result (IsPlain types.new (result_by (rows_of function))) }
    ensures grows { OnOk result (Grows types.old types.new) }
{
    match returned(function) {
        ExprType::Listed(t) => Ok(t),
        ExprType::PointerTo(t) => pointer_to_first(types, t),
    }
}

/// The type of a function.
fn function_type(
    alloc: Global,
    types: &mut TypeTable,
    function: LibraryFunction,
) -> Result<TypeId, NoMemory>
    requires { IsReady types.old }
    ensures plain { IfOk result (IsPlain types.new (type_by (rows_of function))) }
    ensures grows { OnOk result (Grows types.old types.new) }
{
    let returned = result_type(types, function)?;
    let params = parameter_types(alloc, types, function.parameters())?;
    function_of_types(types, returned, params, has_dots(function))
}

/// Declares a function.
fn declare_function(
    alloc: Global,
    types: &mut TypeTable,
    names: &mut Names,
    function: LibraryFunction,
) -> Result<(), NoMemory>
    requires { IsReady types.old }
    ensures grows { OnOk result (Grows types.old types.new) }
    ensures adds { OnOk result (AddsNames types.old names.old types.new names.new
        (function_declared function ∷ [])) }
{
    let t = function_type(alloc, types, function)?;
    declare(
        alloc,
        names,
        function.name(),
        Meaning::Function(t),
        Linkage::External,
        Defines::Whole,
    )
}

/// Declares all functions of the library.
pub(crate) fn declare_functions(
    alloc: Global,
    types: &mut TypeTable,
    names: &mut Names,
) -> Result<(), NoMemory>
    requires { IsReady types.old }
    ensures grows { OnOk result (Grows types.old types.new) }
    ensures adds { OnOk result (AddsNames types.old names.old types.new names.new functions_declared) }
{
    for function in &FUNCTIONS {
        declare_function(alloc, types, names, *function)?;
    }
    Ok(())
}
