//! Calls (C99 6.5.2.2).
ghost use Rattle.std.specs.Prelude.{◌≡◌, IfOk, OnOk};
ghost use Rattle.lk_typed.specs.Elaborated.{InPlace};
ghost use Rattle.lk_typed.specs.Words as words;
ghost use Rattle.lk_typed.specs.declared.expression.TypedForm.{out-TypedForm};
ghost use Rattle.lk_elaborator.specs.Leading.{Grows};
ghost use Rattle.lk_elaborator.specs.Telling.{IsTrueOf};
ghost use Rattle.lk_elab_expr.specs.Calling.{CallsFunction, CallsNamed, CallsOther, CallsWord, DecidesCall, DecidesLibrary, DecidesNamed};
ghost use Rattle.lk_elab_expr.specs.Calling.{FormsCall, FormsCalling, FormsSo, IsCallWith, MakesPointer};
ghost use Rattle.lk_elab_expr.specs.declared.calls.Calling.TheVariants.{Creating, Named, Pointed};

use crate::allocations::{Allocation, allocate, sized_allocation, zeroed_allocation};
use crate::arguments::passed_arguments;
use crate::expressions::part_of;
use crate::library::{create, library_call, routine_of};
use crate::names::{NamedWord, word_in};
use crate::ways::Way;
use lk_base::{Boxed, Name, NoMemory, Seq};
use lk_check_expr::{LibraryFunction, NameUse, is_extern};
use lk_elaborator::{Elaborator, called_at, meant_at, value_as};
use lk_tree::Expr;
use lk_typed::{Callee, Meaning, Role, TypedExpr, TypedForm};
use std::alloc::Global;

/// What a call calls by a name.
#[derive(Clone, Copy)]
enum Called {
    /// A function of the library.
    Library(LibraryFunction),
    /// A function that `--externs` names, by its number among the entities.
    Extern(u32),
    /// A function of the program, by its number among the entities.
    Program(u32),
}

/// How a call is made.
#[derive(Clone, Copy)]
enum Calling {
    /// It allocates so.
    Allocating(Allocation),
    /// It starts a thread at the function with this number among the entities.
    Creating(u32),
    /// It calls this, by a name.
    Named(Called),
    /// It calls what a pointer points to.
    Pointed,
}

/// Whether a function is one that `--externs` names.
fn is_extern_name(walk: &Elaborator, name: &Name) -> bool
    ensures { (p : InPlace) → IsTrueOf walk.now p → result ≡ words.is_extern p.0 name.now }
{
    let used = NameUse {
        role: Role::Function,
        is_defined: walk.outside.defined.contains(name),
        is_listed: walk.outside.externs.contains(name),
    };
    is_extern(name, &used)
}

/// What a call calls by the name of a function.
fn function_called(walk: &Elaborator, name: &Name, ordinal: u32) -> Result<Called, NoMemory>
    ensures { IfOk result (CallsFunction walk.now name.now ordinal) }
{
    let entity = walk.entities.declared_at(ordinal)?;
    if is_extern_name(walk, name) {
        Ok(Called::Extern(entity))
    } else {
        Ok(Called::Program(entity))
    }
}

/// What a call calls, where its function is a name of one.
fn word_called(walk: &Elaborator, word: NamedWord) -> Result<Option<Called>, NoMemory>
    ensures { IfOk result (CallsWord walk.now word.entry.name.now word.entry.ordinal) }
{
    let meant = meant_at(walk, word.ordinal)?;
    match meant.meaning {
        Meaning::Function(_) => {
            let called = function_called(walk, word.name, meant.ordinal)?;
            Ok(Some(called))
        }
        Meaning::Object(_, _)
        | Meaning::Typedef(_)
        | Meaning::Enumerator(_)
        | Meaning::InitialiserWord(_)
        | Meaning::Faulty => Ok(None),
    }
}

/// What a call calls, where it calls no function of the library.
fn other_called(walk: &Elaborator, function: &Expr) -> Result<Option<Called>, NoMemory>
    ensures { IfOk result (CallsOther walk.now function.now) }
{
    match word_in(function) {
        Some(word) => word_called(walk, word),
        None => Ok(None),
    }
}

/// What a call calls by the name of a function, perhaps in parentheses.
fn named_called(walk: &Elaborator, function: &Expr) -> Result<Option<Called>, NoMemory>
    ensures { IfOk result (CallsNamed walk.now function.now) }
{
    match called_at(walk, function.ordinal) {
        Ok(Some(known)) => Ok(Some(Called::Library(known))),
        Ok(None) => other_called(walk, function),
        Err(NoMemory) => Err(NoMemory),
    }
}

/// How a function of the library is called by a call that stands as this.
fn library_calling(
    walk: &mut Elaborator,
    known: LibraryFunction,
    arguments: &[Expr],
    role: Role,
) -> Result<Calling, NoMemory>
    ensures decides { IfOk result (DecidesLibrary walk.old walk.new known arguments.now role) }
    ensures grows { OnOk result (Grows walk.old walk.new) }
{
    match known {
        LibraryFunction::Malloc => {
            let allocation = sized_allocation(walk, arguments, role)?;
            Ok(Calling::Allocating(allocation))
        }
        LibraryFunction::Calloc => {
            let allocation = zeroed_allocation(walk, arguments)?;
            Ok(Calling::Allocating(allocation))
        }
        LibraryFunction::Create => {
            let routine = routine_of(walk, arguments)?;
            Ok(Calling::Creating(routine))
        }
        LibraryFunction::Join
        | LibraryFunction::Detach
        | LibraryFunction::ExitThread
        | LibraryFunction::SelfId
        | LibraryFunction::Equal
        | LibraryFunction::MutexInit
        | LibraryFunction::MutexDestroy
        | LibraryFunction::MutexLock
        | LibraryFunction::MutexUnlock
        | LibraryFunction::CondInit
        | LibraryFunction::CondDestroy
        | LibraryFunction::CondSignal
        | LibraryFunction::CondBroadcast
        | LibraryFunction::CondWait
        | LibraryFunction::Free
        | LibraryFunction::Exit
        | LibraryFunction::Abort
        | LibraryFunction::Puts
        | LibraryFunction::Perror
        | LibraryFunction::Atoi
        | LibraryFunction::Printf
        | LibraryFunction::Putchar
        | LibraryFunction::Getchar
        | LibraryFunction::Rand
        | LibraryFunction::Sleep => Ok(Calling::Named(Called::Library(known))),
    }
}

/// How a call is made that calls this by a name, with these arguments, and stands as this.
fn named_calling(
    walk: &mut Elaborator,
    called: Called,
    arguments: &[Expr],
    role: Role,
) -> Result<Calling, NoMemory>
    ensures decides { IfOk result (DecidesNamed walk.old walk.new called arguments.now role) }
    ensures grows { OnOk result (Grows walk.old walk.new) }
{
    match called {
        Called::Library(known) => library_calling(walk, known, arguments, role),
        Called::Extern(_) | Called::Program(_) => Ok(Calling::Named(called)),
    }
}

/// How a call is made of this function with these arguments, which stands as this.
fn how_called(
    walk: &mut Elaborator,
    function: &Expr,
    arguments: &[Expr],
    role: Role,
) -> Result<Calling, NoMemory>
    ensures decides { IfOk result (DecidesCall walk.old walk.new function.now arguments.now role) }
    ensures grows { OnOk result (Grows walk.old walk.new) }
{
    let found = named_called(walk, function)?;
    match found {
        Some(called) => named_calling(walk, called, arguments, role),
        None => Ok(Calling::Pointed),
    }
}

/// A call by a name with these values.
fn call_with(alloc: Global, called: Called, values: Seq<TypedExpr>) -> Result<TypedForm, NoMemory>
    ensures { IfOk result (λ form. IsCallWith called values (out-TypedForm form)) }
{
    match called {
        Called::Library(known) => {
            let call = library_call(alloc, known, values)?;
            Ok(TypedForm::Library(call))
        }
        Called::Extern(entity) => Ok(TypedForm::Extern(entity, values)),
        Called::Program(entity) => Ok(TypedForm::Call(Callee::Function(entity), values)),
    }
}

/// A call by the name with a number.
#[cycle(walk)]
fn call_named(
    walk: &mut Elaborator,
    called: Called,
    function: u32,
    arguments: &[Expr],
    folded: bool,
) -> Result<TypedForm, NoMemory>
    ensures made { IfOk result (
        FormsSo walk.old walk.new (Named called) function arguments.now folded) }
    ensures grows { OnOk result (Grows walk.old walk.new) }
{
    let values = passed_arguments(walk, function, arguments, folded)?;
    let form = call_with(walk.alloc, called, values)?;
    Ok(form)
}

/// `pthread_create`, by the name with a number: it starts a thread at this function.
#[cycle(walk)]
fn call_create(
    walk: &mut Elaborator,
    routine: u32,
    function: u32,
    arguments: &[Expr],
    folded: bool,
) -> Result<TypedForm, NoMemory>
    ensures made { IfOk result (
        FormsSo walk.old walk.new (Creating routine) function arguments.now folded) }
    ensures grows { OnOk result (Grows walk.old walk.new) }
{
    let values = passed_arguments(walk, function, arguments, folded)?;
    let call = create(walk.alloc, routine, values)?;
    Ok(TypedForm::Library(call))
}

/// The pointer by which a function is called.
#[cycle(walk)]
fn pointer_of(
    walk: &mut Elaborator,
    function: &Expr,
    folded: bool,
) -> Result<Boxed<TypedExpr>, NoMemory>
    ensures made { IfOk result (MakesPointer walk.old walk.new function.now folded) }
    ensures grows { OnOk result (Grows walk.old walk.new) }
{
    match value_as(walk, function.ordinal, Role::Function) {
        Ok(part) => {
            let pointer = part_of(walk, function, part, folded)?;
            Ok(pointer)
        }
        Err(NoMemory) => Err(NoMemory),
    }
}

/// A call by a pointer.
#[cycle(walk)]
fn call_pointed(
    walk: &mut Elaborator,
    function: &Expr,
    arguments: &[Expr],
    folded: bool,
) -> Result<TypedForm, NoMemory>
    ensures made { IfOk result (
        FormsCalling walk.old walk.new Pointed function.now arguments.now folded) }
    ensures grows { OnOk result (Grows walk.old walk.new) }
{
    let pointer = pointer_of(walk, function, folded)?;
    let values = passed_arguments(walk, function.ordinal, arguments, folded)?;
    Ok(TypedForm::Call(Callee::Pointer(pointer), values))
}

/// A call that is made so.
#[cycle(walk)]
fn call_so(
    walk: &mut Elaborator,
    calling: Calling,
    function: &Expr,
    arguments: &[Expr],
    folded: bool,
) -> Result<TypedForm, NoMemory>
    ensures made { IfOk result (
        FormsCalling walk.old walk.new calling function.now arguments.now folded) }
    ensures grows { OnOk result (Grows walk.old walk.new) }
{
    match calling {
        Calling::Allocating(allocation) => allocate(walk, allocation, arguments, folded),
        Calling::Creating(routine) => {
            call_create(walk, routine, function.ordinal, arguments, folded)
        }
        Calling::Named(called) => call_named(walk, called, function.ordinal, arguments, folded),
        Calling::Pointed => call_pointed(walk, function, arguments, folded),
    }
}

/// A call that stands so.
#[cycle(walk)]
pub(crate) fn call(
    walk: &mut Elaborator,
    function: &Expr,
    arguments: &[Expr],
    way: Way,
) -> Result<TypedForm, NoMemory>
    ensures made { IfOk result (FormsCall walk.old walk.new function.now arguments.now way) }
    ensures grows { OnOk result (Grows walk.old walk.new) }
{
    let calling = how_called(walk, function, arguments, way.role)?;
    let form = call_so(walk, calling, function, arguments, way.folded)?;
    Ok(form)
}
