//! Calls of the library, by those of their arguments that compute something (POSIX,
//! `pthread.h`; C99 7.19, 7.20).
ghost use Rattle.std.specs.Prelude.{◌≡◌, ◌++◌, [], ◌∷◌, IfOk, IfSome, OnOk};
ghost use Rattle.lk_typed.specs.declared.library.LibraryCall.{out-LibraryCall};
ghost use Rattle.lk_check_expr.specs.Looks.{is_address};
ghost use Rattle.lk_elab_expr.specs.CalledWords.{HasRoutine};
ghost use Rattle.lk_elab_expr.specs.Starting.{FindsRoutine, StartsRoutine};
ghost use Rattle.lk_elab_expr.specs.LibraryForms.{IsCallOf, IsCreate, IsOfOne, IsOfTwo, IsPrint, call_of_none, call_of_one, call_of_two, making_for};

use crate::names::entity_at;
use lk_base::{Boxed, NoMemory, Seq};
use lk_check_expr::LibraryFunction;
use lk_elaborator::{Elaborator, nowhere};
use lk_tree::{Expr, ExprForm, PrefixOperator};
use lk_typed::{LibraryCall, TypedExpr};
use std::alloc::Global;

/// A call with one argument that computes something.
#[derive(Clone, Copy)]
enum OneValue {
    Join,
    Detach,
    ExitThread,
    Init,
    Destroy,
    Lock,
    Unlock,
    Signal,
    Free,
    Exit,
    Scan,
}

/// A call with two arguments that compute something.
#[derive(Clone, Copy)]
enum TwoValues {
    Equal,
    Wait,
}

/// A call with no argument that computes something.
#[derive(Clone, Copy)]
enum NoValue {
    SelfId,
    Abort,
}

/// What is made of the arguments of a call that compute something.
#[derive(Clone, Copy)]
enum Making {
    OfNone(NoValue),
    OfOne(OneValue),
    OfTwo(TwoValues),
    /// Nothing more of all of them.
    OfAll,
    /// A format, and those behind it.
    Print,
    /// It has a rule of its own.
    Apart,
}

/// What is made of the arguments of a function (`call_rows`).
fn making_of(function: LibraryFunction) -> Making
    ensures { result ≡ making_for function }
{
    match function {
        LibraryFunction::Join => Making::OfOne(OneValue::Join),
        LibraryFunction::Detach => Making::OfOne(OneValue::Detach),
        LibraryFunction::ExitThread => Making::OfOne(OneValue::ExitThread),
        LibraryFunction::SelfId => Making::OfNone(NoValue::SelfId),
        LibraryFunction::Equal => Making::OfTwo(TwoValues::Equal),
        LibraryFunction::MutexInit | LibraryFunction::CondInit => Making::OfOne(OneValue::Init),
        LibraryFunction::MutexDestroy | LibraryFunction::CondDestroy => {
            Making::OfOne(OneValue::Destroy)
        }
        LibraryFunction::MutexLock => Making::OfOne(OneValue::Lock),
        LibraryFunction::MutexUnlock => Making::OfOne(OneValue::Unlock),
        LibraryFunction::CondSignal | LibraryFunction::CondBroadcast => {
            Making::OfOne(OneValue::Signal)
        }
        LibraryFunction::CondWait => Making::OfTwo(TwoValues::Wait),
        LibraryFunction::Free => Making::OfOne(OneValue::Free),
        LibraryFunction::Exit => Making::OfOne(OneValue::Exit),
        LibraryFunction::Abort => Making::OfNone(NoValue::Abort),
        LibraryFunction::Puts | LibraryFunction::Perror | LibraryFunction::Atoi => {
            Making::OfOne(OneValue::Scan)
        }
        LibraryFunction::Putchar
        | LibraryFunction::Getchar
        | LibraryFunction::Rand
        | LibraryFunction::Sleep => Making::OfAll,
        LibraryFunction::Printf => Making::Print,
        LibraryFunction::Create | LibraryFunction::Malloc | LibraryFunction::Calloc => {
            Making::Apart
        }
    }
}

/// A call of no argument.
fn of_none(making: NoValue) -> LibraryCall
    ensures { out-LibraryCall result ≡ call_of_none making }
{
    match making {
        NoValue::SelfId => LibraryCall::SelfId,
        NoValue::Abort => LibraryCall::Exit(None),
    }
}

/// A call of one argument.
fn of_one(making: OneValue, a: Boxed<TypedExpr>) -> LibraryCall
    ensures { out-LibraryCall result ≡ call_of_one making a }
{
    match making {
        OneValue::Join => LibraryCall::Join(a),
        OneValue::Detach => LibraryCall::Detach(a),
        OneValue::ExitThread => LibraryCall::ExitThread(a),
        OneValue::Init => LibraryCall::Init(a),
        OneValue::Destroy => LibraryCall::Destroy(a),
        OneValue::Lock => LibraryCall::Lock(a),
        OneValue::Unlock => LibraryCall::Unlock(a),
        OneValue::Signal => LibraryCall::Signal(a),
        OneValue::Free => LibraryCall::Free(a),
        OneValue::Exit => LibraryCall::Exit(Some(a)),
        OneValue::Scan => LibraryCall::Scan(a),
    }
}

/// A call of two arguments.
fn of_two(making: TwoValues, a: Boxed<TypedExpr>, b: Boxed<TypedExpr>) -> LibraryCall
    ensures { out-LibraryCall result ≡ call_of_two making a b }
{
    match making {
        TwoValues::Equal => LibraryCall::Equal(a, b),
        TwoValues::Wait => LibraryCall::Wait(a, b),
    }
}

/// The last argument. There are as many as the function has parameters that compute something.
fn last(alloc: Global, values: &mut Seq<TypedExpr>) -> Result<Boxed<TypedExpr>, NoMemory>
    ensures { IfOk result (λ a. values.old ≡ values.new ++ a ∷ []) }
{
    match values.pop() {
        Some(value) => {
            let value = Boxed::new(alloc, value)?;
            Ok(value)
        }
        None => Err(nowhere()),
    }
}

/// No argument is left.
fn nothing_left(values: &Seq<TypedExpr>) -> Result<(), NoMemory>
    ensures { OnOk result (values.now ≡ []) }
{
    if values.list().is_empty() {
        Ok(())
    } else {
        Err(nowhere())
    }
}

/// A call of the one argument that is given.
fn call_of_one(
    alloc: Global,
    making: OneValue,
    mut values: Seq<TypedExpr>,
) -> Result<LibraryCall, NoMemory>
    ensures { IfOk result (λ call. IsOfOne making values (out-LibraryCall call)) }
{
    let a = last(alloc, &mut values)?;
    nothing_left(&values)?;
    Ok(of_one(making, a))
}

/// A call of the two arguments that are given.
fn call_of_two(
    alloc: Global,
    making: TwoValues,
    mut values: Seq<TypedExpr>,
) -> Result<LibraryCall, NoMemory>
    ensures { IfOk result (λ call. IsOfTwo making values (out-LibraryCall call)) }
{
    let b = last(alloc, &mut values)?;
    let a = last(alloc, &mut values)?;
    nothing_left(&values)?;
    Ok(of_two(making, a, b))
}

/// `printf`: the format, and the later arguments in their order.
fn print(alloc: Global, values: Seq<TypedExpr>) -> Result<LibraryCall, NoMemory>
    ensures { IfOk result (λ call. IsPrint values (out-LibraryCall call)) }
{
    let mut values = values.into_vec();
    if values.is_empty() {
        return Err(nowhere());
    }
    let format = Boxed::new(alloc, values.remove(0))?;
    Ok(LibraryCall::Print(format, Seq::new(values)))
}

/// A call of a function of the library that has no rule of its own, but for `printf` (`IsCallBy`).
pub(crate) fn library_call(
    alloc: Global,
    function: LibraryFunction,
    values: Seq<TypedExpr>,
) -> Result<LibraryCall, NoMemory>
    ensures { IfOk result (λ call. IsCallOf function values (out-LibraryCall call)) }
{
    match making_of(function) {
        Making::OfNone(making) => {
            nothing_left(&values)?;
            Ok(of_none(making))
        }
        Making::OfOne(making) => call_of_one(alloc, making, values),
        Making::OfTwo(making) => call_of_two(alloc, making, values),
        Making::OfAll => Ok(LibraryCall::Compute(values)),
        Making::Print => print(alloc, values),
        Making::Apart => Err(nowhere()),
    }
}

/// Whether an operator before an operand takes its address.
fn is_address(op: PrefixOperator) -> bool
    ensures { result ≡ is_address op }
{
    matches!(op, PrefixOperator::Address)
}

/// The number of the name that a start routine is, perhaps with parentheses and `&` round it.
fn routine_word(e: &Expr) -> Option<u32>
    ensures { IfSome result (HasRoutine e.now) }
{
    match &e.form {
        ExprForm::Word(_) => Some(e.ordinal),
        ExprForm::Paren(inner) => routine_word(inner.get()),
        ExprForm::Prefix(op, inner) => {
            if is_address(*op) {
                routine_word(inner.get())
            } else {
                None
            }
        }
        ExprForm::Comma(_, _)
        | ExprForm::Assign(_, _, _)
        | ExprForm::Choice(_, _, _)
        | ExprForm::Binary(_, _, _)
        | ExprForm::Cast(_, _)
        | ExprForm::Pre(_, _)
        | ExprForm::SizeofExpr(_)
        | ExprForm::SizeofType(_)
        | ExprForm::Index(_, _)
        | ExprForm::Call(_, _)
        | ExprForm::Member(_, _)
        | ExprForm::Arrow(_, _)
        | ExprForm::Post(_, _)
        | ExprForm::Number(_, _)
        | ExprForm::Char(_)
        | ExprForm::Text(_) => None,
    }
}

/// The entity of the start routine that an argument is. It is a name.
fn routine_at(walk: &Elaborator, routine: &Expr) -> Result<u32, NoMemory>
    ensures { IfOk result (StartsRoutine walk.now routine.now) }
{
    match routine_word(routine) {
        Some(word) => entity_at(walk, word),
        None => Err(nowhere()),
    }
}

/// The entity of the start routine. It is the third argument of `pthread_create`, which has four.
pub(crate) fn routine_of(walk: &Elaborator, arguments: &[Expr]) -> Result<u32, NoMemory>
    ensures { IfOk result (FindsRoutine walk.now arguments.now) }
{
    match arguments {
        [_, _, routine, _] => routine_at(walk, routine),
        [] | [_] | [_, _] | [_, _, _] | [_, _, _, _, _, ..] => Err(nowhere()),
    }
}

/// `pthread_create`, with the number of the start routine among the entities.
pub(crate) fn create(
    alloc: Global,
    routine: u32,
    mut values: Seq<TypedExpr>,
) -> Result<LibraryCall, NoMemory>
    ensures { IfOk result (λ call. IsCreate routine values (out-LibraryCall call)) }
{
    let argument = last(alloc, &mut values)?;
    let id = last(alloc, &mut values)?;
    nothing_left(&values)?;
    Ok(LibraryCall::Create(id, routine, argument))
}
