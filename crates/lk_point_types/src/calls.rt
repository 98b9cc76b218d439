//! The arguments and the values of calls (C99 6.5.2.2).
ghost use Rattle.std.specs.Prelude.{◌↔◌, ◌<◌, IsTrue, All, length};
ghost use Rattle.lk_facts.specs.Typed.{
  AreGiven,
  AreTwoThreads,
  IsCall,
  IsFunctionType,
  IsStartRoutine,
  PointsToForm,
};
ghost use Rattle.lk_types.specs.Table.{IsKnown, HasKnown};
ghost use Rattle.lk_types.specs.declared.c_type.CType.{CType as Form};

use crate::forms::{form, target_of};
use crate::readers::{gives, gives_result, gives_thread, target_form};
use lk_facts::Points;
use lk_types::{CType, TypeId};

/// Whether points give values of these types, in order.
fn are_given(points: &Points, args: &[u32], types: &[TypeId]) -> bool
    requires args { All (λ a. a < length points.now.points) args.now }
    requires types { All (IsKnown points.now.types) types.now }
    ensures { IsTrue result ↔ AreGiven points.now args.now types.now }
{
    if args.len() != types.len() {
        return false;
    }
    for place in 0..args.len() {
        if !gives(points, args[place], types[place]) {
            return false;
        }
    }
    true
}

/// Whether the two operands of a `pthread_equal` are thread ids.
pub(crate) fn are_two_threads(points: &Points, args: &[u32]) -> bool
    requires { All (λ a. a < length points.now.points) args.now }
    ensures { IsTrue result ↔ AreTwoThreads points.now args.now }
{
    let [a, b] = args else {
        return false;
    };
    gives_thread(points, *a) && gives_thread(points, *b)
}

/// Whether the arguments and the value of a call are those of a function of this type.
pub(crate) fn is_call(points: &Points, function: &CType, args: &[u32], p: u32) -> bool
    requires function { HasKnown points.now.types function.now }
    requires args { All (λ a. a < length points.now.points) args.now }
    requires p { p < length points.now.points }
    ensures { IsTrue result ↔ IsCall points.now function.now args.now p }
{
    match function {
        CType::Function { result, params, .. } => {
            are_given(points, args, params.list()) && gives_result(points, p, *result)
        }
        CType::Void
        | CType::Int(_)
        | CType::ThreadId
        | CType::Mutex
        | CType::Cond
        | CType::Pointer(_)
        | CType::Array(_, _)
        | CType::Struct(_)
        | CType::Opaque(_) => false,
    }
}

/// The type of a function, which is that of its root.
pub(crate) fn function_type(points: &Points, f: u32) -> &CType
    requires { f < length points.now.functions }
    ensures form { IsFunctionType points.now f result.now }
    ensures known { HasKnown points.now.types result.now }
{
    let root = points.root(points.function_root(f));
    form(points.types(), root.ty)
}

/// Whether the arguments and the value of a call of a function of the program have the types of
/// its parameters and its result.
pub(crate) fn calls_function(points: &Points, f: u32, args: &[u32], p: u32) -> bool
    requires f { f < length points.now.functions }
    requires args { All (λ a. a < length points.now.points) args.now }
    requires p { p < length points.now.points }
    ensures { IsTrue result ↔
        ((form : Form) × IsFunctionType points.now f form × IsCall points.now form args.now p) }
{
    is_call(points, function_type(points, f), args, p)
}

/// Whether the operand of a call points to a function, whose parameters and result have the types of
/// the arguments and the value.
pub(crate) fn calls_pointer(points: &Points, a: u32, args: &[u32], p: u32) -> bool
    requires a { a < length points.now.points }
    requires args { All (λ a. a < length points.now.points) args.now }
    requires p { p < length points.now.points }
    ensures { IsTrue result ↔
        ((form : Form) × PointsToForm points.now a form × IsCall points.now form args.now p) }
{
    match target_form(points, a) {
        Some(function) => is_call(points, function, args, p),
        None => false,
    }
}

/// Whether a function takes and returns a `void *`, as one at which a thread can
/// start (POSIX pthread_create).
pub(crate) fn is_start_routine(points: &Points, f: u32) -> bool
    requires { f < length points.now.functions }
    ensures { IsTrue result ↔ IsStartRoutine points.now f }
{
    let types = points.types();
    match function_type(points, f) {
        CType::Function {
            result,
            params,
            dots: false,
        } => {
            let takes_it = matches!(params.list(), [param] if *param == *result);
            let is_pointer = match target_of(types, *result) {
                Some(t) => matches!(form(types, t), CType::Void),
                None => false,
            };
            takes_it && is_pointer
        }
        CType::Function { dots: true, .. }
        | CType::Void
        | CType::Int(_)
        | CType::ThreadId
        | CType::Mutex
        | CType::Cond
        | CType::Pointer(_)
        | CType::Array(_, _)
        | CType::Struct(_)
        | CType::Opaque(_) => false,
    }
}
