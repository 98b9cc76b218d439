//! The types of which the functions of the library speak.
ghost use Rattle.std.specs.Prelude.{◌∷◌, ◌<◌, All, length, map, IfOk, OnOk};
ghost use Rattle.lk_types.specs.Building.{IsPassed};
ghost use Rattle.lk_types.specs.Predeclared.{predeclared};
ghost use Rattle.lk_types.specs.Table.{IsKnown};
ghost use Rattle.lk_typed.specs.Library.{passed_type, routine_type};
ghost use Rattle.lk_typed.specs.Meaning.{meaning, IsReady};
ghost use Rattle.lk_typed.specs.Ty.{Pointer, void_pointer};
ghost use Rattle.lk_check_decl.specs.Making.{function_tree};
ghost use Rattle.lk_check_expr.specs.Functions.{parameter_in};
ghost use Rattle.lk_predeclared.specs.Plain.{first_tree, ArePlain, Grows, IsPlain, IsSmall};

use lk_base::NoMemory;
use lk_check_decl::{function_of, pointer_to};
use lk_check_expr::Parameter;
use lk_types::{TypeId, TypeIds, TypeTable, predeclared_types_stay};
use std::alloc::Global;

/// The type of pointers to a type, which is within its bounds.
pub(crate) fn pointer(types: &mut TypeTable, target: TypeId) -> Result<TypeId, NoMemory>
    requires ready { IsReady types.old }
    requires known { IsKnown types.old target }
    requires small { IsSmall (Pointer (meaning types.old target)) }
    ensures plain { IfOk result (IsPlain types.new (Pointer (meaning types.old target))) }
    ensures grows { OnOk result (Grows types.old types.new) }
{
    let made = pointer_to(types, target)?;
    predeclared_types_stay();
    types.is_table();
    Ok(made.unwrap())
}

/// The type of functions with this result and these parameters, which is within its bounds.
pub(crate) fn function_of_types(
    types: &mut TypeTable,
    returned: TypeId,
    params: Vec<TypeId>,
    dots: bool,
) -> Result<TypeId, NoMemory>
    requires ready { IsReady types.old }
    requires passed { All (IsPassed types.old) (returned ∷ params.items) }
    requires small { IsSmall (function_tree types.old returned params.items dots) }
    ensures plain { IfOk result (IsPlain types.new (function_tree types.old returned params.items dots)) }
    ensures grows { OnOk result (Grows types.old types.new) }
{
    let made = function_of(types, returned, TypeIds::new(params), dots)?;
    predeclared_types_stay();
    types.is_table();
    Ok(made.unwrap())
}

/// The type of pointers to a predeclared type.
pub(crate) fn pointer_to_first(types: &mut TypeTable, target: TypeId) -> Result<TypeId, NoMemory>
    requires ready { IsReady types.old }
    requires first { target < length predeclared }
    ensures plain { IfOk result (IsPlain types.new (Pointer (first_tree target))) }
    ensures grows { OnOk result (Grows types.old types.new) }
{
    pointer(types, target)
}

/// The type of pointers to start routines: `void *(*)(void *)`.
fn routine(alloc: Global, types: &mut TypeTable) -> Result<TypeId, NoMemory>
    requires { IsReady types.old }
    ensures plain { IfOk result (IsPlain types.new (Pointer routine_type)) }
    ensures grows { OnOk result (Grows types.old types.new) }
{
    let address = pointer_to_first(types, TypeId::VOID)?;
    let mut params = Vec::new(alloc);
    params.push(address)?;
    let t = function_of_types(types, address, params, false)?;
    pointer(types, t)
}

/// The type of pointers to pointers to `void`.
fn result_address(types: &mut TypeTable) -> Result<TypeId, NoMemory>
    requires { IsReady types.old }
    ensures plain { IfOk result (IsPlain types.new (Pointer void_pointer)) }
    ensures grows { OnOk result (Grows types.old types.new) }
{
    let address = pointer_to_first(types, TypeId::VOID)?;
    pointer(types, address)
}

/// The type of a parameter.
fn parameter_type(
    alloc: Global,
    types: &mut TypeTable,
    parameter: Parameter,
) -> Result<TypeId, NoMemory>
    requires { IsReady types.old }
    ensures plain { IfOk result (IsPlain types.new (passed_type (parameter_in parameter))) }
    ensures grows { OnOk result (Grows types.old types.new) }
{
    match parameter {
        Parameter::Int => Ok(TypeId::INT),
        Parameter::UnsignedInt => Ok(TypeId::UNSIGNED),
        Parameter::Count => Ok(TypeId::SIZE),
        Parameter::Size => Ok(TypeId::SIZE),
        Parameter::Thread => Ok(TypeId::THREAD),
        Parameter::ToThread => pointer_to_first(types, TypeId::THREAD),
        Parameter::ToMutex => pointer_to_first(types, TypeId::MUTEX),
        Parameter::ToCond => pointer_to_first(types, TypeId::COND),
        Parameter::ToText => pointer_to_first(types, TypeId::CHAR),
        Parameter::ToAnything => pointer_to_first(types, TypeId::VOID),
        Parameter::NoThreadAttributes => pointer_to_first(types, TypeId::THREAD_ATTRIBUTES),
        Parameter::NoMutexAttributes => pointer_to_first(types, TypeId::MUTEX_ATTRIBUTES),
        Parameter::NoCondAttributes => pointer_to_first(types, TypeId::COND_ATTRIBUTES),
        Parameter::NoResult => result_address(types),
        Parameter::Routine => routine(alloc, types),
    }
}

/// The types of parameters, in their order.
pub(crate) fn parameter_types(
    alloc: Global,
    types: &mut TypeTable,
    parameters: &[Parameter],
) -> Result<Vec<TypeId>, NoMemory>
    requires { IsReady types.old }
    ensures plain { IfOk result (λ ts.
        ArePlain types.new (map passed_type (map parameter_in parameters.now)) ts.items) }
    ensures grows { OnOk result (Grows types.old types.new) }
{
    let mut put = Vec::new(alloc);
    for parameter in parameters {
        let t = parameter_type(alloc, types, *parameter)?;
        put.push(t)?;
    }
    Ok(put)
}
