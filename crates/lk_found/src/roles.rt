//! What the parts of an expression stand as (C99 6.3.2.1, 6.5).
ghost use Rattle.std.specs.Prelude.{◌≡◌, Option, option_map};
ghost use Rattle.lk_types.specs.Table.{Table};
ghost use Rattle.lk_typed.specs.Assignments.{operator_of};
ghost use Rattle.lk_typed.specs.Env.{Env};
ghost use Rattle.lk_typed.specs.Forms as spec;
ghost use Rattle.lk_typed.specs.Meaning.{meaning};
ghost use Rattle.lk_typed.specs.Names.{IsKnownRole, role_in};
ghost use Rattle.lk_typed.specs.Ty.{Ty};
ghost use Rattle.lk_typed.specs.Typing.{Typing};
ghost use Rattle.lk_typed.specs.Typings.{IsOperand, IsTyping};
ghost use Rattle.lk_found.specs.Judging.{HasKnownType, HasOperand};
ghost use Rattle.lk_found.specs.Findings.{IsFoundTyping};

use crate::found::{Found, Stands, TypeFound};
use lk_tree::{AssignOperator, PrefixOperator};
use lk_typed::{ExprType, Role, Typed, is_function};
use lk_types::TypeTable;

/// `&` passes on that it is a start routine.
fn role_in_address(types: &TypeTable, role: Role) -> Role
    ensures value { role_in types.now result ≡ spec.role_in_address (role_in types.now role) }
    ensures known { IsKnownRole types.now result }
{
    match role {
        Role::Routine => Role::Routine,
        Role::Operand | Role::ConvertedTo(_) | Role::Function => Role::Operand,
    }
}

/// What the operand of an operator before it stands as.
pub fn role_in_prefix(types: &TypeTable, op: PrefixOperator, role: Role) -> Role
    ensures value { role_in types.now result ≡ spec.role_in_prefix op (role_in types.now role) }
    ensures known { IsKnownRole types.now result }
{
    match op {
        PrefixOperator::Address => role_in_address(types, role),
        PrefixOperator::Indirection
        | PrefixOperator::Plus
        | PrefixOperator::Minus
        | PrefixOperator::Complement
        | PrefixOperator::Not => Role::Operand,
    }
}

/// Parentheses pass on that they are the function of a call or a start routine.
pub fn role_in_parentheses(types: &TypeTable, role: Role) -> Role
    ensures value { role_in types.now result ≡ spec.role_in_parentheses (role_in types.now role) }
    ensures known { IsKnownRole types.now result }
{
    match role {
        Role::Operand | Role::ConvertedTo(_) => Role::Operand,
        Role::Function => Role::Function,
        Role::Routine => Role::Routine,
    }
}

/// A value that is converted to the type of a place or function on its left, where that is no function.
fn role_to(types: &TypeTable, left: &Typed) -> Role
    requires { IsOperand types.now left.now }
    ensures value { (env : Env) (x : Typing) → IsTyping types.now left.now x →
        role_in types.now result ≡ (spec.as_right None (Some x) env).role }
    ensures known { IsKnownRole types.now result }
{
    if is_function(types, &left.ty) {
        Role::Operand
    } else {
        Role::ConvertedTo(left.ty)
    }
}

/// The same, where the left side has a type.
fn role_of_plain(types: &TypeTable, left: &Found) -> Role
    requires { HasOperand types.now left.now }
    ensures value { (env : Env) (x : Option Typing) → IsFoundTyping types.now left.now x →
        role_in types.now result ≡ (spec.as_right None x env).role }
    ensures known { IsKnownRole types.now result }
{
    match left.typing {
        Some(typing) => role_to(types, &typing),
        None => Role::Operand,
    }
}

/// The right side of an assignment: that of `=` is converted to the type of the left one, where that is no
/// function; that of `op=` isn't converted directly.
pub fn role_on_right(types: &TypeTable, op: AssignOperator, left: &Found) -> Role
    requires { HasOperand types.now left.now }
    ensures value { (env : Env) (x : Option Typing) → IsFoundTyping types.now left.now x →
        role_in types.now result ≡ (spec.as_right (operator_of op) x env).role }
    ensures known { IsKnownRole types.now result }
{
    match op {
        AssignOperator::Plain => role_of_plain(types, left),
        AssignOperator::Multiply
        | AssignOperator::Divide
        | AssignOperator::Remainder
        | AssignOperator::Add
        | AssignOperator::Subtract
        | AssignOperator::ShiftLeft
        | AssignOperator::ShiftRight
        | AssignOperator::BitAnd
        | AssignOperator::BitXor
        | AssignOperator::BitOr => Role::Operand,
    }
}

/// The operand of a cast: a value that is converted to the type that is named, where there is one.
fn role_in_cast(target: &TypeFound) -> Role
    ensures value { (table : Table) (env : Env) (t : Option Ty) →
        option_map (meaning table) target.now.ty ≡ t →
        role_in table result ≡ (spec.as_cast t env).role }
    ensures known { (table : Table) → HasKnownType table target.now → IsKnownRole table result }
{
    match target.ty {
        Some(t) => Role::ConvertedTo(ExprType::Listed(t)),
        None => Role::Operand,
    }
}

/// The operand of a cast, where that stands in the size of an allocation or not.
pub fn in_cast(target: &TypeFound, in_size: bool) -> Stands
    ensures value { (table : Table) (env : Env) (t : Option Ty) →
        option_map (meaning table) target.now.ty ≡ t →
        role_in table result.role ≡ (spec.as_cast t env).role }
    ensures known { (table : Table) → HasKnownType table target.now → IsKnownRole table result.role }
    ensures in_size { result.in_size ≡ in_size }
{
    let role = role_in_cast(target);
    Stands { role, in_size }
}
