//! Expressions of statements (C99 6.8.3 to 6.8.6).
ghost use Rattle.std.specs.Prelude.{◌≡◌, true, Option, Some, None, OnOk, IfOk, IfSome, option_map};
ghost use Rattle.lk_typed.specs.Env.{Env};
ghost use Rattle.lk_typed.specs.Expressions.{expr_constant};
ghost use Rattle.lk_typed.specs.Meaning.{meaning_of, IsKnownType};
ghost use Rattle.lk_types.specs.Table.{Table};
ghost use Rattle.lk_typed.specs.Statements.{kind_in, switch_kind};
ghost use Rattle.lk_typed.specs.StatementRules as rule;
ghost use Rattle.lk_typed.specs.Typing.{Typing, constant_in};
ghost use Rattle.lk_typed.specs.Typings.{IsOperand, IsResult};
ghost use Rattle.lk_checker.specs.States.{IsSound};
ghost use Rattle.lk_check_unit.specs.Asking.{IsOperandFound, WalksOperand, value_in};
ghost use Rattle.lk_check_unit.specs.Bodies.{Asks, Grows, IsKnownResult, IsPlain, Stays};

use crate::body::{Asked, Body};
use lk_base::{Kind, NoMemory};
use lk_check_decl::{condition_code, dropped_code, switch_code};
use lk_check_walk::judge;
use lk_checker::Checker;
use lk_found::Stands;
use lk_tree::Expr;
use lk_typed::{Constant, ExprType, Role, Typed, kind_of, value};
use lk_types::TypeTable;

/// What is found of an expression whose value nothing converts.
pub(crate) fn operand(checker: &mut Checker, e: &Expr) -> Result<Option<Typed>, NoMemory>
    requires { IsSound checker.old }
    ensures grows { OnOk result (Grows checker.old checker.new) }
    ensures walks { OnOk result (WalksOperand e.now checker.old checker.new) }
    ensures found { IfOk result (IsOperandFound e.now checker.old checker.new.types) }
    ensures known { IfOk result (λ typing. IfSome typing (IsOperand checker.new.types)) }
{
    let stands = Stands {
        role: Role::Operand,
        in_size: false,
    };
    let found = judge(checker, e, stands)?;
    Ok(found.typing)
}

/// The type of a value, where an expression has one.
fn value_type(types: &TypeTable, typing: &Option<Typed>) -> Option<ExprType>
    requires { IfSome typing.now (IsOperand types.now) }
    ensures known { IfSome result (IsKnownType types.now) }
    ensures value { (x : Option Typing) → IsResult types.now typing.now x →
        option_map (meaning_of types.now) result ≡ value_in x }
{
    match typing {
        Some(typing) => Some(value(types, typing).ty),
        None => None,
    }
}

/// Asks of a controlling expression.
pub(crate) fn condition(checker: &mut Checker, e: &Expr) -> Result<Asked, NoMemory>
    requires { IsSound checker.old }
    ensures grows { OnOk result (Grows checker.old checker.new) }
    ensures asks { IfOk result (Asks checker.old checker.new (Some e.now) rule.condition_rules) }
{
    let typing = operand(checker, e)?;
    let ty = value_type(&checker.types, &typing);
    Ok(Asked {
        is_typed: typing.is_some(),
        code: condition_code(&checker.types, ty),
    })
}

/// Asks of a controlling expression in the body of a function, whose result is known still.
pub(crate) fn condition_in(checker: &mut Checker, e: &Expr, body: &Body) -> Result<Asked, NoMemory>
    requires sound { IsSound checker.old }
    requires known { IsKnownResult checker.old body.now }
    ensures stays { OnOk result (Stays checker.old checker.new body.now body.now) }
    ensures grows { OnOk result (Grows checker.old checker.new) }
    ensures asks { IfOk result (Asks checker.old checker.new (Some e.now) rule.condition_rules) }
{
    let _body = body;
    condition(checker, e)
}

/// Asks of an expression whose value is dropped.
fn dropped(checker: &mut Checker, e: &Expr) -> Result<Asked, NoMemory>
    requires { IsSound checker.old }
    ensures grows { OnOk result (Grows checker.old checker.new) }
    ensures asks { IfOk result (Asks checker.old checker.new (Some e.now) rule.dropped_rules) }
{
    let typing = operand(checker, e)?;
    let ty = value_type(&checker.types, &typing);
    Ok(Asked {
        is_typed: typing.is_some(),
        code: dropped_code(&checker.types, ty),
    })
}

/// Where there is no expression.
pub(crate) fn nothing() -> Asked
    ensures { result ≡ record { is_typed = true; code = None } }
{
    Asked {
        is_typed: true,
        code: None,
    }
}

/// Asks of the condition of a `for`, where there is one.
pub(crate) fn condition_if_any(checker: &mut Checker, e: &Option<Expr>) -> Result<Asked, NoMemory>
    requires { IsSound checker.old }
    ensures grows { OnOk result (Grows checker.old checker.new) }
    ensures asks { IfOk result (Asks checker.old checker.new e.now rule.condition_rules) }
{
    match e {
        Some(e) => condition(checker, e),
        None => Ok(nothing()),
    }
}

/// Asks of an expression whose value is dropped, where there is one.
pub(crate) fn dropped_if_any(checker: &mut Checker, e: &Option<Expr>) -> Result<Asked, NoMemory>
    requires { IsSound checker.old }
    ensures grows { OnOk result (Grows checker.old checker.new) }
    ensures asks { IfOk result (Asks checker.old checker.new e.now rule.dropped_rules) }
{
    match e {
        Some(e) => dropped(checker, e),
        None => Ok(nothing()),
    }
}

/// The kind of an integer value.
fn value_kind(types: &TypeTable, ty: &Option<ExprType>) -> Option<Kind>
    requires { IfSome ty.now (IsKnownType types.now) }
    ensures { result ≡ kind_in (option_map (meaning_of types.now) ty.now) }
{
    match ty {
        Some(ty) => kind_of(types, ty),
        None => None,
    }
}

/// Asks of the value of a `switch`, and gives its kind, where it is an integer.
pub(crate) fn switch_value(
    checker: &mut Checker,
    e: &Expr,
) -> Result<(Asked, Option<Kind>), NoMemory>
    requires { IsSound checker.old }
    ensures grows { OnOk result (Grows checker.old checker.new) }
    ensures asks { IfOk result (λ r. Asks checker.old checker.new (Some e.now) rule.switch_rules r.0) }
    ensures kind { IfOk result (λ r. (env : Env) → IsPlain checker.old env → r.1 ≡ switch_kind e.now env) }
{
    let typing = operand(checker, e)?;
    let ty = value_type(&checker.types, &typing);
    let kind = value_kind(&checker.types, &ty);
    let asked = Asked {
        is_typed: typing.is_some(),
        code: switch_code(&checker.types, ty),
    };
    Ok((asked, kind))
}

/// What constant an expression is, where it has a type.
fn constant_of(typing: &Option<Typed>) -> Option<Constant>
    ensures { (table : Table) (x : Option Typing) → IsResult table typing.now x → result ≡ constant_in x }
{
    match typing {
        Some(typing) => Some(typing.constant),
        None => None,
    }
}

/// What constant the value of a case is, where it has a type.
pub(crate) fn case_constant(checker: &mut Checker, e: &Expr) -> Result<Option<Constant>, NoMemory>
    requires { IsSound checker.old }
    ensures grows { OnOk result (Grows checker.old checker.new) }
    ensures walks { OnOk result (WalksOperand e.now checker.old checker.new) }
    ensures constant { IfOk result (λ constant. (env : Env) → IsPlain checker.old env →
        constant ≡ expr_constant e.now env) }
{
    let stands = Stands {
        role: Role::Operand,
        in_size: false,
    };
    let found = judge(checker, e, stands)?;
    Ok(constant_of(&found.typing))
}
