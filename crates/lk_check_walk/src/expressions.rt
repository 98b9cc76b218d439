//! Expressions (C99 6.5): each is judged once, and its parts before it.
ghost use Rattle.std.specs.Prelude.{IfOk, OnOk};
ghost use Rattle.lk_typed.specs.Names.{IsKnownRole};
ghost use Rattle.lk_found.specs.Judging.{HasOperand};
ghost use Rattle.lk_checker.specs.Moves.{IsFurther};
ghost use Rattle.lk_checker.specs.States.{operand_in, IsSound};
ghost use Rattle.lk_check_walk.specs.Walking.{Judges, JudgesForm, JudgesSides, JudgesTwo};

use crate::arguments::{judge_arguments, judge_function};
use crate::type_names::type_name;
use lk_base::NoMemory;
use lk_checker::Checker;
use lk_found::{Found, Stands, in_cast};
use lk_tree::{AssignOperator, Expr, ExprForm};
use lk_typed::Role;

/// What is found of an expression that stands so. Each fault in it is kept.
///
/// `Err` comes for want of memory.
#[cycle(walk)]
pub fn judge(checker: &mut Checker, e: &Expr, stands: Stands) -> Result<Found, NoMemory>
    requires sound { IsSound checker.old }
    requires role { IsKnownRole checker.old.types stands.role }
    ensures judged { IfOk result (λ found. Judges checker.old checker.new stands e.now found) }
    ensures further { OnOk result (IsFurther checker.old checker.new) }
    ensures operand { IfOk result (λ found. HasOperand checker.new.types found) }
{
    let names = checker.names_in(e);
    let found = judge_form(checker, e, stands)?;
    checker.records.put_expression(e, &found, names)?;
    Ok(found)
}

/// What is found of an operand, or of a value that nothing converts.
#[cycle(walk)]
fn judge_operand(checker: &mut Checker, e: &Expr, in_size: bool) -> Result<Found, NoMemory>
    requires { IsSound checker.old }
    ensures judged { IfOk result (λ found. Judges checker.old checker.new (operand_in in_size) e.now found) }
    ensures further { OnOk result (IsFurther checker.old checker.new) }
    ensures operand { IfOk result (λ found. HasOperand checker.new.types found) }
{
    let stands = Stands {
        role: Role::Operand,
        in_size,
    };
    let found = judge(checker, e, stands)?;
    Ok(found)
}

/// What is found of two operands, one after the other.
#[cycle(walk)]
fn judge_two(
    checker: &mut Checker,
    left: &Expr,
    right: &Expr,
    in_size: bool,
) -> Result<(Found, Found), NoMemory>
    requires { IsSound checker.old }
    ensures judged { IfOk result (λ both.
        JudgesTwo checker.old checker.new in_size left.now right.now both.0 both.1) }
    ensures further { OnOk result (IsFurther checker.old checker.new) }
    ensures first { IfOk result (λ both. HasOperand checker.new.types both.0) }
    ensures second { IfOk result (λ both. HasOperand checker.new.types both.1) }
{
    let first = judge_operand(checker, left, in_size)?;
    let second = judge_operand(checker, right, in_size)?;
    Ok((first, second))
}

/// What is found of the sides of an assignment: what the right one stands as is said by the left one's type.
#[cycle(walk)]
fn judge_sides(
    checker: &mut Checker,
    op: AssignOperator,
    left: &Expr,
    right: &Expr,
    in_size: bool,
) -> Result<(Found, Found), NoMemory>
    requires { IsSound checker.old }
    ensures judged { IfOk result (λ both.
        JudgesSides checker.old checker.new op in_size left.now right.now both.0 both.1) }
    ensures further { OnOk result (IsFurther checker.old checker.new) }
    ensures first { IfOk result (λ both. HasOperand checker.new.types both.0) }
    ensures second { IfOk result (λ both. HasOperand checker.new.types both.1) }
{
    let first = judge_operand(checker, left, in_size)?;
    let stands = checker.on_right(op, &first, in_size);
    let second = judge(checker, right, stands)?;
    Ok((first, second))
}

/// What is found of an expression by its form.
#[cycle(walk)]
fn judge_form(checker: &mut Checker, e: &Expr, stands: Stands) -> Result<Found, NoMemory>
    requires sound { IsSound checker.old }
    requires role { IsKnownRole checker.old.types stands.role }
    ensures { IfOk result (λ found. JudgesForm checker.old checker.new stands e.now found) }
{
    let in_size = stands.in_size;
    match &e.form {
        ExprForm::Comma(left, right) => {
            let (a, b) = judge_two(checker, left.get(), right.get(), in_size)?;
            checker.settle_comma(e, &a, &b)
        }
        ExprForm::Assign(op, left, right) => {
            let (a, b) = judge_sides(checker, *op, left.get(), right.get(), in_size)?;
            checker.settle_assign(e, *op, &a, &b)
        }
        ExprForm::Choice(condition, taken, other) => {
            let c = judge_operand(checker, condition.get(), in_size)?;
            let (a, b) = judge_two(checker, taken.get(), other.get(), in_size)?;
            checker.settle_choice(e, &c, &a, &b)
        }
        ExprForm::Binary(op, left, right) => {
            let (a, b) = judge_two(checker, left.get(), right.get(), in_size)?;
            checker.settle_binary(e, *op, &a, &b)
        }
        ExprForm::Cast(target, operand) => {
            let t = type_name(checker, target.get(), in_size)?;
            let inner = in_cast(&t, in_size);
            let a = judge(checker, operand.get(), inner)?;
            checker.settle_cast(e, &t, &a)
        }
        ExprForm::Index(array, inner) => {
            let (a, b) = judge_two(checker, array.get(), inner.get(), in_size)?;
            checker.settle_index(e, &a, &b)
        }
        ExprForm::Pre(op, operand) => {
            let a = judge_operand(checker, operand.get(), in_size)?;
            checker.settle_pre(e, *op, &a)
        }
        ExprForm::Post(op, operand) => {
            let a = judge_operand(checker, operand.get(), in_size)?;
            checker.settle_post(e, *op, &a)
        }
        ExprForm::Prefix(op, operand) => {
            let inner = checker.in_prefix(*op, stands);
            let a = judge(checker, operand.get(), inner)?;
            checker.settle_prefix(e, *op, &a)
        }
        ExprForm::SizeofExpr(operand) => {
            let a = judge_operand(checker, operand.get(), in_size)?;
            checker.settle_sizeof_expr(e, &a, in_size)
        }
        ExprForm::SizeofType(named) => {
            let t = type_name(checker, named.get(), in_size)?;
            checker.settle_sizeof_type(e, &t, in_size)
        }
        ExprForm::Call(function, arguments) => {
            let f = judge_function(checker, function.get(), in_size)?;
            let (_, given) = judge_arguments(checker, &f, arguments.list(), in_size)?;
            checker.settle_call(e, stands.role, &f, &given)
        }
        ExprForm::Member(object, name) => {
            let a = judge_operand(checker, object.get(), in_size)?;
            checker.settle_dot(e, &a, name)
        }
        ExprForm::Arrow(pointer, name) => {
            let a = judge_operand(checker, pointer.get(), in_size)?;
            checker.settle_arrow(e, &a, name)
        }
        ExprForm::Paren(inner) => {
            let inside = checker.in_parentheses(stands);
            let a = judge(checker, inner.get(), inside)?;
            checker.settle_paren(e, &a)
        }
        ExprForm::Number(kind, n) => { checker.settle_number(e, *kind, *n) }
        ExprForm::Char(n) => { checker.settle_char(e, *n) }
        ExprForm::Word(name) => { checker.settle_word(e, name, stands.role) }
        ExprForm::Text(bytes) => { checker.settle_text(e, bytes.list()) }
    }
}
