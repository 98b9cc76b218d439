//! The operators between two operands, each a row of a table (C99 6.5.5 to 6.5.14). Operands are
//! values, as `value` gives them.
ghost use Rattle.std.specs.Prelude.{◌≡◌, ◌||◌, Option};
ghost use Rattle.lk_types.specs.Table.{Table};
ghost use Rattle.lk_typed.specs.declared.binary_row.BinaryRow.TheVariants.{Shift};
ghost use Rattle.lk_typed.specs.Operators as spec;
ghost use Rattle.lk_typed.specs.Operators.{is_scalar, must_be};
ghost use Rattle.lk_typed.specs.Ty.{is_integer, is_pointer};
ghost use Rattle.lk_typed.specs.Typing.{Typing, Address};
ghost use Rattle.lk_typed.specs.Codes.{least_code};
ghost use Rattle.lk_typed.specs.Meaning.{meaning_of, IsKnownType, IsReady};
ghost use Rattle.lk_check_expr.specs.Rows.{IsOfShifts};
ghost use Rattle.lk_typed.specs.Typings.{ForBoth, IsOperand, structs_in, IsResult, IsVerdict};

use crate::constants::{binary_constant, logical_constant, shift_constant};
use lk_arith::{Op, promoted, usual};
use lk_base::{Code, Kind};
use lk_tree::BinaryOperator;
use lk_typed::{
    BinaryRow, Constant, ExprType, Members, Typed, Verdict, are_same_pointers, are_void_and_object,
    by_row, is_complete, is_integer, is_lock, is_pointer, is_thread_id, kind_of, lesser,
    operand_code, target_of,
};
use lk_types::TypeTable;

/// Whether it is an integer or a pointer: what may be a condition (C99 6.5.3.3, 1; 6.8.4.1, 1).
pub(crate) fn is_condition(types: &TypeTable, ty: &ExprType) -> bool
    requires { IsKnownType types.now ty.now }
    ensures { result ≡ spec.is_condition (meaning_of types.now ty.now) }
{
    is_integer(types, ty) || is_pointer(types, ty)
}

/// Whether it is a scalar type (C99 6.2.5, 21), thread ids among them.
pub fn is_scalar(types: &TypeTable, ty: &ExprType) -> bool
    requires { IsKnownType types.now ty.now }
    ensures { result ≡ spec.is_scalar (meaning_of types.now ty.now) }
{
    is_condition(types, ty) || is_thread_id(types, ty)
}

/// The code of an operand that must be of a scalar type.
pub(crate) fn scalar_code(types: &TypeTable, ty: &ExprType) -> Option<Code>
    requires { IsKnownType types.now ty.now }
    ensures { result ≡ least_code (must_be is_scalar (meaning_of types.now ty.now)) }
{
    let lock = is_lock(types, ty);
    let taken = is_scalar(types, ty);
    operand_code(lock, taken)
}

/// The code of an operand that must be a condition.
pub(crate) fn condition_code(types: &TypeTable, ty: &ExprType) -> Option<Code>
    requires { IsKnownType types.now ty.now }
    ensures { result ≡ least_code (must_be spec.is_condition (meaning_of types.now ty.now)) }
{
    let lock = is_lock(types, ty);
    let taken = is_condition(types, ty);
    operand_code(lock, taken)
}

/// The code of an operand that must be a pointer to a complete object type.
pub(crate) fn steppable_code(types: &TypeTable, structs: &[Members], ty: &ExprType) -> Option<Code>
    requires { IsKnownType types.now ty.now }
    ensures { result ≡ least_code (must_be
        (spec.is_steppable (structs_in types.now structs.now)) (meaning_of types.now ty.now)) }
{
    let lock = is_lock(types, ty);
    let taken = is_steppable(types, structs, ty);
    operand_code(lock, taken)
}

/// The code of an operand that must be an integer.
pub(crate) fn integer_code(types: &TypeTable, ty: &ExprType) -> Option<Code>
    requires { IsKnownType types.now ty.now }
    ensures { result ≡ least_code (must_be is_integer (meaning_of types.now ty.now)) }
{
    let lock = is_lock(types, ty);
    let taken = is_integer(types, ty);
    operand_code(lock, taken)
}

/// The code of an operand that must be a pointer.
pub(crate) fn pointer_code(types: &TypeTable, ty: &ExprType) -> Option<Code>
    requires { IsKnownType types.now ty.now }
    ensures { result ≡ least_code (must_be is_pointer (meaning_of types.now ty.now)) }
{
    let lock = is_lock(types, ty);
    let taken = is_pointer(types, ty);
    operand_code(lock, taken)
}

/// Whether it is a pointer to a complete object type, which arithmetic asks for (C99 6.5.6, 2).
pub(crate) fn is_steppable(types: &TypeTable, structs: &[Members], ty: &ExprType) -> bool
    requires { IsKnownType types.now ty.now }
    ensures { result ≡ spec.is_steppable (structs_in types.now structs.now) (meaning_of types.now ty.now) }
{
    match target_of(types, ty) {
        Some(target) => is_complete(types, structs, target),
        None => false,
    }
}

/// The row of each operator.
pub fn row_of(op: BinaryOperator) -> BinaryRow
    ensures value { result ≡ spec.row_of op }
    ensures shifts { IsOfShifts result }
{
    match op {
        BinaryOperator::Or => BinaryRow::Logical(true),
        BinaryOperator::And => BinaryRow::Logical(false),
        BinaryOperator::BitOr => BinaryRow::Integers(Op::Or),
        BinaryOperator::BitXor => BinaryRow::Integers(Op::Xor),
        BinaryOperator::BitAnd => BinaryRow::Integers(Op::And),
        BinaryOperator::Equal => BinaryRow::Equality(Op::Equal),
        BinaryOperator::NotEqual => BinaryRow::Equality(Op::NotEqual),
        BinaryOperator::Less => BinaryRow::Order(Op::Less),
        BinaryOperator::Greater => BinaryRow::Order(Op::Greater),
        BinaryOperator::LessEqual => BinaryRow::Order(Op::LessOrEqual),
        BinaryOperator::GreaterEqual => BinaryRow::Order(Op::GreaterOrEqual),
        BinaryOperator::ShiftLeft => BinaryRow::Shift(Op::ShiftLeft),
        BinaryOperator::ShiftRight => BinaryRow::Shift(Op::ShiftRight),
        BinaryOperator::Add => BinaryRow::Sum,
        BinaryOperator::Subtract => BinaryRow::Difference,
        BinaryOperator::Multiply => BinaryRow::Integers(Op::Multiply),
        BinaryOperator::Divide => BinaryRow::Integers(Op::Divide),
        BinaryOperator::Remainder => BinaryRow::Integers(Op::Remainder),
    }
}

/// What an operator gives that computes at the common kind of two integers (C99 6.3.1.8).
fn at_common_kind(types: &TypeTable, op: Op, a: &Typed, b: &Typed) -> Option<Typed>
    requires ready { IsReady types.now }
    requires first { IsOperand types.now a.now }
    requires second { IsOperand types.now b.now }
    ensures { ForBoth types.now a.now b.now (λ x y. IsResult types.now result (spec.at_common_kind op x y)) }
{
    match kind_of(types, &a.ty) {
        Some(first) => match kind_of(types, &b.ty) {
            Some(second) => {
                let kind = usual(first, second);
                let constant = binary_constant(op, kind, a.constant, b.constant);
                Some(Typed::integer(op.result_kind(kind), constant))
            }
            None => None,
        },
        None => None,
    }
}

/// What a shift gives of two integers.
fn shifted(types: &TypeTable, op: Op, a: &Typed, b: &Typed) -> Option<Typed>
    requires ready { IsReady types.now }
    requires first { IsOperand types.now a.now }
    requires second { IsOperand types.now b.now }
    requires shift { IsOfShifts (Shift op) }
    ensures { ForBoth types.now a.now b.now (λ x y. IsResult types.now result (spec.shifted op x y)) }
{
    match kind_of(types, &a.ty) {
        Some(first) => match kind_of(types, &b.ty) {
            Some(_) => {
                let kind = promoted(first);
                Some(Typed::integer(kind, shift_constant(op, kind, a.constant, b.constant)))
            }
            None => None,
        },
        None => None,
    }
}

/// What `&&` or `||` gives.
fn logical(types: &TypeTable, decides: bool, a: &Typed, b: &Typed) -> Option<Typed>
    requires ready { IsReady types.now }
    requires first { IsOperand types.now a.now }
    requires second { IsOperand types.now b.now }
    ensures { ForBoth types.now a.now b.now (λ x y. IsResult types.now result (spec.logical decides x y)) }
{
    if is_condition(types, &a.ty) && is_condition(types, &b.ty) {
        let constant = logical_constant(decides, a.constant, b.constant);
        Some(Typed::integer(Kind::Int, constant))
    } else {
        None
    }
}

/// What a pointer with an integer on its right gives: a pointer of the same type.
fn moved(types: &TypeTable, structs: &[Members], a: &Typed, b: &Typed) -> Option<Typed>
    requires first { IsOperand types.now a.now }
    requires second { IsOperand types.now b.now }
    ensures { (to : Address) → ForBoth types.now a.now b.now (λ x y.
        IsResult types.now result (spec.moved_to to (structs_in types.now structs.now) x y)) }
{
    if is_steppable(types, structs, &a.ty) && is_integer(types, &b.ty) {
        Some(Typed::of_type(a.ty))
    } else {
        None
    }
}

/// What the difference of two pointers of one type gives.
fn distance(types: &TypeTable, structs: &[Members], a: &Typed, b: &Typed) -> Option<Typed>
    requires ready { IsReady types.now }
    requires first { IsOperand types.now a.now }
    requires second { IsOperand types.now b.now }
    ensures { ForBoth types.now a.now b.now (λ x y.
        IsResult types.now result (spec.distance (structs_in types.now structs.now) x y)) }
{
    if is_steppable(types, structs, &a.ty) && are_same_pointers(types, &a.ty, &b.ty) {
        Some(Typed::integer(Kind::Long, Constant::NotConstant))
    } else {
        None
    }
}

/// A truth value that is no constant, of operands that are taken.
fn truth_if(taken: bool) -> Option<Typed>
    ensures { (table : Table) → IsReady table → IsResult table result (spec.if_taken taken spec.plain_truth) }
{
    if taken {
        Some(Typed::integer(Kind::Int, Constant::NotConstant))
    } else {
        None
    }
}

/// Whether it is a pointer beside a null pointer constant (C99 6.5.9, 2; 6.5.15, 3).
pub(crate) fn is_pointer_beside_null(types: &TypeTable, a: &Typed, b: &Typed) -> bool
    requires { IsOperand types.now a.now }
    ensures { ForBoth types.now a.now b.now (λ x y. result ≡ spec.is_pointer_beside_null x y) }
{
    is_pointer(types, &a.ty) && b.is_null
}

/// Whether one of four things holds.
fn any_of(first: bool, second: bool, third: bool, fourth: bool) -> bool
    ensures { result ≡ first || second || third || fourth }
{
    first || second || third || fourth
}

/// Whether they are pointers that `==` and `!=` compare: equal types, one beside a null pointer
/// constant, or one beside `void *`.
fn are_comparable(types: &TypeTable, a: &Typed, b: &Typed) -> bool
    requires first { IsOperand types.now a.now }
    requires second { IsOperand types.now b.now }
    ensures { ForBoth types.now a.now b.now (λ x y. result ≡ spec.are_comparable x y) }
{
    let same = are_same_pointers(types, &a.ty, &b.ty);
    let null_behind = is_pointer_beside_null(types, a, b);
    let null_before = is_pointer_beside_null(types, b, a);
    let object = are_void_and_object(types, &a.ty, &b.ty);
    any_of(same, null_behind, null_before, object)
}

/// The first of two results that is there.
pub(crate) fn either(first: Option<Typed>, second: Option<Typed>) -> Option<Typed>
    ensures { (table : Table) (x y : Option Typing) → IsResult table first x → IsResult table second y →
        IsResult table result (spec.either x y) }
{
    match first {
        Some(typed) => Some(typed),
        None => second,
    }
}

/// What `+` gives (C99 6.5.6, 2).
fn sum(types: &TypeTable, structs: &[Members], a: &Typed, b: &Typed) -> Option<Typed>
    requires ready { IsReady types.now }
    requires first { IsOperand types.now a.now }
    requires second { IsOperand types.now b.now }
    ensures { ForBoth types.now a.now b.now (λ x y.
        IsResult types.now result (spec.sum (structs_in types.now structs.now) x y)) }
{
    let integer = at_common_kind(types, Op::Add, a, b);
    let pointer = moved(types, structs, a, b);
    either(integer, pointer)
}

/// What `-` gives (C99 6.5.6, 3).
fn difference(types: &TypeTable, structs: &[Members], a: &Typed, b: &Typed) -> Option<Typed>
    requires ready { IsReady types.now }
    requires first { IsOperand types.now a.now }
    requires second { IsOperand types.now b.now }
    ensures { ForBoth types.now a.now b.now (λ x y.
        IsResult types.now result (spec.difference (structs_in types.now structs.now) x y)) }
{
    let integer = at_common_kind(types, Op::Subtract, a, b);
    let pointer = moved(types, structs, a, b);
    let apart = distance(types, structs, a, b);
    let other = either(pointer, apart);
    either(integer, other)
}

/// What an order gives (C99 6.5.8, 2).
fn order(types: &TypeTable, op: Op, a: &Typed, b: &Typed) -> Option<Typed>
    requires ready { IsReady types.now }
    requires first { IsOperand types.now a.now }
    requires second { IsOperand types.now b.now }
    ensures { ForBoth types.now a.now b.now (λ x y. IsResult types.now result (spec.order op x y)) }
{
    let integer = at_common_kind(types, op, a, b);
    let same = are_same_pointers(types, &a.ty, &b.ty);
    let truth = truth_if(same);
    either(integer, truth)
}

/// What `==` or `!=` gives (C99 6.5.9, 2).
fn equality(types: &TypeTable, op: Op, a: &Typed, b: &Typed) -> Option<Typed>
    requires ready { IsReady types.now }
    requires first { IsOperand types.now a.now }
    requires second { IsOperand types.now b.now }
    ensures { ForBoth types.now a.now b.now (λ x y. IsResult types.now result (spec.equality op x y)) }
{
    let integer = at_common_kind(types, op, a, b);
    let comparable = are_comparable(types, a, b);
    let truth = truth_if(comparable);
    either(integer, truth)
}

/// What a row gives, or nothing where it doesn't take the operands.
pub(crate) fn result_of(
    types: &TypeTable,
    structs: &[Members],
    row: BinaryRow,
    a: &Typed,
    b: &Typed,
) -> Option<Typed>
    requires ready { IsReady types.now }
    requires first { IsOperand types.now a.now }
    requires second { IsOperand types.now b.now }
    requires shifts { IsOfShifts row }
    ensures { ForBoth types.now a.now b.now (λ x y.
        IsResult types.now result (spec.result_of (structs_in types.now structs.now) row x y)) }
{
    match row {
        BinaryRow::Logical(decides) => logical(types, decides, a, b),
        BinaryRow::Integers(op) => at_common_kind(types, op, a, b),
        BinaryRow::Shift(op) => shifted(types, op, a, b),
        BinaryRow::Sum => sum(types, structs, a, b),
        BinaryRow::Difference => difference(types, structs, a, b),
        BinaryRow::Order(op) => order(types, op, a, b),
        BinaryRow::Equality(op) => equality(types, op, a, b),
    }
}

/// An operator between two values: its typing, or the least code that holds.
pub fn binary(
    types: &TypeTable,
    structs: &[Members],
    op: BinaryOperator,
    a: &Typed,
    b: &Typed,
) -> Verdict
    requires ready { IsReady types.now }
    requires first { IsOperand types.now a.now }
    requires second { IsOperand types.now b.now }
    ensures { ForBoth types.now a.now b.now (λ x y.
        IsVerdict types.now result (spec.binary_rule (structs_in types.now structs.now) op x y)) }
{
    let first = scalar_code(types, &a.ty);
    let second = scalar_code(types, &b.ty);
    let code = lesser(first, second);
    let taken = row_of(op);
    let row = result_of(types, structs, taken, a, b);
    by_row(code, row)
}
