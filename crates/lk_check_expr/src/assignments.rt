//! Assignments and casts (C99 6.5.4, 6.5.16).
ghost use Rattle.std.specs.Prelude.{◌≡◌, Option, IfSome};
ghost use Rattle.lk_types.specs.Table.{IsKnown};
ghost use Rattle.lk_typed.specs.Assignments as spec;
ghost use Rattle.lk_typed.specs.Conversions.{converted, converted_constant};
ghost use Rattle.lk_typed.specs.Typing.{Typing};
ghost use Rattle.lk_typed.specs.Codes.{least_code, or_behind};
ghost use Rattle.lk_typed.specs.Meaning.{meaning, meaning_of, IsKnownType, IsReady};
ghost use Rattle.lk_typed.specs.Typings.{ForBoth, ForEach, IsOperand, IsResult, IsTyping, IsVerdict, structs_in};

use crate::operators::{result_of, row_of, scalar_code};
use lk_arith::convert;
use lk_base::{Code, Kind};
use lk_tree::{AssignOperator, BinaryOperator};
use lk_typed::{
    Constant, ExprType, Members, Typed, Verdict, cast_code, code_if, convert_code, form,
    is_function, is_null_value, is_void, lesser, unless, value,
};
use lk_types::{CType, TypeId, TypeTable};

/// The operator with which an assignment computes.
pub fn operator_of(op: AssignOperator) -> Option<BinaryOperator>
    ensures { result ≡ spec.operator_of op }
{
    match op {
        AssignOperator::Plain => None,
        AssignOperator::Multiply => Some(BinaryOperator::Multiply),
        AssignOperator::Divide => Some(BinaryOperator::Divide),
        AssignOperator::Remainder => Some(BinaryOperator::Remainder),
        AssignOperator::Add => Some(BinaryOperator::Add),
        AssignOperator::Subtract => Some(BinaryOperator::Subtract),
        AssignOperator::ShiftLeft => Some(BinaryOperator::ShiftLeft),
        AssignOperator::ShiftRight => Some(BinaryOperator::ShiftRight),
        AssignOperator::BitAnd => Some(BinaryOperator::BitAnd),
        AssignOperator::BitXor => Some(BinaryOperator::BitXor),
        AssignOperator::BitOr => Some(BinaryOperator::BitOr),
    }
}

/// The code of the right side of `=`, which converts to the type of the left one, where that is no function.
fn plain_code(types: &TypeTable, left: &Typed, right: &Typed) -> Option<Code>
    requires left { IsOperand types.now left.now }
    requires right { IsOperand types.now right.now }
    ensures { ForBoth types.now left.now right.now (λ x y. result ≡ least_code (spec.plain_codes x y)) }
{
    if is_function(types, &left.ty) {
        None
    } else {
        let v = value(types, right);
        convert_code(types, &left.ty, &v)
    }
}

/// The code of what an operator computes of two values, converted back to a type.
fn back_code(types: &TypeTable, target: &ExprType, computed: &Option<Typed>) -> Option<Code>
    requires target { IsKnownType types.now target.now }
    requires computed { IfSome computed.now (IsOperand types.now) }
    ensures { (x : Option Typing) → IsResult types.now computed.now x → result
        ≡ least_code (spec.back_codes (meaning_of types.now target.now) x) }
{
    match computed {
        Some(computed) => convert_code(types, target, computed),
        None => Some(Code::Mismatch),
    }
}

/// A code, or where there is none that of a rule behind it.
fn or_behind(code: Option<Code>, behind: Option<Code>) -> Option<Code>
    ensures { result ≡ or_behind code behind }
{
    match code {
        Some(code) => Some(code),
        None => behind,
    }
}

/// The code of the right side of an assignment that computes, on two values.
fn computed_code(
    types: &TypeTable,
    structs: &[Members],
    op: BinaryOperator,
    target: &ExprType,
    a: &Typed,
    b: &Typed,
) -> Option<Code>
    requires ready { IsReady types.now }
    requires target { IsKnownType types.now target.now }
    requires first { IsOperand types.now a.now }
    requires second { IsOperand types.now b.now }
    ensures { ForBoth types.now a.now b.now (λ x y. result ≡ least_code
        (spec.computed_codes (structs_in types.now structs.now) op (meaning_of types.now target.now) x y)) }
{
    let first = scalar_code(types, &a.ty);
    let second = scalar_code(types, &b.ty);
    let operands = lesser(first, second);
    let row = row_of(op);
    let computed = result_of(types, structs, row, a, b);
    let back = back_code(types, target, &computed);
    or_behind(operands, back)
}

/// The code of the right side of an assignment.
fn right_code(
    types: &TypeTable,
    structs: &[Members],
    op: Option<BinaryOperator>,
    left: &Typed,
    right: &Typed,
) -> Option<Code>
    requires ready { IsReady types.now }
    requires left { IsOperand types.now left.now }
    requires right { IsOperand types.now right.now }
    ensures { ForBoth types.now left.now right.now (λ x y.
        result ≡ least_code (spec.right_codes (structs_in types.now structs.now) op x y)) }
{
    match op {
        None => plain_code(types, left, right),
        Some(op) => {
            let a = value(types, left);
            let b = value(types, right);
            computed_code(types, structs, op, &left.ty, &a, &b)
        }
    }
}

/// An assignment: its left side is a place, and what it gives is a value of the type of that side.
pub fn assign(
    types: &TypeTable,
    structs: &[Members],
    op: AssignOperator,
    left: &Typed,
    right: &Typed,
) -> Verdict
    requires ready { IsReady types.now }
    requires left { IsOperand types.now left.now }
    requires right { IsOperand types.now right.now }
    ensures { ForBoth types.now left.now right.now (λ x y.
        IsVerdict types.now result (spec.assign_rule (structs_in types.now structs.now) op x y)) }
{
    let place = code_if(!left.is_place, Code::NotAPlace);
    let by = operator_of(op);
    let right_side = right_code(types, structs, by, left, right);
    let code = lesser(place, right_side);
    let typed = Typed::of_type(left.ty);
    unless(code, typed)
}

/// A constant converted to a kind.
fn converted_constant(kind: Kind, constant: Constant) -> Constant
    ensures { result ≡ converted_constant kind constant }
{
    match constant {
        Constant::NotConstant => Constant::NotConstant,
        Constant::Undefined => Constant::Undefined,
        Constant::Known(value) => Constant::Known(convert(kind, value)),
    }
}

/// A value that was converted to a type of the table. An integer constant expression stays one among integers
/// (C99 6.6, 6); cast to `void *`, one of value 0 is a null pointer constant (C99 6.3.2.3, 3).
pub fn converted(types: &TypeTable, target: TypeId, v: &Typed) -> Typed
    requires ready { IsReady types.now }
    requires target { IsKnown types.now target }
    ensures { ForEach types.now v.now (λ x.
        IsTyping types.now result (converted (meaning types.now target) x)) }
{
    match form(types, target) {
        CType::Int(kind) => Typed::integer(*kind, converted_constant(*kind, v.constant)),
        CType::Pointer(t) => Typed {
            ty: ExprType::Listed(target),
            is_place: false,
            constant: Constant::NotConstant,
            is_null: is_void(types, &ExprType::Listed(*t)) && is_null_value(v.constant),
        },
        CType::Void
        | CType::ThreadId
        | CType::Mutex
        | CType::Cond
        | CType::Array(_, _)
        | CType::Struct(_)
        | CType::Function { .. }
        | CType::Opaque(_) => Typed::of_type(ExprType::Listed(target)),
    }
}

/// A cast to a type of the table.
pub fn cast(types: &TypeTable, target: TypeId, e: &Typed) -> Verdict
    requires ready { IsReady types.now }
    requires target { IsKnown types.now target }
    requires operand { IsOperand types.now e.now }
    ensures { ForEach types.now e.now (λ x.
        IsVerdict types.now result (spec.cast_rule (meaning types.now target) x)) }
{
    let v = value(types, e);
    let code = cast_code(types, &ExprType::Listed(target), &v);
    let typed = converted(types, target, &v);
    unless(code, typed)
}
