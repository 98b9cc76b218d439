//! Which types the operands of an operator are converted to before it computes
//! (C99 6.3.1.1, 6.3.1.8, 6.5.3.3 to 6.5.14).
ghost use Rattle.std.specs.Prelude.{◌≡◌};
ghost use Rattle.lk_types.specs.Table.{Table};
ghost use Rattle.lk_typed.specs.Meaning.{IsKnownType, IsReady, meaning_of};
ghost use Rattle.lk_typed.specs.Operands as spec;
ghost use Rattle.lk_typed.specs.Operators as rows;
ghost use Rattle.lk_typed.specs.Ty.{Int};
ghost use Rattle.lk_typed.specs.Typings.{ForBoth, IsOperand};
ghost use Rattle.lk_elab_expr.specs.OperandTypes.{types_in, AreKnown};

use lk_arith::{Op, UnaryOp, promoted, usual};
use lk_base::Kind;
use lk_tree::PrefixOperator;
use lk_typed::{BinaryRow, ExprType, Typed, are_same_pointers, is_integer, is_pointer, kind_of};
use lk_types::{TypeId, TypeTable};

/// The types of a left and a right operand.
#[derive(Clone, Copy)]
pub(crate) struct OperandTypes {
    pub(crate) left: ExprType,
    pub(crate) right: ExprType,
}

/// An integer type.
fn integer(kind: Kind) -> ExprType
    ensures known { (table : Table) → IsReady table → IsKnownType table result }
    ensures means { (table : Table) → IsReady table → meaning_of table result ≡ Int kind }
{
    ExprType::Listed(TypeId::of_kind(kind))
}

/// The integer promotions (C99 6.3.1.1, 2).
pub fn promoted_type(types: &TypeTable, ty: &ExprType) -> ExprType
    requires ready { IsReady types.now }
    requires known { IsKnownType types.now ty.now }
    ensures known { IsKnownType types.now result }
    ensures value { meaning_of types.now result ≡ spec.promoted_type (meaning_of types.now ty.now) }
{
    match kind_of(types, ty) {
        Some(kind) => integer(promoted(kind)),
        None => *ty,
    }
}

/// What an operator computes whose operand is promoted (C99 6.5.3.3, 2 to 4).
pub(crate) fn promoting(op: PrefixOperator) -> Option<UnaryOp>
    ensures { result ≡ spec.promoting op }
{
    match op {
        PrefixOperator::Plus => Some(UnaryOp::Plus),
        PrefixOperator::Minus => Some(UnaryOp::Negate),
        PrefixOperator::Complement => Some(UnaryOp::Complement),
        PrefixOperator::Address | PrefixOperator::Indirection | PrefixOperator::Not => None,
    }
}

/// What an operator between two operands computes; `&&` and `||` only decide.
pub(crate) fn computed_by(row: BinaryRow) -> Option<Op>
    ensures { result ≡ spec.computed_by row }
{
    match row {
        BinaryRow::Logical(_) => None,
        BinaryRow::Integers(op)
        | BinaryRow::Shift(op)
        | BinaryRow::Order(op)
        | BinaryRow::Equality(op) => Some(op),
        BinaryRow::Sum => Some(Op::Add),
        BinaryRow::Difference => Some(Op::Subtract),
    }
}

/// The types that the operands have.
fn own_types(a: &Typed, b: &Typed) -> OperandTypes
    ensures known { (table : Table) → IsOperand table a.now → IsOperand table b.now → AreKnown table result }
    ensures value { (table : Table) → ForBoth table a.now b.now (λ x y.
        types_in table result ≡ spec.own_types x y) }
{
    OperandTypes {
        left: a.ty,
        right: b.ty,
    }
}

/// The same type for both.
fn both_of(ty: ExprType) -> OperandTypes
    ensures { result ≡ record { left = ty; right = ty } }
{
    let other = ty;
    OperandTypes {
        left: ty,
        right: other,
    }
}

/// The usual arithmetic conversions (C99 6.3.1.8), where both are integers; else these others.
fn usual_types(types: &TypeTable, a: &Typed, b: &Typed, others: OperandTypes) -> OperandTypes
    requires ready { IsReady types.now }
    requires first { IsOperand types.now a.now }
    requires second { IsOperand types.now b.now }
    ensures known { AreKnown types.now others → AreKnown types.now result }
    ensures value { ForBoth types.now a.now b.now (λ x y.
        types_in types.now result ≡ spec.usual_types x y (types_in types.now others)) }
{
    match kind_of(types, &a.ty) {
        Some(first) => match kind_of(types, &b.ty) {
            Some(second) => both_of(integer(usual(first, second))),
            None => others,
        },
        None => others,
    }
}

/// Whether it is a pointer beside a null pointer constant (C99 6.5.9, 2).
fn is_pointer_beside_null(types: &TypeTable, a: &Typed, b: &Typed) -> bool
    requires { IsOperand types.now a.now }
    ensures { ForBoth types.now a.now b.now (λ x y. result ≡ rows.is_pointer_beside_null x y) }
{
    is_pointer(types, &a.ty) && b.is_null
}

/// The types of pointers that `==` and `!=` compare (C99 6.5.9, 5).
fn compared_types(types: &TypeTable, a: &Typed, b: &Typed) -> OperandTypes
    requires ready { IsReady types.now }
    requires first { IsOperand types.now a.now }
    requires second { IsOperand types.now b.now }
    ensures known { AreKnown types.now result }
    ensures value { ForBoth types.now a.now b.now (λ x y.
        types_in types.now result ≡ spec.compared_types x y) }
{
    if are_same_pointers(types, &a.ty, &b.ty) {
        own_types(a, b)
    } else if is_pointer_beside_null(types, a, b) {
        both_of(a.ty)
    } else if is_pointer_beside_null(types, b, a) {
        both_of(b.ty)
    } else {
        both_of(ExprType::PointerTo(TypeId::VOID))
    }
}

/// Each operand's own promoted type (C99 6.5.7, 3).
fn promoted_types(types: &TypeTable, a: &Typed, b: &Typed) -> OperandTypes
    requires ready { IsReady types.now }
    requires first { IsOperand types.now a.now }
    requires second { IsOperand types.now b.now }
    ensures known { AreKnown types.now result }
    ensures value { ForBoth types.now a.now b.now (λ x y. types_in types.now result ≡
        record { left = spec.promoted_type x.type; right = spec.promoted_type y.type }) }
{
    OperandTypes {
        left: promoted_type(types, &a.ty),
        right: promoted_type(types, &b.ty),
    }
}

/// The types to which the operands of an operator are converted. They are values.
pub(crate) fn operand_types(types: &TypeTable, row: BinaryRow, a: &Typed, b: &Typed) -> OperandTypes
    requires ready { IsReady types.now }
    requires first { IsOperand types.now a.now }
    requires second { IsOperand types.now b.now }
    ensures known { AreKnown types.now result }
    ensures value { ForBoth types.now a.now b.now (λ x y.
        types_in types.now result ≡ spec.operand_types row x y) }
{
    match row {
        BinaryRow::Logical(_) => own_types(a, b),
        BinaryRow::Integers(_) | BinaryRow::Sum | BinaryRow::Difference | BinaryRow::Order(_) => {
            usual_types(types, a, b, own_types(a, b))
        }
        BinaryRow::Shift(_) => promoted_types(types, a, b),
        BinaryRow::Equality(_) => usual_types(types, a, b, compared_types(types, a, b)),
    }
}

/// Whether a pointer moves by an integer on its right (C99 6.5.6, 8).
fn is_move(types: &TypeTable, a: &Typed, b: &Typed) -> bool
    requires first { IsOperand types.now a.now }
    requires second { IsOperand types.now b.now }
    ensures { ForBoth types.now a.now b.now (λ x y. result ≡ spec.is_move x y) }
{
    is_pointer(types, &a.ty) && is_integer(types, &b.ty)
}

/// Whether a pointer moves by the right operand of an operator.
pub(crate) fn moves_by_right(types: &TypeTable, row: BinaryRow, a: &Typed, b: &Typed) -> bool
    requires first { IsOperand types.now a.now }
    requires second { IsOperand types.now b.now }
    ensures { ForBoth types.now a.now b.now (λ x y. result ≡ spec.moves_by_right row x y) }
{
    match row {
        BinaryRow::Sum | BinaryRow::Difference => is_move(types, a, b),
        BinaryRow::Logical(_)
        | BinaryRow::Integers(_)
        | BinaryRow::Shift(_)
        | BinaryRow::Order(_)
        | BinaryRow::Equality(_) => false,
    }
}

/// At which type `++` and `--` compute (C99 6.5.2.4, 2; 6.5.3.1, 2).
pub(crate) fn step_type(types: &TypeTable, ty: &ExprType) -> ExprType
    requires ready { IsReady types.now }
    requires known { IsKnownType types.now ty.now }
    ensures known { IsKnownType types.now result }
    ensures value { meaning_of types.now result ≡ spec.step_type (meaning_of types.now ty.now) }
{
    match kind_of(types, ty) {
        Some(kind) => integer(usual(kind, Kind::Int)),
        None => *ty,
    }
}
