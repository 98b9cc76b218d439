//! Operators that compute (C99 6.5.3.3 to 6.5.15, 6.5.17).

ghost use Rattle.std.specs.Prelude.{◌≡◌, ◌&&◌, Bool, Some, IfOk, OnOk};
ghost use Rattle.lk_tree.specs.declared.expression.DeclaratorForm.TheOpen.{ExprForm-F};
ghost use Rattle.lk_tree.specs.declared.operators.BinaryOperator.{BinaryOperator};
ghost use Rattle.lk_tree.specs.declared.operators.PrefixOperator.{PrefixOperator};
ghost use Rattle.lk_tree.specs.declared.operators.PrefixOperator.TheVariants as prefixes;
ghost use Rattle.lk_typed.specs.Elaborated.{InPlace, form_of};
ghost use Rattle.lk_typed.specs.Meaning.{IsKnownType};
ghost use Rattle.lk_typed.specs.Operands as spec;
ghost use Rattle.lk_typed.specs.Operators as rows;
ghost use Rattle.lk_elaborator.specs.Known.{IsPromotedAt, OfEach};
ghost use Rattle.lk_elaborator.specs.Leading.{Grows};
ghost use Rattle.lk_elab_expr.specs.Deciding.{AreValues, DecidesOne, DecidesThree, DecidesTwo, FindsOperands, decided_by};
ghost use Rattle.lk_elab_expr.specs.OperandTypes.{AreKnown};

use crate::operands::{
    OperandTypes, computed_by, moves_by_right, operand_types, promoted_type, promoting,
};
use crate::places::{address, indirection};
use lk_arith::{Op, UnaryOp};
use lk_base::NoMemory;
use lk_check_expr::row_of;
use lk_elaborator::{
    Elaborator, One, OneForm, Three, Two, TwoForm, converted_operand, nowhere, operand_part,
    typing_at, value_at, value_of,
};
use lk_tree::{BinaryOperator, PrefixOperator};
use lk_typed::{BinaryRow, ExprType};

/// An operator before the operand with a number.
pub(crate) fn prefix(
    walk: &mut Elaborator,
    op: PrefixOperator,
    operand: u32,
) -> Result<One, NoMemory>
    ensures one { IfOk result (
        DecidesOne walk.old walk.new operand (λ p i. form_of p ≡ ExprForm-F.Prefix op i)) }
    ensures grows { OnOk result (Grows walk.old walk.new) }
{
    match op {
        PrefixOperator::Address => Ok(address()),
        PrefixOperator::Indirection => indirection(walk, operand),
        PrefixOperator::Plus | PrefixOperator::Minus | PrefixOperator::Complement => {
            unary(walk, op, operand)
        }
        PrefixOperator::Not => negation(walk, operand),
    }
}

/// An operator before the operand with a number, which is promoted.
fn unary(walk: &mut Elaborator, op: PrefixOperator, operand: u32) -> Result<One, NoMemory>
    ensures one { IfOk result (
        DecidesOne walk.old walk.new operand (λ p i. form_of p ≡ ExprForm-F.Prefix op i)) }
    ensures grows { OnOk result (Grows walk.old walk.new) }
{
    match promoting(op) {
        Some(computes) => promoted_operand(walk, computes, operand),
        None => Err(nowhere()),
    }
}

/// The type to which an operand is promoted.
pub(crate) fn promoted_at(walk: &Elaborator, ordinal: u32) -> Result<ExprType, NoMemory>
    ensures known { IfOk result (IsKnownType walk.now.types) }
    ensures promoted { IfOk result (λ ty. OfEach walk.now ordinal (λ p. IsPromotedAt walk.now.types p ty)) }
{
    let v = value_at(walk, ordinal)?;
    Ok(promoted_type(walk.types.table(), &v.ty))
}

/// An operator whose operand is promoted (C99 6.5.3.3, 2 to 4).
fn promoted_operand(walk: &mut Elaborator, op: UnaryOp, operand: u32) -> Result<One, NoMemory>
    ensures one { (o : PrefixOperator) → spec.promoting o ≡ Some op → IfOk result (
        DecidesOne walk.old walk.new operand (λ p i. form_of p ≡ ExprForm-F.Prefix o i)) }
    ensures grows { OnOk result (Grows walk.old walk.new) }
{
    let target = promoted_at(walk, operand)?;
    let part = converted_operand(walk, operand, &target)?;
    Ok(One::Of(OneForm::Unary(op), part))
}

/// `!` tests its operand as a condition does (C99 6.5.3.3, 5).
fn negation(walk: &mut Elaborator, operand: u32) -> Result<One, NoMemory>
    ensures one { IfOk result (
        DecidesOne walk.old walk.new operand (λ p i. form_of p ≡ ExprForm-F.Prefix prefixes.Not i)) }
    ensures grows { OnOk result (Grows walk.old walk.new) }
{
    let part = value_of(walk, operand)?;
    Ok(One::Of(OneForm::Unary(UnaryOp::Not), part))
}

/// An operator between the operands with these numbers.
pub(crate) fn binary(
    walk: &mut Elaborator,
    op: BinaryOperator,
    left: u32,
    right: u32,
    folded: bool,
) -> Result<Two, NoMemory>
    ensures two { IfOk result (
        DecidesTwo walk.old walk.new left right folded (λ p l r. form_of p ≡ ExprForm-F.Binary op l r)) }
    ensures grows { OnOk result (Grows walk.old walk.new) }
{
    let row = row_of(op);
    match computed_by(row) {
        Some(computes) => computed(walk, row, computes, left, right, folded),
        None => by_values(walk, decided_by(row), left, right),
    }
}

/// How two operands are converted.
#[derive(Clone, Copy)]
pub(crate) struct Operands {
    /// The types to which they are.
    pub(crate) types: OperandTypes,
    /// Whether a pointer moves by the right one.
    pub(crate) moves: bool,
}

/// How the operands with these numbers are converted.
pub(crate) fn operands_at(
    walk: &Elaborator,
    row: BinaryRow,
    left: u32,
    right: u32,
) -> Result<Operands, NoMemory>
    ensures known { IfOk result (λ operands. AreKnown walk.now.types operands.types) }
    ensures operands { IfOk result (FindsOperands walk.now row left right) }
{
    let x = value_at(walk, left)?;
    let y = value_at(walk, right)?;
    let types = walk.types.table();
    Ok(Operands {
        types: operand_types(types, row, &x, &y),
        moves: moves_by_right(types, row, &x, &y),
    })
}

/// Whether a pointer moves by an operand in an address constant.
fn moves_folded(folded: bool, moves: bool) -> bool
    ensures { result ≡ folded && moves }
{
    folded && moves
}

/// An operator that computes, whose operands are converted.
fn computed(
    walk: &mut Elaborator,
    row: BinaryRow,
    op: Op,
    left: u32,
    right: u32,
    folded: bool,
) -> Result<Two, NoMemory>
    ensures two { (o : BinaryOperator) → rows.row_of o ≡ row → spec.computed_by row ≡ Some op → IfOk result (
        DecidesTwo walk.old walk.new left right folded (λ p l r. form_of p ≡ ExprForm-F.Binary o l r)) }
    ensures grows { OnOk result (Grows walk.old walk.new) }
{
    let operands = operands_at(walk, row, left, right)?;
    let first = converted_operand(walk, left, &operands.types.left)?;
    let moves = moves_folded(folded, operands.moves);
    let second = operand_part(walk, right, &operands.types.right, moves)?;
    Ok(Two {
        form: TwoForm::Binary(op),
        left: first,
        right: second,
    })
}

/// `&&` or `||` (C99 6.5.13, 6.5.14).
fn decided_by(row: BinaryRow) -> TwoForm
    ensures { result ≡ decided_by row }
{
    match row {
        BinaryRow::Logical(true) => TwoForm::Or,
        BinaryRow::Logical(false)
        | BinaryRow::Integers(_)
        | BinaryRow::Shift(_)
        | BinaryRow::Sum
        | BinaryRow::Difference
        | BinaryRow::Order(_)
        | BinaryRow::Equality(_) => TwoForm::And,
    }
}

/// An expression of the values of the operands with these numbers.
fn by_values(walk: &mut Elaborator, form: TwoForm, left: u32, right: u32) -> Result<Two, NoMemory>
    ensures values { IfOk result (AreValues walk.old walk.new left right form) }
    ensures grows { OnOk result (Grows walk.old walk.new) }
{
    let first = value_of(walk, left)?;
    let second = value_of(walk, right)?;
    Ok(Two {
        form,
        left: first,
        right: second,
    })
}

/// `left, right` (C99 6.5.17).
pub(crate) fn comma(walk: &mut Elaborator, left: u32, right: u32) -> Result<Two, NoMemory>
    ensures two { (folded : Bool) → IfOk result (
        DecidesTwo walk.old walk.new left right folded (λ p l r. form_of p ≡ ExprForm-F.Comma l r)) }
    ensures grows { OnOk result (Grows walk.old walk.new) }
{
    by_values(walk, TwoForm::Comma, left, right)
}

/// The operands with these numbers of `?:` with that number (C99 6.5.15, 5 and 6): both
/// arms are converted to its type.
pub(crate) fn choice(
    walk: &mut Elaborator,
    ordinal: u32,
    condition: u32,
    taken: u32,
    other: u32,
) -> Result<Three, NoMemory>
    ensures three { IfOk result (λ three. (p c l r : InPlace) → form_of p ≡ ExprForm-F.Choice c l r →
        p.1.ordinal ≡ ordinal → c.1.ordinal ≡ condition → l.1.ordinal ≡ taken → r.1.ordinal ≡ other →
        DecidesThree walk.old walk.new p c l r three) }
    ensures grows { OnOk result (Grows walk.old walk.new) }
{
    let typing = typing_at(walk, ordinal)?;
    let first = value_of(walk, condition)?;
    let second = converted_operand(walk, taken, &typing.ty)?;
    let third = converted_operand(walk, other, &typing.ty)?;
    Ok(Three {
        condition: first,
        taken: second,
        other: third,
    })
}
