//! Assignments, `++` and `--` (C99 6.5.16, 6.5.2.4, 6.5.3.1).

ghost use Rattle.std.specs.Prelude.{◌≡◌, Bool, Some, IfOk, OnOk};
ghost use Rattle.lk_tree.specs.declared.expression.DeclaratorForm.TheOpen.{ExprForm-F};
ghost use Rattle.lk_tree.specs.declared.operators.AssignOperator.{AssignOperator};
ghost use Rattle.lk_tree.specs.declared.operators.AssignOperator.TheVariants as assigning;
ghost use Rattle.lk_tree.specs.declared.operators.BinaryOperator.{BinaryOperator};
ghost use Rattle.lk_types.specs.Table.{IsKnown};
ghost use Rattle.lk_typed.specs.Assignments as rules;
ghost use Rattle.lk_typed.specs.Elaborated.{form_of};
ghost use Rattle.lk_typed.specs.Meaning.{meaning, meaning_of};
ghost use Rattle.lk_typed.specs.Operands as spec;
ghost use Rattle.lk_typed.specs.Operators as rows;
ghost use Rattle.lk_elaborator.specs.Known.{HasStepType, OfEach};
ghost use Rattle.lk_elaborator.specs.Leading.{Grows};
ghost use Rattle.lk_elab_expr.specs.Deciding.{DecidesOne, DecidesTwo, step_form};

use crate::operands::{computed_by, step_type};
use crate::operators::operands_at;
use lk_arith::Op;
use lk_base::NoMemory;
use lk_check_expr::{operator_of, row_of};
use lk_elaborator::{
    Elaborator, One, OneForm, Two, TwoForm, converted_operand, given_part, itself_part, known_type,
    listed, nowhere, typing_at,
};
use lk_tree::{AssignOperator, BinaryOperator, StepOperator};
use lk_typed::{BinaryRow, Change, ExprType, is_function};
use lk_types::TypeId;

/// An assignment to the place with a number.
pub(crate) fn assign(
    walk: &mut Elaborator,
    op: AssignOperator,
    left: u32,
    right: u32,
) -> Result<Two, NoMemory>
    ensures two { (folded : Bool) → IfOk result (
        DecidesTwo walk.old walk.new left right folded (λ p l r. form_of p ≡ ExprForm-F.Assign op l r)) }
    ensures grows { OnOk result (Grows walk.old walk.new) }
{
    match operator_of(op) {
        None => assignment(walk, left, right),
        Some(by) => compound(walk, by, left, right),
    }
}

/// `=`: the value is converted to the type of the place (C99 6.5.16.1, 2), which is no function.
fn assignment(walk: &mut Elaborator, left: u32, right: u32) -> Result<Two, NoMemory>
    ensures two { (folded : Bool) → IfOk result (
        DecidesTwo walk.old walk.new left right folded (λ p l r.
        form_of p ≡ ExprForm-F.Assign assigning.Plain l r)) }
    ensures grows { OnOk result (Grows walk.old walk.new) }
{
    let typing = typing_at(walk, left)?;
    if is_function(walk.types.table(), &typing.ty) {
        return Err(nowhere());
    }
    let value = given_part(walk, right, &typing.ty)?;
    Ok(Two {
        form: TwoForm::Assign,
        left: itself_part(),
        right: value,
    })
}

/// `op=`, where there is such an operator: it is none of `&&` and `||`.
fn compound(
    walk: &mut Elaborator,
    by: BinaryOperator,
    left: u32,
    right: u32,
) -> Result<Two, NoMemory>
    ensures two { (o : AssignOperator) → rules.operator_of o ≡ Some by → (folded : Bool) → IfOk result (
        DecidesTwo walk.old walk.new left right folded (λ p l r. form_of p ≡ ExprForm-F.Assign o l r)) }
    ensures grows { OnOk result (Grows walk.old walk.new) }
{
    let row = row_of(by);
    match computed_by(row) {
        Some(op) => compound_by(walk, row, op, left, right),
        None => Err(nowhere()),
    }
}

/// `op=`: it computes at the type to which the left value is converted (C99 6.5.16.2, 3).
fn compound_by(
    walk: &mut Elaborator,
    row: BinaryRow,
    op: Op,
    left: u32,
    right: u32,
) -> Result<Two, NoMemory>
    ensures two { (o : AssignOperator) (by : BinaryOperator) → rules.operator_of o ≡ Some by →
        rows.row_of by ≡ row → spec.computed_by row ≡ Some op → (folded : Bool) → IfOk result (
        DecidesTwo walk.old walk.new left right folded (λ p l r. form_of p ≡ ExprForm-F.Assign o l r)) }
    ensures grows { OnOk result (Grows walk.old walk.new) }
{
    let operands = operands_at(walk, row, left, right)?;
    let at = number_of(walk, &operands.types.left)?;
    let value = converted_operand(walk, right, &operands.types.right)?;
    Ok(Two {
        form: TwoForm::Compound(op, at),
        left: itself_part(),
        right: value,
    })
}

/// The number of the type at which an operator computes.
fn number_of(walk: &mut Elaborator, ty: &ExprType) -> Result<TypeId, NoMemory>
    ensures means { IfOk result (λ t. meaning walk.new.types t ≡ meaning_of walk.old.types ty.now) }
    ensures known { IfOk result (IsKnown walk.new.types) }
    ensures grows { OnOk result (Grows walk.old walk.new) }
{
    let ty = known_type(walk.types.table(), ty)?;
    let t = listed(&mut walk.types, &ty)?;
    Ok(t)
}

/// The number of the type at which `++` and `--` compute.
fn stepped_at(walk: &mut Elaborator, ordinal: u32) -> Result<TypeId, NoMemory>
    ensures means { IfOk result (λ t. OfEach walk.old ordinal (λ p. HasStepType walk.new.types p t)) }
    ensures grows { OnOk result (Grows walk.old walk.new) }
{
    let typing = typing_at(walk, ordinal)?;
    let ty = step_type(walk.types.table(), &typing.ty);
    let t = number_of(walk, &ty)?;
    Ok(t)
}

/// `++` or `--` of the place with a number.
pub(crate) fn step(
    walk: &mut Elaborator,
    op: StepOperator,
    change: Change,
    place: u32,
) -> Result<One, NoMemory>
    ensures one { IfOk result (
        DecidesOne walk.old walk.new place (λ p i. form_of p ≡ step_form change op i)) }
    ensures grows { OnOk result (Grows walk.old walk.new) }
{
    let at = stepped_at(walk, place)?;
    Ok(One::Of(OneForm::Step(op, change, at), itself_part()))
}
