//! Expressions by the operands that they have: what they are of these, and what stands for each.
ghost use Rattle.std.specs.Prelude.{◌≡◌};
ghost use Rattle.lk_typed.specs.declared.expression.TypedForm.{out-TypedForm};
ghost use Rattle.lk_elaborator.specs.Standing.{form_of_one, form_of_two};

use crate::parts::Part;
use lk_arith::{Op, UnaryOp};
use lk_base::Boxed;
use lk_tree::StepOperator;
use lk_typed::{Change, TypedExpr, TypedForm};
use lk_types::TypeId;

/// What an expression is of one operand.
#[derive(Clone, Copy)]
pub enum OneForm {
    Paren,
    Member(u32),
    Arrow(u32),
    Address,
    Indirection,
    Unary(UnaryOp),
    Step(StepOperator, Change, TypeId),
    Discard,
    Convert,
}

/// An expression with one operand.
#[derive(Clone, Copy)]
pub enum One {
    /// A null pointer, whose operand computes nothing.
    Null,
    /// This of what stands for the operand.
    Of(OneForm, Part),
}

/// What an expression is of two operands.
#[derive(Clone, Copy)]
pub enum TwoForm {
    Index,
    Binary(Op),
    And,
    Or,
    Comma,
    Assign,
    Compound(Op, TypeId),
}

/// An expression with two operands.
#[derive(Clone, Copy)]
pub struct Two {
    pub form: TwoForm,
    /// What stands for the operands.
    pub left: Part,
    pub right: Part,
}

/// What stands for the operands of `?:`.
#[derive(Clone, Copy)]
pub struct Three {
    pub condition: Part,
    pub taken: Part,
    pub other: Part,
}

/// An expression of one operand.
pub fn form_of_one(form: OneForm, a: Boxed<TypedExpr>) -> TypedForm
    ensures { out-TypedForm result ≡ form_of_one form a }
{
    match form {
        OneForm::Paren => TypedForm::Paren(a),
        OneForm::Member(number) => TypedForm::Member(a, number),
        OneForm::Arrow(number) => TypedForm::Arrow(a, number),
        OneForm::Address => TypedForm::Address(a),
        OneForm::Indirection => TypedForm::Indirection(a),
        OneForm::Unary(op) => TypedForm::Unary(op, a),
        OneForm::Step(op, change, at) => TypedForm::Step(op, change, a, at),
        OneForm::Discard => TypedForm::Discard(a),
        OneForm::Convert => TypedForm::Convert(a),
    }
}

/// An expression of two operands.
pub fn form_of_two(form: TwoForm, a: Boxed<TypedExpr>, b: Boxed<TypedExpr>) -> TypedForm
    ensures { out-TypedForm result ≡ form_of_two form a b }
{
    match form {
        TwoForm::Index => TypedForm::Index(a, b),
        TwoForm::Binary(op) => TypedForm::Binary(op, a, b),
        TwoForm::And => TypedForm::And(a, b),
        TwoForm::Or => TypedForm::Or(a, b),
        TwoForm::Comma => TypedForm::Comma(a, b),
        TwoForm::Assign => TypedForm::Assign(a, b),
        TwoForm::Compound(op, at) => TypedForm::Compound(op, a, b, at),
    }
}
