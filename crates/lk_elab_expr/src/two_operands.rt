//! Expressions with two operands.
ghost use Rattle.std.specs.Prelude.{IfOk, OnOk};
ghost use Rattle.lk_elaborator.specs.Leading.{Grows};
ghost use Rattle.lk_elab_expr.specs.Walking.{DecidesTwoOf};

use crate::operators::{binary, comma};
use crate::places::index;
use crate::sides::assign;
use lk_base::NoMemory;
use lk_elaborator::{Elaborator, Two, nowhere};
use lk_tree::ExprForm;

/// An expression of this form, with two operands, which have these numbers.
pub(crate) fn two_of(
    walk: &mut Elaborator,
    form: &ExprForm,
    left: u32,
    right: u32,
    folded: bool,
) -> Result<Two, NoMemory>
    ensures two { IfOk result (DecidesTwoOf walk.old walk.new form.now left right folded) }
    ensures grows { OnOk result (Grows walk.old walk.new) }
{
    match form {
        ExprForm::Comma(_, _) => comma(walk, left, right),
        ExprForm::Assign(op, _, _) => assign(walk, *op, left, right),
        ExprForm::Binary(op, _, _) => binary(walk, *op, left, right, folded),
        ExprForm::Index(_, _) => index(walk, left, right, folded),
        ExprForm::Choice(_, _, _)
        | ExprForm::Cast(_, _)
        | ExprForm::Pre(_, _)
        | ExprForm::Prefix(_, _)
        | ExprForm::SizeofExpr(_)
        | ExprForm::SizeofType(_)
        | ExprForm::Call(_, _)
        | ExprForm::Member(_, _)
        | ExprForm::Arrow(_, _)
        | ExprForm::Post(_, _)
        | ExprForm::Word(_)
        | ExprForm::Number(_, _)
        | ExprForm::Char(_)
        | ExprForm::Text(_)
        | ExprForm::Paren(_) => Err(nowhere()),
    }
}
