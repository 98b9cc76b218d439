//! Expressions with one operand.
ghost use Rattle.std.specs.Prelude.{IfOk, OnOk};
ghost use Rattle.lk_elaborator.specs.Leading.{Grows};
ghost use Rattle.lk_elab_expr.specs.Walking.{DecidesOneOf};

use crate::casts::cast;
use crate::operators::prefix;
use crate::places::{arrow, member};
use crate::sides::step;
use lk_base::NoMemory;
use lk_elaborator::{Elaborator, One, OneForm, itself_part, nowhere};
use lk_tree::ExprForm;
use lk_typed::Change;

/// An expression of this form, with one operand, which has this number.
pub(crate) fn one_of(walk: &mut Elaborator, form: &ExprForm, operand: u32) -> Result<One, NoMemory>
    ensures one { IfOk result (DecidesOneOf walk.old walk.new form.now operand) }
    ensures grows { OnOk result (Grows walk.old walk.new) }
{
    match form {
        ExprForm::Cast(target, _) => cast(walk, target.get().ordinal, operand),
        ExprForm::Pre(op, _) => step(walk, *op, Change::Before, operand),
        ExprForm::Prefix(op, _) => prefix(walk, *op, operand),
        ExprForm::Member(_, name) => member(walk, operand, name),
        ExprForm::Arrow(_, name) => arrow(walk, operand, name),
        ExprForm::Post(op, _) => step(walk, *op, Change::After, operand),
        ExprForm::Paren(_) => Ok(One::Of(OneForm::Paren, itself_part())),
        ExprForm::Comma(_, _)
        | ExprForm::Assign(_, _, _)
        | ExprForm::Choice(_, _, _)
        | ExprForm::Binary(_, _, _)
        | ExprForm::SizeofExpr(_)
        | ExprForm::SizeofType(_)
        | ExprForm::Index(_, _)
        | ExprForm::Call(_, _)
        | ExprForm::Word(_)
        | ExprForm::Number(_, _)
        | ExprForm::Char(_)
        | ExprForm::Text(_) => Err(nowhere()),
    }
}
