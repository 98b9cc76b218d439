//! Expressions whose operands aren't computed, and those that have none.
ghost use Rattle.std.specs.Prelude.{Bool, IfOk};
ghost use Rattle.lk_typed.specs.Env.{Env};
ghost use Rattle.lk_typed.specs.Tables.{Tables};
ghost use Rattle.lk_typed.specs.declared.expression.TypedForm.{out-TypedForm};
ghost use Rattle.lk_elaborator.specs.Leading.{Leads};
ghost use Rattle.lk_elaborator.specs.Standing.{IsFormOf};
ghost use Rattle.lk_elaborator.specs.Telling.{IsTrueOf};

use crate::literals::text;
use crate::names::word;
use crate::sizes::size;
use lk_base::NoMemory;
use lk_elaborator::{Elaborator, nowhere};
use lk_tree::{Expr, ExprForm};
use lk_typed::TypedForm;

/// What a `sizeof`, a name or a constant is made of.
pub(crate) fn leaf(walk: &Elaborator, e: &Expr) -> Result<TypedForm, NoMemory>
    ensures { IfOk result (λ form. (env : Env) → IsTrueOf walk.now (env, e.now) → (tables : Tables) →
        Leads walk.now tables → (folded : Bool) → IsFormOf tables folded (env, e.now) (out-TypedForm form)) }
{
    match &e.form {
        ExprForm::SizeofExpr(_) | ExprForm::SizeofType(_) => size(walk, e.ordinal),
        ExprForm::Word(_) => word(walk, e.ordinal),
        ExprForm::Number(_, n) => Ok(TypedForm::Number(i128::from(*n))),
        ExprForm::Char(n) => Ok(TypedForm::Number(i128::from(*n))),
        ExprForm::Text(bytes) => text(walk, bytes.list()),
        ExprForm::Comma(_, _)
        | ExprForm::Assign(_, _, _)
        | ExprForm::Choice(_, _, _)
        | ExprForm::Binary(_, _, _)
        | ExprForm::Cast(_, _)
        | ExprForm::Pre(_, _)
        | ExprForm::Prefix(_, _)
        | ExprForm::Index(_, _)
        | ExprForm::Call(_, _)
        | ExprForm::Member(_, _)
        | ExprForm::Arrow(_, _)
        | ExprForm::Post(_, _)
        | ExprForm::Paren(_) => Err(nowhere()),
    }
}
