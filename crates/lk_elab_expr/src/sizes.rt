//! `sizeof` (C99 6.5.3.4).

ghost use Rattle.std.specs.Prelude.{◌≡◌, Bool, IfOk, IfSome};
ghost use Rattle.lk_typed.specs.Elaborated.{InPlace, IsSizeof, form_of};
ghost use Rattle.lk_typed.specs.Env.{Env};
ghost use Rattle.lk_typed.specs.Meaning.{meaning_of};
ghost use Rattle.lk_typed.specs.Tables.{Tables};
ghost use Rattle.lk_typed.specs.declared.expression.TypedForm.{out-TypedForm};
ghost use Rattle.lk_elaborator.specs.Known.{OfEach};
ghost use Rattle.lk_elaborator.specs.Standing.{IsFormOf};
ghost use Rattle.lk_elab_expr.specs.Leaves.{IsSizeofForm};
ghost use Rattle.lk_elab_expr.specs.Walking.{IsToldOf};

use lk_base::NoMemory;
use lk_elaborator::{Elaborator, constant_at, nowhere, type_named_at, typing_at};
use lk_tree::{Expr, ExprForm};
use lk_typed::{Constant, ExprType, TypedForm};

/// The `sizeof` with a number: how many bytes it counts. It is a constant but in the size of an
/// allocation, which isn't computed.
pub(crate) fn size(walk: &Elaborator, ordinal: u32) -> Result<TypedForm, NoMemory>
    ensures { IfOk result (λ form. OfEach walk.now ordinal (λ p. IsSizeofForm (form_of p) →
        (tables : Tables) (folded : Bool) → IsFormOf tables folded p (out-TypedForm form))) }
{
    match constant_at(walk, ordinal)? {
        Constant::Known(count) => match u64::try_from(count) {
            Ok(count) => Ok(TypedForm::Size(count)),
            Err(_) => Err(nowhere()),
        },
        Constant::NotConstant | Constant::Undefined => Err(nowhere()),
    }
}

/// The type whose bytes an expression counts, where it is a `sizeof` (`IsSizeof`).
pub(crate) fn counted_by(walk: &Elaborator, e: &Expr) -> Result<Option<ExprType>, NoMemory>
    ensures { IfOk result (λ counted. (at_end : Env) (p : InPlace) → p.1 ≡ e.now →
        IsToldOf at_end walk.now p → IfSome counted (λ ty. IsSizeof p (meaning_of walk.now.types ty))) }
{
    match &e.form {
        ExprForm::SizeofExpr(operand) => {
            let typing = typing_at(walk, operand.get().ordinal)?;
            Ok(Some(typing.ty))
        }
        ExprForm::SizeofType(named) => {
            let t = type_named_at(walk, named.get().ordinal)?;
            Ok(Some(ExprType::Listed(t)))
        }
        ExprForm::Comma(_, _)
        | ExprForm::Assign(_, _, _)
        | ExprForm::Choice(_, _, _)
        | ExprForm::Binary(_, _, _)
        | ExprForm::Cast(_, _)
        | ExprForm::Pre(_, _)
        | ExprForm::Prefix(_, _)
        | ExprForm::Index(_, _)
        | ExprForm::Call(_, _)
        | ExprForm::Member(_, _)
        | ExprForm::Arrow(_, _)
        | ExprForm::Post(_, _)
        | ExprForm::Word(_)
        | ExprForm::Number(_, _)
        | ExprForm::Char(_)
        | ExprForm::Text(_)
        | ExprForm::Paren(_) => Ok(None),
    }
}
