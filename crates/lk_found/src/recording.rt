//! The names of which an expression speaks itself.
ghost use Rattle.std.specs.Prelude.{◌≡◌};
ghost use Rattle.std.specs.Option.{option_copied};
ghost use Rattle.lk_typed.specs.Env.{Env};
ghost use Rattle.lk_typed.specs.Expressions.{expression, written};
ghost use Rattle.lk_found.specs.Uses.{address_by, found_by, name_written, taken_in};

use crate::records::Meant;
use lk_base::Name;
use lk_tree::{Expr, ExprForm, PrefixOperator};
use lk_typed::Declared;

/// The name that an expression is.
pub fn word(e: &Expr) -> Option<&Name>
    ensures { option_copied result ≡ name_written (written e.now) }
{
    match &e.form {
        ExprForm::Word(name) => Some(name),
        ExprForm::Comma(..)
        | ExprForm::Assign(..)
        | ExprForm::Choice(..)
        | ExprForm::Binary(..)
        | ExprForm::Cast(..)
        | ExprForm::Pre(..)
        | ExprForm::Prefix(..)
        | ExprForm::SizeofExpr(_)
        | ExprForm::SizeofType(_)
        | ExprForm::Index(..)
        | ExprForm::Call(..)
        | ExprForm::Member(..)
        | ExprForm::Arrow(..)
        | ExprForm::Post(..)
        | ExprForm::Number(..)
        | ExprForm::Char(_)
        | ExprForm::Text(_)
        | ExprForm::Paren(_) => None,
    }
}

/// The name that an expression is, perhaps in parentheses.
#[tactic(auto, using(crate::proofs::Words::silent_word), unfolding(crate::proofs::Words::is_silent))]
fn word_inside(e: &Expr) -> Option<&Name>
    ensures { (env : Env) → (expression e.now env).look.word ≡ found_by env (option_copied result) }
{
    match &e.form {
        ExprForm::Word(name) => Some(name),
        ExprForm::Paren(inner) => word_inside(inner.get()),
        ExprForm::Comma(..)
        | ExprForm::Assign(..)
        | ExprForm::Choice(..)
        | ExprForm::Binary(..)
        | ExprForm::Cast(..)
        | ExprForm::Pre(..)
        | ExprForm::Prefix(..)
        | ExprForm::SizeofExpr(_)
        | ExprForm::SizeofType(_)
        | ExprForm::Index(..)
        | ExprForm::Call(..)
        | ExprForm::Member(..)
        | ExprForm::Arrow(..)
        | ExprForm::Post(..)
        | ExprForm::Number(..)
        | ExprForm::Char(_)
        | ExprForm::Text(_) => None,
    }
}

/// The name whose address an operator takes (C99 6.5.3.2).
fn taken_by(op: PrefixOperator, operand: &Expr) -> Option<&Name>
    ensures { (env : Env) → address_by op (env, operand.now) ≡ found_by env (option_copied result) }
{
    match op {
        PrefixOperator::Address => word_inside(operand),
        PrefixOperator::Indirection
        | PrefixOperator::Plus
        | PrefixOperator::Minus
        | PrefixOperator::Complement
        | PrefixOperator::Not => None,
    }
}

/// The name whose address an expression takes.
pub fn taken(e: &Expr) -> Option<&Name>
    ensures { (env : Env) → taken_in env e.now ≡ found_by env (option_copied result) }
{
    match &e.form {
        ExprForm::Prefix(op, operand) => taken_by(*op, operand.get()),
        ExprForm::Word(_)
        | ExprForm::Comma(..)
        | ExprForm::Assign(..)
        | ExprForm::Choice(..)
        | ExprForm::Binary(..)
        | ExprForm::Cast(..)
        | ExprForm::Pre(..)
        | ExprForm::SizeofExpr(_)
        | ExprForm::SizeofType(_)
        | ExprForm::Index(..)
        | ExprForm::Call(..)
        | ExprForm::Member(..)
        | ExprForm::Arrow(..)
        | ExprForm::Post(..)
        | ExprForm::Number(..)
        | ExprForm::Char(_)
        | ExprForm::Text(_)
        | ExprForm::Paren(_) => None,
    }
}

/// What a declared name stands for.
pub fn meant_by(declared: &Declared) -> Meant
    ensures meaning { result.meaning ≡ declared.now.meaning }
    ensures ordinal { result.ordinal ≡ declared.now.ordinal }
{
    Meant {
        meaning: declared.meaning,
        ordinal: declared.ordinal,
    }
}
