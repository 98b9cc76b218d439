//! Initialiser words (POSIX, `pthread.h`).
ghost use Rattle.std.specs.Prelude.{◌≡◌, IfSome, option_copied, option_map};
ghost use Rattle.lk_types.specs.Table.{Table, IsKnown};
ghost use Rattle.lk_names.specs.InScope.{env_in, IsKnownScope};
ghost use Rattle.lk_typed.specs.Env.{Env};
ghost use Rattle.lk_typed.specs.Expressions.{expr_word};
ghost use Rattle.lk_typed.specs.Meaning.{meaning};
ghost use Rattle.lk_typed.specs.Names.{declared_in, IsKnownName};
ghost use Rattle.lk_check_unit.specs.Writing.{word_given};

use lk_names::Names;
use lk_tree::{Expr, ExprForm};
use lk_typed::{Declared, Meaning};
use lk_types::TypeId;

/// The type whose initialiser word a declared name is.
fn declared_word(found: Option<&Declared>) -> Option<TypeId>
    ensures word { (table : Table) →
        option_map (meaning table) result ≡
        word_given (option_map (declared_in table) (option_copied found.entry)) }
    ensures known { (table : Table) → IfSome (option_copied found.entry) (IsKnownName table) →
        IfSome result (IsKnown table) }
{
    match found {
        Some(declared) => match declared.meaning {
            Meaning::InitialiserWord(t) => Some(t),
            Meaning::Object(..)
            | Meaning::Function(_)
            | Meaning::Typedef(_)
            | Meaning::Enumerator(_)
            | Meaning::Faulty => None,
        },
        None => None,
    }
}

/// The type whose initialiser word an expression is (POSIX, `pthread.h`).
pub(crate) fn word_type(names: &Names, e: &Expr) -> Option<TypeId>
    ensures word { (table : Table) (rest : Env) →
        option_map (meaning table) result ≡ expr_word e.now (env_in table rest names.now) }
    ensures known { (table : Table) → IsKnownScope table names.now → IfSome result (IsKnown table) }
{
    match &e.form {
        ExprForm::Word(name) => declared_word(names.look_up(name)),
        ExprForm::Comma(..)
        | ExprForm::Assign(..)
        | ExprForm::Choice(..)
        | ExprForm::Binary(..)
        | ExprForm::Cast(..)
        | ExprForm::Pre(..)
        | ExprForm::Prefix(..)
        | ExprForm::SizeofExpr(_)
        | ExprForm::SizeofType(_)
        | ExprForm::Index(..)
        | ExprForm::Call(..)
        | ExprForm::Member(..)
        | ExprForm::Arrow(..)
        | ExprForm::Post(..)
        | ExprForm::Number(..)
        | ExprForm::Char(_)
        | ExprForm::Text(_)
        | ExprForm::Paren(_) => None,
    }
}
