//! Names as expressions (C99 6.5.1, 2).

ghost use Rattle.std.specs.Prelude.{◌≡◌, Bool, Some, IfOk, IfSome};
ghost use Rattle.std.specs.Option.{option_map};
ghost use Rattle.lk_typed.specs.Env.{Env};
ghost use Rattle.lk_typed.specs.Expressions.{expression};
ghost use Rattle.lk_typed.specs.Tables.{Tables};
ghost use Rattle.lk_typed.specs.declared.expression.TypedForm.{out-TypedForm};
ghost use Rattle.lk_found.specs.Uses.{found_by};
ghost use Rattle.lk_elaborator.specs.Known.{OfEach};
ghost use Rattle.lk_elaborator.specs.Leading.{Leads};
ghost use Rattle.lk_elaborator.specs.Standing.{IsFormOf};
ghost use Rattle.lk_elab_expr.specs.CalledWords.{HasWord, IsEntityOf};
ghost use Rattle.lk_elab_expr.specs.Leaves.{IsStorage};

use lk_base::{Name, NoMemory};
use lk_elaborator::{Elaborator, meant_at, nowhere};
use lk_tree::{Expr, ExprForm};
use lk_typed::{Duration, Meaning, Storage, TypedForm};

/// A name that an expression is, and the number of that expression.
#[derive(Clone, Copy)]
pub(crate) struct NamedWord<'a> {
    pub(crate) name: &'a Name,
    pub(crate) ordinal: u32,
}

/// The name that an expression is, perhaps in parentheses.
#[tactic(auto, using(lk_found::proofs::Words::silent_word), unfolding(lk_found::proofs::Words::is_silent))]
pub(crate) fn word_in(e: &Expr) -> Option<NamedWord<'_>>
    ensures word { (env : Env) →
        (expression e.now env).look.word ≡ found_by env (option_map (λ w. w.name.now) result) }
    ensures stands { IfSome result (λ w. HasWord e.now w.name.now w.ordinal) }
{
    match &e.form {
        ExprForm::Word(name) => Some(NamedWord {
            name,
            ordinal: e.ordinal,
        }),
        ExprForm::Paren(inner) => word_in(inner.get()),
        ExprForm::Comma(_, _)
        | ExprForm::Assign(_, _, _)
        | ExprForm::Choice(_, _, _)
        | ExprForm::Binary(_, _, _)
        | ExprForm::Cast(_, _)
        | ExprForm::Pre(_, _)
        | ExprForm::Prefix(_, _)
        | ExprForm::SizeofExpr(_)
        | ExprForm::SizeofType(_)
        | ExprForm::Index(_, _)
        | ExprForm::Call(_, _)
        | ExprForm::Member(_, _)
        | ExprForm::Arrow(_, _)
        | ExprForm::Post(_, _)
        | ExprForm::Number(_, _)
        | ExprForm::Char(_)
        | ExprForm::Text(_) => None,
    }
}

/// The entity for which the name with a number stands.
pub(crate) fn entity_at(walk: &Elaborator, ordinal: u32) -> Result<u32, NoMemory>
    ensures { IfOk result (λ entity. OfEach walk.now ordinal (λ p. IsEntityOf walk.now p entity)) }
{
    match meant_at(walk, ordinal) {
        Ok(meant) => walk.entities.declared_at(meant.ordinal),
        Err(NoMemory) => Err(NoMemory),
    }
}

/// The object of a name, by how long it lasts and the node that declares it.
fn storage_of(walk: &Elaborator, lasts: Duration, ordinal: u32) -> Result<Storage, NoMemory>
    ensures { IfOk result (IsStorage walk.now lasts ordinal) }
{
    match lasts {
        Duration::Static => Ok(Storage::Entity(walk.entities.declared_at(ordinal)?)),
        Duration::Automatic => Ok(Storage::Local(walk.locals.number_of(ordinal)?)),
    }
}

/// The name with a number. It is an object, a function or an enumerator: other names are no expressions.
pub(crate) fn word(walk: &Elaborator, ordinal: u32) -> Result<TypedForm, NoMemory>
    ensures { IfOk result (λ form. OfEach walk.now ordinal (λ p. (tables : Tables) → Leads walk.now tables →
        (folded : Bool) → IsFormOf tables folded p (out-TypedForm form))) }
{
    let meant = meant_at(walk, ordinal)?;
    match meant.meaning {
        Meaning::Object(_, lasts) => {
            let storage = storage_of(walk, lasts, meant.ordinal)?;
            Ok(TypedForm::Object(storage))
        }
        Meaning::Function(_) => {
            let entity = walk.entities.declared_at(meant.ordinal)?;
            Ok(TypedForm::Function(entity))
        }
        Meaning::Enumerator(value) => Ok(TypedForm::Number(value)),
        Meaning::Typedef(_) | Meaning::InitialiserWord(_) | Meaning::Faulty => Err(nowhere()),
    }
}
