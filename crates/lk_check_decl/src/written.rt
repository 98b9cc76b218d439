//! How initialisers are written: texts alone, and lists in braces (C99 6.7.8).
ghost use Rattle.std.specs.Prelude.{◌≡◌, IfOk};
ghost use Rattle.lk_tree.specs.declared.declaration.Init.{out-Init};
ghost use Rattle.lk_tree.specs.declared.declaration.InitList.{out-InitList};
ghost use Rattle.lk_typed.specs.Expressions.{expr_text};
ghost use Rattle.lk_typed.specs.Initialisers as spec;
ghost use Rattle.lk_check_decl.specs.Initialisers.{braces_of as spec_braces};

use crate::initialisers::Braces;
use lk_base::NoMemory;
use lk_tree::{Designator, Entry, Expr, ExprForm, Init, InitList};

/// A number of bytes or entries, which is below 2^32.
fn count(len: usize) -> Result<u32, NoMemory>
    ensures { IfOk result (λ count. count ≡ len) }
{
    match u32::try_from(len) {
        Ok(count) => Ok(count),
        Err(_) => Err(NoMemory),
    }
}

/// How many bytes the text has that an expression is. `NoMemory` where they are more than a `u32` counts.
pub fn text_of(e: &Expr) -> Result<Option<u32>, NoMemory>
    ensures { IfOk result (λ text. text ≡ expr_text e.now) }
{
    match &e.form {
        ExprForm::Text(bytes) => Ok(Some(count(bytes.len())?)),
        ExprForm::Comma(..)
        | ExprForm::Assign(..)
        | ExprForm::Choice(..)
        | ExprForm::Binary(..)
        | ExprForm::Cast(..)
        | ExprForm::Pre(..)
        | ExprForm::Prefix(..)
        | ExprForm::SizeofExpr(_)
        | ExprForm::SizeofType(_)
        | ExprForm::Index(..)
        | ExprForm::Call(..)
        | ExprForm::Member(..)
        | ExprForm::Arrow(..)
        | ExprForm::Post(..)
        | ExprForm::Word(_)
        | ExprForm::Number(..)
        | ExprForm::Char(_)
        | ExprForm::Paren(_) => Ok(None),
    }
}

/// Whether there are designators.
fn is_some_designator(designators: &[Designator]) -> bool
    ensures { result ≡ spec.is_some_designator designators.now }
{
    !designators.is_empty()
}

/// Whether one of the entries has a designator.
fn has_designator(entries: &[Entry]) -> bool
    ensures { result ≡ spec.has_designator entries.now }
{
    for entry in entries {
        if is_some_designator(entry.designators.list()) {
            return true;
        }
    }
    false
}

/// How many bytes the text has that an initialiser is.
fn text_of_init(init: &Init) -> Result<Option<u32>, NoMemory>
    ensures { IfOk result (λ text. text ≡ spec.text_of (out-Init init.now)) }
{
    match init {
        Init::Expr(e) => text_of(e),
        Init::List(_) => Ok(None),
    }
}

/// How many bytes the text has that is all of a list.
fn text_alone(entries: &[Entry]) -> Result<Option<u32>, NoMemory>
    ensures { IfOk result (λ text. text ≡ spec.text_alone entries.now) }
{
    if entries.len() == 1 {
        text_of_init(&entries[0].init)
    } else {
        Ok(None)
    }
}

/// A list in braces. `NoMemory` where its entries, or the bytes of the text that is all of it,
/// are more than a `u32` counts.
pub fn braces_of(list: &InitList) -> Result<Braces, NoMemory>
    ensures { IfOk result (λ braces. spec_braces braces ≡ spec.braces_of (out-InitList list.now).entries) }
{
    let entries = list.entries.list();
    Ok(Braces {
        entries: count(entries.len())?,
        has_designator: has_designator(entries),
        text: text_alone(entries)?,
    })
}
