//! Initialisers (C99 6.7.8).
ghost use Rattle.std.specs.Prelude.{◌≡◌, None, IfOk, OnOk, is_none, suc, if◌then◌else◌};
ghost use Rattle.lk_types.specs.Table.{IsKnown};
ghost use Rattle.lk_checker.specs.States.{IsSound};
ghost use Rattle.lk_check_unit.specs.Bodies.{Grows};
ghost use Rattle.lk_check_unit.specs.Initialising.{IsKnownTarget, IsNoWord, IsWord, WalksEntries, WalksEntry};
ghost use Rattle.lk_check_unit.specs.Initialising.{WalksExpr, WalksInit, WalksList};

use crate::converting::{listed, stands_for};
use crate::designators::{both, designators};
use crate::seen::{braces_code, found_code, part_of, target_type, word_code};
use crate::words::word_type;
use lk_base::{Code, NoMemory};
use lk_check_decl::{Target, braces_of, text_of};
use lk_check_walk::judge;
use lk_checker::Checker;
use lk_found::{At, InitialiserKind};
use lk_tree::{Entry, Expr, Init, InitList};
use lk_types::TypeId;

/// Where an expression stands.
fn at_expression(e: &Expr) -> At
    ensures spot { result.spot ≡ e.now.spot }
    ensures ordinal { result.ordinal ≡ e.now.ordinal }
{
    At {
        spot: e.spot,
        ordinal: e.ordinal,
    }
}

/// Whether no code holds.
fn is_fit(code: &Option<Code>) -> bool
    ensures { result ≡ is_none code.now }
{
    code.is_none()
}

/// An initialiser word: whether it may stand there.
fn word(
    checker: &mut Checker,
    target: &Option<Target>,
    e: &Expr,
    ty: TypeId,
) -> Result<bool, NoMemory>
    requires sound { IsSound checker.old }
    requires target { IsKnownTarget checker.old.types target.now }
    requires known { IsKnown checker.old.types ty }
    requires word { IsWord checker.old e.now ty }
    ensures grows { OnOk result (Grows checker.old checker.new) }
    ensures walks { IfOk result (WalksExpr target.now e.now checker.old checker.new) }
{
    let code = word_code(&checker.types, target, ty);
    checker.keep(at_expression(e), code)?;
    Ok(is_fit(&code))
}

/// An expression that is no initialiser word: whether it has a type, and may stand there.
fn value(checker: &mut Checker, target: &Option<Target>, e: &Expr) -> Result<bool, NoMemory>
    requires sound { IsSound checker.old }
    requires target { IsKnownTarget checker.old.types target.now }
    requires no_word { IsNoWord checker.old e.now }
    ensures grows { OnOk result (Grows checker.old checker.new) }
    ensures walks { IfOk result (WalksExpr target.now e.now checker.old checker.new) }
{
    let text = text_of(e)?;
    let target_ty = target_type(target);
    let ty = listed(&target_ty);
    let found = judge(checker, e, stands_for(&ty))?;
    let code = found_code(&checker.types, target, text, &found);
    checker.keep(at_expression(e), code)?;
    Ok(both(found.typing.is_some(), is_fit(&code)))
}

/// An expression: whether it has a type, and may stand there.
fn expression(checker: &mut Checker, target: &Option<Target>, e: &Expr) -> Result<bool, NoMemory>
    requires sound { IsSound checker.old }
    requires target { IsKnownTarget checker.old.types target.now }
    ensures grows { OnOk result (Grows checker.old checker.new) }
    ensures walks { IfOk result (WalksExpr target.now e.now checker.old checker.new) }
{
    match word_type(&checker.names, e) {
        Some(ty) => {
            let is_fit = word(checker, target, e, ty)?;
            checker
                .records
                .put_initialiser(e.ordinal, InitialiserKind::Word(ty))?;
            Ok(is_fit)
        }
        None => {
            let is_typed = value(checker, target, e)?;
            checker
                .records
                .put_initialiser(e.ordinal, InitialiserKind::Value)?;
            Ok(is_typed)
        }
    }
}

/// A code, where this holds.
fn only_if(holds: bool, code: Option<Code>) -> Option<Code>
    ensures { result ≡ (if holds then code else None) }
{
    if holds { code } else { None }
}

/// The number behind one.
fn next(number: u32) -> Result<u32, NoMemory>
    ensures { IfOk result (λ n. n ≡ suc number) }
{
    match number.checked_add(1) {
        Some(next) => Ok(next),
        None => Err(NoMemory),
    }
}

/// A list in braces.
#[cycle(initialisers)]
fn list(checker: &mut Checker, target: &Option<Target>, init: &InitList) -> Result<(), NoMemory>
    requires sound { IsSound checker.old }
    requires target { IsKnownTarget checker.old.types target.now }
    ensures grows { OnOk result (Grows checker.old checker.new) }
    ensures walks { OnOk result (WalksList target.now init.now checker.old checker.new) }
{
    let braces = braces_of(init)?;
    let code = braces_code(&checker.types, checker.names.structs(), target, braces);
    let are_typed = entries(checker, target, braces.text, init.entries.list())?;
    let at = At {
        spot: init.spot,
        ordinal: init.ordinal,
    };
    checker.keep(at, only_if(are_typed, code))
}

/// The entries of a list: whether all have types. `text` has the bytes of the text that is all of it.
#[cycle(initialisers)]
fn entries(
    checker: &mut Checker,
    target: &Option<Target>,
    text: Option<u32>,
    list: &[Entry],
) -> Result<bool, NoMemory>
    requires sound { IsSound checker.old }
    requires target { IsKnownTarget checker.old.types target.now }
    ensures grows { OnOk result (Grows checker.old checker.new) }
    ensures walks { IfOk result (WalksEntries target.now text list.now checker.old checker.new) }
{
    let mut are_typed = true;
    let mut number: u32 = 0;
    for e in list {
        let is_typed = entry(checker, target, text, number, e)?;
        are_typed = both(are_typed, is_typed);
        number = next(number)?;
    }
    Ok(are_typed)
}

/// An entry with this number: whether its parts have types.
#[cycle(initialisers)]
fn entry(
    checker: &mut Checker,
    target: &Option<Target>,
    text: Option<u32>,
    number: u32,
    e: &Entry,
) -> Result<bool, NoMemory>
    requires sound { IsSound checker.old }
    requires target { IsKnownTarget checker.old.types target.now }
    ensures grows { OnOk result (Grows checker.old checker.new) }
    ensures walks { IfOk result (WalksEntry target.now text number e.now checker.old checker.new) }
{
    let are_typed = designators(checker, e.designators.list())?;
    let inner = part_of(
        &checker.types,
        checker.names.structs(),
        target,
        text,
        number,
    );
    let is_typed = initialiser(checker, &inner, &e.init)?;
    Ok(both(are_typed, is_typed))
}

/// An initialiser of an object, missing where its declaration is faulty: whether it has a type.
#[cycle(initialisers)]
pub(crate) fn initialiser(
    checker: &mut Checker,
    target: &Option<Target>,
    init: &Init,
) -> Result<bool, NoMemory>
    requires sound { IsSound checker.old }
    requires target { IsKnownTarget checker.old.types target.now }
    ensures grows { OnOk result (Grows checker.old checker.new) }
    ensures walks { IfOk result (WalksInit target.now init.now checker.old checker.new) }
{
    match init {
        Init::Expr(e) => expression(checker, target, e),
        Init::List(inner) => {
            list(checker, target, inner)?;
            Ok(true)
        }
    }
}
