//! Ordinals in initialisers and declarations.
#![tactic(auto, using(lk_base::proofs::Lending::written_is), unfolding(lk_tree::specs::Numbers::initialiser))]

ghost use Rattle.std.specs.Prelude.{◌≡◌, IfOk, map};
ghost use Rattle.lk_ordinals.specs.Parts as part;
ghost use Rattle.lk_tree.specs.Numbers as spec;

use crate::expression::{number_declarator, number_expr, number_specifier};
use crate::next::behind;
use lk_base::{NoMemory, Seq};
use lk_tree::{Declare, Designator, Entry, Init, InitDeclarator, InitList, Specifier};

/// An initialiser.
#[cycle(initialisers)]
fn initialiser(tree: &mut Init, first: u32) -> Result<u32, NoMemory>
    ensures { IfOk result (λ next. spec.initialiser tree.old first ≡ (tree.new, next)) }
{
    match tree {
        Init::Expr(value) => number_expr(value, first),
        Init::List(list) => init_list(list, first),
    }
}

/// An initialiser in braces.
#[cycle(initialisers)]
fn init_list(tree: &mut InitList, first: u32) -> Result<u32, NoMemory>
    ensures { IfOk result (λ next. part.init_list tree.old first ≡ (tree.new, next)) }
{
    let next = entries_of(&mut tree.entries, behind(first)?)?;
    tree.ordinal = first;
    Ok(next)
}

/// The entries of an initialiser in braces.
#[cycle(initialisers)]
fn entries_of(tree: &mut Seq<Entry>, first: u32) -> Result<u32, NoMemory>
    ensures { IfOk result (λ next. spec.list (map part.entry tree.old) first ≡ (tree.new, next)) }
{
    entries_of_in(tree.list_mut(), first)
}

/// The same of those in a slice.
#[cycle(initialisers)]
fn entries_of_in(tree: &mut [Entry], first: u32) -> Result<u32, NoMemory>
    ensures { IfOk result (λ next. spec.list (map part.entry tree.old) first ≡ (tree.new, next)) }
{
    let mut next = first;
    for i in 0..tree.len() {
        next = entry(&mut tree[i], next)?;
    }
    Ok(next)
}

/// An entry of an initialiser in braces.
#[cycle(initialisers)]
fn entry(tree: &mut Entry, first: u32) -> Result<u32, NoMemory>
    ensures { IfOk result (λ next. part.entry tree.old first ≡ (tree.new, next)) }
{
    let next = designators_of(&mut tree.designators, first)?;
    initialiser(&mut tree.init, next)
}

/// The designators of an entry.
fn designators_of(tree: &mut Seq<Designator>, first: u32) -> Result<u32, NoMemory>
    ensures { IfOk result (λ next. spec.list_of spec.of_designator tree.old first ≡ (tree.new, next)) }
{
    designators_of_in(tree.list_mut(), first)
}

/// The same of those in a slice.
fn designators_of_in(tree: &mut [Designator], first: u32) -> Result<u32, NoMemory>
    ensures { IfOk result (λ next. spec.list_of spec.of_designator tree.old first ≡ (tree.new, next)) }
{
    let mut next = first;
    for i in 0..tree.len() {
        next = designator(&mut tree[i], next)?;
    }
    Ok(next)
}

/// A designator.
fn designator(tree: &mut Designator, first: u32) -> Result<u32, NoMemory>
    ensures { IfOk result (λ next. spec.of_designator tree.old first ≡ (tree.new, next)) }
{
    match tree {
        Designator::Member(_) => Ok(first),
        Designator::Index(index) => number_expr(index, first),
    }
}

/// An initialiser, where there is one.
fn initialiser_if_any(tree: &mut Option<Init>, first: u32) -> Result<u32, NoMemory>
    ensures { IfOk result (λ next. spec.optional_of spec.initialiser tree.old first ≡ (tree.new, next)) }
{
    match tree {
        None => Ok(first),
        Some(one) => initialiser(one, first),
    }
}

/// A declarator with its initialiser.
fn init_declarator(tree: &mut InitDeclarator, first: u32) -> Result<u32, NoMemory>
    ensures { IfOk result (λ next. spec.of_init_declarator tree.old first ≡ (tree.new, next)) }
{
    let next = number_declarator(&mut tree.declarator, first)?;
    initialiser_if_any(&mut tree.init, next)
}

/// The declarators of a declaration.
fn init_declarators(tree: &mut Seq<InitDeclarator>, first: u32) -> Result<u32, NoMemory>
    ensures { IfOk result (λ next. spec.list_of spec.of_init_declarator tree.old first ≡ (tree.new, next)) }
{
    init_declarators_in(tree.list_mut(), first)
}

/// The same of those in a slice.
fn init_declarators_in(tree: &mut [InitDeclarator], first: u32) -> Result<u32, NoMemory>
    ensures { IfOk result (λ next. spec.list_of spec.of_init_declarator tree.old first ≡ (tree.new, next)) }
{
    let mut next = first;
    for i in 0..tree.len() {
        next = init_declarator(&mut tree[i], next)?;
    }
    Ok(next)
}

/// Specifiers one after another.
pub fn number_specifiers(tree: &mut Seq<Specifier>, first: u32) -> Result<u32, NoMemory>
    ensures { IfOk result (λ next. spec.list_of spec.specifier tree.old first ≡ (tree.new, next)) }
{
    number_specifiers_in(tree.list_mut(), first)
}

/// The same of those in a slice.
fn number_specifiers_in(tree: &mut [Specifier], first: u32) -> Result<u32, NoMemory>
    ensures { IfOk result (λ next. spec.list_of spec.specifier tree.old first ≡ (tree.new, next)) }
{
    let mut next = first;
    for i in 0..tree.len() {
        next = number_specifier(&mut tree[i], next)?;
    }
    Ok(next)
}

/// Gives a declaration its ordinals, from this one on, and answers the ordinal behind them.
pub fn number_declare(tree: &mut Declare, first: u32) -> Result<u32, NoMemory>
    ensures { IfOk result (λ next. spec.declare tree.old first ≡ (tree.new, next)) }
{
    let next = number_specifiers(&mut tree.specifiers, behind(first)?)?;
    let next = init_declarators(&mut tree.declarators, next)?;
    tree.ordinal = first;
    Ok(next)
}
