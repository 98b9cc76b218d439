//! Ordinals in a whole tree.
#![tactic(auto, using(lk_base::proofs::Lending::written_is))]

ghost use Rattle.std.specs.Prelude.{◌≡◌, IfOk, OnOk};
ghost use Rattle.lk_tree.specs.Numbers as spec;

use crate::declaration::{number_declare, number_specifiers};
use crate::expression::number_declarator;
use crate::next::behind;
use crate::statement::number_stmt;
use lk_base::{NoMemory, Seq};
use lk_tree::{Decl, Unit};

/// An external declaration.
fn decl(tree: &mut Decl, first: u32) -> Result<u32, NoMemory>
    ensures { IfOk result (λ next. spec.of_decl tree.old first ≡ (tree.new, next)) }
{
    match tree {
        Decl::Function(node) => {
            let next = number_specifiers(&mut node.specifiers, behind(first)?)?;
            let next = number_declarator(&mut node.declarator, next)?;
            let next = number_stmt(&mut node.body, next)?;
            node.ordinal = first;
            Ok(next)
        }
        Decl::Declare(node) => number_declare(node, first),
        Decl::Empty(node) => {
            node.ordinal = first;
            behind(first)
        }
    }
}

/// External declarations one after another.
fn decls(tree: &mut Seq<Decl>, first: u32) -> Result<u32, NoMemory>
    ensures { IfOk result (λ next. spec.list_of spec.of_decl tree.old first ≡ (tree.new, next)) }
{
    decls_in(tree.list_mut(), first)
}

/// The same of those in a slice.
fn decls_in(tree: &mut [Decl], first: u32) -> Result<u32, NoMemory>
    ensures { IfOk result (λ next. spec.list_of spec.of_decl tree.old first ≡ (tree.new, next)) }
{
    let mut next = first;
    for i in 0..tree.len() {
        next = decl(&mut tree[i], next)?;
    }
    Ok(next)
}

/// Gives a tree its ordinals, from 0 on, in place of those that it had.
pub fn number_unit(tree: &mut Unit) -> Result<(), NoMemory>
    ensures { OnOk result (tree.new ≡ spec.numbered tree.old) }
{
    let _behind = decls(&mut tree.externals, 0)?;
    Ok(())
}
