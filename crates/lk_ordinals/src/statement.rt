//! Ordinals in statements.
#![tactic(auto, using(lk_base::proofs::Lending::written_is), unfolding(lk_tree::specs::Numbers::statement))]

ghost use Rattle.std.specs.Prelude.{◌≡◌, IfOk, map};
ghost use Rattle.std.specs.Option.{option_map};
ghost use Rattle.lk_ordinals.specs.Parts as part;
ghost use Rattle.lk_tree.specs.Numbers as spec;

use crate::declaration::number_declare;
use crate::expression::number_expr;
use crate::next::behind;
use lk_base::{Boxed, NoMemory, Seq};
use lk_tree::{BlockItem, Expr, ForFirst, Stmt, StmtForm};

/// Gives a statement its ordinals, from this one on, and answers the ordinal behind them.
#[cycle(statements)]
pub fn number_stmt(tree: &mut Stmt, first: u32) -> Result<u32, NoMemory>
    ensures { IfOk result (λ next. spec.statement tree.old first ≡ (tree.new, next)) }
{
    let next = stmt_form(&mut tree.form, behind(first)?)?;
    tree.ordinal = first;
    Ok(next)
}

/// The same of one in a box, where there is one.
#[cycle(statements)]
fn boxed_stmt_if_any(tree: &mut Option<Boxed<Stmt>>, first: u32) -> Result<u32, NoMemory>
    ensures { IfOk result (λ next. spec.optional (option_map spec.statement tree.old) first ≡ (tree.new, next)) }
{
    match tree {
        None => Ok(first),
        Some(one) => number_stmt(one.get_mut(), first),
    }
}

/// The items of a block.
#[cycle(statements)]
fn block_items(tree: &mut Seq<BlockItem>, first: u32) -> Result<u32, NoMemory>
    ensures { IfOk result (λ next. spec.list (map part.block_item tree.old) first ≡ (tree.new, next)) }
{
    block_items_in(tree.list_mut(), first)
}

/// The same of those in a slice.
#[cycle(statements)]
fn block_items_in(tree: &mut [BlockItem], first: u32) -> Result<u32, NoMemory>
    ensures { IfOk result (λ next. spec.list (map part.block_item tree.old) first ≡ (tree.new, next)) }
{
    let mut next = first;
    for i in 0..tree.len() {
        next = block_item(&mut tree[i], next)?;
    }
    Ok(next)
}

/// An item of a block.
#[cycle(statements)]
fn block_item(tree: &mut BlockItem, first: u32) -> Result<u32, NoMemory>
    ensures { IfOk result (λ next. part.block_item tree.old first ≡ (tree.new, next)) }
{
    match tree {
        BlockItem::Declare(node) => number_declare(node, first),
        BlockItem::Stmt(inner) => number_stmt(inner, first),
    }
}

/// What is inside a statement.
#[cycle(statements)]
fn stmt_form(tree: &mut StmtForm, first: u32) -> Result<u32, NoMemory>
    ensures { IfOk result (λ next. part.stmt_form tree.old first ≡ (tree.new, next)) }
{
    match tree {
        StmtForm::Label(_, inner) => number_stmt(inner.get_mut(), first),
        StmtForm::Case(value, inner) => {
            let next = number_expr(value, first)?;
            number_stmt(inner.get_mut(), next)
        }
        StmtForm::Default(inner) => number_stmt(inner.get_mut(), first),
        StmtForm::Block(items) => {
            let next = block_items(items, first)?;
            Ok(next)
        }
        StmtForm::Do(value) => expr_if_any(value, first),
        StmtForm::If(value, yes, no) => {
            let next = number_expr(value, first)?;
            let next = number_stmt(yes.get_mut(), next)?;
            boxed_stmt_if_any(no, next)
        }
        StmtForm::Switch(value, inner) => {
            let next = number_expr(value, first)?;
            number_stmt(inner.get_mut(), next)
        }
        StmtForm::While(value, inner) => {
            let next = number_expr(value, first)?;
            number_stmt(inner.get_mut(), next)
        }
        StmtForm::Until(inner, value) => {
            let next = number_stmt(inner.get_mut(), first)?;
            number_expr(value, next)
        }
        StmtForm::For(start, value, step, inner) => {
            let next = for_first(start, first)?;
            let next = expr_if_any(value, next)?;
            let next = expr_if_any(step, next)?;
            number_stmt(inner.get_mut(), next)
        }
        StmtForm::Goto(_) => Ok(first),
        StmtForm::Continue => Ok(first),
        StmtForm::Break => Ok(first),
        StmtForm::Return(value) => expr_if_any(value, first),
    }
}

/// An expression, where there is one.
fn expr_if_any(tree: &mut Option<Expr>, first: u32) -> Result<u32, NoMemory>
    ensures { IfOk result (λ next. spec.optional_of spec.expr tree.old first ≡ (tree.new, next)) }
{
    match tree {
        None => Ok(first),
        Some(one) => number_expr(one, first),
    }
}

/// The first part of a `for`.
fn for_first(tree: &mut ForFirst, first: u32) -> Result<u32, NoMemory>
    ensures { IfOk result (λ next. spec.of_first tree.old first ≡ (tree.new, next)) }
{
    match tree {
        ForFirst::Expr(value) => expr_if_any(value, first),
        ForFirst::Declare(node) => number_declare(node, first),
    }
}
