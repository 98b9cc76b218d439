//! The labels of a statement (C99 6.2.1, 3).
ghost use Rattle.std.specs.Prelude.{◌≡◌, IfOk, OnOk};
ghost use Rattle.lk_typed.specs.Labels.{labels};
ghost use Rattle.lk_labels.specs.Leasts.{AreLabels, put_labels};
ghost use Rattle.lk_labels.specs.Parts.{labels_of_items};

use crate::labels::Labels;
use lk_base::{Boxed, NoMemory};
use lk_tree::{BlockItem, Stmt, StmtForm};
use std::alloc::Global;

/// Puts the labels of the items of a block.
#[cycle(labels)]
fn put_items(items: &[BlockItem], out: &mut Labels) -> Result<(), NoMemory>
    ensures { OnOk result (out.new ≡ put_labels out.old (labels_of_items items.now)) }
{
    for item in items {
        match item {
            BlockItem::Declare(_) => {}
            BlockItem::Stmt(inner) => put_labels(inner, out)?,
        }
    }
    Ok(())
}

/// Puts the labels of a statement, in the order of the text.
#[cycle(labels)]
#[tactic(auto, unfolding(lk_typed::specs::Labels::labels))]
fn put_labels(s: &Stmt, out: &mut Labels) -> Result<(), NoMemory>
    ensures { OnOk result (out.new ≡ put_labels out.old (labels s.now)) }
{
    match &s.form {
        StmtForm::Label(name, inner) => {
            out.put(name, s.ordinal)?;
            put_labels(inner.get(), out)
        }
        StmtForm::Case(_, inner)
        | StmtForm::Default(inner)
        | StmtForm::Switch(_, inner)
        | StmtForm::While(_, inner)
        | StmtForm::Until(inner, _)
        | StmtForm::For(_, _, _, inner) => put_labels(inner.get(), out),
        StmtForm::Block(items) => put_items(items.list(), out),
        StmtForm::If(_, taken, other) => {
            put_labels(taken.get(), out)?;
            match other {
                Some(other) => put_labels(other.get(), out),
                None => Ok(()),
            }
        }
        StmtForm::Do(_)
        | StmtForm::Goto(_)
        | StmtForm::Continue
        | StmtForm::Break
        | StmtForm::Return(_) => Ok(()),
    }
}

/// The labels of a function, by its body.
pub fn labels_of(alloc: Global, s: &Stmt) -> Result<Labels, NoMemory>
    ensures { IfOk result (λ found. AreLabels found (labels s.now)) }
{
    let mut found = Labels::new(alloc);
    put_labels(s, &mut found)?;
    Ok(found)
}
