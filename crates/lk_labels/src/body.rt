//! The body of a function (C99 6.9.1).
ghost use Rattle.std.specs.Prelude.{◌≡◌};
ghost use Rattle.lk_tree.specs.declared.statement.StmtForm.{out-StmtForm};
ghost use Rattle.lk_typed.specs.NodeParts as spec;

use lk_tree::{BlockItem, Stmt, StmtForm};

/// The items of a body, which is a block.
pub fn items_of(body: &Stmt) -> &[BlockItem]
    ensures { result.now ≡ spec.body_items (out-StmtForm body.now.form) }
{
    match &body.form {
        StmtForm::Block(items) => items.list(),
        StmtForm::Label(..)
        | StmtForm::Case(..)
        | StmtForm::Default(_)
        | StmtForm::Do(_)
        | StmtForm::If(..)
        | StmtForm::Switch(..)
        | StmtForm::While(..)
        | StmtForm::Until(..)
        | StmtForm::For(..)
        | StmtForm::Goto(_)
        | StmtForm::Continue
        | StmtForm::Break
        | StmtForm::Return(_) => &[],
    }
}
