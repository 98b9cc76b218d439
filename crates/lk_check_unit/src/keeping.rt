//! Codes of statements.
ghost use Rattle.std.specs.Prelude.{OnOk, option_map};
ghost use Rattle.lk_tree.specs.declared.statement.StmtForm.{out-StmtForm};
ghost use Rattle.lk_checker.specs.States.{Tells};
ghost use Rattle.lk_check_unit.specs.Bodies.{at_stmt, name_told};

use lk_base::{Code, NoMemory};
use lk_checker::Checker;
use lk_found::At;
use lk_tree::{Stmt, StmtForm};

/// Keeps the code of a statement, where there is one: that of a label and of a `goto` tells its name.
pub(crate) fn keep_code(checker: &mut Checker, s: &Stmt, code: Option<Code>) -> Result<(), NoMemory>
    ensures { OnOk result (Tells checker.old checker.new (at_stmt s.now)
        (option_map (λ code. record { code = code; name = name_told (out-StmtForm s.now.form) }) code)) }
{
    let at = At {
        spot: s.spot,
        ordinal: s.ordinal,
    };
    match &s.form {
        StmtForm::Label(name, _) | StmtForm::Goto(name) => checker.keep_named(at, code, name),
        StmtForm::Case(..)
        | StmtForm::Default(_)
        | StmtForm::Block(_)
        | StmtForm::Do(_)
        | StmtForm::If(..)
        | StmtForm::Switch(..)
        | StmtForm::While(..)
        | StmtForm::Until(..)
        | StmtForm::For(..)
        | StmtForm::Continue
        | StmtForm::Break
        | StmtForm::Return(_) => checker.keep(at, code),
    }
}
