//! External declarations (C99 6.9).
ghost use Rattle.std.specs.Prelude.{OnOk};
ghost use Rattle.lk_checker.specs.States.{IsSound};
ghost use Rattle.lk_check_unit.specs.Bodies.{Grows};
ghost use Rattle.lk_check_unit.specs.Sources.{WalksExternal, WalksExternals};

use crate::declarations::declaration;
use crate::definitions::definition;
use crate::pending::Pending;
use lk_base::{NoMemory, Seq};
use lk_check_decl::Scope;
use lk_checker::Checker;
use lk_tree::Decl;

/// An external declaration.
fn external(checker: &mut Checker, d: &Decl, pending: &mut Seq<Pending>) -> Result<(), NoMemory>
    requires { IsSound checker.old }
    ensures grows { OnOk result (Grows checker.old checker.new) }
    ensures walks { OnOk result (WalksExternal checker.old checker.new d.now pending.old pending.new) }
{
    match d {
        Decl::Function(node) => definition(checker, node),
        Decl::Declare(node) => declaration(checker, Scope::File, node, pending),
        Decl::Empty(_) => Ok(()),
    }
}

/// The external declarations of a source, in their order.
pub(crate) fn externals(
    checker: &mut Checker,
    list: &[Decl],
    pending: &mut Seq<Pending>,
) -> Result<(), NoMemory>
    requires { IsSound checker.old }
    ensures grows { OnOk result (Grows checker.old checker.new) }
    ensures walks { OnOk result (WalksExternals checker.old checker.new list.now pending.old pending.new) }
{
    for d in list {
        external(checker, d, pending)?;
    }
    Ok(())
}
