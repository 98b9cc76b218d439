//! What is asked at the end of a source: whether the types of tentative definitions are complete (C99 6.9.2,
//! 2).
ghost use Rattle.std.specs.Prelude.{◌≡◌, OnOk};
ghost use Rattle.lk_base.specs.declared.code.Code.TheVariants as codes;
ghost use Rattle.lk_types.specs.Table.{IsKnown};
ghost use Rattle.lk_typed.specs.DeclaratorRules.{unless};
ghost use Rattle.lk_typed.specs.Env.{Env};
ghost use Rattle.lk_typed.specs.Meaning.{meaning};
ghost use Rattle.lk_typed.specs.Sizes.{is_complete as spec_complete};
ghost use Rattle.lk_typed.specs.Typings.{structs_in};
ghost use Rattle.lk_check_decl.specs.Breaches.{told};
ghost use Rattle.lk_checker.specs.Moves.{IsSame, KeepsAt};
ghost use Rattle.lk_checker.specs.States.{IsIn};
ghost use Rattle.lk_check_unit.specs.Later.{pending_rules, AreKnownPending, AsksAll};

use crate::pending::Pending;
use lk_base::{Code, NoMemory};
use lk_checker::Checker;
use lk_typed::{Members, is_complete};
use lk_types::{TypeId, TypeTable};

/// The code of an object whose type isn't complete.
fn incomplete_code(types: &TypeTable, structs: &[Members], ty: TypeId) -> Option<Code>
    requires { IsKnown types.now ty }
    ensures { result ≡ told
        (unless (spec_complete (structs_in types.now structs.now) (meaning types.now ty)) codes.Incomplete) }
{
    if is_complete(types, structs, ty) {
        None
    } else {
        Some(Code::Incomplete)
    }
}

/// Asks of one.
fn ask_one(checker: &mut Checker, pending: &Pending) -> Result<(), NoMemory>
    requires { IsKnown checker.old.types pending.now.ty }
    ensures kept { OnOk result ((at_end : Env) → IsIn checker.old at_end →
        KeepsAt checker.old checker.new pending.now.at
        (pending_rules at_end (meaning checker.old.types pending.now.ty))) }
    ensures same { OnOk result (IsSame checker.old checker.new) }
{
    let code = incomplete_code(&checker.types, checker.names.structs(), pending.ty);
    checker.keep(pending.at, code)
}

/// Asks of all.
pub(crate) fn ask_pending(checker: &mut Checker, list: &[Pending]) -> Result<(), NoMemory>
    requires { AreKnownPending checker.old.types list.now }
    ensures asks { OnOk result (AsksAll checker.old checker.new list.now) }
    ensures same { OnOk result (IsSame checker.old checker.new) }
{
    for pending in list {
        ask_one(checker, pending)?;
    }
    Ok(())
}
