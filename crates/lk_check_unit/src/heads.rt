//! What stands in the parentheses of a `for` (C99 6.8.5.3).
ghost use Rattle.std.specs.Prelude.{◌≡◌, ◌&&◌, ◌++◌, List, [], OnOk, IfOk, if◌then◌else◌};
ghost use Rattle.lk_typed.specs.Faults.{Breach};
ghost use Rattle.lk_check_decl.specs.Breaches.{told};
ghost use Rattle.lk_checker.specs.States.{IsSound};
ghost use Rattle.lk_check_unit.specs.Bodies.{AsksFirst, Grows, WalksHead};

use crate::asking::{condition_if_any, dropped_if_any, nothing};
use crate::body::Asked;
use crate::declarations::declaration_in_block;
use lk_base::{Code, NoMemory};
use lk_checker::Checker;
use lk_tree::{Expr, ForFirst};
use lk_typed::lesser;

/// The first part.
fn first_part(checker: &mut Checker, first: &ForFirst) -> Result<Asked, NoMemory>
    requires { IsSound checker.old }
    ensures grows { OnOk result (Grows checker.old checker.new) }
    ensures asks { IfOk result (AsksFirst first.now checker.old checker.new) }
{
    match first {
        ForFirst::Expr(e) => dropped_if_any(checker, e),
        ForFirst::Declare(node) => {
            declaration_in_block(checker, node)?;
            Ok(nothing())
        }
    }
}

/// The code of three parts, where all have types.
fn all_codes(first: Asked, second: Asked, third: Asked) -> Option<Code>
    ensures { (a b c : List Breach) → first.code ≡ told a → second.code ≡ told b → third.code ≡ told c →
        result ≡ told (if (first.is_typed && second.is_typed) && third.is_typed then (a ++ b) ++ c else []) }
{
    if first.is_typed && second.is_typed && third.is_typed {
        lesser(lesser(first.code, second.code), third.code)
    } else {
        None
    }
}

/// All three parts: the code of the `for`.
pub(crate) fn for_head(
    checker: &mut Checker,
    first: &ForFirst,
    condition: &Option<Expr>,
    step: &Option<Expr>,
) -> Result<Option<Code>, NoMemory>
    requires { IsSound checker.old }
    ensures grows { OnOk result (Grows checker.old checker.new) }
    ensures walks { IfOk result (WalksHead first.now condition.now step.now checker.old checker.new) }
{
    let first = first_part(checker, first)?;
    let second = condition_if_any(checker, condition)?;
    let third = dropped_if_any(checker, step)?;
    Ok(all_codes(first, second, third))
}
