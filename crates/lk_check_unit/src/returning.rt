//! Returns (C99 6.8.6.4).
ghost use Rattle.std.specs.Prelude.{◌≡◌, Some, OnOk, IfOk, IfSome, option_map};
ghost use Rattle.lk_types.specs.Table.{IsKnown};
ghost use Rattle.lk_typed.specs.Meaning.{meaning};
ghost use Rattle.lk_typed.specs.StatementRules as spec;
ghost use Rattle.lk_typed.specs.Typing.{Typing};
ghost use Rattle.lk_typed.specs.Typings.{IsOperand, IsTyping};
ghost use Rattle.lk_check_decl.specs.Breaches.{told};
ghost use Rattle.lk_checker.specs.States.{IsSound};
ghost use Rattle.lk_check_unit.specs.Bodies.{Grows, IsKnownResult, WalksReturn};
ghost use Rattle.lk_check_unit.specs.Converting.{conversion_rules, given_rules, IsReturnCode};

use crate::body::Body;
use crate::converting::{listed, stands_for};
use lk_base::{Code, NoMemory};
use lk_check_decl::{return_code, return_value_code};
use lk_check_walk::judge;
use lk_checker::Checker;
use lk_tree::Expr;
use lk_typed::{ExprType, Typed, convert_code, value};
use lk_types::{TypeId, TypeTable};

/// The code of the conversion of a value to the result of a function, where that is known.
fn conversion_code(types: &TypeTable, returned: &Option<TypeId>, v: &Typed) -> Option<Code>
    requires operand { IsOperand types.now v.now }
    requires known { IfSome returned.now (IsKnown types.now) }
    ensures { (x : Typing) → IsTyping types.now v.now x →
        result ≡ told (conversion_rules (option_map (meaning types.now) returned.now) x) }
{
    match returned {
        Some(t) => convert_code(types, &ExprType::Listed(*t), v),
        None => None,
    }
}

/// The code of a `return` with a value.
fn value_code(types: &TypeTable, returned: Option<TypeId>, typing: &Typed) -> Option<Code>
    requires operand { IsOperand types.now typing.now }
    requires known { IfSome returned (IsKnown types.now) }
    ensures { (x : Typing) → IsTyping types.now typing.now x → result ≡ told
        (spec.return_rules (option_map (meaning types.now) returned)
        (spec.Converted (given_rules (option_map (meaning types.now) returned) x))) }
{
    let v = value(types, typing);
    let conversion = conversion_code(types, &returned, &v);
    return_value_code(types, returned, conversion)
}

/// The same, where the value has a type.
fn code_if_typed(
    types: &TypeTable,
    returned: Option<TypeId>,
    typing: &Option<Typed>,
) -> Option<Code>
    requires operand { IfSome typing.now (IsOperand types.now) }
    requires known { IfSome returned (IsKnown types.now) }
    ensures { IsReturnCode types.now returned typing.now result }
{
    match typing {
        Some(typing) => value_code(types, returned, typing),
        None => None,
    }
}

/// A `return` with a value: its code.
fn return_value(
    checker: &mut Checker,
    e: &Expr,
    returned: Option<TypeId>,
) -> Result<Option<Code>, NoMemory>
    requires sound { IsSound checker.old }
    requires known { IfSome returned (IsKnown checker.old.types) }
    ensures grows { OnOk result (Grows checker.old checker.new) }
    ensures walks { IfOk result (WalksReturn (Some e.now) checker.old checker.new returned) }
{
    let ty = listed(&returned);
    let found = judge(checker, e, stands_for(&ty))?;
    Ok(code_if_typed(&checker.types, returned, &found.typing))
}

/// A `return`: its code.
pub(crate) fn returning(
    checker: &mut Checker,
    e: &Option<Expr>,
    body: &Body,
) -> Result<Option<Code>, NoMemory>
    requires sound { IsSound checker.old }
    requires known { IsKnownResult checker.old body.now }
    ensures grows { OnOk result (Grows checker.old checker.new) }
    ensures walks { IfOk result (WalksReturn e.now checker.old checker.new body.now.returned) }
{
    match e {
        Some(e) => return_value(checker, e, body.returned),
        None => Ok(return_code(&checker.types, body.returned)),
    }
}
