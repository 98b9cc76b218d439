//! The walk over the function and the arguments of a call (C99 6.5.2.2).
ghost use Rattle.std.specs.Prelude.{◌≡◌, IfOk, OnOk};
ghost use Rattle.lk_found.specs.Arguments.{AreOperands, function_in};
ghost use Rattle.lk_found.specs.Judging.{HasOperand};
ghost use Rattle.lk_checker.specs.Moves.{IsFurther};
ghost use Rattle.lk_checker.specs.States.{IsSound};
ghost use Rattle.lk_check_walk.specs.Arguments.{JudgesArguments};
ghost use Rattle.lk_check_walk.specs.Walking.{Judges};

use crate::expressions::judge;
use lk_base::NoMemory;
use lk_checker::Checker;
use lk_found::{Found, Given, Stands};
use lk_tree::Expr;
use lk_typed::Role;

/// What is found of the function of a call.
#[cycle(walk)]
pub(crate) fn judge_function(
    checker: &mut Checker,
    e: &Expr,
    in_size: bool,
) -> Result<Found, NoMemory>
    requires { IsSound checker.old }
    ensures judged { IfOk result (λ found. Judges checker.old checker.new (function_in in_size) e.now found) }
    ensures further { OnOk result (IsFurther checker.old checker.new) }
    ensures operand { IfOk result (λ found. HasOperand checker.new.types found) }
{
    let stands = Stands {
        role: Role::Function,
        in_size,
    };
    let found = judge(checker, e, stands)?;
    Ok(found)
}

/// What is found of the arguments of a call of this function, one after the other. The function is handed on.
#[cycle(walk)]
pub(crate) fn judge_arguments(
    checker: &mut Checker,
    f: &Found,
    arguments: &[Expr],
    in_size: bool,
) -> Result<(Found, Given), NoMemory>
    requires sound { IsSound checker.old }
    requires function { HasOperand checker.old.types f.now }
    ensures judged { IfOk result (λ called.
        JudgesArguments checker.old checker.new in_size f.now arguments.now called.1) }
    ensures further { OnOk result (IsFurther checker.old checker.new) }
    ensures operands { IfOk result (λ called. AreOperands checker.new.types called.1) }
    ensures same { IfOk result (λ called. called.0 ≡ f.now) }
{
    let mut given = Given::none(checker.alloc);
    for (index, argument) in arguments.iter().enumerate() {
        let stands = checker.as_argument(f, index, in_size);
        let a = judge(checker, argument, stands)?;
        given.add(&a)?;
    }
    Ok((*f, given))
}
