//! Arguments of calls (C99 6.5.2.2).
ghost use Rattle.std.specs.Prelude.{IfOk, OnOk, Some};
ghost use Rattle.lk_elaborator.specs.Converting.{Gives, StandsAnyhow};
ghost use Rattle.lk_elaborator.specs.Known.{OfEach};
ghost use Rattle.lk_elaborator.specs.Leading.{Grows};
ghost use Rattle.lk_elab_expr.specs.PassedArguments.{IsPassedFor, PassesAll, PassesAs, PassesFor, PromotedValue};
ghost use Rattle.lk_elab_expr.specs.PassedArguments.{PutsArgument, PutsPart, WantsNone};

use crate::expressions::part_node;
use crate::operators::promoted_at;
use lk_base::{NoMemory, Seq};
use lk_check_expr::{Argument, Passing, passing};
use lk_elaborator::{
    Elaborator, Part, converted_operand, found_of, given_part, nowhere, typing_at,
};
use lk_tree::Expr;
use lk_typed::TypedExpr;

/// How the argument with an index is passed to the function with a number, where that has a parameter for it.
fn passing_at(walk: &Elaborator, function: u32, index: usize) -> Result<Option<Passing>, NoMemory>
    ensures { IfOk result (λ pass. OfEach walk.now function (λ f.
        IsPassedFor walk.now.types f index pass)) }
{
    let found = found_of(walk, function)?;
    let typing = typing_at(walk, function)?;
    let function = Argument {
        typing,
        look: found.look,
    };
    Ok(passing(walk.types.table(), &function, index))
}

/// No parameter of the function with a number is without an argument, where there
/// are so many (C99 6.5.2.2, 2).
fn none_wanting(walk: &Elaborator, function: u32, count: usize) -> Result<(), NoMemory>
    ensures { OnOk result (OfEach walk.now function (λ f. WantsNone f count)) }
{
    match passing_at(walk, function, count) {
        Ok(Some(_)) => Err(nowhere()),
        Ok(None) => Ok(()),
        Err(NoMemory) => Err(NoMemory),
    }
}

/// What stands for an argument behind those that have a parameter: it is promoted (C99 6.5.2.2, 7).
fn further(walk: &mut Elaborator, argument: u32) -> Result<Part, NoMemory>
    ensures promoted { IfOk result (λ part. Gives walk.old walk.new argument part PromotedValue) }
    ensures role { IfOk result StandsAnyhow }
    ensures grows { OnOk result (Grows walk.old walk.new) }
{
    let target = promoted_at(walk, argument)?;
    let part = converted_operand(walk, argument, &target)?;
    Ok(part)
}

/// What stands for the argument with a number, which is passed to its parameter so, where it computes
/// something. It is converted to that (C99 6.5.2.2, 7). The size of an allocation is none here.
fn passed_to(walk: &mut Elaborator, pass: Passing, argument: u32) -> Result<Option<Part>, NoMemory>
    ensures passes { IfOk result (PassesAs walk.old walk.new (Some pass) argument) }
    ensures grows { OnOk result (Grows walk.old walk.new) }
{
    match pass {
        Passing::Converted(target) => {
            let part = given_part(walk, argument, &target)?;
            Ok(Some(part))
        }
        Passing::NullFor(_) | Passing::Routine => Ok(None),
        Passing::Size => Err(nowhere()),
    }
}

/// What stands for the argument with a number, which is passed so, where it computes something.
fn passed_as(
    walk: &mut Elaborator,
    pass: Option<Passing>,
    argument: u32,
) -> Result<Option<Part>, NoMemory>
    ensures passes { IfOk result (PassesAs walk.old walk.new pass argument) }
    ensures grows { OnOk result (Grows walk.old walk.new) }
{
    match pass {
        Some(pass) => passed_to(walk, pass, argument),
        None => {
            let part = further(walk, argument)?;
            Ok(Some(part))
        }
    }
}

/// What stands for the argument with an index and a number of the function with that number,
/// where it computes something.
fn argument_part(
    walk: &mut Elaborator,
    function: u32,
    index: usize,
    argument: u32,
) -> Result<Option<Part>, NoMemory>
    ensures passes { IfOk result (PassesFor walk.old walk.new function index argument) }
    ensures grows { OnOk result (Grows walk.old walk.new) }
{
    match passing_at(walk, function, index) {
        Ok(pass) => passed_as(walk, pass, argument),
        Err(NoMemory) => Err(NoMemory),
    }
}

/// Puts what stands for an argument, where it computes something.
#[cycle(walk)]
fn put_part(
    walk: &mut Elaborator,
    e: &Expr,
    part: Option<Part>,
    folded: bool,
    out: &mut Seq<TypedExpr>,
) -> Result<(), NoMemory>
    ensures puts { OnOk result (PutsPart walk.old walk.new e.now part folded out.old out.new) }
    ensures grows { OnOk result (Grows walk.old walk.new) }
{
    match part {
        Some(part) => {
            let node = part_node(walk, e, part, folded)?;
            out.push(node)?;
            Ok(())
        }
        None => Ok(()),
    }
}

/// Puts the argument with an index of the function with a number, where it computes something.
#[cycle(walk)]
fn put_argument(
    walk: &mut Elaborator,
    function: u32,
    index: usize,
    e: &Expr,
    folded: bool,
    out: &mut Seq<TypedExpr>,
) -> Result<(), NoMemory>
    ensures puts { OnOk result (
        PutsArgument walk.old walk.new function index e.now folded out.old out.new) }
    ensures grows { OnOk result (Grows walk.old walk.new) }
{
    match argument_part(walk, function, index, e.ordinal) {
        Ok(part) => {
            put_part(walk, e, part, folded, out)?;
            Ok(())
        }
        Err(NoMemory) => Err(NoMemory),
    }
}

/// Those arguments of the function with a number that compute something, in the
/// order of the text (`ArePassed`).
#[cycle(walk)]
pub(crate) fn passed_arguments(
    walk: &mut Elaborator,
    function: u32,
    arguments: &[Expr],
    folded: bool,
) -> Result<Seq<TypedExpr>, NoMemory>
    ensures passed { IfOk result (PassesAll walk.old walk.new function arguments.now folded) }
    ensures grows { OnOk result (Grows walk.old walk.new) }
{
    let mut out = Seq::new(Vec::new(walk.alloc));
    for (index, e) in arguments.iter().enumerate() {
        put_argument(walk, function, index, e, folded, &mut out)?;
    }
    none_wanting(walk, function, arguments.len())?;
    Ok(out)
}
