//! Branches, calls and returns.
ghost use Rattle.std.specs.Prelude.{◌≡◌, IfOk};
ghost use Rattle.std.specs.Option.{option_copied};
ghost use Rattle.lk_change.specs.Calls as spec;

use crate::change::{Call, Change, Effect};
use crate::copies::copied;
use crate::going::{goes, successor};
use lk_base::{NoMemory, Seq};
use lk_cells::{Thread, all_given, condition_in, function_in, number_in, operand};
use lk_facts::Points;
use lk_values::Value;
use std::alloc::Global;

/// Goes to the first successor where a condition holds, else to the second (C99 6.8.4.1).
pub(crate) fn branched(points: &Points, point: u32, value: Option<&Value>) -> Option<Change>
    ensures { result ≡ spec.branched points.now point (option_copied value.entry) }
{
    if condition_in(value)? {
        goes(points, point, 0, None, Effect::Nothing)
    } else {
        goes(points, point, 1, None, Effect::Nothing)
    }
}

/// The place of a number among the values of cases, or how many there are.
fn case_of(number: i128, cases: &[i128]) -> usize
    ensures { result ≡ spec.case_of number cases.now }
{
    for place in 0..cases.len() {
        if number == cases[place] {
            return place;
        }
    }
    cases.len()
}

/// Goes to the successor of the case whose value it is, else to the last one (C99 6.8.4.2).
pub(crate) fn switched(
    points: &Points,
    point: u32,
    value: Option<&Value>,
    cases: &[i128],
) -> Option<Change>
    ensures { result ≡ spec.switched points.now point (option_copied value.entry) cases.now }
{
    let number = number_in(value)?;
    goes(points, point, case_of(number, cases), None, Effect::Nothing)
}

/// A call of a function that is there, which begins at its entry.
pub(crate) fn call_of(points: &Points, function: u32, args: Seq<Value>) -> Option<Call>
    ensures { result ≡ spec.call_of points.now function args }
{
    if function < points.functions() {
        Some(Call {
            function,
            entry: points.entry(function),
            args,
        })
    } else {
        None
    }
}

/// Enters a function with the values of operands (C99 6.5.2.2).
pub(crate) fn enters(
    alloc: Global,
    points: &Points,
    thread: &Thread,
    function: u32,
    args: &[u32],
) -> Result<Option<Change>, NoMemory>
    ensures { IfOk result (λ change. change ≡ spec.enters points.now thread.now function args.now) }
{
    let Some(values) = all_given(alloc, &thread.frame, args)? else {
        return Ok(None);
    };
    match call_of(points, function, values) {
        Some(call) => Ok(Some(Change::Enter(call))),
        None => Ok(None),
    }
}

/// Enters the function that a pointer names (C99 6.5.2.2).
pub(crate) fn enters_through(
    alloc: Global,
    points: &Points,
    thread: &Thread,
    a: u32,
    args: &[u32],
) -> Result<Option<Change>, NoMemory>
    ensures { IfOk result (λ change. change ≡ spec.enters_through points.now thread.now a args.now) }
{
    match function_in(operand(&thread.frame, a)) {
        Some(function) => {
            let change = enters(alloc, points, thread, function, args)?;
            Ok(change)
        }
        None => Ok(None),
    }
}

/// Returns to the frame below; from a thread's first frame ends the thread, from main's the
/// process (C99 5.1.2.2.3, 6.8.6.4).
fn returns(points: &Points, t: u32, thread: &Thread, value: Option<Value>) -> Option<Change>
    ensures { result ≡ spec.returns points.now t thread.now value }
{
    match thread.below.list().last() {
        Some(caller) => match successor(points, caller.point, 0) {
            Some(next) => Some(Change::Leave(value, next)),
            None => None,
        },
        None => Some(if t == 0 {
            Change::EndProcess
        } else {
            Change::EndThread
        }),
    }
}

/// Returns with the value of an operand (C99 6.8.6.4, 3).
fn returns_value(
    points: &Points,
    t: u32,
    thread: &Thread,
    a: u32,
) -> Result<Option<Change>, NoMemory>
    ensures { IfOk result (λ change. change ≡ spec.returns_value points.now t thread.now a) }
{
    match copied(operand(&thread.frame, a))? {
        Some(value) => Ok(returns(points, t, thread, Some(value))),
        None => Ok(None),
    }
}

/// Returns, with the value of an operand where there is one (C99 6.8.6.4).
pub(crate) fn returns_by(
    points: &Points,
    t: u32,
    thread: &Thread,
    a: Option<u32>,
) -> Result<Option<Change>, NoMemory>
    ensures { IfOk result (λ change. change ≡ spec.returns_by points.now t thread.now a) }
{
    match a {
        None => Ok(returns(points, t, thread, None)),
        Some(a) => {
            let change = returns_value(points, t, thread, a)?;
            Ok(change)
        }
    }
}
