//! Threads that begin, are joined and are detached.
ghost use Rattle.std.specs.Prelude.{◌≡◌, IfOk};
ghost use Rattle.std.specs.Option.{option_copied, option_and_then};
ghost use Rattle.lk_cells.specs.Operands as of_operand;
ghost use Rattle.lk_change.specs.Threads as spec;

use crate::calls::call_of;
use crate::change::{Change, Effect};
use crate::copies::copied;
use crate::going::{goes, succeeds};
use lk_base::{Kind, NoMemory, Seq};
use lk_cells::{Thread, id_in, operand};
use lk_facts::Points;
use lk_values::Value;
use std::alloc::Global;

/// The thread that an id names.
fn thread_in(value: Option<&Value>) -> Option<u32>
    ensures { result ≡ spec.thread_in (option_copied value.entry) }
{
    match id_in(value) {
        Some(thread) => thread,
        None => None,
    }
}

/// Begins a thread; or fails with 11 by the word, and goes on past the step that stores
/// its id (POSIX pthread_create).
fn begins(
    alloc: Global,
    points: &Points,
    point: u32,
    word: u64,
    function: u32,
    argument: Value,
) -> Result<Option<Change>, NoMemory>
    ensures { IfOk result (λ change. change ≡ spec.begins points.now point word function argument) }
{
    if word == 0 {
        let failed = Some(Value::Number(Kind::Int, 11));
        return Ok(goes(points, point, 1, failed, Effect::Nothing));
    }
    let mut args = Vec::new(alloc);
    args.push(argument)?;
    match call_of(points, function, Seq::new(args)) {
        Some(call) => Ok(succeeds(points, point, Some(Effect::Begin(call)))),
        None => Ok(None),
    }
}

/// Begins a thread with the value of an operand (POSIX pthread_create).
pub(crate) fn begins_with(
    alloc: Global,
    points: &Points,
    thread: &Thread,
    word: u64,
    function: u32,
    a: u32,
) -> Result<Option<Change>, NoMemory>
    ensures { IfOk result (λ change. change ≡
        option_and_then (spec.begins points.now thread.now.frame.point word function)
        (of_operand.operand thread.now a)) }
{
    match copied(operand(&thread.frame, a))? {
        Some(value) => {
            let change = begins(alloc, points, thread.frame.point, word, function, value)?;
            Ok(change)
        }
        None => Ok(None),
    }
}

/// Joins the thread that an id names (POSIX pthread_join).
pub(crate) fn joins(points: &Points, point: u32, value: Option<&Value>) -> Option<Change>
    ensures { result ≡ spec.joins points.now point (option_copied value.entry) }
{
    let thread = thread_in(value)?;
    succeeds(points, point, Some(Effect::Join(thread)))
}

/// Detaches the thread that an id names (POSIX pthread_detach).
pub(crate) fn detaches(points: &Points, point: u32, value: Option<&Value>) -> Option<Change>
    ensures { result ≡ spec.detaches points.now point (option_copied value.entry) }
{
    let thread = thread_in(value)?;
    succeeds(points, point, Some(Effect::Detach(thread)))
}
