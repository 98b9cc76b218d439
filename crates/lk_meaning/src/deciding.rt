//! What a thread does next.
ghost use Rattle.std.specs.Prelude.{◌≡◌, ◌<◌, ◌^◌, IfOk, length};
ghost use Rattle.lk_meaning.specs.Decisions as spec;

use lk_base::NoMemory;
use lk_cells::{State, Thread};
use lk_change::{Change, change_of};
use lk_decide::{cause, waits};
use lk_facts::{Action, Points};
use lk_values::Why;
use std::alloc::Global;

/// What a thread does next, before the state is changed.
#[derive(Drop)]
pub enum Decision {
    /// It performs its point, which changes this.
    Moves(Change),
    /// It waits for a mutex, or for a thread to end.
    Waits,
    /// C or POSIX calls its step undefined.
    Undefined(Why),
}

/// What the thread of this number does next with an action.
pub(crate) fn decide_action(
    alloc: Global,
    points: &Points,
    state: &State,
    t: u32,
    thread: &Thread,
    word: u64,
    action: &Action,
) -> Result<Decision, NoMemory>
    requires { length state.now.objects < 2 ^ 32 }
    ensures { IfOk result (λ decision. decision
        ≡ spec.decision_of points.now state.now t thread.now word action.now) }
{
    if let Some(why) = cause(points, state, t, thread, action, alloc)? {
        return Ok(Decision::Undefined(why));
    }
    if waits(points, state, thread, action) {
        return Ok(Decision::Waits);
    }
    match change_of(alloc, points, state, t, thread, word, action)? {
        Some(change) => Ok(Decision::Moves(change)),
        None => Ok(Decision::Undefined(Why::WrongType)),
    }
}

/// What a thread that may go on does next.
pub fn decide(
    alloc: Global,
    points: &Points,
    state: &State,
    t: u32,
    thread: &Thread,
    word: u64,
) -> Result<Decision, NoMemory>
    requires { length state.now.objects < 2 ^ 32 }
    ensures { IfOk result (λ decision. decision ≡ spec.decision points.now state.now t thread.now word) }
{
    if thread.frame.point >= points.count() {
        return Ok(Decision::Undefined(Why::WrongType));
    }
    let action = points.action(thread.frame.point);
    let decision = decide_action(alloc, points, state, t, thread, word, action)?;
    Ok(decision)
}
