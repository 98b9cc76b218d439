//! Mutexes and condition variables that change.
ghost use Rattle.std.specs.Prelude.{◌≡◌, IfOk};
ghost use Rattle.std.specs.Option.{option_copied};
ghost use Rattle.lk_change.specs.Locks as spec;

use crate::change::{Change, Effect};
use crate::copies::copied_part;
use crate::going::{changes, succeeds};
use lk_base::NoMemory;
use lk_cells::{CellKind, State, Thread, condition_through, kind_through, mutex_through, operand};
use lk_facts::Points;
use lk_values::{Condition, Mutex, Value};

/// Puts a mutex that a pointer leads to into a state, where it leads to one.
fn mutex_made(
    points: &Points,
    state: &State,
    value: Option<&Value>,
    mutex: Mutex,
) -> Result<Option<Effect>, NoMemory>
    ensures { IfOk result (λ effect. effect ≡
        spec.mutex_made points.now state.now (option_copied value.entry) mutex) }
{
    if mutex_through(points.types(), state, value).is_none() {
        return Ok(None);
    }
    match copied_part(state, value)? {
        Some(part) => Ok(Some(Effect::PutMutex(part, mutex))),
        None => Ok(None),
    }
}

/// Makes a mutex or condition variable ready, the mutex free (POSIX pthread_mutex_init, pthread_cond_init).
fn made_ready(
    points: &Points,
    state: &State,
    value: Option<&Value>,
) -> Result<Option<Effect>, NoMemory>
    ensures { IfOk result (λ effect. effect ≡
        spec.made_ready points.now state.now (option_copied value.entry)) }
{
    let Some(part) = copied_part(state, value)? else {
        return Ok(None);
    };
    match kind_through(points.types(), state, value) {
        Some(CellKind::Mutex) => Ok(Some(Effect::PutMutex(part, Mutex::Free))),
        Some(CellKind::Condition) => Ok(Some(Effect::PutCondition(part, Condition::Ready))),
        Some(CellKind::Value) | None => Ok(None),
    }
}

/// Makes a mutex or condition variable not ready (POSIX pthread_mutex_destroy, pthread_cond_destroy).
fn made_unready(
    points: &Points,
    state: &State,
    value: Option<&Value>,
) -> Result<Option<Effect>, NoMemory>
    ensures { IfOk result (λ effect. effect ≡
        spec.made_unready points.now state.now (option_copied value.entry)) }
{
    let Some(part) = copied_part(state, value)? else {
        return Ok(None);
    };
    match kind_through(points.types(), state, value) {
        Some(CellKind::Mutex) => Ok(Some(Effect::PutMutex(part, Mutex::NotReady))),
        Some(CellKind::Condition) => Ok(Some(Effect::PutCondition(part, Condition::NotReady))),
        Some(CellKind::Value) | None => Ok(None),
    }
}

/// Frees a mutex to wait on a condition variable (POSIX pthread_cond_wait).
fn releases(
    points: &Points,
    state: &State,
    point: u32,
    condition: Option<&Value>,
    mutex: Option<&Value>,
) -> Result<Option<Change>, NoMemory>
    ensures { IfOk result (λ change. change ≡
        spec.releases points.now state.now point
        (option_copied condition.entry) (option_copied mutex.entry)) }
{
    if condition_through(points.types(), state, condition).is_none() {
        return Ok(None);
    }
    let effect = mutex_made(points, state, mutex, Mutex::Free)?;
    Ok(succeeds(points, point, effect))
}

/// Frees a mutex to wait on a condition variable, by their operands.
pub(crate) fn releases_by(
    points: &Points,
    state: &State,
    thread: &Thread,
    condition: u32,
    mutex: u32,
) -> Result<Option<Change>, NoMemory>
    ensures { IfOk result (λ change. change ≡
        spec.releases_by points.now state.now thread.now condition mutex) }
{
    let frame = &thread.frame;
    releases(
        points,
        state,
        frame.point,
        operand(frame, condition),
        operand(frame, mutex),
    )
}

/// Wakes threads that wait on a condition variable: any may wake at any time, so nothing changes
/// (POSIX pthread_cond_signal).
pub(crate) fn signals(
    points: &Points,
    state: &State,
    point: u32,
    condition: Option<&Value>,
) -> Option<Change>
    ensures { result ≡ spec.signals points.now state.now point (option_copied condition.entry) }
{
    condition_through(points.types(), state, condition)?;
    succeeds(points, point, Some(Effect::Nothing))
}

/// A thread takes a mutex, and the call gives 0 (POSIX pthread_mutex_lock).
pub(crate) fn locks(
    points: &Points,
    state: &State,
    t: u32,
    thread: &Thread,
    a: u32,
) -> Result<Option<Change>, NoMemory>
    ensures { IfOk result (λ change. change ≡ spec.locks points.now state.now t thread.now a) }
{
    let effect = mutex_made(points, state, operand(&thread.frame, a), Mutex::Owned(t))?;
    Ok(succeeds(points, thread.frame.point, effect))
}

/// A thread takes a mutex again after a wait (POSIX pthread_cond_wait).
pub(crate) fn retakes(
    points: &Points,
    state: &State,
    t: u32,
    thread: &Thread,
    a: u32,
) -> Result<Option<Change>, NoMemory>
    ensures { IfOk result (λ change. change ≡ spec.retakes points.now state.now t thread.now a) }
{
    let effect = mutex_made(points, state, operand(&thread.frame, a), Mutex::Owned(t))?;
    Ok(changes(points, thread.frame.point, effect))
}

/// A thread frees a mutex (POSIX pthread_mutex_unlock).
pub(crate) fn unlocks(
    points: &Points,
    state: &State,
    thread: &Thread,
    a: u32,
) -> Result<Option<Change>, NoMemory>
    ensures { IfOk result (λ change. change ≡ spec.unlocks points.now state.now thread.now a) }
{
    let effect = mutex_made(points, state, operand(&thread.frame, a), Mutex::Free)?;
    Ok(succeeds(points, thread.frame.point, effect))
}

/// A mutex or condition variable is made ready, and the call gives 0.
pub(crate) fn initialises(
    points: &Points,
    state: &State,
    thread: &Thread,
    a: u32,
) -> Result<Option<Change>, NoMemory>
    ensures { IfOk result (λ change. change ≡ spec.initialises points.now state.now thread.now a) }
{
    let effect = made_ready(points, state, operand(&thread.frame, a))?;
    Ok(succeeds(points, thread.frame.point, effect))
}

/// A mutex or condition variable is made not ready, and the call gives 0.
pub(crate) fn destroys(
    points: &Points,
    state: &State,
    thread: &Thread,
    a: u32,
) -> Result<Option<Change>, NoMemory>
    ensures { IfOk result (λ change. change ≡ spec.destroys points.now state.now thread.now a) }
{
    let effect = made_unready(points, state, operand(&thread.frame, a))?;
    Ok(succeeds(points, thread.frame.point, effect))
}
