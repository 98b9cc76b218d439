//! Why a mutex or a condition variable isn't used.
ghost use Rattle.std.specs.Prelude.{◌≡◌, IfOk};
ghost use Rattle.std.specs.Option.{option_copied};
ghost use Rattle.lk_cells.specs.Operands as of_operand;
ghost use Rattle.lk_decide.specs.Locks as spec;

use lk_base::NoMemory;
use lk_cells::{
    State, Thread, condition_through, current, followed, is_condition_unready, is_not_of, is_taken,
    is_unready, mutex_through,
};
use lk_facts::Points;
use lk_values::{Value, Why, either};

/// A mutex is locked (POSIX pthread_mutex_lock).
pub(crate) fn lock_row(points: &Points, state: &State, value: Option<&Value>) -> Option<Why>
    ensures { result ≡ spec.lock_row points.now state.now (option_copied value.entry) }
{
    let unready = is_unready(mutex_through(points.types(), state, value));
    either(followed(state, value), Why::NotReady.when(unready))
}

/// A mutex is unlocked by a thread (POSIX pthread_mutex_unlock).
pub(crate) fn unlock_row(
    points: &Points,
    state: &State,
    thread: u32,
    value: Option<&Value>,
) -> Option<Why>
    ensures { result ≡ spec.unlock_row points.now state.now thread (option_copied value.entry) }
{
    let foreign = is_not_of(thread, mutex_through(points.types(), state, value));
    either(followed(state, value), Why::NotOwner.when(foreign))
}

/// A condition variable is waited for or signalled (POSIX pthread_cond_wait, pthread_cond_signal).
pub(crate) fn signal_row(points: &Points, state: &State, value: Option<&Value>) -> Option<Why>
    ensures { result ≡ spec.signal_row points.now state.now (option_copied value.entry) }
{
    let unready = is_condition_unready(condition_through(points.types(), state, value));
    either(followed(state, value), Why::NotReady.when(unready))
}

/// A mutex or condition variable is made ready (POSIX pthread_mutex_init, pthread_cond_init).
pub(crate) fn init_row(points: &Points, state: &State, value: Option<&Value>) -> Option<Why>
    ensures { result ≡ spec.init_row points.now state.now (option_copied value.entry) }
{
    let taken = is_taken(mutex_through(points.types(), state, value));
    either(followed(state, value), Why::OwnedLock.when(taken))
}

/// A place is filled, from the cell on at which the point stands.
pub(crate) fn fill_row(
    points: &Points,
    state: &State,
    thread: &Thread,
    a: u32,
) -> Result<Option<Why>, NoMemory>
    ensures { IfOk result (λ cause. cause ≡
        spec.init_row points.now state.now (of_operand.current thread.now a)) }
{
    let value = current(thread, a)?;
    Ok(init_row(points, state, value.as_ref()))
}

/// A thread frees a mutex to wait on a condition variable (POSIX pthread_cond_wait).
pub(crate) fn release_row(
    points: &Points,
    state: &State,
    thread: u32,
    condition: Option<&Value>,
    mutex: Option<&Value>,
) -> Option<Why>
    ensures { result ≡
        spec.release_row points.now state.now thread (option_copied condition.entry)
        (option_copied mutex.entry) }
{
    either(
        unlock_row(points, state, thread, mutex),
        signal_row(points, state, condition),
    )
}

/// A mutex or condition variable is made not ready (POSIX pthread_mutex_destroy, pthread_cond_destroy).
pub(crate) fn destroy_row(points: &Points, state: &State, value: Option<&Value>) -> Option<Why>
    ensures { result ≡ spec.destroy_row points.now state.now (option_copied value.entry) }
{
    let unready = either(
        lock_row(points, state, value),
        signal_row(points, state, value),
    );
    either(init_row(points, state, value), unready)
}
