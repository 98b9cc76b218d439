//! Where a thread waits.
ghost use Rattle.std.specs.Prelude.{◌≡◌};
ghost use Rattle.lk_decide.specs.Waiting as spec;

use lk_cells::{State, Thread, id_in, is_taken, mutex_through, operand};
use lk_facts::{Action, Points};

/// Whether a mutex is owned, by whichever thread (POSIX pthread_mutex_lock).
fn is_busy(points: &Points, state: &State, thread: &Thread, a: u32) -> bool
    ensures { result ≡ spec.is_busy points.now state.now thread.now a }
{
    is_taken(mutex_through(points.types(), state, operand(&thread.frame, a)))
}

/// Whether the thread of an id hasn't ended (POSIX pthread_join).
fn is_running(state: &State, thread: &Thread, a: u32) -> bool
    ensures { result ≡ spec.is_running state.now thread.now a }
{
    let Some(Some(named)) = id_in(operand(&thread.frame, a)) else {
        return false;
    };
    match state.threads.get(named as usize) {
        Some(other) => !other.ended,
        None => false,
    }
}

/// Whether an action that no cause makes undefined waits where it stands.
pub fn waits(points: &Points, state: &State, thread: &Thread, action: &Action) -> bool
    ensures { result ≡ spec.waits points.now state.now thread.now action.now }
{
    match action {
        Action::Lock(a) | Action::Retake(a) => is_busy(points, state, thread, *a),
        Action::Join(a) => is_running(state, thread, *a),
        Action::Value { .. }
        | Action::Null { .. }
        | Action::Func { .. }
        | Action::SelfId
        | Action::Root(_)
        | Action::Text(_)
        | Action::Field { .. }
        | Action::Index { .. }
        | Action::Read { .. }
        | Action::Write { .. }
        | Action::SlotRead(_)
        | Action::SlotWrite { .. }
        | Action::Unary { .. }
        | Action::Binary { .. }
        | Action::Compute { .. }
        | Action::Convert { .. }
        | Action::Branch(_)
        | Action::Switch { .. }
        | Action::Skip
        | Action::Call { .. }
        | Action::PointerCall { .. }
        | Action::Return(_)
        | Action::Create { .. }
        | Action::StoreId(_)
        | Action::Detach(_)
        | Action::ExitThread
        | Action::ExitProcess
        | Action::Unlock(_)
        | Action::Release { .. }
        | Action::Init(_)
        | Action::Destroy(_)
        | Action::Signal(_)
        | Action::Allocate { .. }
        | Action::Free(_)
        | Action::Scan(_)
        | Action::Fill { .. } => false,
    }
}
