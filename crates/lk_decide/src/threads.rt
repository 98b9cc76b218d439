//! Why a thread isn't joined or detached.
ghost use Rattle.std.specs.Prelude.{◌≡◌, ◌&&◌, not, nat_eq};
ghost use Rattle.std.specs.Option.{option_copied};
ghost use Rattle.lk_decide.specs.Threads as spec;

use lk_cells::{State, used};
use lk_values::{Value, Why, either};

/// Whether a thread that is there was neither joined nor detached.
fn may_be_joined(state: &State, thread: u32) -> bool
    ensures { result ≡ spec.may_be_joined state.now thread }
{
    match state.threads.get(thread as usize) {
        Some(found) => !(found.joined || found.detached),
        None => false,
    }
}

/// A thread id is joined by a thread (POSIX pthread_join).
fn join_cause(state: &State, own: u32, value: Option<&Value>) -> Option<Why>
    ensures { result ≡
        spec.id_cause (λ u. spec.may_be_joined state.now u && not (nat_eq u own))
        (option_copied value.entry) }
{
    match value {
        Some(Value::Thread(Some(named))) => Why::BadJoin.when(
            !(may_be_joined(state, *named) && *named != own),
        ),
        Some(Value::Thread(None)) => Some(Why::BadJoin),
        Some(Value::Number(_, _) | Value::Pointer(_) | Value::Function(_) | Value::Null) => Some(
            Why::WrongType,
        ),
        Some(Value::Indeterminate) | None => None,
    }
}

/// A thread id is detached (POSIX pthread_detach).
fn detach_cause(state: &State, value: Option<&Value>) -> Option<Why>
    ensures { result ≡ spec.id_cause (spec.may_be_joined state.now) (option_copied value.entry) }
{
    match value {
        Some(Value::Thread(Some(named))) => Why::BadJoin.when(!may_be_joined(state, *named)),
        Some(Value::Thread(None)) => Some(Why::BadJoin),
        Some(Value::Number(_, _) | Value::Pointer(_) | Value::Function(_) | Value::Null) => Some(
            Why::WrongType,
        ),
        Some(Value::Indeterminate) | None => None,
    }
}

/// A thread is joined by one of this number.
pub(crate) fn join_row(state: &State, own: u32, value: Option<&Value>) -> Option<Why>
    ensures { result ≡ spec.join_row state.now own (option_copied value.entry) }
{
    either(used(value), join_cause(state, own, value))
}

/// A thread is detached.
pub(crate) fn detach_row(state: &State, value: Option<&Value>) -> Option<Why>
    ensures { result ≡ spec.detach_row state.now (option_copied value.entry) }
{
    either(used(value), detach_cause(state, value))
}
