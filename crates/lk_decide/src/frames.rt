//! Why the use of a slot, a call or the end of a frame is undefined.
ghost use Rattle.std.specs.Prelude.{◌≡◌};
ghost use Rattle.std.specs.List.{list_any};
ghost use Rattle.std.specs.Option.{option_copied};
ghost use Rattle.lk_decide.specs.Frames as spec;

use lk_cells::{Frame, State, Thread, all_used, given, object_at, operand};
use lk_values::{Value, Why, either};

/// A slot's value is used (C99 6.2.4, 5).
pub(crate) fn slot_cause(frame: &Frame, slot: u32) -> Option<Why>
    ensures { result ≡ spec.slot_cause frame.now slot }
{
    match frame.slots.get(slot as usize) {
        Some(Value::Indeterminate) => Some(Why::Indeterminate),
        Some(
            Value::Number(_, _)
            | Value::Pointer(_)
            | Value::Function(_)
            | Value::Null
            | Value::Thread(_),
        )
        | None => None,
    }
}

/// Whether a mutex in the object of this number is owned.
pub(crate) fn is_owned_in(state: &State, object: u32) -> bool
    ensures { result ≡ spec.is_owned_in state.now object }
{
    match object_at(state, object) {
        Some(found) => found.has_owned(),
        None => false,
    }
}

/// Whether a mutex is owned in an object of a frame's locals.
fn is_owned_by(state: &State, frame: &Frame) -> bool
    ensures { result ≡ spec.is_owned_by state.now frame.now }
{
    for local in frame.locals.list() {
        if is_owned_in(state, local.object) {
            return true;
        }
    }
    false
}

/// Whether a mutex is owned in an object of the locals of one of these frames.
fn is_owned_by_any(state: &State, frames: &[Frame]) -> bool
    ensures { result ≡ list_any (spec.is_owned_by state.now) frames.now }
{
    for frame in frames {
        if is_owned_by(state, frame) {
            return true;
        }
    }
    false
}

/// A thread's frame ends with its locals: no mutex in them is owned.
pub(crate) fn own_end(state: &State, thread: &Thread) -> Option<Why>
    ensures { result ≡ spec.own_end state.now thread.now }
{
    Why::OwnedLock.when(is_owned_by(state, &thread.frame))
}

/// All frames of a thread end with their locals: no mutex in them is owned.
pub(crate) fn all_end(state: &State, thread: &Thread) -> Option<Why>
    ensures { result ≡ spec.all_end state.now thread.now }
{
    let owned = is_owned_by(state, &thread.frame) || is_owned_by_any(state, thread.below.list());
    Why::OwnedLock.when(owned)
}

/// A function is called through a pointer (C99 6.5.2.2).
fn callee_cause(value: Option<&Value>) -> Option<Why>
    ensures { result ≡ spec.callee_cause (option_copied value.entry) }
{
    match value {
        None => Some(Why::NoValue),
        Some(Value::Function(_)) => None,
        Some(Value::Null) => Some(Why::Null),
        Some(Value::Indeterminate) => Some(Why::Indeterminate),
        Some(Value::Number(_, _) | Value::Pointer(_) | Value::Thread(_)) => Some(Why::WrongType),
    }
}

/// A function is called through a pointer.
pub(crate) fn call_row(thread: &Thread, a: u32, args: &[u32]) -> Option<Why>
    ensures { result ≡ spec.call_row thread.now a args.now }
{
    either(
        callee_cause(operand(&thread.frame, a)),
        all_used(&thread.frame, args),
    )
}

/// A function returns, with the value of an operand where there is one.
pub(crate) fn return_row(state: &State, thread: &Thread, a: Option<u32>) -> Option<Why>
    ensures { result ≡ spec.return_row state.now thread.now a }
{
    match a {
        Some(a) => either(given(operand(&thread.frame, a)), own_end(state, thread)),
        None => own_end(state, thread),
    }
}
