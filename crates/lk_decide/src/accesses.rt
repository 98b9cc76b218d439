//! Why an access of the memory is undefined: an index, a read, a write, a scan, a free.
ghost use Rattle.std.specs.Prelude.{◌≡◌, IfOk};
ghost use Rattle.std.specs.Option.{option_copied};
ghost use Rattle.lk_cells.specs.Operands as of_operand;
ghost use Rattle.lk_decide.specs.Accesses as spec;

use crate::frames::is_owned_in;
use crate::roots::{constant, kind_of_object, start_of};
use lk_base::NoMemory;
use lk_cells::{
    State, Thread, current, followed, given, moved_by, number_in, operand, part_of, used,
    value_through,
};
use lk_facts::Points;
use lk_values::{Pointer, Value, Why, either};
use std::alloc::Global;

/// A pointer is moved within its array and its end (C99 6.5.6, 8).
fn move_cause(
    points: &Points,
    state: &State,
    pointer: &Pointer,
    by: Option<i128>,
) -> Result<Option<Why>, NoMemory>
    ensures { IfOk result (λ cause. cause ≡ spec.move_cause points.now state.now pointer.now by) }
{
    let Some(number) = by else {
        return Ok(None);
    };
    let moved = moved_by(points.types(), state, pointer, number)?;
    Ok(Why::Outside.when(moved.is_none()))
}

/// `e[i]`: the pointer may be followed in its array, and moves within it and its end (C99 6.5.2.1).
fn moved_cause(
    points: &Points,
    state: &State,
    value: Option<&Value>,
    by: Option<i128>,
) -> Result<Option<Why>, NoMemory>
    ensures { IfOk result (λ cause. cause ≡
        spec.moved_cause points.now state.now (option_copied value.entry) by) }
{
    match value {
        Some(Value::Pointer(pointer)) => {
            let outside = move_cause(points, state, pointer, by)?;
            Ok(either(Why::Dead.when(!state.lives(pointer.part.object)), outside))
        }
        Some(Value::Null) => Ok(Some(Why::Null)),
        Some(Value::Number(_, _) | Value::Function(_) | Value::Thread(_)) => Ok(Some(
            Why::WrongType,
        )),
        Some(Value::Indeterminate) | None => Ok(None),
    }
}

/// An element of an array: the array is there, and has it or ends before it (C99 6.3.2.1, 3).
fn element_cause(
    points: &Points,
    state: &State,
    value: Option<&Value>,
    by: Option<i128>,
) -> Result<Option<Why>, NoMemory>
    ensures { IfOk result (λ cause. cause ≡
        spec.element_cause points.now state.now (option_copied value.entry) by) }
{
    let missing = followed(state, value);
    let Some(part) = part_of(state, value) else {
        return Ok(missing);
    };
    let array = Pointer::to(part.object, part.path.copy()?);
    let first = array.into_array()?;
    let outside = move_cause(points, state, &first, by)?;
    Ok(either(missing, outside))
}

/// An index of an array or a pointer (C99 6.5.2.1).
fn index_cause(
    points: &Points,
    state: &State,
    into: bool,
    value: Option<&Value>,
    by: Option<i128>,
) -> Result<Option<Why>, NoMemory>
    ensures { IfOk result (λ cause. cause ≡
        spec.index_cause points.now state.now into (option_copied value.entry) by) }
{
    if into {
        let cause = element_cause(points, state, value, by)?;
        return Ok(cause);
    }
    moved_cause(points, state, value, by)
}

/// An index: both operands are used.
pub(crate) fn index_row(
    points: &Points,
    state: &State,
    thread: &Thread,
    a: u32,
    b: u32,
    into: bool,
) -> Result<Option<Why>, NoMemory>
    ensures { IfOk result (λ cause. cause ≡ spec.index_row points.now state.now thread.now a b into) }
{
    let value = operand(&thread.frame, a);
    let by = operand(&thread.frame, b);
    let outside = index_cause(points, state, into, value, number_in(by))?;
    Ok(either(used(value), either(used(by), outside)))
}

/// A cell is read (C99 6.3.2.1, 2).
fn read_cause(
    points: &Points,
    state: &State,
    value: Option<&Value>,
) -> Result<Option<Why>, NoMemory>
    ensures { IfOk result (λ cause. cause ≡
        spec.read_cause points.now state.now (option_copied value.entry)) }
{
    let read = value_through(points.types(), state, value)?;
    let unknown = matches!(read, Some(Value::Indeterminate));
    Ok(either(followed(state, value), Why::Indeterminate.when(unknown)))
}

/// A write: the place, and what is written.
pub(crate) fn write_row(
    points: &Points,
    state: &State,
    thread: &Thread,
    a: u32,
    b: u32,
    raw: bool,
) -> Option<Why>
    ensures { result ≡ spec.write_row points.now state.now thread.now a b raw }
{
    let place = operand(&thread.frame, a);
    let value = operand(&thread.frame, b);
    let written = if raw { given(value) } else { used(value) };
    either(
        followed(state, place),
        either(constant(points, state, place), written),
    )
}

/// A text is scanned, from the cell on at which the point stands.
pub(crate) fn scan_row(
    points: &Points,
    state: &State,
    thread: &Thread,
    a: u32,
) -> Result<Option<Why>, NoMemory>
    ensures { IfOk result (λ cause. cause ≡
        spec.read_cause points.now state.now (of_operand.current thread.now a)) }
{
    let value = current(thread, a)?;
    read_cause(points, state, value.as_ref())
}

/// Whether a pointer is what an allocation gave, to an object that lives (C99 7.20.3.2, 2).
fn is_start(
    alloc: Global,
    points: &Points,
    state: &State,
    pointer: &Pointer,
) -> Result<bool, NoMemory>
    ensures { IfOk result (λ start. start ≡ spec.is_start points.now state.now pointer.now) }
{
    if !state.lives(pointer.part.object) || pointer.past {
        return Ok(false);
    }
    let Some(kind) = kind_of_object(points, state, pointer.part.object) else {
        return Ok(false);
    };
    match start_of(alloc, kind)? {
        Some(path) => Ok(path == pointer.part.path),
        None => Ok(false),
    }
}

/// An object is freed (C99 7.20.3.2).
fn free_cause(
    alloc: Global,
    points: &Points,
    state: &State,
    value: Option<&Value>,
) -> Result<Option<Why>, NoMemory>
    ensures { IfOk result (λ cause. cause ≡
        spec.free_cause points.now state.now (option_copied value.entry)) }
{
    match value {
        Some(Value::Pointer(pointer)) => {
            if is_start(alloc, points, state, pointer)? {
                Ok(Why::OwnedLock.when(is_owned_in(state, pointer.part.object)))
            } else {
                Ok(Some(Why::BadFree))
            }
        }
        Some(Value::Function(_)) => Ok(Some(Why::BadFree)),
        Some(Value::Number(_, _) | Value::Thread(_)) => Ok(Some(Why::WrongType)),
        Some(Value::Null | Value::Indeterminate) | None => Ok(None),
    }
}

/// A cell is read; one that may be indeterminate is only reached.
pub(crate) fn read_row(
    points: &Points,
    state: &State,
    thread: &Thread,
    a: u32,
    raw: bool,
) -> Result<Option<Why>, NoMemory>
    ensures { IfOk result (λ cause. cause ≡ spec.read_row points.now state.now thread.now a raw) }
{
    let place = operand(&thread.frame, a);
    if raw {
        return Ok(followed(state, place));
    }
    read_cause(points, state, place)
}

/// The id of a thread is written: the place.
pub(crate) fn place_row(points: &Points, state: &State, value: Option<&Value>) -> Option<Why>
    ensures { result ≡ spec.place_row points.now state.now (option_copied value.entry) }
{
    either(followed(state, value), constant(points, state, value))
}

/// An object is freed by a pointer, which is used.
pub(crate) fn free_row(
    alloc: Global,
    points: &Points,
    state: &State,
    value: Option<&Value>,
) -> Result<Option<Why>, NoMemory>
    ensures { IfOk result (λ cause. cause ≡
        spec.free_row points.now state.now (option_copied value.entry)) }
{
    let cause = free_cause(alloc, points, state, value)?;
    Ok(either(used(value), cause))
}
