//! The values of operands.
ghost use Rattle.std.specs.Prelude.{◌≡◌, IfOk, map};
ghost use Rattle.std.specs.Option.{option_copied};
ghost use Rattle.lk_cells.specs.Frames.{given_by};
ghost use Rattle.lk_cells.specs.Operands as spec;

use crate::state::{Frame, Thread};
use lk_base::{NoMemory, Seq};
use lk_values::{Pointer, Value, Why, either};
use std::alloc::Global;

/// The value of an operand: what its point gave when the frame last performed it, where it gave any.
pub fn operand(frame: &Frame, point: u32) -> Option<&Value>
    ensures { option_copied result ≡ given_by frame.now point }
{
    frame.values.get(&point)?.as_ref()
}

/// A value is there (C99 6.9.1, 12).
pub fn given(value: Option<&Value>) -> Option<Why>
    ensures { result ≡ spec.given (option_copied value.entry) }
{
    match value {
        Some(_) => None,
        None => Some(Why::NoValue),
    }
}

/// A value is used: it is there, and isn't indeterminate (C99 J.2).
pub fn used(value: Option<&Value>) -> Option<Why>
    ensures { result ≡ spec.used (option_copied value.entry) }
{
    match value {
        Some(Value::Indeterminate) => Some(Why::Indeterminate),
        Some(
            Value::Number(_, _)
            | Value::Pointer(_)
            | Value::Function(_)
            | Value::Null
            | Value::Thread(_),
        ) => None,
        None => Some(Why::NoValue),
    }
}

/// The values of operands are used.
pub fn all_used(frame: &Frame, points: &[u32]) -> Option<Why>
    ensures { result ≡ spec.all_used (map (given_by frame.now) points.now) }
{
    let mut cause = None;
    for point in points {
        cause = either(cause, used(operand(frame, *point)));
    }
    cause
}

/// The number that a value is.
pub fn number_in(value: Option<&Value>) -> Option<i128>
    ensures { result ≡ spec.number_in (option_copied value.entry) }
{
    match value {
        Some(Value::Number(_, number)) => Some(*number),
        Some(
            Value::Pointer(_)
            | Value::Function(_)
            | Value::Null
            | Value::Thread(_)
            | Value::Indeterminate,
        )
        | None => None,
    }
}

/// The pointer to a part of an object that a value is.
pub fn pointer_in(value: Option<&Value>) -> Option<&Pointer>
    ensures { option_copied result ≡ spec.pointer_in (option_copied value.entry) }
{
    match value {
        Some(Value::Pointer(pointer)) => Some(pointer),
        Some(
            Value::Number(_, _)
            | Value::Function(_)
            | Value::Null
            | Value::Thread(_)
            | Value::Indeterminate,
        )
        | None => None,
    }
}

/// The number of the function that a value points to.
pub fn function_in(value: Option<&Value>) -> Option<u32>
    ensures { result ≡ spec.function_in (option_copied value.entry) }
{
    match value {
        Some(Value::Function(function)) => Some(*function),
        Some(
            Value::Number(_, _)
            | Value::Pointer(_)
            | Value::Null
            | Value::Thread(_)
            | Value::Indeterminate,
        )
        | None => None,
    }
}

/// The thread id that a value is.
pub fn id_in(value: Option<&Value>) -> Option<Option<u32>>
    ensures { result ≡ spec.id_in (option_copied value.entry) }
{
    match value {
        Some(Value::Thread(thread)) => Some(*thread),
        Some(
            Value::Number(_, _)
            | Value::Pointer(_)
            | Value::Function(_)
            | Value::Null
            | Value::Indeterminate,
        )
        | None => None,
    }
}

/// Whether a value counts as true in a condition: it is neither zero nor null (C99 6.8.4.1).
pub fn condition_in(value: Option<&Value>) -> Option<bool>
    ensures { result ≡ spec.condition_in (option_copied value.entry) }
{
    match value {
        Some(Value::Number(_, number)) => Some(*number != 0),
        Some(Value::Pointer(_) | Value::Function(_)) => Some(true),
        Some(Value::Null) => Some(false),
        Some(Value::Thread(_) | Value::Indeterminate) | None => None,
    }
}

/// The values of operands, where all are there.
pub fn all_given(
    alloc: Global,
    frame: &Frame,
    points: &[u32],
) -> Result<Option<Seq<Value>>, NoMemory>
    ensures { IfOk result (λ values. values ≡ spec.all_given (map (given_by frame.now) points.now)) }
{
    let mut values = Vec::new(alloc);
    for point in points {
        match operand(frame, *point) {
            Some(value) => {
                let value = value.copy()?;
                values.push(value)?;
            }
            None => return Ok(None),
        }
    }
    Ok(Some(Seq::new(values)))
}

/// The pointer with which a point that goes from cell to cell stands: to the next
/// cell, or at first its operand.
pub fn current(thread: &Thread, point: u32) -> Result<Option<Value>, NoMemory>
    ensures { IfOk result (λ value. value ≡ spec.current thread.now point) }
{
    if let Some(pointer) = &thread.frame.next_cell {
        let pointer = pointer.copy()?;
        return Ok(Some(Value::Pointer(pointer)));
    }
    match operand(&thread.frame, point) {
        Some(value) => {
            let value = value.copy()?;
            Ok(Some(value))
        }
        None => Ok(None),
    }
}
