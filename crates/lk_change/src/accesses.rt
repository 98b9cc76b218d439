//! Reads and writes of cells and slots.
ghost use Rattle.std.specs.Prelude.{◌≡◌, IfOk, slice_get};
ghost use Rattle.std.specs.Option.{option_copied};
ghost use Rattle.lk_cells.specs.Operands as of_operand;
ghost use Rattle.lk_cells.specs.Places as places;
ghost use Rattle.lk_change.specs.Going as of_going;
ghost use Rattle.lk_change.specs.Accesses as spec;

use crate::change::{Change, Effect};
use crate::copies::{copied, copied_part};
use crate::going::{changes, gives, goes, stays_on};
use crate::numbers::by_word;
use lk_base::NoMemory;
use lk_cells::{
    Frame, State, Thread, current, moved_by, number_in, operand, pointer_in, value_through,
};
use lk_facts::Points;
use lk_values::Value;

/// Writes a value into the cell that a pointer leads to.
fn value_put(
    state: &State,
    place: Option<&Value>,
    value: Option<Value>,
) -> Result<Option<Effect>, NoMemory>
    ensures { IfOk result (λ effect. effect ≡ spec.value_put state.now (option_copied place.entry) value) }
{
    let Some(part) = copied_part(state, place)? else {
        return Ok(None);
    };
    match value {
        Some(value) => Ok(Some(Effect::PutValue(part, value))),
        None => Ok(None),
    }
}

/// Writes the value of an operand into the cell that another one points to (C99 6.5.16.1).
pub(crate) fn writes(
    points: &Points,
    state: &State,
    thread: &Thread,
    a: u32,
    b: u32,
) -> Result<Option<Change>, NoMemory>
    ensures { IfOk result (λ change. change ≡ spec.writes points.now state.now thread.now a b) }
{
    let value = copied(operand(&thread.frame, b))?;
    let effect = value_put(state, operand(&thread.frame, a), value)?;
    Ok(changes(points, thread.frame.point, effect))
}

/// Puts a value into a slot.
pub(crate) fn slot_put(
    points: &Points,
    point: u32,
    slot: u32,
    value: Option<&Value>,
) -> Result<Option<Change>, NoMemory>
    ensures { IfOk result (λ change. change ≡
        spec.slot_put points.now point slot (option_copied value.entry)) }
{
    match copied(value)? {
        Some(value) => Ok(changes(points, point, Some(Effect::PutSlot(slot, value)))),
        None => Ok(None),
    }
}

/// Reads a character of a text, and stays with the next one; after the zero it goes
/// on (C99 7.19.7.10, 7.20.1.2).
fn scans(
    points: &Points,
    state: &State,
    point: u32,
    word: u64,
    value: Option<&Value>,
) -> Result<Option<Change>, NoMemory>
    ensures { IfOk result (λ change. change ≡
        spec.scans points.now state.now point word (option_copied value.entry)) }
{
    let read = value_through(points.types(), state, value)?;
    let Some(number) = number_in(read.as_ref()) else {
        return Ok(None);
    };
    if number == 0 {
        let ty = if point < points.count() {
            points.value_type(point)
        } else {
            None
        };
        let result = by_word(points, word, ty);
        return Ok(goes(points, point, 0, result, Effect::Nothing));
    }
    let Some(from) = pointer_in(value) else {
        return Ok(None);
    };
    match moved_by(points.types(), state, from, 1)? {
        Some(next) => Ok(stays_on(next, Effect::Nothing)),
        None => Ok(None),
    }
}

/// Gives what the cell holds that an operand points to (C99 6.3.2.1, 2).
pub(crate) fn reads(
    points: &Points,
    state: &State,
    thread: &Thread,
    a: u32,
) -> Result<Option<Change>, NoMemory>
    ensures { IfOk result (λ change. change ≡ of_going.gives points.now thread.now.frame.point
        (places.value_through points.now.types state.now (of_operand.operand thread.now a))) }
{
    let value = value_through(points.types(), state, operand(&thread.frame, a))?;
    Ok(gives(points, thread.frame.point, value))
}

/// Gives what a slot holds.
pub(crate) fn slot_given(
    points: &Points,
    frame: &Frame,
    slot: u32,
) -> Result<Option<Change>, NoMemory>
    ensures { IfOk result (λ change. change ≡
        of_going.gives points.now frame.now.point (slice_get frame.now.slots slot)) }
{
    let value = copied(frame.slots.get(slot as usize))?;
    Ok(gives(points, frame.point, value))
}

/// Writes the id of the thread that was just begun into the cell that an operand points to.
pub(crate) fn stores_id(
    points: &Points,
    state: &State,
    thread: &Thread,
    a: u32,
) -> Result<Option<Change>, NoMemory>
    ensures { IfOk result (λ change. change ≡ spec.stores_id points.now state.now thread.now a) }
{
    let frame = &thread.frame;
    let id = Value::Thread(frame.created);
    let effect = value_put(state, operand(frame, a), Some(id))?;
    Ok(changes(points, frame.point, effect))
}

/// Reads a character of a text, from the cell on at which the point stands.
pub(crate) fn scans_current(
    points: &Points,
    state: &State,
    thread: &Thread,
    word: u64,
    a: u32,
) -> Result<Option<Change>, NoMemory>
    ensures { IfOk result (λ change. change ≡
        spec.scans points.now state.now thread.now.frame.point word (of_operand.current thread.now a)) }
{
    let value = current(thread, a)?;
    scans(points, state, thread.frame.point, word, value.as_ref())
}
