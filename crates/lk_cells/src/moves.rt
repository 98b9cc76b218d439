//! How pointers move in their objects, and when two are equal.
ghost use Rattle.std.specs.Prelude.{◌≡◌, IfOk, IfSome, ◌≤◌, ◌^◌, length, option_and_then};
ghost use Rattle.std.specs.Option.{option_map, option_or};
ghost use Rattle.lk_cells.specs.Parts.{form_of};
ghost use Rattle.lk_cells.specs.Moves as spec;

use crate::object::Object;
use crate::parts::{elements_of, form_of, member_count, part_at, type_along};
use lk_base::{CellStep, NoMemory};
use lk_types::{CType, TypeId, TypeTable};
use lk_values::{Cell, Path, Pointer};

/// How many elements the array at a path of an object has, none where there is no array.
fn count_at(types: &TypeTable, object: &Object, path: &[CellStep]) -> u64
    ensures { result ≡ spec.count_at types.now object.now path.now }
{
    let Some(ty) = type_along(types, object.length, path, object.ty) else {
        return 0;
    };
    let Some(form) = form_of(types, ty) else {
        return 0;
    };
    match elements_of(object.length, form) {
        Some(elements) => elements.count,
        None => 0,
    }
}

/// How many elements the array has that a part is an element of; any other part counts as an
/// array of one (C99 6.5.6, 7).
fn room_of(types: &TypeTable, object: &Object, path: &Path) -> u64
    ensures { result ≡ spec.room_of types.now object.now path.now }
{
    if path.last_index().is_none() {
        return 1;
    }
    let steps = path.list();
    if steps.is_empty() {
        return 1;
    }
    count_at(types, object, &steps[..steps.len() - 1])
}

/// The pointer into the array of a part, which has `room` elements, that stands at a position.
fn standing_at(part: &Cell, room: u64, position: u64) -> Result<Pointer, NoMemory>
    ensures { IfOk result (λ pointer. pointer ≡ spec.standing_at part.now room position) }
{
    if position < room {
        let path = part.path.element(position)?;
        return Ok(Pointer::to(part.object, path));
    }
    let path = part.path.element(room.saturating_sub(1))?;
    Ok(Pointer::past(part.object, path))
}

/// A position moved by a number of elements, where it then is that of an element or the one after the last.
fn moved_position(position: u128, room: u64, by: i128) -> Option<u64>
    requires { position ≤ 2 ^ 64 }
    ensures { result ≡ spec.moved_position position room by }
{
    let at = position as i128;
    let last = i128::from(room);
    if by < -at || last - at < by {
        return None;
    }
    Some((at + by) as u64)
}

/// The pointer moved by a number of elements, where it then points to an element or one
/// past the last (C99 6.5.6, 8).
pub fn moved(
    types: &TypeTable,
    object: &Object,
    pointer: &Pointer,
    by: i128,
) -> Result<Option<Pointer>, NoMemory>
    ensures { IfOk result (λ moved. moved ≡ spec.moved types.now object.now pointer.now by) }
{
    let room = room_of(types, object, &pointer.part.path);
    match moved_position(pointer.position(), room, by) {
        Some(position) => {
            let moved = standing_at(&pointer.part, room, position)?;
            Ok(Some(moved))
        }
        None => Ok(None),
    }
}

/// The step to the part that stands directly after the one that a step leads to,
/// where both are parts of a type.
fn next_step(types: &TypeTable, own: u64, form: &CType, step: CellStep) -> Option<CellStep>
    ensures { result ≡ spec.next_step types.now own form.now step }
{
    match step {
        CellStep::Field(number) => {
            if (number as usize) + 1 < member_count(types, form) && number < u32::MAX {
                Some(CellStep::Field(number + 1))
            } else {
                None
            }
        }
        CellStep::Index(number) => {
            let count = elements_of(own, form).map_or(0, |elements| elements.count);
            if number < count.saturating_sub(1) {
                Some(CellStep::Index(number + 1))
            } else {
                None
            }
        }
    }
}

/// The same from the type's number.
fn next_at(types: &TypeTable, own: u64, ty: TypeId, step: CellStep) -> Option<CellStep>
    ensures { result ≡
        option_and_then (λ form. spec.next_step types.now own form step) (form_of types.now ty) }
{
    let form = form_of(types, ty)?;
    next_step(types, own, form, step)
}

/// The next step at a place, where there is one, else the one that was found before.
pub fn newer(
    place: usize,
    next: Option<CellStep>,
    found: Option<(usize, CellStep)>,
) -> Option<(usize, CellStep)>
    ensures { result ≡ option_or (option_map (λ step. (place, step)) next) found }
{
    match next {
        Some(step) => Some((place, step)),
        None => found,
    }
}

/// The last step of a path that leads to a part after which another one stands in the same whole: its place,
/// and the step to that other part.
fn last_turn(types: &TypeTable, object: &Object, steps: &[CellStep]) -> Option<(usize, CellStep)>
    ensures value { spec.path_after types.now object.now.length steps.now object.now.ty ≡
        spec.path_turned steps.now result }
    ensures in_range { IfSome result (λ turn. turn.0 ≤ length steps.now) }
{
    let mut reached = object.ty;
    let mut found = None;
    for place in 0..steps.len() {
        let step = steps[place];
        let next = next_at(types, object.length, reached, step);
        found = newer(place, next, found);
        match part_at(types, object.length, reached, step) {
            Some(part) => reached = part,
            None => return found,
        }
    }
    found
}

/// The path to the part of an object that stands directly after the part at a path, where
/// there is one (C99 6.5.9, 6).
fn path_after(types: &TypeTable, object: &Object, path: &Path) -> Result<Option<Path>, NoMemory>
    ensures { IfOk result (λ after. after ≡
        spec.path_after types.now object.now.length path.now object.now.ty) }
{
    match last_turn(types, object, path.list()) {
        Some((place, next)) => {
            let after = path.turned(place, next)?;
            Ok(Some(after))
        }
        None => Ok(None),
    }
}

/// The path to the largest part that stands where the part at a path does.
fn whole_at(path: &Path) -> Result<Path, NoMemory>
    ensures { IfOk result (λ whole. whole ≡ spec.whole_at path.now) }
{
    let steps = path.list();
    let mut kept = steps.len();
    while kept > 0 && steps[kept - 1].number() == 0 {
        kept -= 1;
    }
    path.first(kept)
}

/// Where a pointer stands in its object: at a part of it, or at its end.
fn stand_of(types: &TypeTable, object: &Object, pointer: &Pointer) -> Result<Option<Path>, NoMemory>
    ensures { IfOk result (λ stand. stand ≡ spec.stand_of types.now object.now pointer.now) }
{
    if !pointer.past {
        let whole = whole_at(&pointer.part.path)?;
        return Ok(Some(whole));
    }
    match path_after(types, object, &pointer.part.path)? {
        Some(after) => {
            let whole = whole_at(&after)?;
            Ok(Some(whole))
        }
        None => Ok(None),
    }
}

/// Whether two pointers into one object are equal (C99 6.5.9, 6).
pub fn is_same_place(
    types: &TypeTable,
    object: &Object,
    p: &Pointer,
    q: &Pointer,
) -> Result<bool, NoMemory>
    ensures { IfOk result (λ same. same ≡ spec.is_same_place types.now object.now p.now q.now) }
{
    let first = stand_of(types, object, p)?;
    let second = stand_of(types, object, q)?;
    match (first, second) {
        (Some(a), Some(b)) => Ok(a == b),
        (None, None) => Ok(true),
        (Some(_), None) | (None, Some(_)) => Ok(false),
    }
}
