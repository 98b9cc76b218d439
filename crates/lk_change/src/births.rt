//! Objects that are allocated and freed.
ghost use Rattle.std.specs.Prelude.{◌≡◌, ◌<◌, ◌^◌, IfOk, length};
ghost use Rattle.std.specs.Option.{option_copied};
ghost use Rattle.lk_cells.specs.Operands as of_operand;
ghost use Rattle.lk_change.specs.Births as spec;

use crate::change::{Birth, Change, Effect};
use crate::going::{changes, gives, goes};
use lk_arith::is_value;
use lk_base::{CellStep, Kind, NoMemory};
use lk_cells::{Initial, State, Thread, number_in, operand};
use lk_facts::Points;
use lk_values::{Path, Pointer, Value};
use std::alloc::Global;

/// What the cells of an allocated object hold at first (C99 7.20.3.1, 7.20.3.3).
fn first_of(zero: bool) -> Initial
    ensures { result ≡ spec.first_of zero }
{
    if zero {
        Initial::Zero
    } else {
        Initial::Indeterminate
    }
}

/// Makes an object with so many elements, and gives the pointer to the part at a path; or null by the word,
/// and for no elements (C99 7.20.3).
fn allocates(
    points: &Points,
    state: &State,
    point: u32,
    word: u64,
    root: u32,
    zero: bool,
    count: u64,
    path: Path,
) -> Option<Change>
    requires { length state.now.objects < 2 ^ 32 }
    ensures { result ≡ spec.allocates points.now state.now point word root zero count path }
{
    if word == 0 || count == 0 {
        return gives(points, point, Some(Value::Null));
    }
    let pointer = Pointer::to(state.objects.len() as u32, path);
    let birth = Birth {
        root,
        length: count,
        initial: first_of(zero),
    };
    goes(
        points,
        point,
        0,
        Some(Value::Pointer(pointer)),
        Effect::Bear(birth),
    )
}

/// Makes an object with as many elements as an operand says (C99 7.20.3).
fn allocates_many(
    alloc: Global,
    points: &Points,
    state: &State,
    thread: &Thread,
    word: u64,
    root: u32,
    zero: bool,
    a: u32,
) -> Result<Option<Change>, NoMemory>
    requires { length state.now.objects < 2 ^ 32 }
    ensures { IfOk result (λ change. change ≡
        spec.allocates_many points.now state.now thread.now.frame.point word root zero
        (of_operand.operand thread.now a)) }
{
    let Some(number) = number_in(operand(&thread.frame, a)) else {
        return Ok(None);
    };
    if !is_value(Kind::ULong, number) {
        return Ok(None);
    }
    let first = Path::empty(alloc).with(CellStep::Index(0))?;
    let count = number as u64;
    let point = thread.frame.point;
    Ok(allocates(points, state, point, word, root, zero, count, first))
}

/// Makes an object: one, or as many elements as an operand says where there is one (C99 7.20.3).
pub(crate) fn allocates_by(
    alloc: Global,
    points: &Points,
    state: &State,
    thread: &Thread,
    word: u64,
    root: u32,
    zero: bool,
    count: Option<u32>,
) -> Result<Option<Change>, NoMemory>
    requires { length state.now.objects < 2 ^ 32 }
    ensures { IfOk result (λ change. change ≡
        spec.allocates_by points.now state.now thread.now word root zero count) }
{
    match count {
        None => {
            let point = thread.frame.point;
            let whole = Path::empty(alloc);
            Ok(allocates(points, state, point, word, root, zero, 1, whole))
        }
        Some(a) => {
            let change = allocates_many(alloc, points, state, thread, word, root, zero, a)?;
            Ok(change)
        }
    }
}

/// Frees the object of a pointer, and does nothing on null (C99 7.20.3.2).
pub(crate) fn frees(points: &Points, point: u32, value: Option<&Value>) -> Option<Change>
    ensures { result ≡ spec.frees points.now point (option_copied value.entry) }
{
    match value {
        Some(Value::Pointer(pointer)) => changes(
            points,
            point,
            Some(Effect::End(pointer.part.object)),
        ),
        Some(Value::Null) => changes(points, point, Some(Effect::Nothing)),
        Some(Value::Number(_, _) | Value::Function(_) | Value::Thread(_) | Value::Indeterminate)
        | None => None,
    }
}
