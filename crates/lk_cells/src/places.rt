//! The parts that pointers lead to.
ghost use Rattle.std.specs.Prelude.{◌≡◌, IfOk, slice_get};
ghost use Rattle.std.specs.Option.{option_copied};
ghost use Rattle.lk_cells.specs.Places as spec;

use crate::kind::CellKind;
use crate::moves::moved;
use crate::object::Object;
use crate::state::State;
use lk_base::{CellStep, NoMemory};
use lk_types::{CType, TypeTable};
use lk_values::{Cell, Condition, Mutex, Pointer, Value, Why, either};

/// The object of this number, where it is there.
pub fn object_at(state: &State, object: u32) -> Option<&Object>
    ensures { option_copied result ≡ slice_get state.now.objects object }
{
    state.objects.get(object as usize)
}

/// A pointer may be followed: it isn't null, its object lives, and it isn't one past a part (C99 6.5.3.2, 4).
pub fn followed(state: &State, value: Option<&Value>) -> Option<Why>
    ensures { result ≡ spec.followed state.now (option_copied value.entry) }
{
    match value {
        None => Some(Why::NoValue),
        Some(Value::Number(_, _) | Value::Function(_) | Value::Thread(_)) => Some(Why::WrongType),
        Some(Value::Pointer(pointer)) => either(
            Why::Dead.when(!state.lives(pointer.part.object)),
            Why::Outside.when(pointer.past),
        ),
        Some(Value::Null) => Some(Why::Null),
        Some(Value::Indeterminate) => Some(Why::Indeterminate),
    }
}

/// The part that a pointer leads to, where it may be followed.
pub fn part_of<'a>(state: &State, value: Option<&'a Value>) -> Option<&'a Cell>
    ensures { option_copied result ≡ spec.part_of state.now (option_copied value.entry) }
{
    match value {
        Some(Value::Pointer(pointer)) => {
            if state.lives(pointer.part.object) && !pointer.past {
                Some(&pointer.part)
            } else {
                None
            }
        }
        Some(
            Value::Number(_, _)
            | Value::Function(_)
            | Value::Null
            | Value::Thread(_)
            | Value::Indeterminate,
        )
        | None => None,
    }
}

/// The value in the cell that a pointer leads to.
pub fn value_through(
    types: &TypeTable,
    state: &State,
    value: Option<&Value>,
) -> Result<Option<Value>, NoMemory>
    ensures { IfOk result (λ read. read ≡
        spec.value_through types.now state.now (option_copied value.entry)) }
{
    let Some(part) = part_of(state, value) else {
        return Ok(None);
    };
    let Some(object) = object_at(state, part.object) else {
        return Ok(None);
    };
    object.value_at(types, &part.path)
}

/// The mutex that a pointer leads to.
pub fn mutex_through(types: &TypeTable, state: &State, value: Option<&Value>) -> Option<Mutex>
    ensures { result ≡ spec.mutex_through types.now state.now (option_copied value.entry) }
{
    let part = part_of(state, value)?;
    let object = object_at(state, part.object)?;
    object.mutex_at(types, &part.path)
}

/// The condition variable that a pointer leads to.
pub fn condition_through(
    types: &TypeTable,
    state: &State,
    value: Option<&Value>,
) -> Option<Condition>
    ensures { result ≡ spec.condition_through types.now state.now (option_copied value.entry) }
{
    let part = part_of(state, value)?;
    let object = object_at(state, part.object)?;
    object.condition_at(types, &part.path)
}

/// What the cell is that a pointer leads to.
pub fn kind_through(types: &TypeTable, state: &State, value: Option<&Value>) -> Option<CellKind>
    ensures { result ≡ spec.kind_through types.now state.now (option_copied value.entry) }
{
    let part = part_of(state, value)?;
    let object = object_at(state, part.object)?;
    object.kind_at(types, &part.path)
}

/// The form of the part that a pointer leads to.
pub fn form_through<'a>(
    types: &'a TypeTable,
    state: &State,
    value: Option<&Value>,
) -> Option<&'a CType>
    ensures { option_copied result ≡ spec.form_through types.now state.now (option_copied value.entry) }
{
    let part = part_of(state, value)?;
    let object = object_at(state, part.object)?;
    object.form_at(types, &part.path)
}

/// A pointer moved by a number of elements within its array and its end (C99 6.5.6, 8).
pub fn moved_by(
    types: &TypeTable,
    state: &State,
    pointer: &Pointer,
    by: i128,
) -> Result<Option<Pointer>, NoMemory>
    ensures { IfOk result (λ to. to ≡ spec.moved_by types.now state.now pointer.now by) }
{
    let Some(object) = object_at(state, pointer.part.object) else {
        return Ok(None);
    };
    moved(types, object, pointer, by)
}

/// The pointer to an element of the array that a part is.
pub fn element_of(
    types: &TypeTable,
    state: &State,
    part: &Cell,
    by: i128,
) -> Result<Option<Pointer>, NoMemory>
    ensures { IfOk result (λ to. to ≡ spec.element_of types.now state.now part.now by) }
{
    let path = part.path.with(CellStep::Index(0))?;
    let first = Pointer::to(part.object, path);
    moved_by(types, state, &first, by)
}

/// Whether a mutex isn't ready.
pub fn is_unready(mutex: Option<Mutex>) -> bool
    ensures { result ≡ spec.is_unready mutex }
{
    match mutex {
        Some(Mutex::NotReady) => true,
        Some(Mutex::Free | Mutex::Owned(_)) | None => false,
    }
}

/// Whether a mutex is owned.
pub fn is_taken(mutex: Option<Mutex>) -> bool
    ensures { result ≡ spec.is_taken mutex }
{
    match mutex {
        Some(Mutex::Owned(_)) => true,
        Some(Mutex::NotReady | Mutex::Free) | None => false,
    }
}

/// Whether a mutex isn't owned by a thread.
pub fn is_not_of(thread: u32, mutex: Option<Mutex>) -> bool
    ensures { result ≡ spec.is_not_of thread mutex }
{
    match mutex {
        Some(Mutex::NotReady | Mutex::Free) => true,
        Some(Mutex::Owned(owner)) => owner != thread,
        None => false,
    }
}

/// Whether a condition variable isn't ready.
pub fn is_condition_unready(condition: Option<Condition>) -> bool
    ensures { result ≡ spec.is_condition_unready condition }
{
    match condition {
        Some(Condition::NotReady) => true,
        Some(Condition::Ready) | None => false,
    }
}
