//! How an initialiser fills the cells that it doesn't name.
ghost use Rattle.std.specs.Prelude.{◌≡◌, ◌<◌, ◌+◌, ◌++◌, ◌∷◌, IfOk, IfSome, length, map, take, drop};
ghost use Rattle.std.specs.Option.{option_copied};
ghost use Rattle.lk_cells.specs.Operands as of_operand;
ghost use Rattle.lk_change.specs.Fills as spec;

use crate::change::{Change, Effect};
use crate::copies::copied_part;
use crate::going::{changes, stays_on};
use lk_base::{CellStep, NoMemory, Seq};
use lk_cells::{
    CellKind, Object, State, Thread, current, elements_of, form_of, form_through, kind_through,
    newer, object_at, part_at, part_of, zero_of,
};
use lk_facts::Points;
use lk_types::{TypeId, TypeTable};
use lk_values::{Cell, Condition, Mutex, Path, Pointer, Value};

/// The step to the first element of the same array, or to the same member.
fn first_index(step: CellStep) -> CellStep
    ensures { result ≡ spec.first_index step }
{
    match step {
        CellStep::Field(number) => CellStep::Field(number),
        CellStep::Index(_) => CellStep::Index(0),
    }
}

/// The step to the next element, where there is one.
fn index_after(types: &TypeTable, own: u64, ty: TypeId, step: CellStep) -> Option<CellStep>
    ensures { result ≡ spec.index_after types.now own ty step }
{
    let form = form_of(types, ty)?;
    match step {
        CellStep::Field(_) => None,
        CellStep::Index(number) => {
            let elements = elements_of(own, form)?;
            if number < elements.count.saturating_sub(1) {
                Some(CellStep::Index(number + 1))
            } else {
                None
            }
        }
    }
}

/// The last step of a path that leads to an element after which another one stands: its
/// place, and the step to that one.
fn last_turn(types: &TypeTable, object: &Object, steps: &[CellStep]) -> Option<(usize, CellStep)>
    ensures value { spec.next_path types.now object.now.length steps.now object.now.ty ≡
        spec.path_counted steps.now result }
    ensures in_range { IfSome result (λ turn. turn.0 < length steps.now) }
{
    let mut reached = object.ty;
    let mut found = None;
    for place in 0..steps.len() {
        let step = steps[place];
        let next = index_after(types, object.length, reached, step);
        found = newer(place, next, found);
        match part_at(types, object.length, reached, step) {
            Some(part) => reached = part,
            None => return found,
        }
    }
    found
}

/// The path with another step at a place, and after it the first elements.
fn counted(path: &Path, place: usize, next: CellStep) -> Result<Path, NoMemory>
    requires { place < length path.now }
    ensures { IfOk result (λ counted. counted ≡
        take place path.now ++ next ∷ map spec.first_index (drop (place + 1) path.now)) }
{
    let mut counted = path.turned(place, next)?;
    for step in &path.list()[place + 1..] {
        counted = counted.with(first_index(*step))?;
    }
    Ok(counted)
}

/// The next path of the same place, with indices counted up (C99 6.7.8, 17).
fn next_path(types: &TypeTable, object: &Object, path: &Path) -> Result<Option<Path>, NoMemory>
    ensures { IfOk result (λ next. next ≡ spec.next_path types.now object.now.length path.now object.now.ty) }
{
    match last_turn(types, object, path.list()) {
        Some((place, step)) => {
            let next = counted(path, place, step)?;
            Ok(Some(next))
        }
        None => Ok(None),
    }
}

/// Whether an initialiser names a path.
fn is_named(named: &[Seq<CellStep>], path: &Path) -> bool
    ensures { result ≡ spec.is_named named.now path.now }
{
    for steps in named {
        if steps.list() == path.list() {
            return true;
        }
    }
    false
}

/// The next path of the place that isn't named: of so many named ones, at most that many are passed over.
fn next_absent(
    types: &TypeTable,
    object: &Object,
    named: &[Seq<CellStep>],
    path: &Path,
) -> Result<Option<Path>, NoMemory>
    ensures { IfOk result (λ next. next ≡
        spec.next_absent types.now object.now.length object.now.ty named.now named.now path.now) }
{
    let mut at = path.copy()?;
    for _one in named {
        let Some(next) = next_path(types, object, &at)? else {
            return Ok(None);
        };
        if !is_named(named, &next) {
            return Ok(Some(next));
        }
        at = next;
    }
    let next = next_path(types, object, &at)?;
    Ok(next)
}

/// The pointer to the next absent cell of the place.
fn absent_after(
    points: &Points,
    state: &State,
    named: &[Seq<CellStep>],
    cell: &Cell,
) -> Result<Option<Pointer>, NoMemory>
    ensures { IfOk result (λ next. next ≡ spec.absent_after points.now state.now named.now cell.now) }
{
    let Some(object) = object_at(state, cell.object) else {
        return Ok(None);
    };
    match next_absent(points.types(), object, named, &cell.path)? {
        Some(path) => Ok(Some(Pointer::to(cell.object, path))),
        None => Ok(None),
    }
}

/// Fills a cell: zero or null, or ready and free (C99 6.7.8, 10 and 21).
fn filled(points: &Points, state: &State, value: Option<&Value>) -> Result<Option<Effect>, NoMemory>
    ensures { IfOk result (λ effect. effect ≡ spec.filled points.now state.now (option_copied value.entry)) }
{
    let Some(part) = copied_part(state, value)? else {
        return Ok(None);
    };
    match kind_through(points.types(), state, value) {
        Some(CellKind::Mutex) => Ok(Some(Effect::PutMutex(part, Mutex::Free))),
        Some(CellKind::Condition) => Ok(Some(Effect::PutCondition(part, Condition::Ready))),
        Some(CellKind::Value) => match form_through(points.types(), state, value) {
            Some(form) => match zero_of(form) {
                Some(zero) => Ok(Some(Effect::PutValue(part, zero))),
                None => Ok(None),
            },
            None => Ok(None),
        },
        None => Ok(None),
    }
}

/// The next absent cell after the one that a pointer leads to.
fn absent_through(
    points: &Points,
    state: &State,
    named: &[Seq<CellStep>],
    value: Option<&Value>,
) -> Result<Option<Pointer>, NoMemory>
    ensures { IfOk result (λ next. next ≡
        spec.absent_through points.now state.now named.now (option_copied value.entry)) }
{
    match part_of(state, value) {
        Some(part) => {
            let next = absent_after(points, state, named, part)?;
            Ok(next)
        }
        None => Ok(None),
    }
}

/// Fills a cell, and stays with the next absent one, or goes on where none is left (C99 6.7.8).
fn fills(
    points: &Points,
    state: &State,
    point: u32,
    named: &[Seq<CellStep>],
    value: Option<&Value>,
) -> Result<Option<Change>, NoMemory>
    ensures { IfOk result (λ change. change ≡
        spec.fills points.now state.now point named.now (option_copied value.entry)) }
{
    let Some(effect) = filled(points, state, value)? else {
        return Ok(None);
    };
    match absent_through(points, state, named, value)? {
        Some(next) => Ok(stays_on(next, effect)),
        None => Ok(changes(points, point, Some(effect))),
    }
}

/// Fills a cell, from the cell on at which the point stands.
pub(crate) fn fills_current(
    points: &Points,
    state: &State,
    thread: &Thread,
    named: &[Seq<CellStep>],
    a: u32,
) -> Result<Option<Change>, NoMemory>
    ensures { IfOk result (λ change. change ≡ spec.fills points.now state.now thread.now.frame.point
        named.now (of_operand.current thread.now a)) }
{
    let value = current(thread, a)?;
    fills(points, state, thread.frame.point, named, value.as_ref())
}
