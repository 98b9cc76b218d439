//! The pointers that points give: to roots, members and elements.
ghost use Rattle.std.specs.Prelude.{◌≡◌, ◌<◌, ◌^◌, IfOk, length};
ghost use Rattle.std.specs.Option.{option_copied};
ghost use Rattle.lk_cells.specs.Cells.{object_of_root};
ghost use Rattle.lk_cells.specs.Operands as of_operand;
ghost use Rattle.lk_change.specs.Going as of_going;
ghost use Rattle.lk_change.specs.Pointers as spec;

use crate::change::Change;
use crate::copies::copied_part;
use crate::going::gives;
use lk_base::NoMemory;
use lk_cells::{
    Frame, State, Thread, element_of, moved_by, number_in, operand, part_of, pointer_in,
};
use lk_facts::{Points, RootKind};
use lk_values::{Path, Pointer, Value};
use std::alloc::Global;

/// The object of a local in its frame (C99 6.2.4, 5).
fn own_object(frame: &Frame, root: u32) -> Option<u32>
    ensures { result ≡ spec.own_object frame.now root }
{
    for local in frame.locals.list() {
        if local.root == root {
            return Some(local.object);
        }
    }
    None
}

/// The object of a root of static storage.
fn static_object(state: &State, root: u32) -> Option<u32>
    requires { length state.now.objects < 2 ^ 32 }
    ensures { result ≡ object_of_root state.now.objects root }
{
    let objects = state.objects.list();
    for place in 0..objects.len() {
        if objects[place].root == root {
            return Some(place as u32);
        }
    }
    None
}

/// The object of a root: the frame's own for a local, else the one of static storage (C99 6.2.4).
fn object_of(state: &State, frame: &Frame, root: u32, kind: RootKind) -> Option<u32>
    requires { length state.now.objects < 2 ^ 32 }
    ensures { result ≡ spec.object_of state.now frame.now root kind }
{
    match kind {
        RootKind::Global | RootKind::Static | RootKind::Text | RootKind::Argv => static_object(
            state, root,
        ),
        RootKind::Local => own_object(frame, root),
        RootKind::Heap { .. } | RootKind::Args | RootKind::Function => None,
    }
}

/// The pointer to the object of a root.
fn pointer_to_root(
    alloc: Global,
    points: &Points,
    state: &State,
    frame: &Frame,
    root: u32,
) -> Option<Value>
    requires { length state.now.objects < 2 ^ 32 }
    ensures { result ≡ spec.pointer_to_root points.now state.now frame.now root }
{
    if root >= points.roots() {
        return None;
    }
    let object = object_of(state, frame, root, points.root(root).kind)?;
    Some(Value::Pointer(Pointer::to(object, Path::empty(alloc))))
}

/// The pointer to a member of the struct that a pointer leads to (C99 6.5.2.3).
fn member_of(state: &State, value: Option<&Value>, member: u32) -> Result<Option<Value>, NoMemory>
    ensures { IfOk result (λ pointer. pointer ≡ spec.member_of state.now (option_copied value.entry) member) }
{
    match copied_part(state, value)? {
        Some(part) => {
            let whole = Pointer { part, past: false };
            let pointer = whole.into_member(member)?;
            Ok(Some(Value::Pointer(pointer)))
        }
        None => Ok(None),
    }
}

/// The pointer to an element of an array, or a pointer moved by a number of elements (C99 6.5.2.1).
fn indexed(
    points: &Points,
    state: &State,
    into: bool,
    value: Option<&Value>,
    by: i128,
) -> Result<Option<Pointer>, NoMemory>
    ensures { IfOk result (λ pointer. pointer ≡
        spec.indexed points.now state.now into (option_copied value.entry) by) }
{
    if into {
        let Some(part) = part_of(state, value) else {
            return Ok(None);
        };
        let pointer = element_of(points.types(), state, part, by)?;
        return Ok(pointer);
    }
    let Some(from) = pointer_in(value) else {
        return Ok(None);
    };
    moved_by(points.types(), state, from, by)
}

/// The pointer that an index gives (C99 6.5.2.1).
fn index_of(
    points: &Points,
    state: &State,
    into: bool,
    value: Option<&Value>,
    by: Option<&Value>,
) -> Result<Option<Value>, NoMemory>
    ensures { IfOk result (λ pointer. pointer ≡
        spec.index_of points.now state.now into (option_copied value.entry) (option_copied by.entry)) }
{
    let Some(number) = number_in(by) else {
        return Ok(None);
    };
    match indexed(points, state, into, value, number)? {
        Some(pointer) => Ok(Some(Value::Pointer(pointer))),
        None => Ok(None),
    }
}

/// Gives the pointer to the object of a root.
pub(crate) fn gives_root(
    alloc: Global,
    points: &Points,
    state: &State,
    frame: &Frame,
    root: u32,
) -> Option<Change>
    requires { length state.now.objects < 2 ^ 32 }
    ensures { result ≡ of_going.gives points.now frame.now.point
        (spec.pointer_to_root points.now state.now frame.now root) }
{
    let pointer = pointer_to_root(alloc, points, state, frame, root);
    gives(points, frame.point, pointer)
}

/// Gives the pointer to a member of the struct that an operand points to.
pub(crate) fn gives_member(
    points: &Points,
    state: &State,
    thread: &Thread,
    a: u32,
    member: u32,
) -> Result<Option<Change>, NoMemory>
    ensures { IfOk result (λ change. change ≡ of_going.gives points.now thread.now.frame.point
        (spec.member_of state.now (of_operand.operand thread.now a) member)) }
{
    let pointer = member_of(state, operand(&thread.frame, a), member)?;
    Ok(gives(points, thread.frame.point, pointer))
}

/// Gives the pointer that an index of two operands gives.
pub(crate) fn gives_element(
    points: &Points,
    state: &State,
    thread: &Thread,
    a: u32,
    b: u32,
    into: bool,
) -> Result<Option<Change>, NoMemory>
    ensures { IfOk result (λ change. change ≡ of_going.gives points.now thread.now.frame.point
        (spec.index_of points.now state.now into (of_operand.operand thread.now a)
        (of_operand.operand thread.now b))) }
{
    let frame = &thread.frame;
    let pointer = index_of(points, state, into, operand(frame, a), operand(frame, b))?;
    Ok(gives(points, frame.point, pointer))
}
