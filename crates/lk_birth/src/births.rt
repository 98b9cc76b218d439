//! The births of objects and frames.
ghost use Rattle.std.specs.Prelude.{◌≡◌, ◌<◌, ◌+◌, ◌^◌, [], IfOk, length, map, slice_get, unwrap_or};
ghost use Rattle.std.specs.List.{position_from};
ghost use Rattle.std.specs.Option.{option_and_then};
ghost use Rattle.lk_facts.specs.Program.{parameters_of};
ghost use Rattle.lk_birth.specs.Births as spec;

use lk_base::{NoMemory, Seq};
use lk_cells::{Frame, Initial, Local, Object, Thread};
use lk_facts::{Holder, Points, Root, RootKind};
use lk_types::TypeId;
use lk_values::{Path, Table, Value};
use std::alloc::Global;

/// A frame and the objects of its locals, as they are made.
#[derive(Drop)]
pub struct Made {
    /// The frame.
    pub frame: Frame,
    /// The objects.
    pub objects: Seq<Object>,
}

/// Whether a root is an object of a function's frame.
fn is_local_of(function: u32, root: &Root) -> bool
    ensures { result ≡ spec.is_local_of function root.now }
{
    match root.kind {
        RootKind::Local => match root.function {
            Some(owner) => owner == function,
            None => false,
        },
        RootKind::Global
        | RootKind::Static
        | RootKind::Heap { .. }
        | RootKind::Text
        | RootKind::Argv
        | RootKind::Args
        | RootKind::Function => false,
    }
}

/// The roots of the locals of a function, in their order.
pub fn locals_of(alloc: Global, points: &Points, function: u32) -> Result<Vec<u32>, NoMemory>
    ensures { IfOk result (λ locals. locals.items ≡ spec.locals_of points.now function) }
{
    let mut locals = Vec::new(alloc);
    for root in 0..points.roots() {
        if is_local_of(function, points.root(root)) {
            locals.push(root)?;
        }
    }
    Ok(locals)
}

/// The type of a root.
pub fn type_of_root(points: &Points, root: u32) -> TypeId
    ensures { result ≡ spec.type_of_root points.now root }
{
    if root < points.roots() {
        points.root(root).ty
    } else {
        TypeId(0)
    }
}

/// Whether a parameter is held by this slot.
fn is_slot(slot: usize, holder: Holder) -> bool
    ensures { result ≡ spec.is_slot slot holder }
{
    match holder {
        Holder::Slot(_, number) => number as usize == slot,
        Holder::Root(_) | Holder::Result(_) | Holder::Point(_) => false,
    }
}

/// Whether a parameter is held by this root.
fn is_root(root: u32, holder: Holder) -> bool
    ensures { result ≡ spec.is_root root holder }
{
    match holder {
        Holder::Root(number) => number == root,
        Holder::Slot(_, _) | Holder::Result(_) | Holder::Point(_) => false,
    }
}

/// What holds the parameters of a function.
fn parameters_of(points: &Points, function: u32) -> &[Holder]
    ensures { result.now ≡ unwrap_or (parameters_of points.now function) [] }
{
    if function < points.functions() {
        points.parameters(function)
    } else {
        &[]
    }
}

/// The place of the first parameter that this slot holds.
fn place_of_slot(slot: usize, parameters: &[Holder]) -> Option<usize>
    ensures { result ≡ position_from (spec.is_slot slot) 0 parameters.now }
{
    for place in 0..parameters.len() {
        if is_slot(slot, parameters[place]) {
            return Some(place);
        }
    }
    None
}

/// The place of the first parameter that this root holds.
fn place_of_root(root: u32, parameters: &[Holder]) -> Option<usize>
    ensures { result ≡ position_from (spec.is_root root) 0 parameters.now }
{
    for place in 0..parameters.len() {
        if is_root(root, parameters[place]) {
            return Some(place);
        }
    }
    None
}

/// A copy of the argument of a place, where there is one.
fn argument_at(args: &[Value], place: Option<usize>) -> Result<Option<Value>, NoMemory>
    ensures { IfOk result (λ argument. argument ≡ option_and_then (slice_get args.now) place) }
{
    let Some(number) = place else {
        return Ok(None);
    };
    match args.get(number) {
        Some(value) => {
            let copy = value.copy()?;
            Ok(Some(copy))
        }
        None => Ok(None),
    }
}

/// What a slot begins with: a parameter with its argument, any other is
/// indeterminate (C99 6.2.4, 5; 6.9.1, 10).
fn first_in_slot(
    points: &Points,
    function: u32,
    args: &[Value],
    slot: usize,
) -> Result<Value, NoMemory>
    ensures { IfOk result (λ value. value ≡ spec.first_in_slot points.now function args.now slot) }
{
    let place = place_of_slot(slot, parameters_of(points, function));
    match argument_at(args, place)? {
        Some(value) => Ok(value),
        None => Ok(Value::Indeterminate),
    }
}

/// What the slots of a function begin with.
fn first_slots(
    alloc: Global,
    points: &Points,
    function: u32,
    args: &[Value],
) -> Result<Seq<Value>, NoMemory>
    ensures { IfOk result (λ slots. slots ≡ spec.first_slots points.now function args.now) }
{
    let mut slots = Vec::new(alloc);
    if function >= points.functions() {
        return Ok(Seq::new(slots));
    }
    for slot in 0..points.slots(function).len() {
        let value = first_in_slot(points, function, args, slot)?;
        slots.push(value)?;
    }
    Ok(Seq::new(slots))
}

/// A local's object: a parameter begins with its argument, any other is
/// indeterminate (C99 6.2.4, 5; 6.9.1, 10).
fn local_object(
    alloc: Global,
    points: &Points,
    function: u32,
    args: &[Value],
    root: u32,
) -> Result<Object, NoMemory>
    ensures { IfOk result (λ object. object ≡ spec.local_object points.now function args.now root) }
{
    let ty = type_of_root(points, root);
    let mut object = Object::new(alloc, root, ty, 1, Initial::Indeterminate);
    let place = place_of_root(root, parameters_of(points, function));
    if let Some(value) = argument_at(args, place)? {
        object.values.put(Path::empty(alloc), value)?;
    }
    Ok(object)
}

/// The objects of locals.
fn local_objects(
    alloc: Global,
    points: &Points,
    function: u32,
    args: &[Value],
    locals: &[u32],
) -> Result<Seq<Object>, NoMemory>
    ensures { IfOk result (λ objects.
        objects ≡ map (spec.local_object points.now function args.now) locals.now) }
{
    let mut objects = Vec::new(alloc);
    for root in locals {
        let object = local_object(alloc, points, function, args, *root)?;
        objects.push(object)?;
    }
    Ok(Seq::new(objects))
}

/// The locals of roots, with the numbers of their objects, of which the first is given.
fn numbered_from(alloc: Global, first: u32, locals: &[u32]) -> Result<Seq<Local>, NoMemory>
    requires { first + length locals.now < 2 ^ 32 }
    ensures { IfOk result (λ numbered. numbered ≡ spec.numbered_from first locals.now) }
{
    let mut numbered = Vec::new(alloc);
    let mut object = first;
    for root in locals {
        numbered.push(Local {
            root: *root,
            object,
        })?;
        object += 1;
    }
    Ok(Seq::new(numbered))
}

/// The frame of a call of a function with these arguments, which begins at its entry, and the objects of its
/// locals, where so many objects are there already (C99 6.2.4, 5 and 6).
pub fn made_for(
    alloc: Global,
    points: &Points,
    first: u32,
    function: u32,
    entry: u32,
    args: &[Value],
) -> Result<Made, NoMemory>
    requires { first + length (spec.locals_of points.now function) < 2 ^ 32 }
    ensures { IfOk result (λ made. made ≡ spec.made_for points.now first function entry args.now) }
{
    let roots = locals_of(alloc, points, function)?;
    let slots = first_slots(alloc, points, function, args)?;
    let locals = numbered_from(alloc, first, roots.as_slice())?;
    let objects = local_objects(alloc, points, function, args, roots.as_slice())?;
    let frame = Frame {
        point: entry,
        slots,
        values: Table::new(alloc),
        locals,
        created: None,
        next_cell: None,
    };
    Ok(Made { frame, objects })
}

/// A thread that begins with a frame. It takes no memory.
pub fn new_thread(alloc: Global, frame: Frame) -> Thread
    ensures { result ≡ spec.new_thread frame }
{
    Thread {
        frame,
        below: Seq::new(Vec::new(alloc)),
        ended: false,
        joined: false,
        detached: false,
    }
}
