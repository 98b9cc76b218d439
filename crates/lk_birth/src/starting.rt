//! The first state of a program.
ghost use Rattle.std.specs.Prelude.{◌≡◌, ◌<◌, ◌^◌, ◌∷◌, ◌++◌, [], IfOk, IfSome, OnOk, length, map};
ghost use Rattle.lk_cells.specs.Cells.{object_of_root};
ghost use Rattle.lk_birth.specs.Births.{listed};
ghost use Rattle.lk_birth.specs.Starts as spec;
ghost use Rattle.lk_facts.specs.Program as facts;
ghost use Rattle.lk_base.specs.declared.cell.CellStep.TheVariants.{Index};

use crate::births::{Made, locals_of, made_for, new_thread};
use lk_arith::convert;
use lk_base::{CellStep, Kind, NoMemory, Seq};
use lk_cells::{Initial, Object, State, number_of_type};
use lk_facts::{InitialValue, Points, Root, RootKind};
use lk_types::{CType, TypeId};
use lk_values::{Path, Pointer, Value};
use std::alloc::Global;

/// The path to an element.
fn to_element(alloc: Global, number: u64) -> Result<Path, NoMemory>
    ensures { IfOk result (λ path. path ≡ Index number ∷ []) }
{
    Path::empty(alloc).with(CellStep::Index(number))
}

/// Puts bytes into the elements of an object; a char is signed here (C99 6.2.5, 15; 6.4.5, 5).
fn put_bytes(alloc: Global, object: &mut Object, bytes: &[u8]) -> Result<(), NoMemory>
    ensures { OnOk result (object.new ≡ spec.with_bytes object.old bytes.now) }
{
    for place in 0..bytes.len() {
        let number = convert(Kind::Char, i128::from(bytes[place]));
        let path = to_element(alloc, place as u64)?;
        object.values.put(path, Value::Number(Kind::Char, number))?;
    }
    Ok(())
}

/// Puts pointers to the first elements of so many objects, from number 0 on, into the elements of an object.
fn put_pointers(alloc: Global, object: &mut Object, count: u32) -> Result<(), NoMemory>
    ensures { OnOk result (object.new ≡ spec.with_pointers object.old count) }
{
    for place in 0..count {
        let first = to_element(alloc, 0)?;
        let path = to_element(alloc, u64::from(place))?;
        let pointer = Value::Pointer(Pointer::to(place, first));
        object.values.put(path, pointer)?;
    }
    Ok(())
}

/// The object of a string of main's arguments, with a zero at its end (C99 5.1.2.2.1, 2).
fn string_object(alloc: Global, root: u32, ty: TypeId, text: &[u8]) -> Result<Object, NoMemory>
    requires { length text.now < 2 ^ 63 }
    ensures { IfOk result (λ object. object ≡ spec.string_object root ty text.now) }
{
    let count = text.len() as u64 + 1;
    let mut object = Object::new(alloc, root, ty, count, Initial::Zero);
    put_bytes(alloc, &mut object, text)?;
    Ok(object)
}

/// The number of the root of the strings.
#[tactic(auto, using(crate::proofs::Loops::drop_at))]
fn args_root(points: &Points) -> Option<u32>
    ensures { result ≡ spec.root_of facts.is_args points.now }
{
    for root in 0..points.roots() {
        if points.root(root).kind.is_args() {
            return Some(root);
        }
    }
    None
}

/// The number of the root of the pointers to them.
#[tactic(auto, using(crate::proofs::Loops::drop_at))]
fn argv_root(points: &Points) -> Option<u32>
    ensures { result ≡ spec.root_of facts.is_argv points.now }
{
    for root in 0..points.roots() {
        if points.root(root).kind.is_argv() {
            return Some(root);
        }
    }
    None
}

/// The objects of the strings of a root.
fn strings_of(
    alloc: Global,
    points: &Points,
    strings: &[Vec<u8>],
    root: u32,
) -> Result<Vec<Object>, NoMemory>
    ensures { IfOk result (λ objects.
        objects.items ≡ spec.strings_of points.now (map (λ text. text.items) strings.now) root) }
{
    let mut objects = Vec::new(alloc);
    if root >= points.roots() {
        return Ok(objects);
    }
    let ty = points.root(root).ty;
    for text in strings {
        let object = string_object(alloc, root, ty, text.as_slice())?;
        objects.push(object)?;
    }
    Ok(objects)
}

/// The one object of a root that has one at the start.
fn object_at_start(
    alloc: Global,
    strings: &[Vec<u8>],
    number: u32,
    root: &Root,
) -> Result<Option<Object>, NoMemory>
    requires { length strings.now < 2 ^ 31 }
    ensures { IfOk result (λ object.
        object ≡ spec.object_of_kind (map (λ text. text.items) strings.now) number root.now root.now.kind) }
{
    match root.kind {
        RootKind::Global | RootKind::Static => {
            let object = Object::new(alloc, number, root.ty, 1, Initial::Zero);
            Ok(Some(object))
        }
        RootKind::Text => {
            let count = root.bytes.len() as u64;
            let mut object = Object::new(alloc, number, root.ty, count, Initial::Zero);
            put_bytes(alloc, &mut object, root.bytes.list())?;
            Ok(Some(object))
        }
        RootKind::Argv => {
            let count = strings.len() as u64 + 1;
            let mut object = Object::new(alloc, number, root.ty, count, Initial::Zero);
            put_pointers(alloc, &mut object, strings.len() as u32)?;
            Ok(Some(object))
        }
        RootKind::Local | RootKind::Heap { .. } | RootKind::Args | RootKind::Function => Ok(None),
    }
}

/// Puts an object at the end, where there is one.
fn push_object(objects: &mut Vec<Object>, object: Option<Object>) -> Result<(), NoMemory>
    ensures { OnOk result (objects.new.items ≡ objects.old.items ++ listed object) }
{
    if let Some(found) = object {
        objects.push(found)?;
    }
    Ok(())
}

/// The objects before the initialisers are performed.
#[tactic(auto, using(crate::proofs::Beginning::objects_next))]
fn bare_objects(
    alloc: Global,
    points: &Points,
    strings: &[Vec<u8>],
) -> Result<Vec<Object>, NoMemory>
    requires { length strings.now < 2 ^ 31 }
    ensures { IfOk result (λ objects.
        objects.items ≡ spec.bare_objects points.now (map (λ text. text.items) strings.now)) }
{
    let mut objects = match args_root(points) {
        Some(root) => strings_of(alloc, points, strings, root)?,
        None => Vec::new(alloc),
    };
    for root in 0..points.roots() {
        let object = object_at_start(alloc, strings, root, points.root(root))?;
        push_object(&mut objects, object)?;
    }
    Ok(objects)
}

/// The first object of a root.
fn object_of_root(objects: &[Object], root: u32) -> Option<usize>
    ensures first { result ≡ object_of_root objects.now root }
    ensures within { IfSome result (λ place. place < length objects.now) }
{
    for place in 0..objects.len() {
        if objects[place].root == root {
            return Some(place);
        }
    }
    None
}

/// What a cell of static storage begins with by its initialiser, where its type is of this form; nothing
/// where it is ready as it is (C99 6.6, 6.7.8).
fn first_value(
    alloc: Global,
    objects: &[Object],
    form: &CType,
    value: &InitialValue,
) -> Result<Option<Value>, NoMemory>
    requires { length objects.now < 2 ^ 32 }
    ensures { IfOk result (λ first. first ≡ spec.first_value_of objects.now form.now value.now) }
{
    match value {
        InitialValue::Number(number) => Ok(number_of_type(form, *number)),
        InitialValue::Null => Ok(Some(Value::Null)),
        InitialValue::Function(function) => Ok(Some(Value::Function(*function))),
        InitialValue::Address { root, path, past } => {
            let Some(object) = object_of_root(objects, *root) else {
                return Ok(None);
            };
            let path = Path::of(alloc, path.list())?;
            let pointer = if *past {
                Pointer::past(object as u32, path)
            } else {
                Pointer::to(object as u32, path)
            };
            Ok(Some(Value::Pointer(pointer)))
        }
        InitialValue::Ready => Ok(None),
    }
}

/// What an initialiser puts into its object, where it puts something (C99 6.7.8).
fn first_in(
    alloc: Global,
    points: &Points,
    objects: &[Object],
    initial: &lk_facts::Initial,
    object: &Object,
) -> Result<Option<Value>, NoMemory>
    requires { length objects.now < 2 ^ 32 }
    ensures { IfOk result (λ first. first ≡ spec.first_in points.now objects.now initial.now object.now) }
{
    let path = Path::of(alloc, initial.path.list())?;
    let Some(form) = object.form_at(points.types(), &path) else {
        return Ok(None);
    };
    first_value(alloc, objects, form, &initial.value)
}

/// Gives a cell what its initialiser says (C99 6.7.8).
#[tactic(auto, using(crate::proofs::Beginning::initialised_put, crate::proofs::Beginning::initialised_same))]
fn initialise(
    alloc: Global,
    points: &Points,
    objects: &mut Vec<Object>,
    initial: &lk_facts::Initial,
) -> Result<(), NoMemory>
    requires { length objects.old.items < 2 ^ 32 }
    ensures ok { OnOk result (objects.new.items ≡ spec.initialised points.now objects.old.items initial.now) }
    ensures length { length objects.new.items ≡ length objects.old.items }
{
    let Some(place) = object_of_root(objects.as_slice(), initial.root) else {
        return Ok(());
    };
    let first = first_in(alloc, points, objects.as_slice(), initial, &objects[place])?;
    let Some(value) = first else {
        return Ok(());
    };
    let path = Path::of(alloc, initial.path.list())?;
    objects[place].values.put(path, value)?;
    Ok(())
}

/// The objects at the start.
fn first_objects(
    alloc: Global,
    points: &Points,
    strings: &[Vec<u8>],
) -> Result<Vec<Object>, NoMemory>
    requires { length strings.now < 2 ^ 31 }
    ensures value { IfOk result (λ objects.
        objects.items ≡ spec.first_objects points.now (map (λ text. text.items) strings.now)) }
    ensures few { IfOk result (λ objects. length objects.items < 2 ^ 32) }
{
    let mut objects = bare_objects(alloc, points, strings)?;
    if objects.len() > u32::MAX as usize {
        return Err(NoMemory);
    }
    for initial in points.initials() {
        initialise(alloc, points, &mut objects, initial)?;
    }
    Ok(objects)
}

/// The arguments of main: how many strings there are, and the pointer to the
/// pointers to them (C99 5.1.2.2.1, 2).
fn main_args(
    alloc: Global,
    points: &Points,
    objects: &[Object],
    strings: &[Vec<u8>],
) -> Result<Vec<Value>, NoMemory>
    requires { length objects.now < 2 ^ 32 }
    ensures { IfOk result (λ args.
        args.items ≡ spec.main_args points.now objects.now (map (λ text. text.items) strings.now)) }
{
    let mut args = Vec::new(alloc);
    args.push(Value::Number(Kind::Int, strings.len() as i128))?;
    let Some(root) = argv_root(points) else {
        return Ok(args);
    };
    let Some(object) = object_of_root(objects, root) else {
        return Ok(args);
    };
    let first = to_element(alloc, 0)?;
    args.push(Value::Pointer(Pointer::to(object as u32, first)))?;
    Ok(args)
}

/// A state over these objects and the ones that were made, with one thread that begins with the frame.
fn with_main(alloc: Global, objects: Vec<Object>, made: Made) -> Result<State, NoMemory>
    ensures { IfOk result (λ state. state ≡ spec.with_main objects.items made) }
{
    let mut all = objects;
    let mut born = made.objects.into_vec();
    all.append(&mut born)?;
    let mut threads = Vec::new(alloc);
    threads.push(new_thread(alloc, made.frame))?;
    Ok(State {
        objects: Seq::new(all),
        threads: Seq::new(threads),
        ended: false,
    })
}

/// The first state over these objects: main is called.
#[tactic(auto, using(crate::proofs::Beginning::main_begins, crate::proofs::Beginning::few_begin))]
fn call_main(
    alloc: Global,
    points: &Points,
    objects: Vec<Object>,
    args: &[Vec<u8>],
) -> Result<State, NoMemory>
    requires { length objects.items < 2 ^ 32 }
    ensures value { IfOk result (λ state.
        state ≡ spec.main_called points.now (map (λ text. text.items) args.now) objects.items) }
    ensures small { IfOk result spec.IsSmall }
{
    let main = points.main();
    let locals = locals_of(alloc, points, main)?;
    if locals.len() > u32::MAX as usize - objects.len() {
        return Err(NoMemory);
    }
    let values = main_args(alloc, points, objects.as_slice(), args)?;
    let first = objects.len() as u32;
    let made = made_for(
        alloc,
        points,
        first,
        main,
        points.entry(main),
        values.as_slice(),
    )?;
    with_main(alloc, objects, made)
}

/// The first state of a program with these strings as the arguments of main (C99 5.1.2.2.1). No string holds
/// a zero byte. Where main has no parameters they are there, and have no use. Objects that there are no
/// numbers for count as memory that isn't found.
pub fn start(alloc: Global, points: &Points, args: &[Vec<u8>]) -> Result<State, NoMemory>
    requires { length args.now < 2 ^ 31 }
    ensures value { IfOk result (λ state.
        state ≡ spec.started points.now (map (λ text. text.items) args.now)) }
    ensures small { IfOk result spec.IsSmall }
{
    let objects = first_objects(alloc, points, args)?;
    call_main(alloc, points, objects, args)
}
