//! How places of sources, locations and lock places are written.
ghost use Rattle.std.specs.Prelude.{◌≡◌, ◌<◌, ◌++◌, length, Some, IfOk, IfSome, OnOk};
ghost use Rattle.std.specs.Option.{option_copied};
ghost use Rattle.lk_types.specs.Table.{IsKnown, type_at};
ghost use Rattle.lk_types.specs.Nodes.{IsNode};
ghost use Rattle.lk_types.specs.declared.member.StructMember.{StructMember};
ghost use Rattle.lk_report.specs.Names.{spot_text, element_type, member_of, path_text, owner_text, object_text, text_at, place_text, location_spot_text, CanBeNamed};

use lk_base::{Files, NoMemory, Spot};
use lk_facts::{Place, Points, Root, RootKind};
use lk_types::{CType, Sel, StructMember, TypeId, TypeTable};
use std::alloc::Global;

/// Appends FILE:LINE:COL.
pub(crate) fn push_spot(
    alloc: Global,
    out: &mut Vec<u8>,
    files: &Files,
    spot: Spot,
) -> Result<(), NoMemory>
    ensures { OnOk result (out.new.items ≡ out.old.items ++ spot_text files.now spot) }
{
    let Spot { file, line, col } = spot;
    let numbers = format!(in alloc; ":{line}:{col}")?;
    if let Some(name) = files.get(file) {
        out.extend_from_slice(name.bytes())?;
    }
    out.extend_from_slice(numbers.as_bytes())?;
    Ok(())
}

/// A place in a source as `FILE:LINE:COL`.
pub fn place_of(alloc: Global, spot: Spot, files: &Files) -> Result<Vec<u8>, NoMemory>
    requires { spot.file < length files.now }
    ensures { IfOk result (λ text. text.items ≡ spot_text files.now spot) }
{
    let mut text = Vec::new(alloc);
    push_spot(alloc, &mut text, files, spot)?;
    Ok(text)
}

/// The type of the elements of an array, or nothing where the type is none.
fn element_type(types: &TypeTable, t: TypeId) -> Option<TypeId>
    requires { IsKnown types.now t }
    ensures value { result ≡ element_type (type_at types.now t) }
    ensures known { IfSome result (IsKnown types.now) }
{
    match types.get(t) {
        CType::Array(element, _) => Some(*element),
        CType::Void
        | CType::Int(_)
        | CType::ThreadId
        | CType::Mutex
        | CType::Cond
        | CType::Pointer(_)
        | CType::Struct(_)
        | CType::Function { .. }
        | CType::Opaque(_) => None,
    }
}

/// A member of a struct, or nothing where the type is none or has no such member.
fn member_of(types: &TypeTable, t: TypeId, number: u32) -> Option<&StructMember>
    requires { IsKnown types.now t }
    ensures value { option_copied result ≡ member_of types.now (type_at types.now t) number }
    ensures known { (member : StructMember) →
        member_of types.now (type_at types.now t) number ≡ Some member → IsKnown types.now member.ty }
{
    match types.get(t) {
        CType::Struct(s) => types.members(*s).get(number as usize),
        CType::Void
        | CType::Int(_)
        | CType::ThreadId
        | CType::Mutex
        | CType::Cond
        | CType::Pointer(_)
        | CType::Array(_, _)
        | CType::Function { .. }
        | CType::Opaque(_) => None,
    }
}

/// Appends what follows an object's name for the part to which these steps lead.
fn push_path(out: &mut Vec<u8>, types: &TypeTable, t: TypeId, path: &[Sel]) -> Result<(), NoMemory>
    requires { IsKnown types.now t }
    ensures { OnOk result (out.new.items ≡ out.old.items ++ path_text types.now t path.now) }
{
    let Some((sel, rest)) = path.split_first() else {
        return Ok(());
    };
    match sel {
        Sel::Element => {
            out.extend_from_slice(b"[]")?;
            match element_type(types, t) {
                Some(element) => push_path(out, types, element, rest),
                None => Ok(()),
            }
        }
        Sel::Field(number) => match member_of(types, t, *number) {
            Some(member) => {
                out.push(b'.')?;
                out.extend_from_slice(member.name.bytes())?;
                push_path(out, types, member.ty, rest)
            }
            None => Ok(()),
        },
        Sel::Target => Ok(()),
        Sel::Part(_) => Ok(()),
    }
}

/// Appends the name of the function that a root belongs to, and a point.
fn push_owner(out: &mut Vec<u8>, points: &Points, root: &Root) -> Result<(), NoMemory>
    ensures { OnOk result (out.new.items ≡ out.old.items ++ owner_text points.now root.now) }
{
    let Some(function) = root.function else {
        return Ok(());
    };
    if function >= points.functions() {
        return Ok(());
    }
    out.extend_from_slice(points.name(function).bytes())?;
    out.push(b'.')?;
    Ok(())
}

/// Appends the text of an object.
fn push_object(
    alloc: Global,
    out: &mut Vec<u8>,
    points: &Points,
    files: &Files,
    root: &Root,
) -> Result<(), NoMemory>
    ensures { OnOk result (out.new.items
        ≡ out.old.items ++ object_text files.now points.now root.now.kind root.now) }
{
    match root.kind {
        RootKind::Global | RootKind::Text | RootKind::Function => {
            out.extend_from_slice(root.name.bytes())?;
        }
        RootKind::Static | RootKind::Local => {
            push_owner(out, points, root)?;
            out.extend_from_slice(root.name.bytes())?;
        }
        RootKind::Heap { .. } => {
            out.extend_from_slice(b"heap@")?;
            push_spot(alloc, out, files, root.spot)?;
        }
        RootKind::Argv => out.extend_from_slice(b"(argv)")?,
        RootKind::Args => out.extend_from_slice(b"(args)")?,
    }
    Ok(())
}

/// Appends the text of a part of an object.
fn push_part(
    alloc: Global,
    out: &mut Vec<u8>,
    points: &Points,
    files: &Files,
    place: Place,
) -> Result<(), NoMemory>
    requires root { place.root < length points.now.roots }
    requires node { IsNode points.now.types place.node }
    ensures { OnOk result (out.new.items ≡ out.old.items ++ text_at files.now points.now place) }
{
    let root = points.root(place.root);
    push_object(alloc, out, points, files, root)?;
    let path = points.types().path(alloc, place.node)?;
    push_path(out, points.types(), root.ty, &path)
}

/// Appends the text of a location or lock place.
pub(crate) fn push_text(
    alloc: Global,
    out: &mut Vec<u8>,
    points: &Points,
    files: &Files,
    n: u32,
) -> Result<(), NoMemory>
    requires place { n < length points.now.places }
    requires named { CanBeNamed files.now points.now }
    ensures { OnOk result (out.new.items ≡ out.old.items ++ place_text files.now points.now n) }
{
    push_part(alloc, out, points, files, points.place(n))
}

/// Appends the place of a location in a source.
pub(crate) fn push_location_spot(
    alloc: Global,
    out: &mut Vec<u8>,
    points: &Points,
    files: &Files,
    n: u32,
) -> Result<(), NoMemory>
    requires { n < length points.now.places }
    ensures { OnOk result (out.new.items ≡ out.old.items ++ location_spot_text files.now points.now n) }
{
    let place = points.place(n);
    push_spot(alloc, out, files, points.root(place.root).spot)
}

/// The text of the location or lock place `n`, counted as labels count them: the name of its object, and what
/// leads to its part, as `table[].lock`. What a function declares stands behind the function's name, as
/// `main.lock`; what is allocated is `heap@` and the place where that is done.
pub fn text_of(alloc: Global, n: u32, points: &Points, files: &Files) -> Result<Vec<u8>, NoMemory>
    requires place { n < length points.now.places }
    requires named { CanBeNamed files.now points.now }
    ensures { IfOk result (λ text. text.items ≡ place_text files.now points.now n) }
{
    let mut text = Vec::new(alloc);
    push_text(alloc, &mut text, points, files, n)?;
    Ok(text)
}
