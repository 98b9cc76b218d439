//! The steps to the parts of an object that is declared, at its name (C99 6.7.8).
ghost use Rattle.std.specs.Prelude.{◌≡◌, ◌+◌, ◌<◌, ◌^◌, get_or, length, IfOk};
ghost use Rattle.lk_base.specs.declared.cell.CellStep.TheVariants.{Field as FieldStep, Index as IndexStep};
ghost use Rattle.lk_lower_expr.specs.Initialisers as initialisers;
ghost use Rattle.lk_lower_expr.specs.Naming as naming;
ghost use Rattle.lk_lower_expr.specs.Naming.{node_of_local, part_type};
ghost use Rattle.lk_lower_expr.specs.Reads.{names_by};
ghost use Rattle.lk_lower_stmt.specs.Reaches.{Reaches, pointing};

use lk_base::{CellStep, Kind, NoMemory};
use lk_facts::Action;
use lk_lower_expr::{Deed, LocalNames, Lowering};
use lk_types::{CType, TypeId, TypeTable};

/// The type of a member of a struct; `ty` where it has no such member.
fn member_type(table: &TypeTable, s: u32, member: u32, ty: TypeId) -> TypeId
    ensures { result ≡ naming.member_type table.now s member ty }
{
    if s >= table.structs() {
        return ty;
    }
    match table.members(s).get(member as usize) {
        Some(member) => member.ty,
        None => ty,
    }
}

/// The type of a part of a type; a type has no other parts than its members or its elements.
pub(crate) fn inside(table: &TypeTable, ty: TypeId, step: CellStep) -> TypeId
    ensures { result ≡ part_type table.now ty step }
{
    if ty.0 >= table.count() {
        return ty;
    }
    match step {
        CellStep::Field(member) => match table.get(ty) {
            CType::Struct(s) => member_type(table, *s, member, ty),
            CType::Void
            | CType::Int(_)
            | CType::ThreadId
            | CType::Mutex
            | CType::Cond
            | CType::Pointer(_)
            | CType::Array(_, _)
            | CType::Function { .. }
            | CType::Opaque(_) => ty,
        },
        CellStep::Index(_) => match table.get(ty) {
            CType::Array(element, _) => *element,
            CType::Void
            | CType::Int(_)
            | CType::ThreadId
            | CType::Mutex
            | CType::Cond
            | CType::Pointer(_)
            | CType::Struct(_)
            | CType::Function { .. }
            | CType::Opaque(_) => ty,
        },
    }
}

/// The number of the next step.
pub(crate) fn next_step(deeds: &[Deed]) -> Result<u32, NoMemory>
    ensures value { IfOk result (λ k. k ≡ length deeds.now) }
    ensures few { IfOk result (λ k. k < 2 ^ 30) }
{
    if deeds.len() >= 1 << 30 {
        return Err(NoMemory);
    }
    Ok(deeds.len() as u32)
}

/// A step that gives a pointer to a type.
fn points(source: &Lowering<'_>, does: Action, ty: TypeId) -> Deed
    ensures { result ≡ pointing does (get_or source.now.names.now.pointers ty 0) }
{
    Deed {
        does,
        gives: Some(source.names.pointer_number(ty)),
        comes: None,
    }
}

/// Adds the step from the pointer that the step `k` gives to a member of the struct of type `ty` that it
/// points to. Answers the step that gives the pointer to the member.
fn push_member(
    source: &Lowering<'_>,
    local: &LocalNames,
    k: u32,
    ty: TypeId,
    member: u32,
    deeds: &mut Vec<Deed>,
) -> Result<u32, NoMemory>
    requires few { k < 2 ^ 30 }
    requires next { length deeds.old.items ≡ k + 1 }
    ensures { Reaches (initialisers.to_part (names_by source.now) (node_of_local local.now) k
        (part_type source.now.table.now ty (FieldStep member)) (FieldStep member)) (k + 1)
        deeds.old.items deeds.new.items result }
{
    let next = next_step(deeds)?;
    let a = source.names.at(local.ordinal, k);
    let inner = inside(source.table, ty, CellStep::Field(member));
    deeds.push(points(source, Action::Field { a, member }, inner))?;
    Ok(next)
}

/// Adds the steps from the pointer that the step `k` gives to an element of the array of type `ty` that it
/// points to. Answers the step that gives the pointer to the element.
fn push_element(
    source: &Lowering<'_>,
    local: &LocalNames,
    k: u32,
    ty: TypeId,
    index: u64,
    deeds: &mut Vec<Deed>,
) -> Result<u32, NoMemory>
    requires few { k < 2 ^ 30 }
    requires next { length deeds.old.items ≡ k + 1 }
    ensures { Reaches (initialisers.to_part (names_by source.now) (node_of_local local.now) k
        (part_type source.now.table.now ty (IndexStep index)) (IndexStep index)) (k + 2)
        deeds.old.items deeds.new.items result }
{
    let value = next_step(deeds)?;
    let int = TypeId::of_kind(Kind::Int);
    deeds.push(Deed {
        does: Action::Value {
            number: i128::from(index),
            ty: int,
        },
        gives: Some(int),
        comes: None,
    })?;
    let next = next_step(deeds)?;
    let does = Action::Index {
        a: source.names.at(local.ordinal, k),
        b: source.names.at(local.ordinal, value),
        into: true,
    };
    let inner = inside(source.table, ty, CellStep::Index(index));
    deeds.push(points(source, does, inner))?;
    Ok(next)
}

/// Adds the steps from the pointer that the step `k` gives to a part of what it points to, of type `ty`.
/// Answers the step that gives the pointer to the part.
fn push_part(
    source: &Lowering<'_>,
    local: &LocalNames,
    k: u32,
    ty: TypeId,
    to: CellStep,
    deeds: &mut Vec<Deed>,
) -> Result<u32, NoMemory>
    requires few { k < 2 ^ 30 }
    requires next { length deeds.old.items ≡ k + 1 }
    ensures { Reaches (initialisers.to_part (names_by source.now) (node_of_local local.now) k
        (part_type source.now.table.now ty to) to) (initialisers.after k to)
        deeds.old.items deeds.new.items result }
{
    match to {
        CellStep::Field(member) => push_member(source, local, k, ty, member, deeds),
        CellStep::Index(index) => push_element(source, local, k, ty, index, deeds),
    }
}

/// Adds the steps from the pointer that the step `k` gives along a path. Answers the step that gives the
/// pointer to the part at its end.
fn push_along(
    source: &Lowering<'_>,
    local: &LocalNames,
    k: u32,
    path: &[CellStep],
    deeds: &mut Vec<Deed>,
) -> Result<u32, NoMemory>
    requires few { k < 2 ^ 30 }
    requires next { length deeds.old.items ≡ k + 1 }
    ensures { Reaches (initialisers.along (names_by source.now) (node_of_local local.now) k local.now.ty
        path.now) (initialisers.pointed k path.now) deeds.old.items deeds.new.items result }
{
    let mut ty = local.ty;
    let mut pointer = k;
    for to in path {
        pointer = push_part(source, local, pointer, ty, *to, deeds)?;
        ty = inside(source.table, ty, *to);
    }
    Ok(pointer)
}

/// Adds the steps to a part of a declared object. Answers the step that gives the pointer to the part.
pub fn push_way(
    source: &Lowering<'_>,
    local: &LocalNames,
    path: &[CellStep],
    deeds: &mut Vec<Deed>,
) -> Result<u32, NoMemory>
    ensures { Reaches (initialisers.way_to (names_by source.now) (node_of_local local.now) local.now.number
        (length deeds.old.items) path.now) (initialisers.pointed (length deeds.old.items) path.now)
        deeds.old.items deeds.new.items result }
{
    let k = next_step(deeds)?;
    deeds.push(points(source, Action::Root(local.number), local.ty))?;
    push_along(source, local, k, path, deeds)
}
