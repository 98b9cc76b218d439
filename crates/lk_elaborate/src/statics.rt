//! Objects of static storage with an initialiser (C99 6.7.8, 6.9.2, 1).
ghost use Rattle.std.specs.Prelude.{◌≡◌, ◌++◌, ◌∷◌, [], pos, IfOk, IsTrue, List, None, OnOk, Some};
ghost use Rattle.lk_arith.specs.Conversions as arith;
ghost use Rattle.lk_base.specs.declared.cell.CellStep.TheVariants.{Index};
ghost use Rattle.lk_typed.specs.Ty as spec;
ghost use Rattle.lk_typed.specs.Meaning.{meaning};
ghost use Rattle.lk_typed.specs.declared.initialiser.StaticPart.{StaticPart as Part};
ghost use Rattle.lk_typed.specs.declared.initialiser.StaticValue.TheVariants as begins;
ghost use Rattle.lk_types.specs.Table.{IsKnown};
ghost use Rattle.lk_elaborator.specs.Leading.{GoesOn, Grows};
ghost use Rattle.lk_elab_init.specs.Giving.{GivesTo, Puts, element_in};
ghost use Rattle.lk_elab_init.specs.declared.givens.PartGiven.{PartGiven as Given};
ghost use Rattle.lk_elaborate.specs.Putting.{AreRising, PutsObject};
ghost use Rattle.lk_elaborate.specs.StaticParts.{AreBefore, AreBytesOf, ArePartsOfText, BeginsValue};
ghost use Rattle.lk_elaborate.specs.StaticParts.{GivesPartsOutside, GivesStaticPart, GivesStaticParts};

use crate::beside::beside;
use crate::static_values::{Begun, static_value};
use lk_arith::convert;
use lk_base::{CellStep, Kind, NoMemory, Seq};
use lk_elab_init::{Beginning, PartGiven, element_at, kind_at, longer_path, path_of, put_given};
use lk_elaborator::{Elaborator, Locals, nowhere};
use lk_found::At;
use lk_tree::{Expr, Init};
use lk_typed::{StaticObject, StaticPart, StaticValue};
use lk_types::{TypeId, TypeTable};
use std::alloc::Global;
use std::mem;

/// Puts a part that an initialiser word initialises.
fn put_word(alloc: Global, given: &PartGiven<'_>, out: &mut Vec<StaticPart>) -> Result<(), NoMemory>
    ensures { OnOk result (out.new.items ≡ out.old.items
        ++ record { path = given.now.path; ty = given.now.ty; value = begins.Ready; pointer = None } ∷ []) }
{
    let path = path_of(alloc, given.path.list())?;
    out.push(StaticPart {
        path,
        ty: given.ty,
        value: StaticValue::Ready,
        pointer: None,
    })?;
    Ok(())
}

/// A part that begins with this.
fn begun_part(alloc: Global, given: &PartGiven<'_>, begun: Begun) -> Result<StaticPart, NoMemory>
    ensures { IfOk result (λ part. part ≡
        record { path = given.now.path; ty = given.now.ty; value = begun.value; pointer = begun.pointer }) }
{
    let made = path_of(alloc, given.path.list());
    let (path, begun) = beside(made, begun)?;
    let Begun { value, pointer } = begun;
    Ok(StaticPart {
        path,
        ty: given.ty,
        value,
        pointer,
    })
}

/// A part that the value of an expression initialises.
fn value_part(
    walk: &mut Elaborator,
    given: &PartGiven<'_>,
    e: &Expr,
) -> Result<StaticPart, NoMemory>
    ensures part { IfOk result (BeginsValue walk.old walk.new given.now e.now) }
    ensures grows { OnOk result (Grows walk.old walk.new) }
{
    let begun = static_value(walk, given.ty, e)?;
    let part = begun_part(walk.alloc, given, begun)?;
    Ok(part)
}

/// Puts a part that the value of an expression initialises.
fn put_value(
    walk: &mut Elaborator,
    given: &PartGiven<'_>,
    e: &Expr,
    out: &mut Vec<StaticPart>,
) -> Result<(), NoMemory>
    ensures part { OnOk result ((part : Part) × (out.new.items ≡ out.old.items ++ part ∷ [])
        × BeginsValue walk.old walk.new given.now e.now part) }
    ensures grows { OnOk result (Grows walk.old walk.new) }
{
    let part = value_part(walk, given, e)?;
    out.push(part)?;
    Ok(())
}

/// The elements of an array that a text initialises: their type and its kind, which is one
/// of characters (C99 6.7.8, 14).
#[derive(Clone, Copy)]
pub(crate) struct Elements {
    ty: TypeId,
    kind: Kind,
}

/// The elements of an array that a text initialises.
fn elements_of(types: &TypeTable, t: TypeId) -> Result<Elements, NoMemory>
    ensures known { IfOk result (λ elements. IsKnown types.now elements.ty) }
    ensures kind { IfOk result (λ elements. meaning types.now elements.ty ≡ spec.Int elements.kind) }
    ensures array { IfOk result (λ elements. element_in (meaning types.now t) ≡ Some (spec.Int elements.kind)) }
{
    let ty = element_at(types, t)?;
    match kind_at(types, ty)? {
        Some(kind) => Ok(Elements { ty, kind }),
        None => Err(nowhere()),
    }
}

/// A byte of a literal as an element of an array.
fn byte_part(
    alloc: Global,
    elements: &Elements,
    path: &[CellStep],
    place: u64,
    byte: u8,
) -> Result<StaticPart, NoMemory>
    ensures { IfOk result (λ part. part ≡ record {
      path = path.now ++ Index place ∷ [];
      ty = elements.now.ty;
      value = begins.Number (arith.convert elements.now.kind (pos byte));
      pointer = None;
    }) }
{
    let path = longer_path(alloc, path, CellStep::Index(place))?;
    Ok(StaticPart {
        path,
        ty: elements.ty,
        value: StaticValue::Number(convert(elements.kind, i128::from(byte))),
        pointer: None,
    })
}

/// Puts a byte of a literal as an element of an array.
fn put_byte(
    alloc: Global,
    elements: &Elements,
    path: &[CellStep],
    place: u64,
    byte: &u8,
    out: &mut Vec<StaticPart>,
) -> Result<(), NoMemory>
    ensures { OnOk result (out.new.items ≡ out.old.items ++ record {
      path = path.now ++ Index place ∷ [];
      ty = elements.now.ty;
      value = begins.Number (arith.convert elements.now.kind (pos byte.now));
      pointer = None;
    } ∷ []) }
{
    let part = byte_part(alloc, elements, path, place, *byte)?;
    out.push(part)?;
    Ok(())
}

/// Puts the bytes of a literal as elements of an array (`AreByteParts`).
fn put_bytes(
    alloc: Global,
    elements: &Elements,
    path: &[CellStep],
    bytes: &[u8],
    out: &mut Vec<StaticPart>,
) -> Result<(), NoMemory>
    ensures { OnOk result (Puts out.old.items out.new.items (AreBytesOf elements.now path.now bytes.now)) }
{
    let mut place: u64 = 0;
    for byte in bytes {
        put_byte(alloc, elements, path, place, byte, out)?;
        let Some(next) = place.checked_add(1) else {
            return Err(NoMemory);
        };
        place = next;
    }
    Ok(())
}

/// Puts the bytes of a literal that initialises a part.
fn put_text(
    walk: &Elaborator,
    given: &PartGiven<'_>,
    bytes: &[u8],
    out: &mut Vec<StaticPart>,
) -> Result<(), NoMemory>
    ensures { OnOk result (Puts out.old.items out.new.items (ArePartsOfText walk.now given.now bytes.now)) }
{
    let elements = elements_of(walk.types.table(), given.ty)?;
    put_bytes(walk.alloc, &elements, given.path.list(), bytes, out)
}

/// Puts what an initialiser gives to a part.
fn put_given_part(
    walk: &mut Elaborator,
    given: &PartGiven<'_>,
    out: &mut Vec<StaticPart>,
) -> Result<(), NoMemory>
    ensures parts { OnOk result (Puts out.old.items out.new.items
        (GivesStaticPart walk.old walk.new given.now)) }
    ensures grows { OnOk result (Grows walk.old walk.new) }
{
    match &given.begins {
        Beginning::Value(e) => put_value(walk, given, e, out),
        Beginning::Bytes(_, _, bytes) => put_text(walk, given, bytes.list(), out),
        Beginning::Word => put_word(walk.alloc, given, out),
    }
}

/// The parts that an initialiser gives (`AreStaticParts`).
fn static_parts(
    walk: &mut Elaborator,
    givens: &[PartGiven<'_>],
) -> Result<Vec<StaticPart>, NoMemory>
    ensures parts { IfOk result (λ parts. GivesStaticParts walk.old walk.new givens.now parts.items) }
    ensures grows { OnOk result (Grows walk.old walk.new) }
{
    let mut parts = Vec::new(walk.alloc);
    for given in givens {
        put_given_part(walk, given, &mut parts)?;
    }
    Ok(parts)
}

/// The same outside bodies: no local is one of an address constant (C99 6.6, 9).
fn parts_outside(
    walk: &mut Elaborator,
    givens: &[PartGiven<'_>],
) -> Result<Vec<StaticPart>, NoMemory>
    ensures parts { IfOk result (λ parts. GivesPartsOutside walk.old walk.new givens.now parts.items) }
    ensures grows { OnOk result (Grows walk.old walk.new) }
{
    let none = Locals::new(walk.alloc);
    let locals = mem::replace(&mut walk.locals, none);
    let parts = static_parts(walk, givens)?;
    walk.locals = locals;
    Ok(parts)
}

/// The parts that an initialiser of an object of this type names.
fn parts_given<'a>(
    walk: &Elaborator,
    ty: TypeId,
    init: &'a Init,
) -> Result<Vec<PartGiven<'a>>, NoMemory>
    ensures { IfOk result (λ givens. GivesTo walk.now ty [] init.now givens.items) }
{
    let mut givens = Vec::new(walk.alloc);
    put_given(walk, ty, init, &mut givens)?;
    Ok(givens)
}

/// The parts of an object of static storage of this type that its initialiser names.
fn named_parts(walk: &mut Elaborator, ty: TypeId, init: &Init) -> Result<Vec<StaticPart>, NoMemory>
    ensures parts { IfOk result (λ parts. (givens : List Given) × GivesTo walk.old ty [] init.now givens
        × GivesPartsOutside walk.old walk.new givens parts.items) }
    ensures grows { OnOk result (Grows walk.old walk.new) }
{
    let givens = parts_given(walk, ty, init)?;
    let parts = parts_outside(walk, givens.as_slice())?;
    Ok(parts)
}

/// Whether the node with this number stands behind those that declare these objects.
fn is_later(objects: &[StaticObject], ordinal: u32) -> bool
    ensures { IsTrue result → AreRising objects.now → AreBefore objects.now ordinal }
{
    match objects.last() {
        Some(last) => last.ordinal < ordinal,
        None => true,
    }
}

/// Puts the object of static storage of this type that is declared there, with its
/// initialiser (`IsStaticObject`).
pub(crate) fn put_static_object(
    walk: &mut Elaborator,
    at: At,
    ty: TypeId,
    init: &Init,
) -> Result<(), NoMemory>
    ensures goes_on { OnOk result (GoesOn walk.old walk.new) }
    ensures puts { OnOk result (PutsObject walk.old walk.new at ty init.now) }
{
    if !is_later(walk.objects.as_slice(), at.ordinal) {
        return Err(nowhere());
    }
    let entity = walk.entities.declared_at(at.ordinal)?;
    let parts = named_parts(walk, ty, init)?;
    walk.objects.push(StaticObject {
        entity,
        spot: at.spot,
        ordinal: at.ordinal,
        parts: Seq::new(parts),
    })?;
    Ok(())
}
