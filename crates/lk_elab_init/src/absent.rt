//! The cells of a local that its initialiser doesn't name (C99 6.7.8, 21).
ghost use Rattle.std.specs.Prelude.{◌≡◌, IfOk, OnOk, []};
ghost use Rattle.lk_types.specs.Table.{IsKnown};
ghost use Rattle.lk_typed.specs.Meaning.{meaning};
ghost use Rattle.lk_elab_init.specs.Cells.{cells_given};
ghost use Rattle.lk_elab_init.specs.Giving.{Puts};
ghost use Rattle.lk_elab_init.specs.Places.{ArePut, IsPlacePut};
ghost use Rattle.lk_elab_init.specs.Settled.{fields_listed};
ghost use Rattle.lk_elab_init.specs.declared.advancing.Turn.TheVariants.{Member};

use crate::advancing::{Turn, first_absent, first_cell, longer_way};
use crate::givens::PartGiven;
use crate::named_cells::{named_cells, those_alike};
use lk_base::{CellStep, NoMemory, Seq};
use lk_elaborator::known;
use lk_typed::AbsentCells;
use lk_types::{CType, TypeId, TypeTable};
use std::alloc::Global;

/// The turn to the member with this number.
fn turn_to(number: usize) -> Result<Turn, NoMemory>
    ensures { IfOk result (λ turn. turn ≡ Member number) }
{
    match u32::try_from(number) {
        Ok(number) => Ok(Turn::Member(number)),
        Err(_) => Err(NoMemory),
    }
}

/// Puts the absent cells of a place, where there are some (`AreAbsentCells`).
fn put_place(
    alloc: Global,
    cells: &[Seq<CellStep>],
    way: &[Turn],
    out: &mut Vec<AbsentCells>,
) -> Result<(), NoMemory>
    ensures { OnOk result (Puts out.old.items out.new.items (IsPlacePut cells.now way.now)) }
{
    let first = first_cell(alloc, way)?;
    let named = those_alike(alloc, first.list(), cells)?;
    match first_absent(alloc, way, named.as_slice())? {
        Some(first) => {
            out.push(AbsentCells {
                first,
                named: Seq::new(named),
            })?;
            Ok(())
        }
        None => Ok(()),
    }
}

/// Puts the absent cells of a part, to which this way leads, by places.
fn put_absent(
    alloc: Global,
    types: &TypeTable,
    t: TypeId,
    cells: &[Seq<CellStep>],
    way: &[Turn],
    out: &mut Vec<AbsentCells>,
) -> Result<(), NoMemory>
    requires { IsKnown types.now t }
    ensures { OnOk result (Puts out.old.items out.new.items
        (ArePut (fields_listed types.now) cells.now way.now (meaning types.now t))) }
{
    match types.get(t) {
        CType::Int(_) | CType::ThreadId | CType::Pointer(_) | CType::Mutex | CType::Cond => {
            put_place(alloc, cells, way, out)
        }
        CType::Array(element, count) => {
            if *count == 0 {
                return Ok(());
            }
            let inner = longer_way(alloc, way, Turn::Element(*count))?;
            put_absent(alloc, types, *element, cells, inner.list(), out)
        }
        CType::Struct(s) => {
            for (number, member) in types.members(*s).iter().enumerate() {
                let inner = longer_way(alloc, way, turn_to(number)?)?;
                put_absent(alloc, types, member.ty, cells, inner.list(), out)?;
            }
            Ok(())
        }
        CType::Void | CType::Function { .. } | CType::Opaque(_) => Ok(()),
    }
}

/// Puts the cells of an object of this type that these parts don't name, by places.
fn put_all_absent(
    alloc: Global,
    types: &TypeTable,
    t: TypeId,
    parts: &[PartGiven<'_>],
    out: &mut Vec<AbsentCells>,
) -> Result<(), NoMemory>
    ensures { OnOk result (Puts out.old.items out.new.items
        (ArePut (fields_listed types.now) (cells_given parts.now) [] (meaning types.now t))) }
{
    let t = known(types, t)?;
    let cells = named_cells(alloc, parts)?;
    let way = Vec::new(alloc);
    put_absent(alloc, types, t, cells.as_slice(), way.as_slice(), out)
}

/// The cells of an object of this type that these parts don't name, by places (`AreAllAbsent`).
pub fn absent_cells(
    alloc: Global,
    types: &TypeTable,
    t: TypeId,
    parts: &[PartGiven<'_>],
) -> Result<Vec<AbsentCells>, NoMemory>
    ensures { IfOk result (λ absent.
        ArePut (fields_listed types.now) (cells_given parts.now) [] (meaning types.now t) absent.items) }
{
    let mut out = Vec::new(alloc);
    put_all_absent(alloc, types, t, parts, &mut out)?;
    Ok(out)
}
