//! The cells of one place, which differ in indices alone, in their order.
ghost use Rattle.std.specs.Prelude.{◌≡◌, ◌++◌, ◌∷◌, [], IfOk, OnOk, Some};
ghost use Rattle.lk_typed.specs.Stands.{IsIn};
ghost use Rattle.lk_elab_init.specs.Places as spec;
ghost use Rattle.lk_elab_init.specs.Places.{IsFirstAbsent, carried};
ghost use Rattle.lk_elab_init.specs.declared.advancing.Turn.TheVariants.{Element};

use crate::paths::{are_same_paths, is_path_among, longer_front};
use lk_base::{CellStep, NoMemory, Seq};
use lk_elaborator::nowhere;
use std::alloc::Global;

/// A turn of the way to a place.
#[derive(Clone, Copy)]
pub(crate) enum Turn {
    /// To the member with this number.
    Member(u32),
    /// To an element of an array of so many.
    Element(u64),
}

/// These turns and one more, of their own.
pub(crate) fn longer_way(alloc: Global, way: &[Turn], turn: Turn) -> Result<Seq<Turn>, NoMemory>
    ensures { IfOk result (λ longer. longer ≡ way.now ++ turn ∷ []) }
{
    let mut longer = Vec::from_slice(alloc, way)?;
    longer.push(turn)?;
    Ok(Seq::new(longer))
}

/// The step with which a turn begins.
fn first_step(turn: Turn) -> CellStep
    ensures { result ≡ spec.first_step turn }
{
    match turn {
        Turn::Member(number) => CellStep::Field(number),
        Turn::Element(_) => CellStep::Index(0),
    }
}

/// The first cell of a place.
pub(crate) fn first_cell(alloc: Global, way: &[Turn]) -> Result<Seq<CellStep>, NoMemory>
    ensures { IfOk result (λ cell. cell ≡ spec.first_cell way.now) }
{
    let mut cell = Vec::new(alloc);
    for turn in way {
        cell.push(first_step(*turn))?;
    }
    Ok(Seq::new(cell))
}

/// The step behind one to an element of an array of so many, where there is another element.
fn next_element(count: u64, step: CellStep) -> Option<CellStep>
    ensures { result ≡ spec.next_step (Element count) step }
{
    match step {
        CellStep::Field(_) => None,
        CellStep::Index(index) => {
            if index < count && count - index > 1 {
                Some(CellStep::Index(index + 1))
            } else {
                None
            }
        }
    }
}

/// The step behind one, where its array has another element.
fn next_step(turn: Turn, step: CellStep) -> Option<CellStep>
    ensures { result ≡ spec.next_step turn step }
{
    match turn {
        Turn::Member(_) => None,
        Turn::Element(count) => next_element(count, step),
    }
}

/// The first cell behind a step, where there is one.
fn cell_behind(
    alloc: Global,
    step: Option<CellStep>,
    way: &[Turn],
) -> Result<Option<Seq<CellStep>>, NoMemory>
    ensures { IfOk result (λ cell. cell ≡ carried step way.now) }
{
    match step {
        Some(step) => {
            let first = first_cell(alloc, way)?;
            let cell = longer_front(alloc, step, first.list())?;
            Ok(Some(cell))
        }
        None => Ok(None),
    }
}

/// The next cell of a place, if there is one.
fn next_cell(
    alloc: Global,
    way: &[Turn],
    cell: &[CellStep],
) -> Result<Option<Seq<CellStep>>, NoMemory>
    ensures { IfOk result (λ next. next ≡ spec.next_cell way.now cell.now) }
{
    let (Some((turn, turns)), Some((step, steps))) = (way.split_first(), cell.split_first()) else {
        return Ok(None);
    };
    match next_cell(alloc, turns, steps)? {
        Some(next) => {
            let cell = longer_front(alloc, *step, next.list())?;
            Ok(Some(cell))
        }
        None => cell_behind(alloc, next_step(*turn, *step), turns),
    }
}

/// The cell, which is none of these.
fn unnamed(cell: Seq<CellStep>, named: &[Seq<CellStep>]) -> Result<Option<Seq<CellStep>>, NoMemory>
    ensures value { IfOk result (λ same. same ≡ Some cell) }
    ensures unnamed { OnOk result (IsIn cell named.now → ⊥) }
{
    if is_path_among(cell.list(), named) {
        Err(nowhere())
    } else {
        Ok(Some(cell))
    }
}

/// The first cell of a place that is none of these, which stand in the order of their paths.
pub(crate) fn first_absent(
    alloc: Global,
    way: &[Turn],
    named: &[Seq<CellStep>],
) -> Result<Option<Seq<CellStep>>, NoMemory>
    ensures { IfOk result (IsFirstAbsent way.now named.now) }
{
    let mut cell = first_cell(alloc, way)?;
    for other in named {
        if !are_same_paths(other.list(), cell.list()) {
            return unnamed(cell, named);
        }
        match next_cell(alloc, way, cell.list())? {
            Some(next) => cell = next,
            None => return Ok(None),
        }
    }
    unnamed(cell, named)
}
