//! The answers to the lines of a schedule, as texts.

use crate::traces::analysed::Analysed;
use crate::traces::race::Race;
use crate::traces::words::{action_word, cause_word};
use lk_base::{CellStep, NoMemory, Spot};
use lk_cells::State;
use lk_facts::Points;
use lk_meaning::{Event, Stepped, location};
use lk_values::Cell;
use std::alloc::Global;

/// Appends a step to a part of an object.
fn push_step(alloc: Global, text: &mut String, step: CellStep) -> Result<(), NoMemory> {
    let shown = match step {
        CellStep::Field(member) => format!(in alloc; ".{member}")?,
        CellStep::Index(element) => format!(in alloc; "[{element}]")?,
    };
    text.push_str(shown.as_str())?;
    Ok(())
}

/// A cell: its object, and the steps that lead to it.
fn cell_text(alloc: Global, cell: &Cell) -> Result<String, NoMemory> {
    let mut text = format!(in alloc; "{}", cell.object)?;
    for step in cell.path.list() {
        push_step(alloc, &mut text, *step)?;
    }
    Ok(text)
}

/// Appends the cell that a step touched.
fn push_touched(
    alloc: Global,
    text: &mut String,
    cell: &Cell,
    writes: bool,
) -> Result<(), NoMemory> {
    let cell = cell_text(alloc, cell)?;
    text.push_str(if writes { " writes " } else { " reads " })?;
    text.push_str(cell.as_str())?;
    Ok(())
}

/// Appends the location of the cell that the step of a point touched, and a word where the
/// analysis doesn't foresee that.
fn push_location(
    alloc: Global,
    text: &mut String,
    program: &Analysed,
    point: u32,
    location: u32,
) -> Result<(), NoMemory> {
    let place = format!(in alloc; " at {location}")?;
    text.push_str(place.as_str())?;
    if !program.foresees(point, location) {
        text.push_str(" unforeseen")?;
    }
    Ok(())
}

/// The action of a point, and its place.
fn point_text(alloc: Global, points: &Points, point: u32) -> Result<String, NoMemory> {
    if point >= points.count() {
        return Err(NoMemory);
    }
    let word = action_word(points.action(point));
    let Spot { file: _, line, col } = points.spot(point);
    let text = format!(in alloc; "{word} {line}:{col}")?;
    Ok(text)
}

/// What a thread did that moved, where the cell that it touched was written or read.
fn moved_text(
    alloc: Global,
    program: &Analysed,
    state: &State,
    event: &Event,
    writes: bool,
) -> Result<String, NoMemory> {
    let mut text = point_text(alloc, &program.points, event.point)?;
    let Some(cell) = &event.touched else {
        return Ok(text);
    };
    push_touched(alloc, &mut text, cell, writes)?;
    if let Some(number) = location(&program.points, state, cell) {
        push_location(alloc, &mut text, program, event.point, number)?;
    }
    Ok(text)
}

/// What came of a step, where the cell that it touched was written or read.
pub(crate) fn step_text(
    alloc: Global,
    program: &Analysed,
    stepped: &Stepped,
    writes: bool,
) -> Result<String, NoMemory> {
    let word = match stepped {
        Stepped::Moved(state, event) => {
            let text = moved_text(alloc, program, state, event, writes)?;
            return Ok(text);
        }
        Stepped::Undefined(_, why) => cause_word(*why),
        Stepped::Waits(_) => "waits",
        Stepped::Ended(_) => "ended",
        Stepped::NoSuchThread(_) => "no such thread",
        Stepped::Full(_) => "full",
        Stepped::NoMemory(_) => "no memory",
    };
    let text = String::from_str(alloc, word)?;
    Ok(text)
}

/// Whether two threads race, and where.
pub(crate) fn race_text(alloc: Global, race: Race) -> Result<String, NoMemory> {
    let text = match race {
        Race::Absent => String::from_str(alloc, "none")?,
        Race::At(location) => format!(in alloc; "at {location}")?,
        Race::WithoutLocation => String::from_str(alloc, "without a location")?,
    };
    Ok(text)
}
