//! Races between two threads.

use lk_base::NoMemory;
use lk_cells::State;
use lk_facts::Points;
use lk_meaning::{Touched, location, touch};

/// Whether two threads race: whether they are about to touch one cell of an object that lives, and one of
/// them is to write it (POSIX Base Definitions 4.11).
#[derive(Clone, Copy)]
pub(crate) enum Race {
    /// They don't.
    Absent,
    /// They do, at a cell of this location.
    At(u32),
    /// They do, at a cell that is none of a location.
    WithoutLocation,
}

/// Whether two threads race that are about to touch these cells.
fn clash(state: &State, first: &Touched, second: &Touched) -> bool {
    (first.writes || second.writes)
        && first.cell.same(&second.cell)
        && state.lives(first.cell.object)
}

/// Whether two threads of a state race. None does with itself.
pub(crate) fn race_of(
    points: &Points,
    state: &State,
    first: u32,
    second: u32,
) -> Result<Race, NoMemory> {
    let Some(one) = touch(points, state, first)? else {
        return Ok(Race::Absent);
    };
    let Some(other) = touch(points, state, second)? else {
        return Ok(Race::Absent);
    };
    if first == second || !clash(state, &one, &other) {
        return Ok(Race::Absent);
    }
    let race = match location(points, state, &one.cell) {
        Some(number) => Race::At(number),
        None => Race::WithoutLocation,
    };
    Ok(race)
}
