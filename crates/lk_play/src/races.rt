//! The locations at which there is a race in a state.
ghost use Rattle.std.specs.Prelude.{◌≡◌, ◌≢◌, ◌<◌, ◌+◌, ◌^◌, true, IfOk, OnOk, length};
ghost use Rattle.lk_birth.specs.Starts.{IsSmall};
ghost use Rattle.lk_facts.specs.Lowered.{IsLowered};
ghost use Rattle.std.specs.Option.{option_copied};
ghost use Rattle.lk_play.specs.Calls.{AreAllRaced, AreFoundBelow, AreTouches, HasOther, IsAt, TellsRacedBy, touched_at};
ghost use Rattle.lk_play.specs.Races.{AreRaced};

use lk_base::NoMemory;
use lk_cells::State;
use lk_facts::Points;
use lk_meaning::{Touched, location, touch};
use lk_sets::IdSet;
use lk_values::Cell;
use std::alloc::Global;

/// What each thread is about to touch, by the numbers of the threads.
fn touches(alloc: Global, points: &Points, state: &State) -> Result<Vec<Option<Touched>>, NoMemory>
    requires { length state.now.threads < 2 ^ 32 }
    ensures { IfOk result (λ touches. AreTouches points.now state.now touches.items) }
{
    let mut touches = Vec::new(alloc);
    for thread in 0..state.threads() {
        let touched = touch(points, state, thread)?;
        touches.push(touched)?;
    }
    Ok(touches)
}

/// What a thread is about to touch.
fn next_of(touches: &[Option<Touched>], thread: usize) -> Option<&Touched>
    ensures { option_copied result ≡ touched_at touches.now thread }
{
    touches.get(thread)?.as_ref()
}

/// Whether a thread is about to touch this cell.
fn is_at(touches: &[Option<Touched>], thread: usize, cell: &Cell) -> bool
    ensures yes { result ≡ true → IsAt (touched_at touches.now thread) cell.now }
    ensures no { IsAt (touched_at touches.now thread) cell.now → result ≡ true }
{
    match next_of(touches, thread) {
        Some(found) => found.cell.same(cell),
        None => false,
    }
}

/// Whether a thread is another than this one, and is about to touch the cell.
fn is_other(touches: &[Option<Touched>], other: usize, thread: usize, cell: &Cell) -> bool
    ensures yes { result ≡ true → (other ≢ thread) × IsAt (touched_at touches.now other) cell.now }
    ensures no { other ≢ thread → IsAt (touched_at touches.now other) cell.now → result ≡ true }
{
    other != thread && is_at(touches, other, cell)
}

/// Whether another thread than this one is about to touch the cell.
fn has_other(touches: &[Option<Touched>], thread: usize, cell: &Cell) -> bool
    ensures yes { result ≡ true → HasOther touches.now thread cell.now }
    ensures no { HasOther touches.now thread cell.now → result ≡ true }
{
    for other in 0..touches.len() {
        if is_other(touches, other, thread, cell) {
            return true;
        }
    }
    false
}

/// The location of the cell of a living object that a thread is about to write, and another one to touch.
fn raced_by(
    points: &Points,
    state: &State,
    touches: &[Option<Touched>],
    thread: usize,
) -> Option<u32>
    ensures { TellsRacedBy points.now state.now touches.now thread result }
{
    let found = next_of(touches, thread)?;
    if found.writes && state.lives(found.cell.object) && has_other(touches, thread, &found.cell) {
        location(points, state, &found.cell)
    } else {
        None
    }
}

/// Puts the location at which a thread races behind those at which the threads before it do.
fn put_raced(
    points: &Points,
    state: &State,
    touches: &[Option<Touched>],
    thread: usize,
    found: &mut Vec<u32>,
) -> Result<(), NoMemory>
    requires { IsLowered points.now }
    ensures { OnOk result (AreFoundBelow points.now state.now touches.now thread found.old.items →
        AreFoundBelow points.now state.now touches.now (thread + 1) found.new.items) }
{
    match raced_by(points, state, touches, thread) {
        Some(number) => {
            found.push(number)?;
            Ok(())
        }
        None => Ok(()),
    }
}

/// The locations at which a thread and another one race.
fn all_raced(
    alloc: Global,
    points: &Points,
    state: &State,
    touches: &[Option<Touched>],
) -> Result<Vec<u32>, NoMemory>
    requires { IsLowered points.now }
    ensures { IfOk result (λ found. AreAllRaced points.now state.now touches.now found.items) }
{
    let mut found = Vec::new(alloc);
    for thread in 0..touches.len() {
        put_raced(points, state, touches, thread, &mut found)?;
    }
    Ok(found)
}

/// The locations at which there is a race in a state.
pub(crate) fn raced(alloc: Global, points: &Points, state: &State) -> Result<IdSet, NoMemory>
    requires lowered { IsLowered points.now }
    requires small { IsSmall state.now }
    ensures { IfOk result (AreRaced points.now state.now) }
{
    let touches = touches(alloc, points, state)?;
    let found = all_raced(alloc, points, state, &touches)?;
    let set = IdSet::from_list(alloc, &found)?;
    Ok(set)
}
